// All that the tables hold, in one struct.
ghost use Rattle.std.specs.Prelude.{◌≡◌, ◌≤◌, ◌<◌, map};
ghost use Rattle.std.specs.List.{range_with_len};
ghost use Rattle.agc_phase.specs.Image.{failreg_word};
ghost use Rattle.agc_wait.specs.Table.{IsLawfulTable, waits_of};
ghost use Rattle.libagc.specs.Codes.{Coded};
ghost use Rattle.agc_image.specs.Images.{IsOpened, IsSets};
ghost use Rattle.libagc.specs.Scenes.{no_job, owner_in, scene_to_c, set_to_c, sets_to_c};
ghost use Rattle.libagc.specs.Scenes.{task_in, work_at};

use crate::fault::image_in;
use agc_exec::{job_at, named_job, running};
use agc_phase::{Phases, failreg, phases};
use agc_wait::{Waiting, tasks_waiting};
use agc_word::Erasable;
use agc_word::layout::set_place;

/// The job in a core set; all 0 if the set is free.
#[repr(C)]
#[derive(Clone, Copy)]
pub struct AgcJob {
    /// 1 to 8; 0 if the set is free.
    pub number: u32,
    /// 1 to 31.
    pub priority: u32,
    /// The address where it begins, or at which it sleeps, 1 to 16383.
    pub at: u32,
    pub bank: u32,
    /// Its VAC area, 1 to 5; 0 for none.
    pub area: u32,
    pub asleep: bool,
    /// Its work words, MPAC+1 to MPAC+6.
    pub work: [u16; 6],
}

/// A task that waits; all 0 for none.
#[repr(C)]
#[derive(Clone, Copy)]
pub struct AgcWaiting {
    /// The address where the task begins, 1 to 16383; 0 for no task.
    pub at: u32,
    pub bank: u32,
    /// The centiseconds that are left to it, 0 to 16250.
    pub left: u32,
}

/// All that the tables hold.
#[repr(C)]
#[derive(Clone, Copy)]
pub struct AgcScene {
    /// The number of the running job, and of the one that NEWJOB names; 0 for none.
    pub running: u32,
    pub next: u32,
    /// The jobs in the core sets; no job beyond the last set.
    pub sets: [AgcJob; 8],
    /// The numbers of the jobs that own VAC areas 1 to 5; 0 for none.
    pub areas: [u32; 5],
    /// The tasks that wait, as they come due; no task after the last.
    pub tasks: [AgcWaiting; 9],
    /// FAILREG: the first, the second and the latest code; 0 for none.
    pub failreg: [u32; 3],
    /// The phases, 0 to 127, of groups 1 to 6.
    pub phases: [u8; 6],
}

fn no_job() -> AgcJob
    ensures { result ≡ no_job }
{
    AgcJob {
        number: 0,
        priority: 0,
        at: 0,
        bank: 0,
        area: 0,
        asleep: false,
        work: [0; 6],
    }
}

fn work_at(words: &[u16; 144], place: usize) -> [u16; 6]
    requires { place ≤ 132 }
    ensures { result ≡ work_at place words.now }
{
    [
        words[place + 1],
        words[place + 2],
        words[place + 3],
        words[place + 4],
        words[place + 5],
        words[place + 6],
    ]
}

fn set_to_c(words: &[u16; 144], sets: u32, image: &Erasable, set: usize) -> AgcJob
    requires sets { IsSets sets }
    requires opened { IsOpened sets words.now image.now }
    requires set { set ≤ 7 }
    ensures { result ≡ set_to_c sets words.now set }
{
    if set >= sets as usize {
        return no_job();
    }
    match job_at(image, set) {
        None => no_job(),
        Some(seat) => AgcJob {
            number: u32::from(seat.number),
            priority: u32::from(seat.priority),
            at: u32::from(seat.at),
            bank: u32::from(words[set_place(set) + 9]),
            area: u32::from(seat.area),
            asleep: seat.asleep,
            work: work_at(words, set_place(set)),
        },
    }
}

fn sets_to_c(words: &[u16; 144], sets: u32, image: &Erasable) -> [AgcJob; 8]
    requires sets { IsSets sets }
    requires opened { IsOpened sets words.now image.now }
    ensures { result ≡ sets_to_c sets words.now }
{
    [
        set_to_c(words, sets, image, 0),
        set_to_c(words, sets, image, 1),
        set_to_c(words, sets, image, 2),
        set_to_c(words, sets, image, 3),
        set_to_c(words, sets, image, 4),
        set_to_c(words, sets, image, 5),
        set_to_c(words, sets, image, 6),
        set_to_c(words, sets, image, 7),
    ]
}

#[tactic(auto, unfolding(crate::specs::Scenes::owner_in))]
fn owner_in(sets: &[AgcJob; 8], area: u32) -> u32
    ensures { result ≡ owner_in sets.now area }
{
    for job in sets {
        if job.area == area {
            return job.number;
        }
    }
    0
}

/// The task that comes due as number `place` of those that wait, in numbers.
fn task_in(waits: &[Waiting], place: usize) -> AgcWaiting
    ensures { result ≡ task_in waits.now place }
{
    match waits.get(place) {
        None => AgcWaiting {
            at: 0,
            bank: 0,
            left: 0,
        },
        Some(waiting) => AgcWaiting {
            at: u32::from(waiting.task.at.get()),
            bank: u32::from(waiting.task.bank.bits()),
            left: waiting.distance,
        },
    }
}

fn tasks_to_c(image: &Erasable) -> [AgcWaiting; 9]
    requires { IsLawfulTable image.now }
    ensures { result ≡ map (task_in (waits_of image.now)) (range_with_len 0 9) }
{
    let waits = tasks_waiting(image);
    let waits = waits.as_slice();
    [
        task_in(waits, 0),
        task_in(waits, 1),
        task_in(waits, 2),
        task_in(waits, 3),
        task_in(waits, 4),
        task_in(waits, 5),
        task_in(waits, 6),
        task_in(waits, 7),
        task_in(waits, 8),
    ]
}

/// A word of FAILREG, by its place.
fn failreg_at(image: &Erasable, place: usize) -> u32
    requires { place < 3 }
    ensures { result ≡ failreg_word image.now place }
{
    u32::from(failreg(image)[place].bits())
}

fn numbers_of(phases: &Phases) -> [u8; 6]
    ensures { result ≡ phases.now }
{
    let mut numbers = [0; 6];
    for group in 0..6usize {
        numbers[group] = phases[group].get();
    }
    numbers
}

fn scene_to_c(words: &[u16; 144], sets: u32, image: &Erasable) -> AgcScene
    requires sets { IsSets sets }
    requires opened { IsOpened sets words.now image.now }
    ensures { result ≡ scene_to_c sets words.now }
{
    let jobs = sets_to_c(words, sets, image);
    AgcScene {
        running: running(image).map_or(0, |job| u32::from(job.get())),
        next: named_job(image).map_or(0, |number| u32::from(number)),
        sets: jobs,
        areas: [
            owner_in(&jobs, 1),
            owner_in(&jobs, 2),
            owner_in(&jobs, 3),
            owner_in(&jobs, 4),
            owner_in(&jobs, 5),
        ],
        tasks: tasks_to_c(image),
        failreg: [
            failreg_at(image, 0),
            failreg_at(image, 1),
            failreg_at(image, 2),
        ],
        phases: numbers_of(&phases(image)),
    }
}

/// All that the tables hold. Answers the code; `scene` stays if it isn't 0. Source: the listings'
/// EXECUTIVE, WAITLIST and PHASE TABLE MAINTENANCE sections; numbers: profile.
#[unsafe(no_mangle)]
pub extern "C" fn agc_scene(words: &[u16; 144], sets: u32, scene: &mut AgcScene) -> u32
    ensures code { Coded result sets words.now 0 }
    ensures served { result ≡ 0 → scene.new ≡ scene_to_c sets words.now }
    ensures refused { ¬ (result ≡ 0) → scene.new ≡ scene.old }
{
    match image_in(words, sets) {
        Err(fault) => fault.code(),
        Ok(image) => {
            *scene = scene_to_c(words, sets, &image);
            0
        }
    }
}
