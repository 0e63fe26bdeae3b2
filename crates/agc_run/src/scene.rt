// A scene: the part of a state that is shown.
ghost use Rattle.std.specs.Prelude.{◌≡◌, ◌≤◌, length};
ghost use Rattle.agc_word.specs.Layout.{IsSized};
ghost use Rattle.agc_exec.specs.Seats.{seats_in};
ghost use Rattle.agc_machine.specs.Image.{AreLawful};
ghost use Rattle.agc_run.specs.Reading.{scene_in};
ghost use Rattle.agc_run.specs.Scenes.{owner_of};

use agc_exec::{Seat, job_at, named_job, running};
use agc_phase::{Base, Code, Phases};
use agc_plan::JobNo;
use agc_wait::{Waiting, Waits, tasks_waiting};
use agc_word::Erasable;
use arrayvec::ArrayVec;
use std::marker::Model;

/// The tables as they are shown: the running job, the job that NEWJOB names, the contents of each
/// core set, the waiting tasks, phases and FAILREG.
#[derive(Drop)]
pub struct Scene {
    running: Option<JobNo>,
    next_job: Option<u16>,
    seats: ArrayVec<Option<Seat>, 8>,
    waits: Waits,
    base: Base,
}

impl Model for Scene {
    ghost use Rattle.agc_run.specs.Scenes as moment_of;

    ghost Value = { moment_of.Scene };

    ghost view = { λ s. record {
      running = s.running;
      next_job = s.next_job;
      seats = s.seats.items;
      waits = s.waits;
      base = s.base;
    } };
}

/// The job in each core set, set 0 first.
pub fn seats_of(e: &Erasable) -> ArrayVec<Option<Seat>, 8>
    requires { IsSized e.now }
    ensures { result.items ≡ seats_in e.now }
{
    let mut seats = ArrayVec::new();
    for k in 0..e.sets().count() {
        seats.push(job_at(e, k));
    }
    seats
}

pub(crate) fn scene_of(e: &Erasable) -> Scene
    requires { AreLawful e.now }
    ensures { result ≡ scene_in e.now }
{
    Scene {
        running: running(e),
        next_job: named_job(e),
        seats: seats_of(e),
        waits: tasks_waiting(e),
        base: Base::read(e),
    }
}

impl Scene {
    /// The number of the running job, or None if no job is running. Source: the listings' EXECUTIVE
    /// section; numbers: profile.
    pub fn running(&self) -> Option<JobNo>
        ensures { result ≡ self.now.running }
    {
        self.running
    }

    /// The number, 1 to 8, of the job that NEWJOB names: the best, if it is strictly more urgent
    /// than the one that runs; else None. Source: the listings' EXECUTIVE section; numbers:
    /// profile.
    pub fn next_job(&self) -> Option<u16>
        ensures { result ≡ self.now.next_job }
    {
        self.next_job
    }

    /// The job in each core set, set 0 first: seven or eight sets. Source: the listings' EXECUTIVE
    /// section.
    pub fn seats(&self) -> &[Option<Seat>]
        ensures seats { result.now ≡ self.now.seats }
        ensures eight { length result.now ≤ 8 }
    {
        self.seats.as_slice()
    }

    /// The number of the job that owns an area, 1 to 5, or None if no job does. Source: the
    /// listings' EXECUTIVE section; numbers: profile.
    pub fn owner(&self, area: u16) -> Option<u16>
        ensures { result ≡ owner_of area self.now.seats }
    {
        for seat in self.seats() {
            match *seat {
                Some(seat) => {
                    if seat.area == area {
                        return Some(seat.number);
                    }
                }
                None => {}
            }
        }
        None
    }

    /// The tasks that wait, in order, each with the centiseconds that it still has. Source: the
    /// listings' WAITLIST section.
    pub fn waits(&self) -> &[Waiting]
        ensures waits { result.now ≡ self.now.waits }
        ensures nine { length result.now ≤ 9 }
    {
        self.waits.as_slice()
    }

    /// The phases of groups 1 to 6, 0 for inactive. Source: the listings' PHASE TABLE MAINTENANCE
    /// section.
    pub fn phases(&self) -> Phases
        ensures { result ≡ self.now.base.phases }
    {
        self.base.phases()
    }

    /// FAILREG: the first, the second and the latest code.
    pub fn codes(&self) -> [Option<Code>; 3]
        ensures { result ≡ self.now.base.codes }
    {
        self.base.codes()
    }
}
