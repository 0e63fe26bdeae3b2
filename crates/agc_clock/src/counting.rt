// Who is given computing time.
ghost use Rattle.std.specs.Prelude.{◌≡◌, ◌≤◌, ◌<◌, IfSome, ◌+◌, ◌-◌, length, if◌then◌else◌, not};
ghost use Rattle.std.specs.Prelude.{map, nat_lt};
ghost use Rattle.std.specs.List.{range_with_len};
ghost use Rattle.agc_exec.specs.Image.{IsLawfulWords, jobs_in};
ghost use Rattle.agc_clock.specs.Counts.{counted_on, is_awake, kept_by, runner_of};
ghost use Rattle.agc_clock.specs.Counts.{worker_of};
ghost use Rattle.agc_clock.specs.Reading.{awake_at};
ghost use Rattle.agc_clock.specs.Timetables.{asked_of, cost_at, holds, needs, share_at, step_at};
ghost use Rattle.agc_clock.specs.Timetables.{next_lot, spared, spread_of, stolen_at};

use crate::timetable::{Cost, Step, Stolen, Timetables, asked_step, asked_then};
use agc_exec::{Seat, job_at};
use agc_plan::Request;
use agc_word::Erasable;

/// A job's number, and its address.
#[derive(Clone, Copy)]
pub(crate) struct JobAt {
    pub number: u16,
    pub at: u16,
}

/// A job's number, and what it costs.
#[derive(Clone, Copy)]
pub(crate) struct JobCost {
    pub number: u16,
    pub cost: Cost,
}

/// The job of core set 0, if it is awake.
fn runner_in(seat: Option<Seat>) -> Option<JobAt>
    ensures { result ≡ awake_at seat }
{
    match seat {
        None => None,
        Some(seat) => {
            if seat.asleep {
                None
            } else {
                Some(JobAt {
                    number: seat.number,
                    at: seat.at,
                })
            }
        }
    }
}

/// The running job.
fn runner(words: &Erasable) -> Option<JobAt>
    requires { IsLawfulWords words.now }
    ensures runner { result ≡ runner_of (jobs_in words.now) }
    ensures number { IfSome result (λ job. (1 ≤ job.number) × (job.number ≤ 8)) }
{
    runner_in(job_at(words, 0))
}

/// The cost of a job at this address.
fn cost_at<T: Timetables>(table: &T, at: u16) -> Option<Cost>
    ensures { result ≡ cost_at (T.set_down table.now).costs at }
{
    for row in 0..table.costs() {
        match table.cost(row) {
            None => {}
            Some(cost) => {
                if cost.at.get() == at {
                    return Some(cost);
                }
            }
        }
    }
    None
}

/// Who is given computing time: the running job, if its address has a cost.
pub(crate) fn worker<T: Timetables>(table: &T, words: &Erasable) -> Option<JobCost>
    requires { IsLawfulWords words.now }
    ensures worker { result ≡ worker_of (T.set_down table.now).costs (jobs_in words.now) }
    ensures number { IfSome result (λ job. (1 ≤ job.number) × (job.number ≤ 8)) }
{
    match runner(words) {
        None => None,
        Some(runner) => match cost_at(table, runner.at) {
            None => None,
            Some(cost) => Some(JobCost {
                number: runner.number,
                cost,
            }),
        },
    }
}

/// The hundredths that a job needs before it is asked anything.
pub(crate) fn needs(cost: &Cost) -> u32
    ensures value { result ≡ needs cost.now }
    ensures some { 1 ≤ result }
    ensures few { result ≤ 4000000000 }
{
    cost.hundredths.min(4_000_000_000).max(1)
}

/// How much less a job may need, by lot.
fn spread_of(cost: &Cost) -> u32
    ensures value { result ≡ spread_of cost.now }
    ensures few { result < 4000000000 }
{
    cost.spread.min(needs(cost) - 1)
}

/// Whether a cost is by lot.
pub(crate) fn is_by_lot(cost: &Cost) -> bool
    ensures { result ≡ nat_lt 0 (spread_of cost.now) }
{
    0 < spread_of(cost)
}

/// How much less a job needs that draws this lot.
pub(crate) fn spared(cost: &Cost, lot: u32) -> u32
    ensures { result ≡ spared cost.now lot }
{
    let spread = spread_of(cost);
    spread - lot % (spread + 1)
}

/// The lot after this one.
pub(crate) fn next_lot(lot: u32) -> u32
    ensures { result ≡ next_lot lot }
{
    (48_271 * lot as u64 % 2_147_483_647) as u32
}

/// The step of a number, if there is one.
fn step_at(cost: &Cost, number: u32) -> Option<Step>
    ensures value { result ≡ step_at cost.now number }
    ensures few { IfSome result (λ _. number < 7) }
{
    match cost.steps.get(number as usize) {
        None => None,
        Some(step) => *step,
    }
}

/// The request of a job that has used up its cost, and how much of its time counts after that.
#[derive(Clone, Copy)]
pub(crate) struct Spent {
    pub(crate) request: Request,
    pub(crate) counted: u32,
}

/// The request of a job that was given all it needs, and this many hundredths more.
pub(crate) fn spend(cost: &Cost, more: u32) -> Spent
    ensures request { result.request ≡ asked_of (step_at cost.now more) cost.now.then }
    ensures counted { result.counted ≡ counted_on (step_at cost.now more) (needs cost.now + more) }
{
    match step_at(cost, more) {
        None => Spent {
            request: asked_then(cost.then),
            counted: 0,
        },
        Some(step) => Spent {
            request: asked_step(step),
            counted: needs(cost) + more,
        },
    }
}

/// Whether a row of stolen time holds at a time.
fn holds(row: &Stolen, time: u32) -> bool
    ensures { result ≡ holds row.now time }
{
    if time < row.from {
        return false;
    }
    if row.every == 0 {
        return time < row.to;
    }
    let after = (time - row.from) % row.every;
    after < row.to.saturating_sub(row.from) && time.saturating_sub(after) <= row.until
}

/// The percent that is stolen of a centisecond: that of the first row that holds.
pub fn stolen_at(rows: &[Stolen], time: u32) -> u32
    ensures { result ≡ stolen_at rows.now time }
{
    for row in rows {
        if holds(row, time) {
            return row.percent;
        }
    }
    0
}

/// The computing time of a centisecond, in hundredths of it.
pub(crate) fn share_at<T: Timetables>(table: &T, time: u32) -> u32
    ensures { result ≡ share_at (T.set_down table.now) time }
{
    100_u32.saturating_sub(stolen_at(table.stolen(), time))
}

/// Whether the job of this number, 1 to 8, lives and is awake.
fn is_awake(words: &Erasable, number: u16) -> bool
    requires lawful { IsLawfulWords words.now }
    requires number { 1 ≤ number }
    ensures { result ≡ is_awake (jobs_in words.now) number }
{
    for k in 0..words.sets().count() {
        match job_at(words, k) {
            None => {}
            Some(seat) => {
                if seat.number == number {
                    return !seat.asleep;
                }
            }
        }
    }
    false
}

/// The hundredths that a job, 1 to 8, keeps of those that it was given.
fn kept_by(words: &Erasable, began: bool, number: u16, given: u32) -> u32
    requires lawful { IsLawfulWords words.now }
    requires number { 1 ≤ number }
    ensures { result
        ≡ (if began then 0 else if is_awake (jobs_in words.now) number then given else 0) }
{
    if began || given == 0 || !is_awake(words, number) {
        0
    } else {
        given
    }
}

/// The hundredths that all jobs keep of those that they were given.
pub(crate) fn kept(words: &Erasable, began: bool, given: &[u32; 8]) -> [u32; 8]
    requires lawful { IsLawfulWords words.now }
    requires eight { length given.now ≡ 8 }
    ensures { result
        ≡ map (kept_by began (jobs_in words.now) given.now) (range_with_len 1 8) }
{
    let mut all = [0; 8];
    for place in 0..8 {
        all[place] = kept_by(words, began, place as u16 + 1, given[place]);
    }
    all
}
