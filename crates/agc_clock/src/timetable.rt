// The schedule of a scenario, wherever it is stored.
ghost use Rattle.std.specs.Prelude.{◌≡◌, length, slice_get, option_map};
ghost use Rattle.agc_clock.specs.Timetables.{Schedule, asked_step, asked_then, overlap};
ghost use Rattle.agc_clock.specs.Timetables.{requests_of, step_of};

use crate::times::Times;
use agc_plan::{Address, Delay, Entry, Group, Phase, Place, Priority, Request, Task};
use agc_word::Word;

/// From centisecond `from` until just before `to`, something else takes `percent` of each
/// centisecond; all of it if that is above 100. If `every` isn't 0, this repeats at that interval,
/// for the same length each time, and last begins at `until` or earlier.
#[repr(C)]
#[derive(Clone, Copy)]
pub struct Stolen {
    pub from: u32,
    pub to: u32,
    pub percent: u32,
    pub every: u32,
    pub until: u32,
}

impl Stolen {
    /// Whether two rows of stolen time that don't repeat hold at the same time.
    pub fn overlaps(&self, other: &Stolen) -> bool
        ensures { result ≡ overlap self.now other.now }
    {
        self.every == 0 && other.every == 0 && self.from < other.to && other.from < self.to
    }
}

/// A step of a job before it leaves: one of the requests of this name.
#[derive(Clone, Copy, PartialEq, Eq)]
pub enum Step {
    Novac(Priority, Entry),
    Findvac(Priority, Entry),
    Prio(Priority),
    Store(Place, Word),
    List(Delay, Task),
    SetPhase(Group, Phase),
}

/// The request of a step.
pub(crate) fn asked_step(step: Step) -> Request
    ensures { result ≡ asked_step step }
{
    match step {
        Step::Novac(priority, entry) => Request::Novac(priority, entry),
        Step::Findvac(priority, entry) => Request::Findvac(priority, entry),
        Step::Prio(priority) => Request::Prio(priority),
        Step::Store(place, word) => Request::Store(place, word),
        Step::List(delay, task) => Request::List(delay, task),
        Step::SetPhase(group, phase) => Request::SetPhase(group, phase),
    }
}

/// The step that a request is, if it is one.
pub fn step_of(request: &Request) -> Option<Step>
    ensures { result ≡ step_of request.now }
{
    match *request {
        Request::Novac(priority, entry) => Some(Step::Novac(priority, entry)),
        Request::Findvac(priority, entry) => Some(Step::Findvac(priority, entry)),
        Request::Prio(priority) => Some(Step::Prio(priority)),
        Request::Store(place, word) => Some(Step::Store(place, word)),
        Request::List(delay, task) => Some(Step::List(delay, task)),
        Request::SetPhase(group, phase) => Some(Step::SetPhase(group, phase)),
        _ => None,
    }
}

/// How a job leaves: it ends, or sleeps until this address is called.
#[derive(Clone, Copy, PartialEq, Eq)]
pub enum Then {
    End,
    Sleep(Address),
}

/// The request of a job that leaves.
pub(crate) fn asked_then(then: Then) -> Request
    ensures { result ≡ asked_then then }
{
    match then {
        Then::End => Request::EndOfJob,
        Then::Sleep(at) => Request::Sleep(at),
    }
}

/// The cost of a job at an address, in hundredths of a centisecond of computing time, from 1 on (0
/// costs as much as 1, and more than 4,000,000,000 as much as these), and its requests when that is
/// used up: steps in order, up to the first that is missing, and then how it leaves. Each request
/// but the first takes one hundredth more. Where `spread` isn't 0, each time a job begins it may
/// cost less, by up to so many hundredths, as a lot says; at least it costs 1.
#[derive(Clone, Copy)]
pub struct Cost {
    pub at: Address,
    pub hundredths: u32,
    pub spread: u32,
    pub steps: [Option<Step>; 7],
    pub then: Then,
}

/// A scenario's schedule, wherever it is stored: how many centiseconds it lasts, rows of stolen
/// time, the costs of jobs, and events. Each is returned by its number, from 0; None after the
/// last. If two rows hold at the same time, or two costs have the same address, the first counts.
pub trait Timetables {
    ghost set_down: { Self → Schedule };

    /// How many centiseconds it lasts.
    fn lasts(&self) -> u32
        ensures { result ≡ (set_down self.now).lasts };

    /// The rows of stolen time.
    fn stolen(&self) -> &[Stolen]
        ensures { result.now ≡ (set_down self.now).stolen };

    /// How many addresses have a cost.
    fn costs(&self) -> usize
        ensures { result ≡ length (set_down self.now).costs };

    /// The cost of a job at an address.
    fn cost(&self, row: usize) -> Option<Cost>
        ensures { result ≡ slice_get (set_down self.now).costs row };

    /// How many events there are.
    fn events(&self) -> usize
        ensures { result ≡ length (set_down self.now).events };

    /// When an event comes.
    fn times(&self, event: usize) -> Option<Times>
        ensures { result
            ≡ option_map (λ e. e.times) (slice_get (set_down self.now).events event) };

    /// For how many requests an event asks each time.
    fn requests(&self, event: usize) -> usize
        ensures { result
            ≡ length (requests_of (slice_get (set_down self.now).events event)) };

    /// A request of an event, by its number from 0; None after the last.
    fn request(&self, event: usize, index: usize) -> Option<Request>
        ensures { result
            ≡ slice_get (requests_of (slice_get (set_down self.now).events event)) index };
}
