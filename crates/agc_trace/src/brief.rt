// Requests after which nothing changed but the time: in brief they are counted.
ghost use Rattle.std.specs.Prelude.{◌≡◌};
ghost use Rattle.agc_trace.specs.Brief.{has_priority, quiet_of, quiet_reply, quiet_run, quiet_tick};
ghost use Rattle.agc_trace.specs.Brief.{is_of_priority, is_running};

use agc_exec::Seat;
use agc_machine::Refusal;
use agc_plan::{Alarm, Fired, JobNo, Priority, Reply, Request};
use agc_run::{Event, Scene};

/// A kind of request after which nothing has changed but the time.
#[derive(Clone, Copy, PartialEq, Eq)]
pub(crate) enum Quiet {
    /// A tick in which nothing fired.
    Tick,
    NoSleeper,
    NoJob,
    /// A change of job after which the same job runs.
    Change,
    /// A change of priority that leaves it as it was, after which the same job runs.
    Prio,
    Spent,
    LogFull,
}

impl Quiet {
    /// Its name in a trace.
    pub(crate) fn words(self) -> &'static str {
        match self {
            Quiet::Tick => "tick",
            Quiet::NoSleeper => "no sleeper",
            Quiet::NoJob => "no job",
            Quiet::Change => "change",
            Quiet::Prio => "prio",
            Quiet::Spent => "refused spent",
            Quiet::LogFull => "refused log full",
        }
    }
}

/// A tick in which nothing fired is quiet, unless an alarm came.
fn quiet_tick(alarm: Option<Alarm>, fired: &Fired) -> Option<Quiet>
    ensures { result ≡ quiet_tick alarm fired.now }
{
    match alarm {
        Some(_) => None,
        None => {
            if fired.len() == 0 {
                Some(Quiet::Tick)
            } else {
                None
            }
        }
    }
}

/// Whether the job of this number runs in a scene.
fn is_running(scene: &Scene, number: JobNo) -> bool
    ensures { result ≡ is_running scene.now number }
{
    match scene.running() {
        None => false,
        Some(runner) => runner == number,
    }
}

/// Whether a core set's job is the one of this number, and has this priority.
fn is_of_priority(seat: Option<Seat>, number: JobNo, priority: Priority) -> bool
    ensures { result ≡ is_of_priority number priority seat }
{
    match seat {
        None => false,
        Some(seat) => {
            seat.number == number.get() as u16 && seat.priority == priority.get() as u16
        }
    }
}

/// Whether the job of this number has this priority in a scene.
fn has_priority(scene: &Scene, number: JobNo, priority: Priority) -> bool
    ensures { result ≡ has_priority scene.now.seats number priority }
{
    for seat in scene.seats() {
        if is_of_priority(*seat, number, priority) {
            return true;
        }
    }
    false
}

/// A request after which the job of this number runs is quiet where that job ran before, and has
/// the priority that it had.
fn quiet_run(before: &Scene, request: &Request, number: JobNo) -> Option<Quiet>
    ensures { result ≡ quiet_run before.now request.now number }
{
    if !is_running(before, number) {
        return None;
    }
    match *request {
        Request::Change => Some(Quiet::Change),
        Request::Prio(priority) if has_priority(before, number, priority) => Some(Quiet::Prio),
        _ => None,
    }
}

/// The kind of a quiet reply; None if more than the time changed.
fn quiet_reply(before: &Scene, event: &Event, reply: &Reply) -> Option<Quiet>
    ensures { result ≡ quiet_reply before.now event.now.request reply.now event.now.fired }
{
    match *reply {
        Reply::Ticked(alarm) => quiet_tick(alarm, &event.fired),
        Reply::Runs(number) => quiet_run(before, &event.request, number),
        Reply::NoSleeper => Some(Quiet::NoSleeper),
        Reply::NoJob => Some(Quiet::NoJob),
        _ => None,
    }
}

/// The kind of a quiet event, given the scene before it; None if more than the time changed.
pub(crate) fn quiet_of(before: &Scene, event: &Event) -> Option<Quiet>
    ensures { result ≡ quiet_of before.now event.now }
{
    match &event.answer {
        Err(Refusal::Spent) => Some(Quiet::Spent),
        Err(Refusal::LogFull) => Some(Quiet::LogFull),
        Ok(reply) => quiet_reply(before, event, reply),
    }
}
