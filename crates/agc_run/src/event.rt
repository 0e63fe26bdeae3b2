// A request, with all that is shown of it.
ghost use Rattle.std.specs.Prelude.{◌≡◌};
ghost use Rattle.agc_clock.specs.Runs.{begins_with as clock_begins};
ghost use Rattle.agc_machine.specs.Machines.{alarm_with, begins_with};

use crate::listings::Listings;
use crate::origins::Origins;
use crate::scene::Scene;
use agc_machine::Refusal;
use agc_plan::{Alarm, Fired, Reply, Request};

/// A request, with all that is shown of it. Times are in centiseconds.
#[derive(Drop)]
pub struct Event {
    /// The request's number, from 1.
    pub number: u64,
    /// The time since the era began.
    pub time: u64,
    /// The time since the start.
    pub total: u64,
    pub request: Request,
    pub answer: Result<Reply, Refusal>,
    /// The tasks that fired, in order.
    pub fired: Fired,
    /// Which action of the last task that fired raised an alarm, from 1; 0 if none did.
    pub raised: usize,
    /// The tables as the request left them, before an era begins with it; for a restart, a fresh
    /// start or a refused request, the tables as they were.
    pub scene: Scene,
    /// The tables with which an era begins, if one does.
    pub era: Option<Scene>,
    /// The request since which each job of `scene` is there.
    pub jobs: Origins,
    /// The request since which each task of `scene` waits.
    pub tasks: Listings,
}

/// Whether an era begins with an answer.
pub(crate) fn begins_with(answer: &Result<Reply, Refusal>) -> bool
    ensures machine { result ≡ begins_with answer.now }
    ensures clock { result ≡ clock_begins answer.now }
{
    match answer {
        Ok(reply) => reply.begins(),
        Err(_refusal) => false,
    }
}

/// The alarm of an answer, if it has one. Source: the listings' EXECUTIVE and WAITLIST sections.
pub(crate) fn alarm_with(answer: &Result<Reply, Refusal>) -> Option<Alarm>
    ensures { result ≡ alarm_with answer.now }
{
    match answer {
        Ok(reply) => reply.alarm(),
        Err(_refusal) => None,
    }
}

impl Event {
    /// The alarm that it raised, or that the action of a task raised in it, if one came. Source:
    /// the listings' EXECUTIVE and WAITLIST sections.
    pub fn alarm(&self) -> Option<Alarm>
        ensures { result ≡ alarm_with self.now.answer }
    {
        alarm_with(&self.answer)
    }
}
