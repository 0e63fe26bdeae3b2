// A run that is pulled: a machine, and its pending requests.
ghost use Rattle.std.specs.Prelude.{◌≡◌, true, false, IfOk, option_map};
ghost use Rattle.agc_clock.specs.Elapsing.{Elapses};
ghost use Rattle.agc_machine.specs.Image.{AreLawful, IsImage};
ghost use Rattle.agc_machine.specs.Machines.{after, answer_of, begins_with, fired_of, plain_of};
ghost use Rattle.agc_machine.specs.Moments.{IsMoment};
ghost use Rattle.agc_plan.specs.Steps.{begins};
ghost use Rattle.agc_run.specs.Events.{raised_at};
ghost use Rattle.agc_run.specs.Runs.{Pulls, asks_after, elapsed_in};

use crate::event::begins_with;
use crate::pending_requests::PendingRequests;
use agc_clock::{Clock, Elapsed};
use agc_machine::{Machine, Moment, Refusal};
use agc_plan::{Fired, Reply, Request};
use agc_session::PendingRequest;
use agc_word::Erasable;
use std::marker::Model;

/// A run: a machine, what its last request did before an era began with it, its pending requests,
/// and the time that passed last.
#[derive(Drop)]
pub struct Run<'a> {
    machine: Machine,
    snapshot: Moment,
    pending: PendingRequests<'a>,
    elapsed: Elapsed,
}

impl<'a> Model for Run<'a> {
    ghost use Rattle.agc_run.specs.Runs.{Running};

    ghost Value = { Running };

    ghost view = { λ r. record {
      machine = r.machine;
      snapshot = r.snapshot;
      pending = r.pending;
      elapsed = r.elapsed;
    } };
}

impl<'a> Run<'a> {
    /// A run of these requests on this machine.
    pub fn new(machine: Machine, pending: PendingRequests<'a>) -> Run<'a>
        ensures machine { result.machine ≡ machine }
        ensures pending { result.pending ≡ pending.entry }
    {
        let snapshot = machine.moment(&Request::Restart);
        Run {
            machine,
            snapshot,
            pending,
            elapsed: Elapsed::none(),
        }
    }

    /// The machine as it is.
    pub fn machine(&self) -> &Machine
        ensures { result.now ≡ self.now.machine }
    {
        &self.machine
    }

    /// The machine, after the requests so far.
    pub fn into_machine(self) -> Machine
        ensures { result ≡ self.entry.machine }
    {
        self.machine
    }

    /// The clock as it is, if time passes by itself.
    pub fn clock(&self) -> Option<&Clock>
        ensures { option_map (λ clock. clock.now) result
            ≡ option_map (λ _. self.now.pending.clock) self.now.pending.timing }
    {
        self.pending.clock()
    }

    /// The time that passed between the last two requests, or from the last up to the end.
    pub fn elapsed(&self) -> Elapsed
        ensures { result ≡ self.now.elapsed }
    {
        self.elapsed
    }

    /// The next request and its source; the machine must then be asked for it. None once all have
    /// been made.
    pub fn next(&mut self) -> Option<PendingRequest>
        ensures pulls { Pulls self.old.machine self.old.pending result self.new.pending }
        ensures machine { self.new.machine ≡ self.old.machine }
        ensures elapsed { self.new.elapsed ≡ elapsed_in (plain_of self.old.machine).work.jobs
            self.old.pending self.new.pending }
        ensures all_elapsed { Elapses self.old.pending.clock self.new.elapsed
            self.new.pending.clock }
    {
        let (asked, elapsed) = self.pending.next(self.machine.erasable());
        self.elapsed = elapsed;
        asked
    }

    /// Asks the machine for the request that came next.
    pub fn ask(&mut self, asked: &PendingRequest) -> Result<Reply, Refusal>
        ensures answer { result ≡ answer_of self.old.machine asked.now.request }
        ensures fired { self.new.snapshot.fired
            ≡ fired_of self.old.machine asked.now.request }
        ensures raised { self.new.snapshot.number
            ≡ raised_at self.old.machine asked.now.request }
        ensures machine { self.new.machine ≡ after self.old.machine asked.now.request }
        ensures begun { IfOk result (λ reply. begins reply ≡ true
            → IsMoment self.old.machine asked.now.request self.new.snapshot) }
        ensures pending { self.new.pending
            ≡ asks_after self.old.machine self.old.pending asked.now }
        ensures elapsed { self.new.elapsed ≡ self.old.elapsed }
    {
        let answer = self
            .machine
            .ask_with_snapshot(&asked.request, &mut self.snapshot);
        self.pending.served(asked, self.machine.erasable(), &answer);
        answer
    }

    /// The tasks that fired in the last request, in order.
    pub fn tasks_fired(&self) -> &Fired
        ensures { result.now ≡ self.now.snapshot.fired }
    {
        self.snapshot.fired()
    }

    /// Which action of the last task that fired in it raised an alarm, from 1; 0 if none did.
    pub(crate) fn raised(&self) -> usize
        ensures { result ≡ self.now.snapshot.number }
    {
        self.snapshot.number()
    }

    /// The words as the last request left them, which got this answer, before an era began with it.
    pub fn words_left(&self, answer: &Result<Reply, Refusal>) -> &Erasable
        requires { IfOk answer.now (λ reply. begins reply ≡ true
            → AreLawful self.now.snapshot.words) }
        ensures lawful { AreLawful result.now }
        ensures begun { begins_with answer.now ≡ true → result.now ≡ self.now.snapshot.words }
        ensures goes_on { begins_with answer.now ≡ false → IsImage self.now.machine result.now }
    {
        if begins_with(answer) {
            self.snapshot.words()
        } else {
            self.machine.erasable()
        }
    }
}
