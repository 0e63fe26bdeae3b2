// The pending requests of a run.
ghost use Rattle.std.specs.Prelude.{◌≡◌, [], option_map};
ghost use Rattle.agc_exec.specs.Image.{IsLawfulWords, jobs_in};
ghost use Rattle.agc_machine.specs.Machines.{Machined, alarm_with, plain_of};
ghost use Rattle.agc_clock.specs.Elapsing.{Elapses};
ghost use Rattle.agc_clock.specs.Runs.{begins_with};
ghost use Rattle.agc_run.specs.Runs.{Pulls, alarms_with, all_to_ask, clock_after, clock_asks};
ghost use Rattle.agc_run.specs.Runs.{elapsed_in, source_in_time};
ghost use Rattle.agc_session.specs.Pieces.{rest};

use crate::event::{alarm_with, begins_with};
use agc_clock::{Alarms, Clock, Elapsed};
use agc_machine::Refusal;
use agc_plan::Reply;
use agc_scenario::{CurrentTimetable, Timing};
use agc_session::{PendingRequest, Source, Walk};
use agc_word::Erasable;
use std::marker::Model;

/// The pending requests of a run: those of a script or a bench, and then those of a clock, if time
/// passes.
#[derive(Drop)]
pub struct PendingRequests<'a> {
    listed: Walk<'a>,
    timing: Option<&'a Timing>,
    alarms: Alarms,
    clock: Clock,
}

impl<'a> Model for PendingRequests<'a> {
    ghost use Rattle.std.specs.Option.{option_map};
    ghost use Rattle.agc_run.specs.Runs.{Pending};

    ghost Value = { Pending };

    ghost view = { λ a. record {
      listed = a.listed;
      timing = option_map (λ t. t.now) a.timing;
      alarms = a.alarms;
      clock = a.clock;
    } };
}

/// The source of a clock's request.
fn source_in_time(source: agc_clock::Source) -> Source
    ensures { result ≡ source_in_time source }
{
    match source {
        agc_clock::Source::Clock => Source::Clock,
        agc_clock::Source::Event(event) => Source::Event(event),
    }
}

impl<'a> PendingRequests<'a> {
    /// The requests of a walk.
    pub fn of_walk(walk: Walk<'a>) -> PendingRequests<'a>
        ensures { (m : Machined) → all_to_ask m result ≡ rest walk.entry }
    {
        PendingRequests {
            listed: walk,
            timing: None,
            alarms: Alarms::none(),
            clock: Clock::new(0),
        }
    }

    /// The requests of a scenario's clock to a machine, in order.
    pub fn of_scenario(timing: &'a Timing) -> PendingRequests<'a>
        ensures { (m : Machined) → all_to_ask m result ≡ clock_asks timing.now m }
    {
        PendingRequests {
            listed: Walk::of_script(&[]),
            timing: Some(timing),
            alarms: Alarms::none(),
            clock: Clock::new(timing.seed()),
        }
    }

    /// The clock as it is, if time passes by itself.
    pub(crate) fn clock(&self) -> Option<&Clock>
        ensures { option_map (λ clock. clock.now) result
            ≡ option_map (λ _. self.now.clock) self.now.timing }
    {
        match self.timing {
            None => None,
            Some(_timing) => Some(&self.clock),
        }
    }

    /// The next request and its source, given the machine's words; the machine must then be asked
    /// for it. None once all have been made. With it comes the time that passed since the request
    /// before, which only a clock knows.
    pub(crate) fn next(&mut self, words: &Erasable) -> (Option<PendingRequest>, Elapsed)
        requires { IsLawfulWords words.now }
        ensures pulls { (m : Machined) → jobs_in words.now ≡ (plain_of m).work.jobs
            → Pulls m self.old result.0 self.new }
        ensures elapsed { result.1 ≡ elapsed_in (jobs_in words.now) self.old self.new }
        ensures all_elapsed { Elapses self.old.clock result.1 self.new.clock }
    {
        match self.listed.next() {
            Some(pending) => (Some(pending), Elapsed::none()),
            None => self.next_in_time(words),
        }
    }

    /// The next request of the clock.
    fn next_in_time(&mut self, words: &Erasable) -> (Option<PendingRequest>, Elapsed)
        requires over { rest self.old.listed ≡ [] }
        requires lawful { IsLawfulWords words.now }
        ensures pulls { (m : Machined) → jobs_in words.now ≡ (plain_of m).work.jobs
            → Pulls m self.old result.0 self.new }
        ensures elapsed { result.1 ≡ elapsed_in (jobs_in words.now) self.old self.new }
        ensures all_elapsed { Elapses self.old.clock result.1 self.new.clock }
    {
        let timing = match self.timing {
            None => return (None, Elapsed::none()),
            Some(timing) => timing,
        };
        let table = CurrentTimetable {
            timing,
            alarms: self.alarms,
        };
        let (asked, elapsed) = self.clock.next(words, &table);
        match asked {
            None => return (None, elapsed),
            Some(asked) => {
                let source = source_in_time(asked.source);
                let request = asked.request;
                return (Some(PendingRequest { source, request }), elapsed);
            }
        }
    }

    /// Takes the outcome of the last request: the machine's words after it, and the answer.
    pub(crate) fn served(
        &mut self,
        asked: &PendingRequest,
        words: &Erasable,
        answer: &Result<Reply, Refusal>,
    )
        requires { IsLawfulWords words.now }
        ensures { self.new ≡ record self.old {
          alarms = alarms_with asked.now.source (alarm_with answer.now) self.old.clock.time
              self.old.alarms;
          clock = clock_after asked.now.source (begins_with answer.now) (jobs_in words.now)
              self.old.clock;
        } }
    {
        match asked.source {
            Source::Clock | Source::Event(_) => {
                self.alarms.came(alarm_with(answer), self.clock.time());
                self.clock.served(words, begins_with(answer));
            }
            Source::Script | Source::Worker(_) | Source::Pulse(_) => {}
        }
    }
}
