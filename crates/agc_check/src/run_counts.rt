//! The summary of a run.
ghost use Rattle.std.specs.Prelude.{◌≡◌, false, IfOk};
ghost use Rattle.std.specs.List.{fold};
ghost use Rattle.agc_machine.specs.Machines.{after};
ghost use Rattle.agc_run.specs.Runs.{to_ask};
ghost use Rattle.agc_run.specs.Subjects.{own_requests, machine_of};
ghost use Rattle.agc_session.specs.Runs.{script_machine};

use agc_machine::{Machine, Refusal};
use agc_plan::{Alarm, Reply, Request};
use agc_run::{PendingRequests, Run, Subject};
use agc_session::{Walk, script_machine};
use std::alloc::{AllocError, Global};

/// The most requests that are run: more than a text has room to write out.
const MOST_RUN: u64 = 1_000_000;

/// The summary of a run: counts of its requests.
#[derive(Clone, Copy, Default)]
pub struct RunCounts {
    /// Requests that were asked.
    pub requests: u64,
    /// Tasks that fired.
    pub fired: u64,
    /// Alarms 1201, 1202 and 1203.
    pub alarms: [u64; 3],
    /// The number, from 1, of the first request that was refused because the log was full.
    pub log_full: Option<u64>,
    /// The first request that was refused because all of the allowance was served.
    pub spent: Option<u64>,
    /// Whether the run was cut short.
    pub is_cut: bool,
}

impl RunCounts {
    /// Counts one more alarm.
    fn count_alarm(&mut self, alarm: Alarm) {
        let count = &mut self.alarms[alarm as usize];
        *count = count.saturating_add(1);
    }

    /// Counts one more request with this answer, in which this many tasks fired.
    fn count(&mut self, answer: &Result<Reply, Refusal>, fired: usize) {
        self.requests = self.requests.saturating_add(1);
        self.fired = self.fired.saturating_add(fired as u64);
        let number = Some(self.requests);
        match answer {
            Err(Refusal::LogFull) => self.log_full = self.log_full.or(number),
            Err(Refusal::Spent) => self.spent = self.spent.or(number),
            Ok(reply) => {
                if let Some(alarm) = reply.alarm() {
                    self.count_alarm(alarm);
                }
            }
        }
    }
}

/// Makes the requests that a run still has, but at most 1,000,000. Returns their summary.
fn run_most(run: &mut Run<'_>) -> RunCounts
    ensures { result.is_cut ≡ false → run.new.machine
        ≡ fold after run.old.machine (to_ask run.old.machine run.old.pending) }
{
    let mut ran = RunCounts::default();
    while let Some(asked) = run.next() {
        if ran.requests >= MOST_RUN {
            return RunCounts {
                is_cut: true,
                ..ran
            };
        }
        let answer = run.ask(&asked);
        ran.count(&answer, run.tasks_fired().len());
    }
    ran
}

/// Runs a bench or a scenario, but at most 1,000,000 of its requests. Returns its machine after
/// them, and the summary.
///
/// # Errors
///
/// If memory runs out.
pub fn run_subject(alloc: Global, subject: Subject<'_>) -> Result<(Machine, RunCounts), AllocError>
    // All requests were asked, in order, unless the run was cut.
    ensures { IfOk result (λ r. r.1.is_cut ≡ false
        → r.0 ≡ fold after (machine_of subject.entry) (own_requests subject.entry)) }
{
    let mut run = match subject.run(alloc) {
        Ok(run) => run,
        Err(_fault) => return Err(AllocError),
    };
    let ran = run_most(&mut run);
    Ok((run.into_machine(), ran))
}

/// Runs the requests of a script on the machine of `run_script`.
pub(crate) fn run_requests(
    alloc: Global,
    requests: &[Request],
) -> Result<(Machine, RunCounts), AllocError>
    ensures { IfOk result (λ r. r.1.is_cut ≡ false
        → r.0 ≡ fold after script_machine requests.now) }
{
    let machine = match script_machine(alloc) {
        Ok(machine) => machine,
        Err(_fault) => return Err(AllocError),
    };
    let pending = PendingRequests::of_walk(Walk::of_script(requests));
    let mut run = Run::new(machine, pending);
    let ran = run_most(&mut run);
    Ok((run.into_machine(), ran))
}
