//! Runs to their ends, with their statistics.
ghost use Rattle.std.specs.Prelude.{◌≡◌, IfOk};
ghost use Rattle.std.specs.List.{fold};
ghost use Rattle.agc_word.specs.Profiles.{count_of};
ghost use Rattle.agc_machine.specs.Machines.{after};
ghost use Rattle.agc_session.specs.Runs.{machine_on};
ghost use Rattle.agc_run.specs.Runs.{clock_requests, to_ask};
ghost use Rattle.agc_run.specs.Subjects.{machine_of, own_requests};
ghost use Rattle.agc_stats.specs.Runs.{ArePeaks, IsRunStatistics};

use crate::computed_by_job::ComputedByJob;
use crate::era::EndedEra;
use crate::occupancy::occupancy_of;
use crate::run_statistics::{AnsweredRequest, RunPeaks, RunStatistics};
use agc_plan::Request;
use agc_run::{PendingRequests, Run, Subject};
use agc_scenario::Scenario;
use agc_session::{RunFault, machine_on};
use agc_word::Sets;
use std::alloc::Global;

/// An observer of a run, to which each request is shown once it has been answered.
pub trait RunObserver {
    /// Takes a request, and the era that ended with it, if one did. A fault ends the run.
    fn note(&mut self, request: &Request, ended: Option<EndedEra>) -> Result<(), RunFault>;
}

/// An observer that takes nothing.
#[derive(Clone, Copy)]
struct NoObserver;

impl RunObserver for NoObserver {
    fn note(&mut self, _request: &Request, _ended: Option<EndedEra>) -> Result<(), RunFault> {
        Ok(())
    }
}

/// Makes all requests of a run, in order, and no others, and shows them to an observer. Returns
/// their statistics.
///
/// # Errors
///
/// The observer's fault.
pub fn run_to_end<O: RunObserver>(
    run: &mut Run<'_>,
    observer: &mut O,
) -> Result<RunStatistics, RunFault>
    ensures machine { IfOk result (λ _. run.new.machine
        ≡ fold after run.old.machine (to_ask run.old.machine run.old.pending)) }
    ensures statistics { IfOk result (λ s. IsRunStatistics run.old.machine
        (to_ask run.old.machine run.old.pending) s) }
{
    let mut statistics = RunStatistics::new(run.machine());
    let mut computed = ComputedByJob::new();
    while let Some(call) = run.next() {
        computed.pass(run.machine().erasable(), run.elapsed().computed);
        let answer = run.ask(&call);
        let answered = AnsweredRequest {
            request: &call.request,
            answer: &answer,
            left: occupancy_of(run.words_left(&answer)),
            lost: computed.sum(),
        };
        let ended = statistics.note_answer(run.machine(), &answered);
        computed.keep(run.clock());
        observer.note(&call.request, ended)?;
    }
    Ok(statistics)
}

/// The statistics of the run of a bench or a scenario.
///
/// # Errors
///
/// `NoMemory`.
pub fn statistics_of(alloc: Global, subject: Subject<'_>) -> Result<RunStatistics, RunFault>
    ensures { IfOk result
        (λ s. IsRunStatistics (machine_of subject.entry) (own_requests subject.entry) s) }
{
    let mut run = subject.run(alloc)?;
    run_to_end(&mut run, &mut NoObserver)
}

/// The peaks of a scenario's run on this many core sets.
///
/// # Errors
///
/// `NoMemory`.
pub fn peaks_of(alloc: Global, scenario: &Scenario, sets: Sets) -> Result<RunPeaks, RunFault>
    ensures { IfOk result (λ peaks. ArePeaks (machine_on (count_of sets) scenario.now.bench)
        (clock_requests scenario.now.timing (machine_on (count_of sets) scenario.now.bench))
        peaks) }
{
    let machine = machine_on(alloc, scenario.bench(), sets)?;
    let mut run = Run::new(machine, PendingRequests::of_scenario(scenario.timing()));
    match run_to_end(&mut run, &mut NoObserver) {
        Ok(statistics) => Ok(statistics.peaks()),
        Err(fault) => Err(fault),
    }
}
