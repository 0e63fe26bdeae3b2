//! The statistics of a run's jobs.
ghost use Rattle.std.specs.Prelude.{◌≡◌, ◌&&◌, not, List, [], Some, None, IfOk, OnOk, is_some};
ghost use Rattle.std.specs.Prelude.{if◌then◌else◌};
ghost use Rattle.std.specs.List.{fold};
ghost use Rattle.std.specs.Result.{is_ok};
ghost use Rattle.agc_machine.specs.Machines.{after, begins_with};
ghost use Rattle.agc_plan.specs.Steps.{is_tick};
ghost use Rattle.agc_run.specs.Events.{scene_now};
ghost use Rattle.agc_run.specs.Runs.{to_ask};
ghost use Rattle.agc_stats.specs.Eras.{all_used, used_in};
ghost use Rattle.agc_stats.specs.Followed.{AreFollowed};
ghost use Rattle.agc_stats.specs.JobRuns.{AreJobsOf, AreOfRun};
ghost use Rattle.agc_stats.specs.ObservedJobs.{states_in};
ghost use Rattle.agc_stats.specs.declared.live_jobs.Snapshot.{Snapshot};

use crate::job_statistics::{JobStatistics, PassedTime};
use crate::live_jobs::{ObservedJobs, jobs_in};
use agc_machine::{Machine, Refusal};
use agc_plan::{Reply, Request};
use agc_run::{Run, Subject};
use agc_session::RunFault;
use std::alloc::{AllocError, Global};

/// Whether time passes with a request: without a clock, with a tick that was served.
fn ticks(has_clock: bool, request: &Request, answer: &Result<Reply, Refusal>) -> bool
    ensures { result ≡ (not has_clock && (is_tick request.now && is_ok answer.now)) }
{
    !has_clock && (request.is_tick() && answer.is_ok())
}

/// The jobs of the era that began with a request, if one did.
fn jobs_of_era(machine: &Machine, answer: &Result<Reply, Refusal>) -> Option<ObservedJobs>
    ensures { result ≡ (if begins_with answer.now
        then Some (states_in (scene_now machine.now).seats) else None) }
{
    match answer {
        Err(_refusal) => None,
        Ok(reply) => {
            if reply.begins() {
                Some(jobs_in(machine.erasable()))
            } else {
                None
            }
        }
    }
}

/// Makes all requests of a run, in order, and no others, and follows its jobs.
fn jobs_to_end(job_statistics: &mut JobStatistics<'_>, run: &mut Run<'_>) -> Result<(), AllocError>
    ensures machine { OnOk result (run.new.machine
        ≡ fold after run.old.machine (to_ask run.old.machine run.old.pending)) }
    ensures followed { OnOk result ((history : List Snapshot)
        → AreFollowed history job_statistics.old → job_statistics.old.eras.items ≡ []
        → used_in job_statistics.old.era ≡ all_used []
        → AreOfRun (is_some job_statistics.old.timing) history run.old.machine run.old.pending
        job_statistics.new) }
    ensures timing { job_statistics.new.timing ≡ job_statistics.old.timing }
{
    while let Some(call) = run.next() {
        let elapsed = run.elapsed();
        let answer = run.ask(&call);
        let ticks = ticks(job_statistics.has_clock(), &call.request, &answer);
        job_statistics.pass(elapsed, run.clock(), ticks);
        let left = jobs_in(run.words_left(&answer));
        let era = jobs_of_era(run.machine(), &answer);
        job_statistics.serve(PassedTime::by(elapsed, ticks), &left, era)?;
    }
    let elapsed = run.elapsed();
    job_statistics.pass(elapsed, run.clock(), false);
    job_statistics.end(PassedTime::by(elapsed, false))
}

/// The statistics of the jobs of a bench or a scenario.
///
/// # Errors
///
/// `NoMemory`.
pub fn job_statistics_of<'a>(
    alloc: Global,
    subject: Subject<'a>,
) -> Result<JobStatistics<'a>, RunFault>
    ensures { IfOk result (λ s. AreJobsOf subject.entry s) }
{
    let mut run = subject.run(alloc)?;
    let jobs = jobs_in(run.machine().erasable());
    let mut job_statistics = JobStatistics::new(alloc, subject.timing(), &jobs)?;
    jobs_to_end(&mut job_statistics, &mut run)?;
    job_statistics.sort()?;
    Ok(job_statistics)
}
