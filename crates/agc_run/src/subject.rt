// The subject of a run.
ghost use Rattle.std.specs.Prelude.{◌≡◌, option_map, IfOk, IfErr};
ghost use Rattle.agc_run.specs.Subjects.{IsOf, bench_of, machine_of, timing_of};
ghost use Rattle.agc_run.specs.Events.{watching_from};

use crate::observed_run::ObservedRun;
use crate::pending_requests::PendingRequests;
use crate::run::Run;
use agc_document::Bench;
use agc_scenario::{Scenario, Timing};
use agc_session::{RunFault, Walk, machine_of};
use std::alloc::Global;

/// The subject of a run: a bench, in the order of [`serial`](agc_session::serial), or a scenario.
#[derive(Clone, Copy)]
pub enum Subject<'a> {
    Bench(&'a Bench),
    Scenario(&'a Scenario),
}

impl<'a> Subject<'a> {
    /// The bench whose machine it runs on.
    pub fn bench(self) -> &'a Bench
        ensures { result.now ≡ bench_of self.entry }
    {
        match self {
            Subject::Bench(bench) => bench,
            Subject::Scenario(scenario) => scenario.bench(),
        }
    }

    /// Its timing, if it is a scenario.
    pub fn timing(self) -> Option<&'a Timing>
        ensures { option_map (λ t. t.now) result ≡ timing_of self.entry }
    {
        match self {
            Subject::Bench(_bench) => None,
            Subject::Scenario(scenario) => Some(scenario.timing()),
        }
    }

    /// All its requests.
    fn pending(self) -> PendingRequests<'a>
        ensures { IsOf self.entry result }
    {
        match self {
            Subject::Bench(bench) => PendingRequests::of_walk(Walk::new(bench)),
            Subject::Scenario(scenario) => PendingRequests::of_scenario(scenario.timing()),
        }
    }

    /// Its run, before the first request.
    ///
    /// # Errors
    ///
    /// `NoMemory`, and no other.
    pub fn run(self, alloc: Global) -> Result<Run<'a>, RunFault>
        ensures machine { IfOk result (λ r. r.machine ≡ machine_of self.entry) }
        ensures pending { IfOk result (λ r. IsOf self.entry r.pending) }
        ensures refused { IfErr result (λ e. e ≡ RunFault.NoMemory) }
    {
        let machine = machine_of(alloc, self.bench())?;
        Ok(Run::new(machine, self.pending()))
    }

    /// Its run with a machine that is watched, before the first request.
    ///
    /// # Errors
    ///
    /// `NoMemory`, and no other.
    pub fn watched(self, alloc: Global) -> Result<ObservedRun<'a>, RunFault>
        ensures watched { IfOk result (λ r. r.watching ≡ watching_from (machine_of self.entry)) }
        ensures pending { IfOk result (λ r. IsOf self.entry r.pending) }
        ensures refused { IfErr result (λ e. e ≡ RunFault.NoMemory) }
    {
        Ok(ObservedRun::new(self.run(alloc)?))
    }
}
