//! The statistics of the jobs of an address.
ghost use Rattle.std.specs.Prelude.{◌≡◌, ◌+◌, ◌-◌, ℕ, List, [], ◌∷◌, ◌++◌, OnOk, if◌then◌else◌};
ghost use Rattle.std.specs.Prelude.{Option};
ghost use Rattle.std.specs.List.Sorted.{IsNonDecreasing};
ghost use Rattle.agc_stats.specs.Addresses.{IsAddress, IsRow, earliest, is_end, mean_times};
ghost use Rattle.agc_stats.specs.Addresses.{missed_by, nearest_rank, responses_of, total};
ghost use Rattle.agc_stats.specs.Eras.{counted};
ghost use Rattle.agc_stats.specs.declared.live_jobs.JobLife.{JobLife};

use crate::live_jobs::{Hundredths, JobLife, LifeEnd};
use crate::occupancy::one_if;
use std::alloc::{AllocError, Global};

impl JobLife {
    /// This number if it was over like this, else 0.
    fn if_by(&self, end: LifeEnd, number: u64) -> u64
        ensures { result ≡ (if is_end end self.now then number else 0) }
    {
        match (self.end, end) {
            (LifeEnd::Ended, LifeEnd::Ended)
            | (LifeEnd::Lost, LifeEnd::Lost)
            | (LifeEnd::Alive, LifeEnd::Alive) => number,
            _ => 0,
        }
    }

    /// When it had to end, if it has a deadline and missed it.
    fn missed_deadline(&self, deadline: Option<u64>) -> Option<Hundredths>
        ensures { result ≡ missed_by deadline self.now }
    {
        let deadline = match deadline {
            None => return None,
            Some(deadline) => deadline,
        };
        let due = self.job.released.saturating_add(deadline);
        if self.time > due { Some(due) } else { None }
    }
}

/// The earlier of two times.
fn earliest(one: Option<Hundredths>, other: Option<Hundredths>) -> Option<Hundredths>
    ensures { result ≡ earliest one other }
{
    match (one, other) {
        (None, other) => other,
        (one, None) => one,
        (Some(one), Some(other)) => Some(one.min(other)),
    }
}

/// Adds the response time of a job that ended.
fn note_response(responses: &mut Vec<u64>, life: &JobLife) -> Result<(), AllocError>
    ensures { OnOk result (responses.new.items
        ≡ responses.old.items ++ responses_of (life.now ∷ [])) }
{
    match life.end {
        LifeEnd::Ended => responses.push(life.time.saturating_sub(life.job.released))?,
        LifeEnd::Lost | LifeEnd::Alive => {}
    }
    Ok(())
}

/// Means over the jobs of an address that ended, in hundredths of a centisecond: how long they
/// took, and how much of that they computed, waited and slept.
#[derive(Clone, Copy)]
pub struct MeanTimes {
    pub response: u64,
    pub computed: u64,
    pub waited: u64,
    pub slept: u64,
}

/// The sum of times.
fn total(times: &[u64]) -> u64
    ensures { result ≡ total times.now }
{
    let mut total: u64 = 0;
    for time in times {
        total = total.saturating_add(*time);
    }
    total
}

/// The jobs of an address: how many were released, were lost as an era began, and live at the end;
/// how often one was preempted; the computing time of all; of those that ended, the
/// time from their release to their end, and how much of it they computed and slept; how
/// long one may take, if there is a deadline, how many missed it, and when the first did. Times are
/// hundredths of a centisecond.
#[derive(Drop)]
pub struct AddressStatistics {
    pub at: u16,
    pub released: u64,
    pub lost: u64,
    pub alive: u64,
    pub preempted: u64,
    pub computed: u64,
    pub responses: Vec<u64>,
    pub computed_to_end: u64,
    pub slept_to_end: u64,
    pub deadline: Option<u64>,
    pub missed: u64,
    pub first_missed: Option<Hundredths>,
}

impl AddressStatistics {
    /// The statistics of an address none of whose jobs has been released yet.
    pub(crate) fn at(alloc: Global, at: u16, deadline: Option<u64>) -> AddressStatistics
        ensures none { IsAddress [] result }
        ensures address { (result.at ≡ at)
            × ((result.released ≡ 0) × (result.deadline ≡ deadline)) }
    {
        AddressStatistics {
            at,
            released: 0,
            lost: 0,
            alive: 0,
            preempted: 0,
            computed: 0,
            responses: Vec::new(alloc),
            computed_to_end: 0,
            slept_to_end: 0,
            deadline,
            missed: 0,
            first_missed: None,
        }
    }

    /// Counts a release.
    pub(crate) fn release(&mut self)
        ensures { self.new ≡ record self.old { released = counted (self.old.released + 1) } }
    {
        self.released = self.released.saturating_add(1);
    }

    /// Adds a life that is over.
    pub(crate) fn leave(&mut self, life: &JobLife) -> Result<(), AllocError>
        ensures counts { OnOk result ((all : List JobLife) → IsAddress all self.old
            → IsAddress (all ++ life.now ∷ []) self.new) }
        ensures stays { (self.new.at ≡ self.old.at) × ((self.new.released ≡ self.old.released)
            × (self.new.deadline ≡ self.old.deadline)) }
    {
        let job = &life.job;
        self.lost = self.lost.saturating_add(life.if_by(LifeEnd::Lost, 1));
        self.alive = self.alive.saturating_add(life.if_by(LifeEnd::Alive, 1));
        self.preempted = self.preempted.saturating_add(job.preempted);
        self.computed = self.computed.saturating_add(job.computed);
        let computed = life.if_by(LifeEnd::Ended, job.computed);
        let slept = life.if_by(LifeEnd::Ended, job.slept);
        self.computed_to_end = self.computed_to_end.saturating_add(computed);
        self.slept_to_end = self.slept_to_end.saturating_add(slept);
        let missed = life.missed_deadline(self.deadline);
        self.missed = self.missed.saturating_add(one_if(missed.is_some()));
        self.first_missed = earliest(self.first_missed, missed);
        note_response(&mut self.responses, life)
    }

    /// Sorts the response times.
    pub(crate) fn sort(&mut self) -> Result<(), AllocError>
        ensures sorted { OnOk result (IsNonDecreasing self.new.responses.items) }
        ensures stays { (deadlines : ℕ → Option ℕ) (releases : List ℕ) (lives : List JobLife)
            → IsRow deadlines releases lives self.old → IsRow deadlines releases lives self.new }
        ensures address { self.new.at ≡ self.old.at }
    {
        self.responses.sort()
    }

    /// The means of the jobs that ended; None if none did.
    pub fn mean_times(&self) -> Option<MeanTimes>
        ensures { result ≡ mean_times self.now }
    {
        let times = self.responses.as_slice();
        let count = times.len() as u64;
        if count == 0 {
            return None;
        }
        let total = total(times);
        let waited = total
            .saturating_sub(self.computed_to_end)
            .saturating_sub(self.slept_to_end);
        Some(MeanTimes {
            response: total / count,
            computed: self.computed_to_end / count,
            waited: waited / count,
            slept: self.slept_to_end / count,
        })
    }

    /// The least of the response times, once they are sorted, that this percentage of them doesn't
    /// exceed; None if there are none.
    pub fn percentile(&self, percent: usize) -> Option<u64>
        ensures { result ≡ nearest_rank percent self.now.responses.items }
    {
        let times = self.responses.as_slice();
        let rank = times.len().saturating_mul(percent).saturating_add(99) / 100;
        times.get(rank.saturating_sub(1)).copied()
    }
}
