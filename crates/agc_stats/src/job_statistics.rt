//! The statistics of jobs by their addresses, and how the time of each era was used.
ghost use Rattle.std.specs.Prelude.{◌≡◌, ◌+◌, ◌<◌, [], ◌∷◌, ◌++◌, ℕ, List, Option, OnOk};
ghost use Rattle.std.specs.Prelude.{IfOk, IfSome, None, is_some, replicate, true};
ghost use Rattle.std.specs.List.{All};
ghost use Rattle.std.specs.List.Sorted.{IsNonDecreasing};
ghost use Rattle.std.specs.Option.{option_to_list};
ghost use Rattle.agc_clock.specs.declared.elapsed.Elapsed.{Elapsed};
ghost use Rattle.agc_stats.specs.Addresses.{AreRows, IsAddress, releases_at};
ghost use Rattle.agc_stats.specs.Eras.{all_used, used_in};
ghost use Rattle.agc_stats.specs.Followed.{AreFollowed, AreJobs, AreJobsUpTo, IsNextEra};
ghost use Rattle.agc_stats.specs.Followed.{IsSameTime, begun};
ghost use Rattle.agc_stats.specs.Followed.{deadline_among, deadline_in};
ghost use Rattle.agc_stats.specs.Followed.{deadlines_of, next_snapshot, noted_by, passed_by};
ghost use Rattle.agc_stats.specs.declared.live_jobs.JobLife.{JobLife};
ghost use Rattle.agc_stats.specs.declared.live_jobs.LifeEnd.TheVariants.{Alive};
ghost use Rattle.agc_stats.specs.declared.live_jobs.Snapshot.{Snapshot};

use crate::address_statistics::AddressStatistics;
use crate::addresses::{count_life, count_release, sort_rows};
use crate::era_time::EraTime;
use crate::live_jobs::{
    Hundredths, JobLife, LifeEnd, LiveJob, MOST, ObservedJobs, Snapshot, follow, leave, release,
};
use agc_clock::{Clock, Elapsed};
use agc_scenario::{TimedJob, Timing};
use std::alloc::{AllocError, Global};

/// The time that passed between two snapshots, and how much of it was computed.
#[derive(Clone, Copy)]
pub(crate) struct PassedTime {
    pub(crate) time: u64,
    pub(crate) computed: u64,
}

impl PassedTime {
    /// No time.
    pub(crate) fn none() -> PassedTime
        ensures { result ≡ record { time = 0; computed = 0 } }
    {
        PassedTime {
            time: 0,
            computed: 0,
        }
    }

    /// The time that passed by a clock or, without one, with a tick.
    pub(crate) fn by(elapsed: Elapsed, ticks: bool) -> PassedTime
        ensures { result ≡ passed_by elapsed ticks }
    {
        let computed = u64::from(elapsed.computed);
        let rest = u64::from(elapsed.stolen) + u64::from(elapsed.idle);
        let tick = if ticks { 100 } else { 0 };
        PassedTime {
            time: computed + rest + tick,
            computed,
        }
    }
}

/// The statistics of a run's jobs: those that are alive; those of each address, in the order in
/// which the first of each was released; and the time of each era.
#[derive(Drop)]
pub struct JobStatistics<'a> {
    alloc: Global,
    timing: Option<&'a Timing>,
    live_jobs: [Option<LiveJob>; MOST],
    pub rows: Vec<AddressStatistics>,
    /// The time of each era that is over, and of the present one.
    pub eras: Vec<EraTime>,
    era: EraTime,
    /// The time of the last snapshot.
    pub instant: Hundredths,
    /// The present centisecond.
    pub time: u64,
}

/// The deadline of a job, in hundredths of a centisecond, if it has one.
fn deadline_in(job: &TimedJob) -> Option<u64>
    ensures { result ≡ deadline_in job.now }
{
    match job.deadline() {
        None => None,
        Some(deadline) => Some(u64::from(deadline) * 100),
    }
}

/// The deadline of an address's jobs, if one of these jobs has it.
fn deadline_among(jobs: &[TimedJob], at: u16) -> Option<u64>
    ensures { result ≡ deadline_among jobs.now at }
{
    for job in jobs {
        if job.at().get() == at {
            return deadline_in(job);
        }
    }
    None
}

/// The deadline of an address's jobs, if a scenario gives one.
fn deadline_at(timing: Option<&Timing>, at: u16) -> Option<u64>
    ensures { result ≡ deadlines_of timing.entry at }
{
    match timing {
        None => None,
        Some(timing) => deadline_among(timing.jobs(), at),
    }
}

impl<'a> JobStatistics<'a> {
    /// Statistics before the first snapshot.
    fn none(alloc: Global, timing: Option<&'a Timing>) -> JobStatistics<'a>
        ensures followed { AreFollowed [] result }
        ensures timing { result.timing ≡ timing.entry }
        ensures eras { (result.eras.items ≡ []) × (used_in result.era ≡ all_used []) }
    {
        JobStatistics {
            alloc,
            timing,
            live_jobs: [None; MOST],
            rows: Vec::new(alloc),
            eras: Vec::new(alloc),
            era: EraTime::new(0),
            instant: 0,
            time: 0,
        }
    }

    /// Statistics that begin with the jobs that are there before the first request.
    pub(crate) fn new(
        alloc: Global,
        timing: Option<&'a Timing>,
        jobs: &ObservedJobs,
    ) -> Result<JobStatistics<'a>, AllocError>
        ensures followed { IfOk result (λ s. AreFollowed (begun jobs.now []) s) }
        ensures timing { IfOk result (λ s. s.timing ≡ timing.entry) }
        ensures eras { IfOk result (λ s. (s.eras.items ≡ []) × (used_in s.era ≡ all_used [])) }
    {
        let mut job_statistics = JobStatistics::none(alloc, timing);
        job_statistics.see_era(jobs)?;
        Ok(job_statistics)
    }

    /// The jobs of no address.
    pub fn no_address(&self) -> AddressStatistics
        ensures { IsAddress [] result }
    {
        AddressStatistics::at(self.alloc, 0, None)
    }

    /// Whether time passes by a clock.
    pub(crate) fn has_clock(&self) -> bool
        ensures { result ≡ is_some self.now.timing }
    {
        self.timing.is_some()
    }

    /// Adds the time that passed by a clock, if there is one, or with a tick, to that of the era.
    pub(crate) fn pass(&mut self, elapsed: Elapsed, clock: Option<&Clock>, ticks: bool)
        ensures live_jobs { self.new.live_jobs ≡ self.old.live_jobs }
        ensures rows { self.new.rows ≡ self.old.rows }
        ensures timing { self.new.timing ≡ self.old.timing }
        ensures instant { self.new.instant ≡ self.old.instant }
        ensures eras { self.new.eras ≡ self.old.eras }
        ensures era { (all : List Elapsed) → used_in self.old.era ≡ all_used all
            → used_in self.new.era ≡ all_used (all ++ elapsed ∷ []) }
    {
        self.era.pass(elapsed);
        if let Some(clock) = clock {
            self.time = u64::from(clock.time());
        } else if ticks {
            self.time = self.time.saturating_add(1);
        }
    }

    /// Counts a release, if there is one.
    fn count_release(&mut self, at: Option<u16>) -> Result<(), AllocError>
        ensures rows { OnOk result ((releases : List ℕ) (lives : List JobLife)
            → AreRows (deadlines_of self.old.timing) releases lives self.old.rows.items
            → AreRows (deadlines_of self.old.timing) (releases ++ option_to_list at) lives
            self.new.rows.items) }
        ensures stays { (self.new.live_jobs ≡ self.old.live_jobs)
            × (self.new.timing ≡ self.old.timing) }
        ensures instant { self.new.instant ≡ self.old.instant }
        ensures eras { IsSameTime self.old self.new }
    {
        match at {
            None => Ok(()),
            Some(at) => {
                let deadline = deadline_at(self.timing, at);
                count_release(&mut self.rows, self.alloc, at, deadline)
            }
        }
    }

    /// Counts a life that is over, if there is one.
    fn count_life(&mut self, life: Option<JobLife>) -> Result<(), AllocError>
        ensures rows { OnOk result ((releases : List ℕ) (lives : List JobLife)
            → IfSome life (λ l. 0 < releases_at l.job.at releases)
            → AreRows (deadlines_of self.old.timing) releases lives self.old.rows.items
            → AreRows (deadlines_of self.old.timing) releases (lives ++ option_to_list life)
            self.new.rows.items) }
        ensures stays { (self.new.live_jobs ≡ self.old.live_jobs)
            × (self.new.timing ≡ self.old.timing) }
        ensures instant { self.new.instant ≡ self.old.instant }
        ensures eras { IsSameTime self.old self.new }
    {
        match life {
            None => Ok(()),
            Some(life) => count_life(&mut self.rows, &life),
        }
    }

    /// Compares the job of a number in a snapshot with the one before.
    fn note_number(&mut self, place: usize, snapshot: &Snapshot) -> Result<(), AllocError>
        requires { place < 8 }
        ensures jobs { OnOk result ((history : List Snapshot)
            → AreJobsUpTo place snapshot.now history self.old
            → AreJobsUpTo (place + 1) snapshot.now history self.new) }
        ensures timing { self.new.timing ≡ self.old.timing }
        ensures instant { self.new.instant ≡ self.old.instant }
        ensures eras { IsSameTime self.old self.new }
    {
        let live_job = self.live_jobs[place];
        let job_state = snapshot.jobs[place];
        self.count_release(release(live_job, job_state))?;
        self.count_life(leave(live_job, snapshot, job_state))?;
        self.live_jobs[place] = follow(live_job, snapshot, job_state);
        Ok(())
    }

    /// Notes the next snapshot.
    fn note(&mut self, snapshot: &Snapshot) -> Result<(), AllocError>
        ensures jobs { OnOk result ((history : List Snapshot) → AreJobs history self.old
            → AreJobs (snapshot.now ∷ history) self.new) }
        ensures timing { self.new.timing ≡ self.old.timing }
        ensures instant { self.new.instant ≡ self.old.instant }
        ensures eras { IsSameTime self.old self.new }
    {
        for place in 0..MOST {
            self.note_number(place, snapshot)?;
        }
        Ok(())
    }

    /// Notes the jobs after some time. Those that aren't alive any more are gone like this.
    pub(crate) fn see(
        &mut self,
        passed: PassedTime,
        end: LifeEnd,
        jobs: &ObservedJobs,
    ) -> Result<(), AllocError>
        ensures followed { OnOk result ((history : List Snapshot) → AreFollowed history self.old
            → AreFollowed (next_snapshot passed end jobs.now history ∷ history) self.new) }
        ensures timing { self.new.timing ≡ self.old.timing }
        ensures eras { IsSameTime self.old self.new }
    {
        self.instant = self.instant.saturating_add(passed.time);
        let snapshot = Snapshot {
            time: self.instant,
            passed: passed.time,
            computed: passed.computed,
            end,
            jobs: *jobs,
        };
        self.note(&snapshot)
    }

    /// Notes the beginning of an era with these jobs: those that were alive are lost.
    fn see_era(&mut self, jobs: &ObservedJobs) -> Result<(), AllocError>
        ensures followed { OnOk result ((history : List Snapshot) → AreFollowed history self.old
            → AreFollowed (begun jobs.now history) self.new) }
        ensures timing { self.new.timing ≡ self.old.timing }
        ensures eras { IsSameTime self.old self.new }
    {
        self.see(PassedTime::none(), LifeEnd::Lost, &[None; MOST])?;
        self.see(PassedTime::none(), LifeEnd::Ended, jobs)
    }

    /// Ends the era.
    fn end_era(&mut self) -> Result<(), AllocError>
        ensures eras { OnOk result (self.new.eras.items
            ≡ self.old.eras.items ++ self.old.era ∷ []) }
        ensures era { OnOk result (used_in self.new.era ≡ all_used []) }
        ensures jobs { (self.new.live_jobs ≡ self.old.live_jobs)
            × ((self.new.rows ≡ self.old.rows) × (self.new.instant ≡ self.old.instant)) }
        ensures timing { self.new.timing ≡ self.old.timing }
    {
        self.eras.push(self.era)?;
        self.era = EraTime::new(self.time);
        Ok(())
    }

    /// Begins an era with these jobs.
    fn begin_era(&mut self, jobs: &ObservedJobs) -> Result<(), AllocError>
        ensures followed { OnOk result ((history : List Snapshot) → AreFollowed history self.old
            → AreFollowed (begun jobs.now history) self.new) }
        ensures timing { self.new.timing ≡ self.old.timing }
        ensures eras { OnOk result (IsNextEra true self.old self.new) }
    {
        self.end_era()?;
        self.see_era(jobs)
    }

    /// Notes the end of the run after some time: the jobs that were alive are so still.
    pub(crate) fn end(&mut self, passed: PassedTime) -> Result<(), AllocError>
        ensures followed { OnOk result ((history : List Snapshot) → AreFollowed history self.old
            → AreFollowed (next_snapshot passed Alive (replicate 8 None) history ∷ history)
            self.new) }
        ensures timing { self.new.timing ≡ self.old.timing }
        ensures eras { OnOk result (self.new.eras.items
            ≡ self.old.eras.items ++ self.old.era ∷ []) }
    {
        self.end_era()?;
        self.see(passed, LifeEnd::Alive, &[None; MOST])
    }

    /// Notes a request: what passed before it, the jobs as it left them, and those of the era that
    /// began with it, if one did.
    pub(crate) fn serve(
        &mut self,
        passed: PassedTime,
        left: &ObservedJobs,
        era: Option<ObservedJobs>,
    ) -> Result<(), AllocError>
        ensures followed { OnOk result ((history : List Snapshot) → AreFollowed history self.old
            → AreFollowed (noted_by passed left.now era history) self.new) }
        ensures timing { self.new.timing ≡ self.old.timing }
        ensures eras { OnOk result (IsNextEra (is_some era) self.old self.new) }
    {
        self.see(passed, LifeEnd::Ended, left)?;
        match era {
            None => Ok(()),
            Some(jobs) => self.begin_era(&jobs),
        }
    }

    /// Sorts the times of the jobs that ended.
    pub(crate) fn sort(&mut self) -> Result<(), AllocError>
        ensures followed { OnOk result ((history : List Snapshot) → AreFollowed history self.old
            → AreFollowed history self.new) }
        ensures sorted { OnOk result
            (All (λ row. IsNonDecreasing row.responses.items) self.new.rows.items) }
        ensures timing { self.new.timing ≡ self.old.timing }
        ensures eras { self.new.eras ≡ self.old.eras }
    {
        sort_rows(&mut self.rows)
    }
}
