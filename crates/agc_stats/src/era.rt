//! The statistics of an era.
ghost use Rattle.std.specs.Prelude.{◌≡◌, ℕ, List, [], ◌∷◌, ◌++◌, nat_lt, if◌then◌else◌};
ghost use Rattle.agc_stats.specs.Boundaries.{boundary_of, is_fresh};
ghost use Rattle.agc_stats.specs.Eras.{IsEra, higher, is_idle};
ghost use Rattle.agc_stats.specs.declared.occupancy.Occupancy.{Occupancy};
ghost use Rattle.agc_stats.specs.declared.era.ServedRequest.{ServedRequest};

use crate::occupancy::Occupancy;
use agc_plan::{Alarm, Request};

/// A request that was served, the centisecond at which it was, and how full the tables were before
/// it and as it left them, before an era began with it.
#[derive(Clone, Copy)]
pub(crate) struct ServedRequest {
    pub(crate) request: Request,
    pub(crate) time: u64,
    pub(crate) before: Occupancy,
    pub(crate) left: Occupancy,
}

impl ServedRequest {
    /// 1 where it is a tick at which no job was running, else 0.
    fn idle_ticks(&self) -> u64
        ensures { result ≡ (if is_idle self.now then 1 else 0) }
    {
        match self.request {
            Request::Tick if !self.before.runs => 1,
            _ => 0,
        }
    }
}

/// The greatest count, and the centisecond since which it was reached.
#[derive(Clone, Copy)]
pub struct Peak {
    pub count: u64,
    pub since: u64,
}

impl Peak {
    /// Notes a count at a centisecond, to keep the greatest.
    fn include(&mut self, count: u64, time: u64)
        ensures { self.new ≡ higher count time self.old }
    {
        if count > self.count {
            self.count = count;
            self.since = time;
        }
    }

    /// The peak of one count, at a centisecond.
    fn of(count: u64, time: u64) -> Peak
        ensures { result ≡ higher count time (record { count = 0; since = 0 }) }
    {
        let mut peak = Peak { count: 0, since: 0 };
        peak.include(count, time);
        peak
    }
}

/// The reason why an era begins or ends.
#[derive(Clone, Copy)]
pub enum EraBoundary {
    Start,
    Alarm(Alarm),
    Restart,
    FreshStart,
    End,
}

/// Whether a request is a fresh start.
fn is_fresh(request: &Request) -> bool
    ensures { result ≡ is_fresh request.now }
{
    *request == Request::Fresh
}

impl EraBoundary {
    /// The boundary that a request with this alarm makes.
    pub(crate) fn of(request: &Request, alarm: Option<Alarm>) -> EraBoundary
        ensures { result ≡ boundary_of request.now alarm }
    {
        match alarm {
            Some(alarm) => EraBoundary::Alarm(alarm),
            None => {
                if is_fresh(request) {
                    EraBoundary::FreshStart
                } else {
                    EraBoundary::Restart
                }
            }
        }
    }
}

/// The statistics of an era. Times are centiseconds since the start.
#[derive(Clone, Copy)]
pub struct EraStatistics {
    pub began: u64,
    pub requests: u64,
    pub jobs_begun: u64,
    pub jobs_ended: u64,
    pub sets: Peak,
    pub areas: Peak,
    pub tasks: Peak,
    /// Ticks at which no job was running.
    pub idle: u64,
}

impl EraStatistics {
    /// An era that begins now, with tables this full.
    pub(crate) fn new(began: u64, first: Occupancy) -> EraStatistics
        ensures { IsEra began first [] result }
    {
        EraStatistics {
            began,
            requests: 0,
            jobs_begun: first.sets,
            jobs_ended: 0,
            sets: Peak::of(first.sets, began),
            areas: Peak::of(first.areas, began),
            tasks: Peak::of(first.tasks, began),
            idle: 0,
        }
    }

    /// Notes a request that was served.
    pub(crate) fn serve(&mut self, served: &ServedRequest)
        ensures { (began : ℕ) (first : Occupancy) (records : List ServedRequest)
            → IsEra began first records self.old
            → IsEra began first (records ++ served.now ∷ []) self.new }
    {
        let (before, left) = (served.before, served.left);
        let begun = left.sets.saturating_sub(before.sets);
        let ended = before.sets.saturating_sub(left.sets);
        let idle = served.idle_ticks();
        self.requests = self.requests.saturating_add(1);
        self.jobs_begun = self.jobs_begun.saturating_add(begun);
        self.jobs_ended = self.jobs_ended.saturating_add(ended);
        self.idle = self.idle.saturating_add(idle);
        self.sets.include(left.sets, served.time);
        self.areas.include(left.areas, served.time);
        self.tasks.include(left.tasks, served.time);
    }
}

/// An era that ended: its number, by what it began, the centisecond at which it ended, by what, its
/// statistics, and the computing that was lost with that, in hundredths of a centisecond.
#[derive(Clone, Copy)]
pub struct EndedEra {
    pub number: u64,
    pub by: EraBoundary,
    pub ended: u64,
    pub end: EraBoundary,
    pub statistics: EraStatistics,
    pub lost: u64,
}
