//! The statistics of a run.
ghost use Rattle.std.specs.Prelude.{◌≡◌, List, [], None, is_some};
ghost use Rattle.agc_machine.specs.Machines.{Machined, begins_with};
ghost use Rattle.agc_stats.specs.Runs.{AreStatistics, Entry, entry_of, occupancy_now, with_era};
ghost use Rattle.agc_stats.specs.Steps.{IsAnswered, IsBegun, IsNoted, IsOneMore, with_alarm};

use crate::era::{EndedEra, EraBoundary, EraStatistics, ServedRequest};
use crate::occupancy::{Occupancy, occupancy_of};
use agc_machine::{Machine, Refusal};
use agc_plan::{Alarm, Reply, Request};

/// The first alarm of a run, and the centisecond at which it came.
#[derive(Clone, Copy)]
pub struct FirstAlarm {
    pub alarm: Alarm,
    pub time: u64,
}

/// The first alarm of a run and how many came, and the most core sets, areas and places of the
/// Waitlist that were taken at once.
#[derive(Clone, Copy)]
pub struct RunPeaks {
    pub first_alarm: Option<FirstAlarm>,
    pub alarms: u64,
    pub sets: u64,
    pub areas: u64,
    pub tasks: u64,
}

impl RunPeaks {
    /// Those of no era.
    pub fn none() -> RunPeaks
        ensures { result
            ≡ record { first_alarm = None; alarms = 0; sets = 0; areas = 0; tasks = 0 } }
    {
        RunPeaks {
            first_alarm: None,
            alarms: 0,
            sets: 0,
            areas: 0,
            tasks: 0,
        }
    }

    /// Adds the peaks of an era.
    fn include(&mut self, era: &EraStatistics)
        ensures { self.new ≡ with_era era.now self.old }
    {
        self.sets = self.sets.max(era.sets.count);
        self.areas = self.areas.max(era.areas.count);
        self.tasks = self.tasks.max(era.tasks.count);
    }

    /// Notes an alarm at a centisecond, if there is one.
    fn note_alarm(&mut self, alarm: Option<Alarm>, time: u64)
        ensures { self.new ≡ with_alarm alarm time self.old }
    {
        match alarm {
            None => {}
            Some(alarm) => {
                let first_alarm = FirstAlarm { alarm, time };
                self.first_alarm = self.first_alarm.or(Some(first_alarm));
                self.alarms = self.alarms.saturating_add(1);
            }
        }
    }
}

/// A request, its answer, how full the tables were as it left them, before an era began with it,
/// and the computing that is lost if one did, in hundredths of a centisecond.
#[derive(Clone, Copy)]
pub(crate) struct AnsweredRequest<'a> {
    pub(crate) request: &'a Request,
    pub(crate) answer: &'a Result<Reply, Refusal>,
    pub(crate) left: Occupancy,
    pub(crate) lost: u64,
}

/// The statistics of a run.
#[derive(Clone, Copy)]
pub struct RunStatistics {
    /// Ticks that were served, requests that came, and those of them that were refused.
    pub time: u64,
    pub requests: u64,
    pub refused: u64,
    /// The longest that the log has been.
    pub longest: u32,
    /// How full the tables are.
    occupancy: Occupancy,
    /// The present era: its number, by what it began, and its statistics.
    pub number: u64,
    by: EraBoundary,
    era: EraStatistics,
    /// The peaks of all eras that have ended.
    peaks: RunPeaks,
}

impl RunStatistics {
    /// The statistics of a machine before the first request.
    pub fn new(machine: &Machine) -> RunStatistics
        ensures statistics { AreStatistics machine.now [] result }
        ensures time { result.time ≡ 0 }
        ensures occupancy { result.occupancy ≡ occupancy_now machine.now }
    {
        let occupancy = occupancy_of(machine.erasable());
        RunStatistics {
            time: 0,
            requests: 0,
            refused: 0,
            longest: 0,
            occupancy,
            number: 1,
            by: EraBoundary::Start,
            era: EraStatistics::new(0, occupancy),
            peaks: RunPeaks::none(),
        }
    }

    /// The present era, if this ends it and so much computing is lost with that.
    pub fn present_era(&self, end: EraBoundary, lost: u64) -> EndedEra
        ensures number { result.number ≡ self.now.number }
        ensures by { result.by ≡ self.now.by }
        ensures ended { result.ended ≡ self.now.time }
        ensures end { result.end ≡ end }
        ensures era { result.statistics ≡ self.now.era }
        ensures lost { result.lost ≡ lost }
    {
        EndedEra {
            number: self.number,
            by: self.by,
            ended: self.time,
            end,
            statistics: self.era,
            lost,
        }
    }

    /// The peaks of all eras, including the present one.
    pub fn peaks(&self) -> RunPeaks
        ensures { result ≡ with_era self.now.era self.now.peaks }
    {
        let mut peaks = self.peaks;
        peaks.include(&self.era);
        peaks
    }

    /// Counts a request that was served, which left the tables this full before an era began with
    /// it, and after which the log had so many requests.
    fn note(&mut self, request: &Request, left: Occupancy, logged: u32)
        ensures { IsNoted request.now left logged self.old self.new }
    {
        let ticks = u64::from(request.is_tick());
        self.time = self.time.saturating_add(ticks);
        self.era.serve(&ServedRequest {
            request: *request,
            time: self.time,
            before: self.occupancy,
            left,
        });
        self.occupancy = left;
        self.longest = self.longest.max(logged);
    }

    /// Begins an era with this request, by an alarm or without one. Returns the one that ended.
    fn begin(
        &mut self,
        machine: &Machine,
        answered: &AnsweredRequest<'_>,
        alarm: Option<Alarm>,
    ) -> EndedEra
        ensures { IsBegun answered.now.request.now alarm (occupancy_now machine.now) self.old
            self.new result }
    {
        let boundary = EraBoundary::of(answered.request, alarm);
        let ended = self.present_era(boundary, answered.lost);
        self.peaks.note_alarm(alarm, self.time);
        self.peaks.include(&self.era);
        self.occupancy = occupancy_of(machine.erasable());
        self.number = self.number.saturating_add(1);
        self.by = boundary;
        self.era = EraStatistics::new(self.time, self.occupancy);
        ended
    }

    /// Counts a request that this machine was asked for. Returns the era that ended with it.
    pub(crate) fn note_answer(
        &mut self,
        machine: &Machine,
        answered: &AnsweredRequest<'_>,
    ) -> Option<EndedEra>
        ensures ends { is_some result ≡ begins_with answered.now.answer.now }
        ensures counts { (start : Machined) (es : List Entry) (m : Machined)
            → AreStatistics start es self.old → self.old.occupancy ≡ occupancy_now m
            → IsAnswered m answered.now.request.now machine.now answered.now.answer.now
            answered.now.left
            → IsOneMore start es (entry_of m self.old.time answered.now.request.now) self.new
            result }
    {
        self.requests = self.requests.saturating_add(1);
        match answered.answer {
            Err(_refusal) => {
                self.refused = self.refused.saturating_add(1);
                None
            }
            Ok(reply) => {
                self.note(answered.request, answered.left, machine.log_len());
                if reply.begins() {
                    Some(self.begin(machine, answered, reply.alarm()))
                } else {
                    None
                }
            }
        }
    }
}
