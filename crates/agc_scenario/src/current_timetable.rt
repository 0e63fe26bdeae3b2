//! A timetable, given the alarms so far.
ghost use Rattle.std.specs.Prelude.{◌≡◌};
ghost use Rattle.agc_scenario.specs.Scenarios.{schedule_of};

use crate::timing::Timing;
use agc_clock::{Alarms, Cost, Stolen, Times, Timetables};
use agc_plan::Request;

/// How time passes in a scenario, given the alarms so far: an event that counts from an alarm that
/// didn't come doesn't come either.
#[derive(Clone, Copy)]
pub struct CurrentTimetable<'a> {
    pub timing: &'a Timing,
    pub alarms: Alarms,
}

impl<'a> Timetables for CurrentTimetable<'a> {
    ghost set_down = { λ s. schedule_of s.timing.now s.alarms };

    fn lasts(&self) -> u32 {
        let timing = self.timing;
        timing.seconds * 100
    }

    fn stolen(&self) -> &[Stolen] {
        let timing = self.timing;
        timing.stolen.as_slice()
    }

    fn costs(&self) -> usize {
        let timing = self.timing;
        timing.jobs.len()
    }

    fn cost(&self, row: usize) -> Option<Cost> {
        let timing = self.timing;
        match timing.jobs.get(row) {
            None => None,
            Some(job) => Some(job.hundredths()),
        }
    }

    fn events(&self) -> usize {
        let timing = self.timing;
        timing.events.len()
    }

    fn times(&self, event: usize) -> Option<Times> {
        let timing = self.timing;
        match timing.events.get(event) {
            None => None,
            Some(event) => Some(event.times(timing.seconds * 100, &self.alarms)),
        }
    }

    fn requests(&self, event: usize) -> usize {
        let timing = self.timing;
        match timing.events.get(event) {
            None => 0,
            Some(event) => event.requests.len(),
        }
    }

    fn request(&self, event: usize, index: usize) -> Option<Request> {
        let timing = self.timing;
        match timing.events.get(event) {
            None => None,
            Some(event) => event.requests.get(index).copied(),
        }
    }
}
