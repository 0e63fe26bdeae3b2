//! The progress of work, reported in a line a second.
use agc_session::Progress;
use std::io::IsTerminal;
use std::time::{Duration, Instant};

/// The things that are counted.
#[derive(Clone, Copy)]
pub(crate) enum WorkUnit {
    Requests,
    Runs,
    States,
}

impl WorkUnit {
    /// Their name, in the plural.
    fn name(self) -> &'static str {
        match self {
            WorkUnit::Requests => "requests",
            WorkUnit::Runs => "runs",
            WorkUnit::States => "states",
        }
    }

    /// Whether the clock is read at this count.
    fn reads_clock_at(self, count: u64) -> bool {
        match self {
            WorkUnit::Requests | WorkUnit::States => count % 1024 == 0,
            WorkUnit::Runs => true,
        }
    }

    /// Whether all that is written comes after the work, so that a report can't stand within it.
    fn ends_before_output(self) -> bool {
        match self {
            WorkUnit::States => true,
            WorkUnit::Requests | WorkUnit::Runs => false,
        }
    }
}

/// A reporter of progress on standard error, once a second. It reports nothing if it isn't known
/// when the work began.
#[derive(Drop)]
pub(crate) struct ProgressReporter<'a> {
    rt: &'a HostRuntime,
    begun: Option<Instant>,
    seconds: u64,
    work_unit: WorkUnit,
    expected: u64,
    count: u64,
}

impl<'a> ProgressReporter<'a> {
    /// Starts now, and counts these. Progress is reported if it is wanted, and on a terminal where
    /// no report can stand within a table.
    pub(crate) fn new(
        rt: &'a HostRuntime,
        work_unit: WorkUnit,
        is_wanted: bool,
    ) -> ProgressReporter<'a> {
        let is_apart = work_unit.ends_before_output() || !rt.stdout().is_terminal();
        let begun = if is_wanted || (rt.stderr().is_terminal() && is_apart) {
            Instant::now(rt).ok()
        } else {
            None
        };
        ProgressReporter {
            rt,
            begun,
            seconds: 0,
            work_unit,
            expected: 0,
            count: 0,
        }
    }

    /// How long the work has taken, if a second has passed since the last report.
    fn elapsed(&mut self) -> Option<Duration> {
        let elapsed = self.begun?.elapsed(self.rt).ok()?;
        let is_due = elapsed.as_secs() > self.seconds;
        if is_due {
            self.seconds = elapsed.as_secs();
        }
        is_due.then_some(elapsed)
    }

    /// Reports the count, if a second has passed.
    fn report(&mut self) {
        if self.elapsed().is_none() {
            return;
        }
        let (count, expected, name) = (self.count, self.expected, self.work_unit.name());
        let _ = if expected == 0 {
            eprintln!(self.rt; "agc_watch: {count} {name}")
        } else {
            eprintln!(self.rt; "agc_watch: {count} of {expected} {name}")
        };
    }
}

/// The count per second.
fn rate_of(count: u64, elapsed: Duration) -> u64 {
    let millis = u64::try_from(elapsed.as_millis()).unwrap_or(u64::MAX);
    count.saturating_mul(1000).checked_div(millis).unwrap_or(0)
}

impl Progress for ProgressReporter<'_> {
    fn expect(&mut self, count: u64) {
        self.expected = self.expected.saturating_add(count);
    }

    fn done(&mut self) {
        self.count = self.count.saturating_add(1);
        if self.work_unit.reads_clock_at(self.count) && self.count != self.expected {
            self.report();
        }
    }
}

impl agc_explore::SearchProgress for ProgressReporter<'_> {
    fn note(&mut self, states: usize, depth: usize) {
        self.count = self.count.wrapping_add(1);
        if self.work_unit.reads_clock_at(self.count) {
            if let Some(elapsed) = self.elapsed() {
                let rate = rate_of(states as u64, elapsed);
                let _ = eprintln!(self.rt;
                    "agc_watch: {states} states, {depth} requests deep, {rate} a second"
                );
            }
        }
    }
}
