//! The smallest value of a scenario's number that raises an alarm.
use crate::sweep::{Axis, SweepWriter, runs_of, values_of};
use agc_scenario::Scenario;
use agc_session::RunFault;
use agc_stats::RunPeaks;
use agc_table::TableForm;
use agc_text::Field::Number;
use std::alloc::Global;
use std::io::Write;

/// The outcome of a search.
#[derive(Clone, Copy)]
pub enum FindOutcome {
    /// No value raises an alarm.
    None,
    /// One does. If a smaller one that wasn't tried may raise one, too, because a larger one raises
    /// none, it is this.
    Found(Option<u64>),
}

/// A value that was tried, by its place from 0, and the peaks of its run.
#[derive(Clone, Copy)]
struct Trial {
    place: u64,
    peaks: RunPeaks,
}

/// A search among the values of a number, the only one of a sweep, and those that were tried, in
/// order.
#[derive(Drop)]
struct Search<'a> {
    sweep: SweepWriter<'a>,
    trials: Vec<Trial>,
}

impl Search<'_> {
    /// The place of the last value.
    fn last(&self) -> u64 {
        runs_of(self.sweep.axes).saturating_sub(1)
    }

    /// The value at a place.
    fn value(&self, place: u64) -> u64 {
        let values = values_of(self.sweep.axes, place);
        values[0]
    }

    /// Whether the value at a place raised an alarm, if it was tried.
    fn known_result(&self, place: u64) -> Option<bool> {
        for trial in self.trials.iter() {
            if trial.place == place {
                return Some(trial.peaks.alarms > 0);
            }
        }
        None
    }

    /// Whether the value at a place raises an alarm; if it wasn't tried before, it is run.
    fn raises(&mut self, scenario: &mut Scenario, place: u64) -> Result<bool, RunFault> {
        if let Some(is_alarmed) = self.known_result(place) {
            return Ok(is_alarmed);
        }
        let peaks = self.sweep.run(scenario, place)?;
        let before = self.trials.iter().take_while(|trial| trial.place < place);
        let index = before.count();
        self.trials.insert(index, Trial { place, peaks })?;
        Ok(peaks.alarms > 0)
    }

    /// A place whose value raises an alarm. The first place is tried, then the last, and then those
    /// at three quarters, half and a quarter of the way.
    fn first_raising(&mut self, scenario: &mut Scenario) -> Result<Option<u64>, RunFault> {
        let last = self.last();
        for place in [0, last, last.saturating_sub(last / 4), last / 2, last / 4] {
            if self.raises(scenario, place)? {
                return Ok(Some(place));
            }
        }
        Ok(None)
    }

    /// Halves the way down from a place whose value raises an alarm. The value of the place that is
    /// returned raises one, too, and the value before it, if there is one, raises none.
    fn bisect(&mut self, scenario: &mut Scenario, raising: u64) -> Result<u64, RunFault> {
        let mut low: u64 = 0;
        let mut high = raising;
        for _half in 0..64u32 {
            let middle = low.saturating_add(high.saturating_sub(low) / 2);
            if middle > low {
                if self.raises(scenario, middle)? {
                    high = middle;
                } else {
                    low = middle;
                }
            }
        }
        Ok(high)
    }

    /// Tries a few larger values.
    fn try_larger(&mut self, scenario: &mut Scenario, found: u64) -> Result<(), RunFault> {
        let last = self.last();
        let half = found.saturating_add(last.saturating_sub(found) / 2);
        let next = found.saturating_add(1);
        for place in [next, next.saturating_add(1), half, last] {
            if place <= last {
                let _known = self.raises(scenario, place)?;
            }
        }
        Ok(())
    }

    /// The least value, above the one that was found, that was tried and raises no alarm, if a
    /// smaller value than that wasn't tried.
    fn exception(&self, found: u64) -> Option<u64> {
        let smaller = self.trials.iter().take_while(|trial| trial.place < found);
        if smaller.count() as u64 == found {
            return None;
        }
        let is_quiet = |trial: &&Trial| trial.place > found && trial.peaks.alarms == 0;
        let trial = self.trials.iter().find(is_quiet)?;
        Some(self.value(trial.place))
    }

    /// Adds how many values were tried, and the one that was found.
    fn put_summary(&mut self, found: Option<u64>) {
        let tried = Number(self.trials.len() as u64);
        let Some(found) = found else {
            let words = "values tried: {}; none raises an alarm\n";
            self.sweep.table.lines.put(words, &[tried]);
            return;
        };
        let fields = [tried, Number(self.value(found))];
        self.sweep.table.lines.put(
            "values tried: {}; the smallest that raises an alarm: {}\n",
            &fields,
        );
    }

    /// Looks for the smallest value that raises an alarm, and writes it.
    fn find<W: Write>(
        &mut self,
        scenario: &mut Scenario,
        writer: &mut W,
    ) -> Result<FindOutcome, RunFault> {
        let mut found = self.first_raising(scenario)?;
        if let Some(raising) = found {
            let least = self.bisect(scenario, raising)?;
            self.try_larger(scenario, least)?;
            found = Some(least);
        }
        for trial in self.trials.iter() {
            self.sweep.put(trial.place, &trial.peaks);
        }
        if self.sweep.table.is_text() {
            self.put_summary(found);
        }
        self.sweep.table.send(writer)?;
        Ok(match found {
            None => FindOutcome::None,
            Some(found) => FindOutcome::Found(self.exception(found)),
        })
    }
}

/// Looks for the smallest value of a number with which a scenario raises an alarm, by halving, and
/// tries a few larger ones. Writes the rows of the values that were tried, in order, as in a
/// sweep, and then, in a text, what was found. The number keeps the value that was tried last. The
/// writer is not flushed.
///
/// # Errors
///
/// `NoMemory`, and nothing was written. `Output` if a write failed, or there was no memory for what
/// has no room.
pub fn find_alarm<W: Write>(
    alloc: Global,
    scenario: &mut Scenario,
    axes: &[Axis<'_>; 1],
    form: TableForm,
    writer: &mut W,
) -> Result<FindOutcome, RunFault> {
    let sweep = SweepWriter::new(alloc, axes, form)?;
    let trials = Vec::new(alloc);
    let mut search = Search { sweep, trials };
    search.find(scenario, writer)
}
