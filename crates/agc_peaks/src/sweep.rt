//! A scenario's run for each value of one of its numbers.
use agc_scenario::{Number, Scenario};
use agc_session::{Progress, RunFault};
use agc_stats::{RunPeaks, peaks_of};
use agc_table::{Row, Table, TableForm, left, right, width_of};
use agc_text::Field::{Seconds, Text};
use agc_text::{Field, alarm_code};
use agc_word::Sets;
use std::alloc::{AllocError, Global};
use std::io::Write;

/// The number that is changed: the number of core sets, or one of the scenario's.
#[derive(Clone, Copy)]
pub enum SweepParameter {
    Sets,
    Number(Number),
}

impl SweepParameter {
    /// The number that a name says, as `sets`, or as [`Scenario::number`] has it.
    pub fn from_name(scenario: &Scenario, name: &str) -> Option<SweepParameter> {
        match name {
            "sets" => Some(SweepParameter::Sets),
            _ => scenario.number(name).map(SweepParameter::Number),
        }
    }

    /// The least and the most that it may be.
    pub fn range(self) -> (u64, u64) {
        match self {
            SweepParameter::Sets => (7, 8),
            SweepParameter::Number(number) => number.range(),
        }
    }
}

/// One of the numbers of a sweep: its name, which it is, its first value, its last, and the step.
#[derive(Clone, Copy)]
pub struct Axis<'a> {
    pub name: &'a str,
    pub parameter: SweepParameter,
    pub from: u64,
    pub to: u64,
    pub step: u64,
}

impl Axis<'_> {
    /// The number of its values, at least one.
    fn count(&self) -> u64 {
        (self.to.saturating_sub(self.from) / self.step.max(1)).saturating_add(1)
    }

    /// The value of this place, from 0.
    fn value(&self, place: u64) -> u64 {
        self.from
            .saturating_add(self.step.max(1).saturating_mul(place))
    }
}

/// The peaks of a scenario's run with these values of its numbers. They keep these values.
pub(crate) fn peaks_with(
    alloc: Global,
    scenario: &mut Scenario,
    axes: &[Axis<'_>],
    values: &[u64],
) -> Result<RunPeaks, RunFault> {
    let mut sets = scenario.bench().sets();
    for (axis, value) in axes.iter().zip(values.iter()) {
        match axis.parameter {
            SweepParameter::Sets if *value == 8 => sets = Sets::Eight,
            SweepParameter::Sets => sets = Sets::Seven,
            SweepParameter::Number(number) => scenario.exchange(alloc, number, *value)?,
        }
    }
    peaks_of(alloc, scenario, sets)
}

/// The number of runs: one for each value of each number with each of the others.
pub(crate) fn runs_of(axes: &[Axis<'_>]) -> u64 {
    let mut count: u64 = 1;
    for axis in axes {
        count = count.saturating_mul(axis.count());
    }
    count
}

/// The values of at most two numbers in a run, counted from 0. Those of the last number change
/// first.
pub(crate) fn values_of(axes: &[Axis<'_>], run: u64) -> [u64; 2] {
    match axes {
        [] => [0, 0],
        [only] => [only.value(run), 0],
        [first, second, ..] => {
            let inner = second.count().max(1);
            [first.value(run / inner), second.value(run % inner)]
        }
    }
}

/// Adds the values of a run, and its peaks, to a row.
fn fill(row: &mut Row, axes: &[Axis<'_>], values: &[u64], peaks: &RunPeaks) {
    for (axis, value) in axes.iter().zip(values.iter()) {
        let width = width_of(axis.name).max(8);
        row.cell(right(axis.name, axis.name, width), Field::Number(*value));
    }
    let first = peaks.first_alarm;
    let alarm = first.map(|first| Text(alarm_code(first.alarm)));
    row.option(left("first alarm", "first_alarm", 11), alarm);
    let time = right("first alarm at", "first_alarm_at", 14);
    row.option(time, first.map(|first| Seconds(first.time)));
    row.cell(right("alarms", "alarms", 6), Field::Number(peaks.alarms));
    row.below();
    row.cell(
        right("most sets", "most_sets", 9),
        Field::Number(peaks.sets),
    );
    let (areas, tasks) = (Field::Number(peaks.areas), Field::Number(peaks.tasks));
    row.cell(right("most areas", "most_areas", 10), areas);
    row.cell(right("most tasks", "most_tasks", 10), tasks);
}

/// A sweep: its numbers, and its table.
#[derive(Drop)]
pub(crate) struct SweepWriter<'a> {
    alloc: Global,
    pub(crate) axes: &'a [Axis<'a>],
    pub(crate) table: Table,
}

impl<'a> SweepWriter<'a> {
    /// A sweep of these numbers, with the heading to be written next.
    pub(crate) fn new(
        alloc: Global,
        axes: &'a [Axis<'a>],
        form: TableForm,
    ) -> Result<SweepWriter<'a>, AllocError> {
        let mut sweep = SweepWriter {
            alloc,
            axes,
            table: Table::new(alloc, form)?,
        };
        fill(&mut sweep.table.row, axes, &[0, 0], &RunPeaks::none());
        sweep.table.end_heading();
        Ok(sweep)
    }

    /// Adds the row of a run of the sweep, counted from 0.
    pub(crate) fn put(&mut self, run: u64, peaks: &RunPeaks) {
        let values = values_of(self.axes, run);
        fill(&mut self.table.row, self.axes, &values, peaks);
        self.table.end_row();
    }

    /// Runs the scenario for a run of the sweep, counted from 0. Returns the peaks.
    pub(crate) fn run(&self, scenario: &mut Scenario, run: u64) -> Result<RunPeaks, RunFault> {
        peaks_with(self.alloc, scenario, self.axes, &values_of(self.axes, run))
    }

    /// Writes the row of each run as soon as it has ended, so that none is lost if the sweep is
    /// interrupted.
    fn run_all<P: Progress, W: Write>(
        &mut self,
        scenario: &mut Scenario,
        progress: &mut P,
        writer: &mut W,
    ) -> Result<(), RunFault> {
        let count = runs_of(self.axes);
        progress.expect(count);
        for run in 0..count {
            let peaks = self.run(scenario, run)?;
            self.put(run, &peaks);
            self.table.send(writer)?;
            if writer.flush().is_err() {
                return Err(RunFault::Output);
            }
            progress.done();
        }
        Ok(())
    }
}

/// Runs a scenario once for each value of a number, or for each value of one with each of a second,
/// and writes a row for each: the values, the first alarm and the second at which it came, how many
/// alarms came, and the most core sets, VAC areas and places of the Waitlist that were taken at
/// once. The writer is flushed after each row. The numbers keep their last values.
///
/// # Errors
///
/// `NoMemory`, and no further row is written. `Output` if a write failed.
pub fn run_sweep<P: Progress, W: Write>(
    alloc: Global,
    scenario: &mut Scenario,
    axes: &[Axis<'_>],
    form: TableForm,
    progress: &mut P,
    writer: &mut W,
) -> Result<(), RunFault> {
    let mut sweep = SweepWriter::new(alloc, axes, form)?;
    sweep.run_all(scenario, progress, writer)
}
