//! The outcome of a document's run, for comparing it with another's.
use crate::jobs_rows::{fill_deadline, fill_times, name_at};
use agc_run::Subject;
use agc_scenario::Timing;
use agc_session::RunFault;
use agc_stats::{AddressStatistics, RunStatistics, job_statistics_of, statistics_of};
use agc_table::{Row, right};
use agc_text::Field::{Number, Seconds, Text};
use agc_text::alarm_code;
use std::alloc::{AllocError, Global};

/// The statistics of an address's jobs: its name, if a scenario gives one, the address, and the
/// columns of `jobs`.
#[derive(Drop)]
pub(crate) struct AddressSummary {
    pub(crate) name: Option<String>,
    pub(crate) at: u16,
    pub(crate) row: Row,
}

impl AddressSummary {
    /// Whether the jobs of another document have the same name.
    pub(crate) fn is_called_as(&self, other: &AddressSummary) -> bool {
        match (&self.name, &other.name) {
            (None, None) => self.at == other.at,
            (Some(name), Some(called)) => name.as_str() == called.as_str(),
            _ => false,
        }
    }
}

/// The outcome of a document's run: its totals, and its jobs.
#[derive(Drop)]
pub struct RunSummary {
    pub(crate) totals: Row,
    pub(crate) jobs: Vec<AddressSummary>,
}

/// The statistics of an address's jobs, in a run that is known to have taken this time.
fn jobs_of(
    alloc: Global,
    row: &AddressStatistics,
    timing: Option<&Timing>,
    time: Option<u64>,
) -> Result<AddressSummary, AllocError> {
    let name = match name_at(timing, row.at) {
        None => None,
        Some(name) => Some(String::from_str(alloc, name)?),
    };
    let mut summary = AddressSummary {
        name,
        at: row.at,
        row: Row::new(alloc)?,
    };
    fill_times(&mut summary.row, row, time);
    fill_deadline(&mut summary.row, row);
    Ok(summary)
}

/// The statistics of all jobs of a bench or a scenario.
fn all_jobs(alloc: Global, subject: Subject<'_>) -> Result<Vec<AddressSummary>, RunFault> {
    let job_statistics = job_statistics_of(alloc, subject)?;
    let timing = subject.timing();
    let time = timing.map(|_timing| job_statistics.instant);
    let mut jobs = Vec::new(alloc);
    for row in job_statistics.rows.as_slice() {
        jobs.push(jobs_of(alloc, row, timing, time)?)?;
    }
    Ok(jobs)
}

/// Adds a run's totals to a row.
fn fill_totals(row: &mut Row, statistics: &RunStatistics) {
    let peaks = statistics.peaks();
    let first = peaks.first_alarm;
    let (code, time) = (
        first.map(|first| Text(alarm_code(first.alarm))),
        first.map(|first| Seconds(first.time)),
    );
    row.cell(right("seconds", "seconds", 0), Seconds(statistics.time));
    row.cell(
        right("requests", "requests", 0),
        Number(statistics.requests),
    );
    row.cell(right("refused", "refused", 0), Number(statistics.refused));
    row.cell(right("eras", "eras", 0), Number(statistics.number));
    row.cell(right("alarms", "alarms", 0), Number(peaks.alarms));
    row.option(right("first alarm", "first_alarm", 0), code);
    row.option(right("first alarm at", "first_alarm_at", 0), time);
    row.cell(right("most sets", "most_sets", 0), Number(peaks.sets));
    row.cell(right("most areas", "most_areas", 0), Number(peaks.areas));
    row.cell(right("most tasks", "most_tasks", 0), Number(peaks.tasks));
}

/// The outcome of a bench or a scenario.
///
/// # Errors
///
/// If memory runs out.
pub fn summary_of(alloc: Global, subject: Subject<'_>) -> Result<RunSummary, RunFault> {
    let statistics = statistics_of(alloc, subject)?;
    let jobs = all_jobs(alloc, subject)?;
    let mut totals = Row::new(alloc)?;
    fill_totals(&mut totals, &statistics);
    Ok(RunSummary { totals, jobs })
}
