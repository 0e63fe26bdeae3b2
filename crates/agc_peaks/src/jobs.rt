//! The statistics of a run's jobs, as a table.
use crate::jobs_rows::put_jobs;
use crate::lines::send_table;
use agc_run::Subject;
use agc_session::RunFault;
use agc_stats::job_statistics_of;
use agc_table::{Table, TableForm};
use std::alloc::Global;
use std::io::Write;

/// Runs a bench or a scenario, and writes for the jobs of each address how many began, ended, were
/// lost as an era began and live still; the shortest, mean, 95th percentile and longest time from
/// where a job was established to where it ended, and how much of it on average it computed, waited
/// and slept; how often another job took over from one; its share of the processor; and of those
/// that have a deadline, how many missed it and when the first did. Then a line for each era says
/// how much of its time was used by jobs, stolen and idle. In a bench time passes with ticks alone,
/// and no computing time is known. The writer is not flushed.
///
/// # Errors
///
/// `NoMemory`, and nothing was written. `Output` if a write failed, or there was no memory for what
/// has no room.
pub fn write_jobs<W: Write>(
    alloc: Global,
    subject: Subject<'_>,
    (form, eras): (TableForm, bool),
    writer: &mut W,
) -> Result<(), RunFault> {
    let mut table = Table::new(alloc, form)?;
    let job_statistics = job_statistics_of(alloc, subject)?;
    put_jobs(&mut table, &job_statistics, subject.timing(), eras);
    send_table(&mut table, writer)
}
