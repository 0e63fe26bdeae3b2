//! How full the tables were, era by era.
use crate::eras_rows::fill_era;
use crate::lines::send_table;
use agc_plan::Request;
use agc_run::{Run, Subject};
use agc_session::RunFault;
use agc_stats::{EndedEra, EraBoundary, RunObserver, RunStatistics, run_to_end};
use agc_table::{Table, TableForm};
use std::alloc::Global;
use std::io::Write;

/// A table of eras, each of which is written as soon as it has ended; whether time passes by
/// itself; and how many requests were made since the last era ended.
#[derive(Drop)]
struct EraLines<'a, W> {
    has_time: bool,
    made: &'a mut u64,
    table: &'a mut Table,
    writer: &'a mut W,
}

impl<W: Write> RunObserver for EraLines<'_, W> {
    fn note(&mut self, _request: &Request, ended: Option<EndedEra>) -> Result<(), RunFault> {
        *self.made = self.made.saturating_add(1);
        if let Some(era) = ended {
            fill_era(&era, *self.made, self.has_time, self.table);
            self.table.end_row();
            *self.made = 0;
        }
        send_table(self.table, self.writer)
    }
}

/// Writes the heading, and the row of each era.
fn put_eras<W: Write>(
    run: &mut Run<'_>,
    has_time: bool,
    table: &mut Table,
    writer: &mut W,
) -> Result<(), RunFault> {
    let none = RunStatistics::new(run.machine()).present_era(EraBoundary::End, 0);
    fill_era(&none, 0, has_time, table);
    table.end_heading();
    let mut made = 0;
    let mut eras = EraLines {
        has_time,
        made: &mut made,
        table,
        writer,
    };
    let statistics = run_to_end(run, &mut eras)?;
    let last = statistics.present_era(EraBoundary::End, 0);
    fill_era(&last, made, has_time, table);
    table.end_row();
    send_table(table, writer)
}

/// Runs a bench or a scenario, and writes for each era when it began and why, how long it lasted,
/// how many requests were served and jobs begun and ended in it, the most core sets, VAC areas and
/// places of the Waitlist that were in use at once and since when, and what ended it; of a scenario
/// also the percentage of its ticks at which no job was running, and how many seconds the jobs had
/// computed that were lost as it ended. The writer is not flushed.
///
/// # Errors
///
/// `NoMemory`, and nothing was written. `Output` if a write failed.
pub fn write_peaks<W: Write>(
    alloc: Global,
    subject: Subject<'_>,
    form: TableForm,
    writer: &mut W,
) -> Result<(), RunFault> {
    let mut run = subject.run(alloc)?;
    let mut table = Table::new(alloc, form)?;
    put_eras(&mut run, subject.timing().is_some(), &mut table, writer)
}
