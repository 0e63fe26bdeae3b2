//! The differences between the outcomes of two documents.
use crate::keys::put_keys;
use crate::lines::send_table;
use crate::summary::{AddressSummary, RunSummary};
use agc_session::RunFault;
use agc_table::{Row, Table, TableForm, left, right};
use agc_text::Field;
use agc_text::Field::{Bytes, Octal, Text};
use std::alloc::Global;
use std::io::Write;

/// A part of the differences: of the documents' keys, the runs' totals, or the jobs of a name. In
/// text its first row comes below a line with its title.
#[derive(Clone, Copy)]
pub(crate) struct Part<'a> {
    kind: &'static str,
    name: Field<'a>,
    has_title: bool,
}

impl<'a> Part<'a> {
    /// A part without rows.
    pub(crate) fn new(kind: &'static str, name: Field<'a>) -> Part<'a> {
        Part {
            kind,
            name,
            has_title: false,
        }
    }

    /// Begins a row.
    pub(crate) fn begin_row(&mut self, table: &mut Table) {
        let title = [Text(self.kind), self.name];
        if !table.is_text() {
            table.row.text.put("{}{}", &title);
            table.row.end(left("part", "part", 0));
        } else if !self.has_title {
            table.lines.put("{}{}\n", &title);
            self.has_title = true;
        }
    }
}

/// The rows of both documents: of their totals, or of jobs that are called the same.
#[derive(Clone, Copy)]
struct RowPair<'a> {
    before: Option<&'a Row>,
    after: Option<&'a Row>,
}

/// The text of a row's cell at a place; a dash if there is no row.
fn text_at(row: Option<&Row>, place: usize) -> &[u8] {
    row.map_or(b"-".as_slice(), |row| row.text_of(place))
}

/// Adds the name of what differs to a row.
pub(crate) fn end_key(table: &mut Table) {
    table.row.end(left("", "key", 26));
}

/// Adds the values of both documents at a place to a row, after the value's name.
fn fill(table: &mut Table, pair: RowPair<'_>, place: usize) {
    end_key(table);
    let (before, after) = (right("before", "before", 10), right("after", "after", 10));
    table.row.copy(before, pair.before, place);
    table.row.copy(after, pair.after, place);
}

/// Adds a row for each value that differs.
fn put(table: &mut Table, mut part: Part<'_>, names: &Row, pair: RowPair<'_>) {
    for place in 0..names.len() {
        if text_at(pair.before, place) != text_at(pair.after, place) {
            part.begin_row(table);
            if table.is_text() {
                table.row.text.fill("  ", Bytes(names.name_of(place)));
            } else {
                table.row.text.add(Bytes(names.key_of(place)));
            }
            fill(table, pair, place);
            table.end_row();
        }
    }
}

/// The jobs that have the same name as those of another document: if several do, those at the same
/// address, or else the first.
fn called_as<'a>(all: &'a [AddressSummary], jobs: &AddressSummary) -> Option<&'a AddressSummary> {
    let is_same = |other: &&AddressSummary| other.at == jobs.at && other.is_called_as(jobs);
    match all.iter().find(is_same) {
        None => all.iter().find(|other| other.is_called_as(jobs)),
        found => found,
    }
}

/// Adds what differs of jobs.
fn put_jobs(table: &mut Table, jobs: &AddressSummary, pair: RowPair<'_>) {
    let name = jobs.name.as_ref();
    let name = name.map_or(Octal(jobs.at), |name| Text(name.as_str()));
    put(table, Part::new("job ", name), &jobs.row, pair);
}

/// Adds the jobs that differ, those of the first document first.
fn put_all_jobs(table: &mut Table, before: &[AddressSummary], after: &[AddressSummary]) {
    for jobs in before {
        let pair = RowPair {
            before: Some(&jobs.row),
            after: called_as(after, jobs).map(|jobs| &jobs.row),
        };
        put_jobs(table, jobs, pair);
    }
    for jobs in after {
        if called_as(before, jobs).is_none() {
            let pair = RowPair {
                before: None,
                after: Some(&jobs.row),
            };
            put_jobs(table, jobs, pair);
        }
    }
}

/// Writes which keys of two documents differ, given their texts, and what differs between their
/// runs: how long they last, how many requests, refusals, eras and alarms there are, the first
/// alarm, the most core sets, VAC areas and tasks at once, and what `jobs` reports of the jobs with
/// the same name. Returns whether the runs differ. The writer is not flushed.
///
/// # Errors
///
/// `NoMemory`, and nothing was written. `Output` if a write failed, or there was no memory for what
/// has no room.
pub fn put_differences<W: Write>(
    alloc: Global,
    [(text, before), (other_text, after)]: [(&str, &RunSummary); 2],
    form: TableForm,
    writer: &mut W,
) -> Result<bool, RunFault> {
    let mut table = Table::new(alloc, form)?;
    let totals = RowPair {
        before: Some(&before.totals),
        after: Some(&after.totals),
    };
    if !table.is_text() {
        table.row.cell(left("part", "part", 0), Text(""));
    }
    fill(&mut table, totals, 0);
    table.end_heading();
    let empty = table.lines.as_bytes().len();
    put_keys(alloc, &mut table, text, other_text)?;
    let heading = table.lines.as_bytes().len();
    let run = Part::new("run", Text(""));
    put(&mut table, run, &before.totals, totals);
    put_all_jobs(&mut table, before.jobs.as_slice(), after.jobs.as_slice());
    let differs = table.lines.as_bytes().len() > heading;
    if !differs && table.is_text() {
        if heading == empty {
            table.lines.clear();
        }
        table.lines.text(if heading == empty {
            "nothing differs\n"
        } else {
            "nothing else differs\n"
        });
    }
    send_table(&mut table, writer)?;
    Ok(differs)
}
