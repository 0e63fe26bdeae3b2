//! The lines of warnings, and the summary of a run in one line.
use crate::bench::{name_at, put_location};
use crate::finding::line_at;
use crate::locate::{KeyPath, spots_of, way_to};
use crate::messages::{NONE, NamedText, put_message, put_where};
use crate::run_counts::{RunCounts, run_requests, run_subject};
use crate::warnings::{LOG_FULL, Warning, warnings_of};
use agc_document::table_of;
use agc_phase::recover;
use agc_plan::Request;
use agc_run::Subject;
use agc_text::Field::{Number, Text};
use agc_text::{Buffer, Field};
use agc_word::Word;
use std::alloc::{AllocError, Global};

/// The number of requests that the log of a script holds.
const SCRIPT_LIMIT: u64 = 1000;

/// Adds a line for each warning about a document, with the number of the line at which its place
/// begins.
fn put_warnings(
    alloc: Global,
    out: &mut Buffer,
    document: NamedText<'_>,
    warnings: &[Warning],
) -> Result<(), AllocError> {
    let ways: Vec<KeyPath<'_>> = warnings
        .iter()
        .map(|one| way_to(one.place, None))
        .collect(alloc)?;
    let spots = spots_of(alloc, document.text, ways.as_slice())?;
    let table = table_of(alloc, document.text)?.ok();
    for (one, spot) in warnings.iter().zip(spots.as_slice()) {
        let line = line_at(document.text, spot.at);
        put_where(out, document.before_line, line, "warning: ");
        let name = table.as_ref().and_then(|table| name_at(table, one.place));
        put_location(out, one.place, name);
        put_message(out, one.message);
        out.text("\n");
    }
    Ok(())
}

/// A number of things, and the plural ending for it.
fn amount(number: u64) -> (Field<'static>, Field<'static>) {
    match number {
        0 => (Text("no"), NONE),
        1 => (Number(1), NONE),
        _ => (Number(number), Text("s")),
    }
}

/// Adds how many requests were asked, how many tasks fired, and how many alarms of each code came;
/// and whether the run was cut short. With these words power came back, if it did.
fn put_summary(out: &mut Buffer, ran: &RunCounts, power: Option<[Word; 12]>) {
    let first = Text(if ran.is_cut { "the first " } else { "" });
    let (requests, of_requests) = amount(ran.requests);
    let (tasks, of_tasks) = amount(ran.fired);
    let fields = [first, requests, of_requests, tasks, of_tasks];
    out.put("ok: {}{} request{}, {} task{} fired", &fields);
    let is_fresh = power.is_some_and(|words| recover(&words).is_none());
    let came = ran.alarms;
    let counts = [u64::from(is_fresh), came[0], came[1], came[2]];
    let all = counts
        .iter()
        .fold(0_u64, |sum, count| sum.saturating_add(*count));
    let (alarms, of_alarms) = amount(all);
    out.put(", {} alarm{}", &[alarms, of_alarms]);
    let mut is_first = true;
    for (code, count) in ["1107", "1201", "1202", "1203"].iter().zip(counts.iter()) {
        if *count > 0 {
            let before = Text(if is_first { " (" } else { ", " });
            out.put("{}{}: {}", &[before, Text(code), Number(*count)]);
            is_first = false;
        }
    }
    out.text(if all == 0 { "\n" } else { ")\n" });
}

/// Adds the report on a document that is a bench or a scenario: the warnings, and the summary of
/// its run.
///
/// # Errors
///
/// If memory runs out.
pub fn put_report(
    alloc: Global,
    out: &mut Buffer,
    document: NamedText<'_>,
    subject: Subject<'_>,
) -> Result<(), AllocError> {
    let ran = run_subject(alloc, subject)?.1;
    let warned = warnings_of(alloc, subject, &ran)?;
    put_warnings(alloc, out, document, warned.as_slice())?;
    put_summary(out, &ran, subject.bench().power());
    Ok(())
}

/// Adds the summary of a script's run, and before it a warning, which begins with this text, if its
/// log is too small.
///
/// # Errors
///
/// If memory runs out.
pub fn put_script_summary(
    alloc: Global,
    out: &mut Buffer,
    before_line: &str,
    requests: &[Request],
) -> Result<(), AllocError> {
    let ran = run_requests(alloc, requests)?.1;
    if let Some(first) = ran.log_full {
        put_where(out, before_line, first, "warning: ");
        out.put(LOG_FULL, &[Number(first), Number(SCRIPT_LIMIT)]);
        out.text("\n");
    }
    put_summary(out, &ran, None);
    Ok(())
}
