// Tracing a run.
ghost use Rattle.std.specs.List.{fold};
ghost use Rattle.agc_run.specs.Subjects.{own_requests, machine_of};
ghost use Rattle.agc_run.specs.Events.{watched, watching_from};
ghost use Rattle.agc_trace.specs.Shown.{EndsIn};

use crate::columns::Columns;
use crate::showing::{Shows, show};
use crate::trace_rows::{Rows, TraceOptions};
use agc_document::Bench;
use agc_run::{Event, ObservedRun, Subject};
use agc_session::{Progress, RunFault, Source, count_requests};
use agc_text::Output;
use std::alloc::{AllocError, Global};
use std::io::Write;

/// A trace in rows, and the bench of which it is.
#[derive(Drop)]
struct TraceWriter<'a> {
    rows: Rows,
    bench: &'a Bench,
}

impl<'a> Shows for TraceWriter<'a> {
    fn begin(&mut self, run: &ObservedRun<'_>) {
        self.rows.begin(run, self.bench);
    }

    fn show(&mut self, run: &ObservedRun<'_>, source: Source, event: Event) {
        self.rows.pass(&event.request, run.clock());
        self.rows.add(run, source, &event);
    }

    fn finish(&mut self) {
        self.rows.end(self.bench);
    }

    fn send<W: Write>(&mut self, writer: &mut W) -> Result<(), Output> {
        self.rows.send(writer)
    }
}

/// The rows of a bench or a scenario, before the first.
fn trace_writer_of<'a>(
    alloc: Global,
    subject: Subject<'a>,
    choice: TraceOptions,
) -> Result<TraceWriter<'a>, AllocError> {
    let columns = Columns::of(alloc, subject)?;
    let rows = Rows::new(alloc, choice, columns)?;
    Ok(TraceWriter {
        rows,
        bench: subject.bench(),
    })
}

/// Announces how many requests there will be if they can be counted without a run: those of a
/// bench.
fn expect_counted<P: Progress>(subject: Subject<'_>, progress: &mut P) {
    if let Subject::Bench(bench) = subject {
        progress.expect(count_requests(bench).requests);
    }
}

/// Writes the trace of a bench or a scenario: the heading, and what came of power-up, where a bench
/// has phase words; then its machine is asked for its requests in order, and for each that is
/// chosen a row is written, with the scene of its event and the account of its alarm; and last how
/// many requests were refused, and the devices whose pulses asked for nothing. Returns the run
/// after the last request. The writer is not flushed.
///
/// # Errors
///
/// `NoMemory`, and nothing was written. `Output` if a write failed, or took nothing of what was
/// left, or there was no memory for a long row.
pub fn trace<'a, P: Progress, W: Write>(
    alloc: Global,
    subject: Subject<'a>,
    choice: TraceOptions,
    progress: &mut P,
    writer: &mut W,
) -> Result<ObservedRun<'a>, RunFault>
    ensures { EndsIn
        (fold watched (watching_from (machine_of subject.entry)) (own_requests subject.entry))
        (W.contents writer.old) (W.contents writer.new) result }
{
    expect_counted(subject, progress);
    let told = trace_writer_of(alloc, subject, choice)?;
    let run = subject.watched(alloc)?;
    show(run, told, progress, writer)
}
