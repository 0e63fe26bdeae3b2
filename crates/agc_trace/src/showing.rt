// Showing a run: its machine is watched, and each event is written.
ghost use Rattle.std.specs.Prelude.{◌≡◌, OnOk};
ghost use Rattle.std.specs.List.{fold};
ghost use Rattle.agc_run.specs.Runs.{to_ask};
ghost use Rattle.agc_run.specs.Events.{watched};
ghost use Rattle.agc_trace.specs.Shown.{EndsIn};

use agc_run::{Event, ObservedRun};
use agc_session::{Progress, RunFault, Source};
use agc_text::Output;
use std::io::Write;

/// A way to show the events of a run: it adds to a draft, which is then written.
pub(crate) trait Shows {
    /// Adds the part before the first event.
    fn begin(&mut self, run: &ObservedRun<'_>);

    /// Adds an event with its source. The run is where the event left it.
    fn show(&mut self, run: &ObservedRun<'_>, source: Source, event: Event);

    /// Adds the part after the last event.
    fn finish(&mut self);

    /// Writes what was added.
    fn send<W: Write>(&mut self, writer: &mut W) -> Result<(), Output>;
}

/// Makes all requests that a run still has, and shows the events.
fn follow<S: Shows, P: Progress, W: Write>(
    run: &mut ObservedRun<'_>,
    form: &mut S,
    progress: &mut P,
    writer: &mut W,
) -> Result<(), Output>
    ensures { OnOk result (run.new.watching
        ≡ fold watched run.old.watching (to_ask run.old.watching.machine run.old.pending)) }
{
    form.begin(run);
    form.send(writer)?;
    while let Some((source, event)) = run.next() {
        form.show(run, source, event);
        form.send(writer)?;
        progress.done();
    }
    form.finish();
    form.send(writer)
}

/// Shows a run to its end, in a form in which nothing has been shown yet. Returns it.
pub(crate) fn show<'a, S: Shows + Drop, P: Progress, W: Write>(
    mut run: ObservedRun<'a>,
    mut form: S,
    progress: &mut P,
    writer: &mut W,
) -> Result<ObservedRun<'a>, RunFault>
    ensures { EndsIn (fold watched run.entry.watching
        (to_ask run.entry.watching.machine run.entry.pending))
        (W.contents writer.old) (W.contents writer.new) result }
{
    match follow(&mut run, &mut form, progress, writer) {
        Ok(()) => Ok(run),
        Err(_failed) => Err(RunFault::Output),
    }
}
