//! The findings of a document or a script, or if there are none, warnings and a summary of its run.
use crate::documents::{document_in, script_in};
use crate::program::Console;
use crate::stops::Stop;
use agc_check::{NamedText, put_report, put_script_summary};
use agc_text::Buffer;

/// Adds the warnings about an input and a summary of its run.
fn put_input_report(
    rt: &HostRuntime,
    out: &mut Buffer,
    input: NamedText<'_>,
    is_script: bool,
) -> Result<(), Stop> {
    let alloc = rt.alloc();
    if is_script {
        let requests = script_in(alloc, input)?;
        put_script_summary(alloc, out, input.before_line, requests.as_slice())?;
    } else {
        let runnable = document_in(rt, input)?;
        put_report(alloc, out, input, runnable.subject())?;
    }
    Ok(())
}

/// Writes the findings of an input, or if there are none, the warnings and a summary of its run.
/// The exit status is 1 if there are findings.
pub(crate) fn check(
    console: &mut Console<'_>,
    input: NamedText<'_>,
    is_script: bool,
) -> Result<u8, Stop> {
    let mut out = Buffer::new(console.rt.alloc())?;
    let status = match put_input_report(console.rt, &mut out, input, is_script) {
        Ok(()) => 0,
        Err(Stop::Findings(findings)) => {
            out = findings;
            1
        }
        Err(stop) => return Err(stop),
    };
    if out.end().is_err() {
        return Err(Stop::NoMemory);
    }
    out.send(&mut console.output)?;
    Ok(status)
}
