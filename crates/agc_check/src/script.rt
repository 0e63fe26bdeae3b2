//! The findings of a script.
ghost use Rattle.std.specs.Prelude.{◌≡◌, ℕ, List, IfOk};
ghost use Rattle.agc_text.specs.Script.{IsFirstRefused, lines_of};
ghost use Rattle.agc_check.specs.Scripts.{AreLineFindings};

use crate::line::{LineFault, script_fault};
use crate::messages::{MOST_TOLD, NamedText, put_message, put_more, put_quoted, put_where};
use agc_text::{Buffer, ScriptFault, parse_line, read_script};
use std::alloc::{AllocError, Global};
use std::marker::Model;

/// A line that is no request: its number, from 1, its text, and its fault. Contracts see the
/// number.
#[derive(Drop)]
pub struct LineFinding<'a> {
    pub line: u64,
    pub text: &'a str,
    pub fault: LineFault,
}

impl<'a> Model for LineFinding<'a> {
    ghost use Rattle.std.specs.Prelude.{ℕ};

    ghost Value = { ℕ };

    ghost view = { λ f. f.line };
}

/// The finding for the line with this number.
fn finding_of<'a>(line: u64, text: &'a str) -> LineFinding<'a>
    ensures { result ≡ line }
{
    LineFinding {
        line,
        text,
        fault: script_fault(text),
    }
}

/// Whether a line comes after the one of this number, and is no request.
fn is_wrong_after((number, line): &(u64, &str), last: u64) -> bool {
    *number > last && parse_line(line).is_none()
}

/// The line of this number, which is no request, and further lines that are none.
fn findings_from<'a>(
    alloc: Global,
    text: &'a str,
    first: u64,
) -> Result<Vec<LineFinding<'a>>, AllocError>
    ensures { IfOk result (λ v. (lines : List (List ℕ))
        → IsFirstRefused lines first → AreLineFindings lines v.items) }
{
    let line = text
        .split('\n')
        .nth((first as usize).saturating_sub(1))
        .unwrap_or("");
    let mut findings: Vec<LineFinding<'a>> = (1u64..)
        .zip(text.split_terminator('\n'))
        .filter(|line| is_wrong_after(line, first))
        .take(MOST_TOLD - 1)
        .map(|(number, line)| finding_of(number, line))
        .collect(alloc)?;
    findings.insert(0, finding_of(first, line))?;
    Ok(findings)
}

/// The lines of a script that are no requests, at most twenty, in order, each with its fault.
///
/// # Errors
///
/// If memory runs out.
pub fn script_findings<'a>(alloc: Global, text: &'a str) -> Result<Vec<LineFinding<'a>>, AllocError>
    // Nothing is found where the text is a script; else first its first line that is no request.
    ensures { IfOk result (λ v. AreLineFindings (lines_of text.now) v.items) }
{
    match read_script(alloc, text) {
        Ok(_requests) => Ok(Vec::new(alloc)),
        Err(ScriptFault::Line(number)) => findings_from(alloc, text, number),
        Err(ScriptFault::NoMemory) => Err(AllocError),
    }
}

/// Adds the sentence for a line of a script.
fn put_finding(out: &mut Buffer, before_line: &str, finding: &LineFinding<'_>) {
    put_where(out, before_line, finding.line, "");
    put_quoted(out, finding.text);
    put_message(out, finding.fault.message_of());
    out.text("\n");
}

/// Adds a line for each finding of a text, and one that counts the others; for a bench, which is no
/// script, only one. Each begins with the text that its name gives.
pub fn put_script_messages(out: &mut Buffer, script: NamedText<'_>, findings: &[LineFinding<'_>]) {
    let is_of_bench = |finding: &&LineFinding<'_>| matches!(finding.fault, LineFault::OfBench);
    if let Some(finding) = findings.iter().find(is_of_bench) {
        return put_finding(out, script.before_line, finding);
    }
    for finding in findings {
        put_finding(out, script.before_line, finding);
    }
    if let Some(last) = findings.get(MOST_TOLD - 1) {
        let numbered = (1u64..).zip(script.text.split_terminator('\n'));
        put_more(
            out,
            numbered
                .filter(|line| is_wrong_after(line, last.line))
                .count(),
        );
    }
}
