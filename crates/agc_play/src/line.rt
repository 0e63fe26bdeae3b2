//! The command on a line, and the message about a line that has none.
use agc_check::{
    LineFault, LineFinding, NamedText, put_quoted, put_script_messages, script_findings,
};
use agc_plan::Request;
use agc_text::Field::Number;
use agc_text::{Buffer, parse_line};
use std::alloc::{AllocError, Global};

/// The most ticks that one line can ask for.
const MOST_TICKS: u32 = 1_000_000;

/// Whether `save` may overwrite a file that this session hasn't written.
#[derive(Clone, Copy, PartialEq, Eq)]
pub(crate) enum Overwrite {
    Never,
    Always,
}

/// The command on a line.
#[derive(Clone, Copy)]
pub(crate) enum PlayCommand<'a> {
    /// This request, this many times.
    Request(Request, u32),
    Undo,
    Show,
    /// Write the bench so far to a file of this name.
    Save(&'a str, Overwrite),
    Help,
    Nothing,
}

/// A number of ticks.
fn ticks_of(text: &str) -> PlayCommand<'_> {
    let is_decimal = text.as_bytes().iter().all(u8::is_ascii_digit);
    match text.parse::<u32>() {
        Ok(count) if is_decimal && 0 < count && count <= MOST_TICKS => {
            PlayCommand::Request(Request::Tick, count)
        }
        _ => PlayCommand::Nothing,
    }
}

/// The command on a line that is no request.
fn command_of(line: &str) -> PlayCommand<'_> {
    match line.split_once(' ').unwrap_or((line, "")) {
        ("tick", rest) => ticks_of(rest),
        ("save" | "save!", "") => PlayCommand::Nothing,
        ("save", name) => PlayCommand::Save(name, Overwrite::Never),
        ("save!", name) => PlayCommand::Save(name, Overwrite::Always),
        _ => match line {
            "undo" => PlayCommand::Undo,
            "show" => PlayCommand::Show,
            "help" | "?" => PlayCommand::Help,
            _ => PlayCommand::Nothing,
        },
    }
}

/// The command on a line, which comes without its line end.
pub(crate) fn parse_command(line: &str) -> PlayCommand<'_> {
    match parse_line(line) {
        Some(request) => PlayCommand::Request(request, 1),
        None => command_of(line),
    }
}

/// Why a line is no request.
fn fault_of(alloc: Global, line: &str) -> Result<LineFault, AllocError> {
    let found = script_findings(alloc, line)?;
    match found.as_slice() {
        [] => Ok(LineFault::Empty),
        [finding, ..] => Ok(finding.fault),
    }
}

/// The form of the command that begins with the line's first word, if there is one.
fn form_of(line: &str) -> Option<&'static str> {
    let (word, _rest) = line.split_once(' ').unwrap_or((line, ""));
    match word {
        "tick" => Some("it has the form \"tick N\", N being 1 to 1000000"),
        "save" | "save!" => Some("it has the form \"save NAME\" or \"save! NAME\""),
        "undo" => Some("nothing may follow \"undo\""),
        "show" => Some("nothing may follow \"show\""),
        "help" => Some("nothing may follow \"help\""),
        "quit" => Some("nothing may follow \"quit\""),
        _ => None,
    }
}

/// Adds a sentence about the line of this number, which is quoted if it has a text.
pub(crate) fn tell_line(buffer: &mut Buffer, number: u64, text: Option<&str>, sentence: &str) {
    buffer.fill("line ", Number(number));
    buffer.text(": ");
    if let Some(text) = text {
        put_quoted(buffer, text);
    }
    buffer.text(sentence);
    buffer.text("\n");
}

/// Says of a line, which may have been meant as a request, what `check --script` says; and where no
/// request begins with its first word, which may be meant as a command, how commands are found.
fn tell_fault(finding: LineFinding<'_>, buffer: &mut Buffer) {
    let is_unknown = matches!(finding.fault, LineFault::Unknown(_));
    let line = NamedText {
        before_line: "line ",
        text: finding.text,
        takes_script: false,
    };
    put_script_messages(buffer, line, &[finding]);
    if is_unknown {
        buffer.text("help says what else a line may be\n");
    }
}

/// Adds what is wrong with a line that is no command, by its number.
pub(crate) fn tell_wrong(
    alloc: Global,
    number: u64,
    text: &str,
    buffer: &mut Buffer,
) -> Result<(), AllocError> {
    if let Some(form) = form_of(text) {
        tell_line(buffer, number, Some(text), form);
        return Ok(());
    }
    match fault_of(alloc, text)? {
        LineFault::OfBench => {
            let sentence = "this is a line of a bench; agc_watch play FILE begins from a bench";
            tell_line(buffer, number, Some(text), sentence);
        }
        fault => {
            let finding = LineFinding {
                line: number,
                text,
                fault,
            };
            tell_fault(finding, buffer);
        }
    }
    Ok(())
}
