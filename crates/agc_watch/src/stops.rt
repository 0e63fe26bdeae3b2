//! Reasons to end a command early, and how the program ends for each.
ghost use Rattle.std.specs.Prelude.{◌≡◌};
ghost use Rattle.agc_watch.specs.declared.stops.Stop.TheVariants as stop;

use agc_session::RunFault;
use agc_text::{Buffer, Output};
use clap::Error;
use std::alloc::AllocError;
use std::fmt;
use std::fmt::Write;
use std::io::ErrorKind;
use std::process::ExitCode;

/// The exit status if the answer is yes: an order or a value raises the alarm, or two runs differ.
pub(crate) const YES: u8 = 10;

/// The exit status if a search ended before it could answer.
pub(crate) const UNDECIDED: u8 = 11;

/// A reason to end a command early.
#[derive(Drop)]
pub(crate) enum Stop {
    NoMemory,
    /// A write failed.
    Output,
    /// The reader of standard output has closed it.
    ClosedPipe,
    /// The input is refused for the findings in these lines.
    Findings(Buffer),
    /// The words ask for the help or the version, or they are wrong, or don't suit the document;
    /// this text explains.
    Words(Error),
    /// This sentence is the reason, and this is the exit status.
    Message(u8, String),
}

/// An end with this status, for which this sentence is the reason.
pub(crate) fn stop_with(status: u8, sentence: Result<String, AllocError>) -> Stop {
    match sentence {
        Ok(sentence) => Stop::Message(status, sentence),
        Err(error) => Stop::from(error),
    }
}

impl From<AllocError> for Stop {
    ghost from_gives = { λ _ e. e ≡ stop.NoMemory };

    fn from(_error: AllocError) -> Self {
        Self::NoMemory
    }
}

impl From<Output> for Stop {
    ghost from_gives = { λ _ e. e ≡ stop.Output };

    fn from(_error: Output) -> Self {
        Self::Output
    }
}

/// No run of this program starts a thread, or loses a share.
impl From<RunFault> for Stop {
    fn from(fault: RunFault) -> Self {
        match fault {
            RunFault::Output => Self::Output,
            _ => Self::NoMemory,
        }
    }
}

impl Stop {
    /// The exit status.
    fn status(&self) -> u8 {
        match self {
            Stop::Findings(_findings) => 1,
            Stop::NoMemory => 3,
            Stop::Output | Stop::ClosedPipe => 4,
            Stop::Words(text) if text.use_stderr() => 2,
            Stop::Words(_text) => 0,
            Stop::Message(status, _sentence) => *status,
        }
    }
}

/// The lines on standard error.
impl fmt::Display for Stop {
    fn fmt<W: fmt::Write>(&self, f: &mut fmt::Formatter<W>) -> fmt::Result {
        match self {
            Stop::NoMemory => f.write_str("agc_watch: no memory\n"),
            Stop::Output => f.write_str("agc_watch: output\n"),
            Stop::Findings(findings) => {
                let text = str::from_utf8(findings.as_bytes());
                f.write_str(text.unwrap_or(""))
            }
            Stop::Message(_status, sentence) => writeln!(f, "{sentence}"),
            Stop::ClosedPipe | Stop::Words(_) => Ok(()),
        }
    }
}

/// Prints the help or the version on standard output, or the message about wrong words on standard
/// error. Returns the exit status.
fn print_words(rt: &HostRuntime, text: &Error, status: u8) -> u8 {
    match text.print(rt) {
        Ok(()) => status,
        Err(error) if error.kind() == ErrorKind::BrokenPipe => 4,
        Err(error) => {
            let _ = eprintln!(rt; "agc_watch: output: {error}");
            4
        }
    }
}

/// Reports why a command ended early, and ends the program.
pub(crate) fn exit_early(rt: &HostRuntime, stop: &Stop) -> ExitCode {
    let status = stop.status();
    ExitCode::from(match stop {
        Stop::Words(text) => print_words(rt, text, status),
        other => {
            let _ = eprint!(rt; "{other}");
            status
        }
    })
}
