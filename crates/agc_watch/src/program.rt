//! The program: it reads its words and its input, and does the work.
use crate::documents::bench_of_script;
use crate::files::{text_of, unwritten};
use crate::progress::ProgressReporter;
use crate::stops::{Stop, exit_early};
use crate::words::{Invocation, Subcommand, parse_words, refused_words};
use crate::work::work;
use agc_check::NamedText;
use agc_play::PlayOptions;
use std::alloc::Global;
use std::io::{BufWriter, ErrorKind, Printer, Write};
use std::process::ExitCode;
use std::{env, io};

/// Standard output, and why the last write failed, if one did.
#[derive(Drop)]
pub(crate) struct StandardWriter<'a> {
    printer: Printer<'a, HostRuntime>,
    fault: Option<io::Error>,
}

impl Write for StandardWriter<'_> {
    fn write(&mut self, bytes: &[u8]) -> io::Result<usize> {
        let written = self.printer.write(bytes);
        self.fault = written.err();
        written
    }

    fn flush(&mut self) -> io::Result<()> {
        self.printer.flush()
    }
}

/// Standard output, as the program writes to it: through a buffer.
pub(crate) type StandardOutput<'a> = BufWriter<StandardWriter<'a>>;

/// The things that every command needs: the process, the progress report, and standard output.
#[derive(Drop)]
pub(crate) struct Console<'a> {
    pub(crate) rt: &'a HostRuntime,
    pub(crate) progress: ProgressReporter<'a>,
    pub(crate) output: StandardOutput<'a>,
}

/// Standard output, through a buffer that must be flushed.
fn standard_output(rt: &HostRuntime) -> Result<StandardOutput<'_>, Stop> {
    let writer = StandardWriter {
        printer: io::writer(rt),
        fault: None,
    };
    BufWriter::new(rt.alloc(), writer).map_err(|_| Stop::NoMemory)
}

/// The same end, and of a failed write the reason.
fn with_reason(alloc: Global, output: &StandardOutput<'_>, stop: Stop) -> Stop {
    match (stop, output.get_ref().fault) {
        (Stop::Output, Some(error)) => unwritten(alloc, &error),
        (stop, _) => stop,
    }
}

/// Does a command's work on its input, through a buffer for what it writes. Returns the exit
/// status.
fn work_buffered(
    rt: &HostRuntime,
    asked: &Invocation<'_>,
    rules: PlayOptions,
    input: NamedText<'_>,
) -> Result<u8, Stop> {
    let mut console = Console {
        rt,
        progress: ProgressReporter::new(rt, asked.subcommand.work_unit(), asked.has_progress),
        output: standard_output(rt)?,
    };
    let ended = match work(&mut console, asked, rules, input) {
        Ok(status) => match console.output.flush() {
            Ok(()) => return Ok(status),
            Err(_failed) => Stop::Output,
        },
        Err(stop) => stop,
    };
    Err(with_reason(rt.alloc(), &console.output, ended))
}

/// The words of the command line, of which the first is the program's own name.
fn given_words(rt: &HostRuntime) -> Result<Vec<String>, Stop> {
    match env::args(rt) {
        Ok(args) => Ok(args.collect(rt.alloc())?),
        Err(error) if error.kind() == ErrorKind::OutOfMemory => Err(Stop::NoMemory),
        Err(_other) => Err(refused_words(rt.alloc(), "", "a word is not text: it isn't UTF-8")),
    }
}

/// Does the work for the words of the command line. Returns the exit status.
fn run_words(rt: &HostRuntime, rules: PlayOptions) -> Result<u8, Stop> {
    let words = given_words(rt)?;
    let asked = parse_words(rt.alloc(), words.as_slice(), rules.form)?;
    let text = text_of(rt, asked.input)?;
    let before_line = format!(in rt.alloc(); "{}:", asked.input.name())?;
    let input = NamedText {
        before_line: before_line.as_str(),
        text: text.as_str(),
        takes_script: asked.takes_script,
    };
    if asked.is_script && !matches!(asked.subcommand, Subcommand::Check) {
        let bench = bench_of_script(rt.alloc(), input)?;
        let text = bench.as_str();
        return work_buffered(rt, &asked, rules, NamedText { text, ..input });
    }
    work_buffered(rt, &asked, rules, input)
}

/// Runs the program; in this manner one plays.
pub fn run(rt: &HostRuntime, rules: PlayOptions) -> ExitCode {
    match run_words(rt, rules) {
        Ok(status) => ExitCode::from(status),
        Err(stop) => exit_early(rt, &stop),
    }
}
