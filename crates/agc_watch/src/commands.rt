//! The commands of `agc_watch`, as `clap` reads them.
use Argument::{Flag, Value, Word};
use clap::error::ErrorKind;
use clap::{Arg, ArgAction, Command, Error};
use std::alloc::{AllocError, Global};

/// The version of the program, and of the workbench that it writes into.
pub(crate) const VERSION: &str = "1.0.0";

/// The program's name, whatever its file is called.
const NAME: &str = "agc_watch";

/// The exit statuses, in the program's help.
const STATUSES: &str = "Exit statuses:
   0  done
   1  the input is refused
   2  wrong words on the command line
   3  no memory
   4  a read or a write failed
  10  explore, sweep --find: an alarm is raised; compare: the runs differ
  11  explore: undecided";

/// A word or an option of a command: its name, what the help calls its value, and its help.
#[derive(Clone, Copy)]
enum Argument {
    /// An option that takes no value; last, the options with which it can't be used.
    Flag(&'static str, &'static str, &'static str),
    /// An option with a value.
    Value(&'static str, &'static str, &'static str),
    /// A word, and whether it is required.
    Word(&'static str, &'static str, bool, &'static str),
}

/// A command.
#[derive(Clone, Copy)]
struct CommandSpec {
    name: &'static str,
    about: &'static str,
    /// The text below its help.
    example: &'static str,
    arguments: &'static [Argument],
}

const FILE: Argument = Word(
    "file",
    "FILE",
    false,
    "The file to read; standard input if none is named, or -",
);

const PROGRESS: Argument = Flag("progress", "Says how far it has come, once a second", "");

const SCRIPT: Argument = Flag("script", "Reads a script", "");

const CSV: Argument = Flag("csv", "Writes comma-separated values", "jsonl width bench");

const JSONL: Argument = Flag(
    "jsonl",
    "Writes an object of JSON for each row",
    "width bench",
);

const WIDTH: Argument = Value("width", "N", "Writes at most N columns a line, 80 or more");

const TRACE: CommandSpec = CommandSpec {
    name: "trace",
    about: "Writes a line for each request, with the tables",
    example: "\
no           the request's number, with ! if it was refused
time, total  seconds of the era, and in all
by           who makes the request, if several do
running      the job that runs
sets         the jobs in core sets, as job/priority: in brackets if asleep,
             after > if NEWJOB names it
areas        the jobs that own the VAC areas
tasks        the tasks that wait, as address+centiseconds

Example: agc_watch trace --alarms examples/no-vac-area.toml",
    arguments: &[
        FILE,
        SCRIPT,
        Flag("alarms", "Shows only the requests that raised an alarm", ""),
        Flag(
            "brief",
            "Counts requests after which nothing changed but the time",
            "",
        ),
        Value(
            "from",
            "N",
            "Begins at second N, which may have two decimals",
        ),
        Value("to", "N", "Ends at second N, which may have two decimals"),
        CSV,
        JSONL,
        WIDTH,
        Flag(
            "perfetto",
            "Writes a chart that Perfetto and Chrome's tracing open",
            "csv jsonl width alarms brief",
        ),
        PROGRESS,
    ],
};

const PAGE: CommandSpec = CommandSpec {
    name: "page",
    about: "Writes a page that steps through the requests in a browser",
    example: "Example: agc_watch page examples/no-vac-area.toml > run.html",
    arguments: &[
        FILE,
        SCRIPT,
        Value(
            "view",
            "VIEW",
            "Opens in this view: chart alone, to print it",
        ),
        Value(
            "workbench",
            "FILE",
            "Writes into this file, whatever AGC_WORKBENCH names",
        ),
    ],
};

const CHECK: CommandSpec = CommandSpec {
    name: "check",
    about: "Says what is wrong with an input, and in which line",
    example: "Example: agc_watch check examples/no-vac-area.toml",
    arguments: &[FILE, SCRIPT],
};

const EXPLORE: CommandSpec = CommandSpec {
    name: "explore",
    about: "Says whether any order of the workers and devices raises an alarm",
    example: "Exit status: 0 no order raises it; 10 one does; 11 undecided

Example: agc_watch explore --alarm 1201 examples/race.toml",
    arguments: &[
        FILE,
        Value(
            "states",
            "N",
            "Gives up after N states, or 2000000 by default",
        ),
        Value(
            "alarm",
            "ALARM",
            "Reports only this alarm: 1201, 1202 or 1203",
        ),
        Flag("through", "Goes on after an alarm", ""),
        Flag(
            "repeat",
            "Lets no caller stop: each begins anew at its end",
            "",
        ),
        Value("least", "N", "At least N requests come between two ticks"),
        Value("most", "N", "At most N requests come between two ticks"),
        Flag(
            "peaks",
            "Goes on after the answer, and tells the most in use",
            "bench",
        ),
        Value(
            "bench",
            "ALARM",
            "Writes a shortest order that raises this alarm",
        ),
        CSV,
        JSONL,
    ],
};

const BENCH: CommandSpec = CommandSpec {
    name: "bench",
    about: "Writes the bench that a scenario comes to",
    example: "Example: agc_watch bench examples/jobs-faster-than-they-end.toml | agc serial",
    arguments: &[FILE],
};

const PEAKS: CommandSpec = CommandSpec {
    name: "peaks",
    about: "Says for each era how full the tables were, and what ended it",
    example: "\
era, begins         the era's number, and the second at which it began
began by, ended by  why: the start or the end, an alarm or a restart
lasts               its seconds
served, refused     how many requests were served in it, and refused
began, ended        how many jobs were established in it, and ended
most sets, since    the most core sets in use at once, and the second since
                    which; then those of VAC areas and tasks
no job              the percentage of its ticks at which no job was running
lost time           the seconds that jobs had computed that its end lost

Example: agc_watch peaks examples/no-vac-area.toml",
    arguments: &[FILE, SCRIPT, CSV, JSONL, WIDTH],
};

const JOBS: CommandSpec = CommandSpec {
    name: "jobs",
    about: "Says how long the jobs of each address took, and what they waited for",
    example: "\
job                           jobs at one address, by their name if they have it
began, ended, lost, alive     how many began, ended, were lost, are left
least, mean, 95%, most        seconds from beginning to end
computing, waiting, sleeping  seconds of these, on average
taken over                    how often another job took over
share                         the percentage of all time that they computed
missed, first missed          missed deadlines, and the second of the first

Example: agc_watch jobs examples/landing.toml",
    arguments: &[
        FILE,
        SCRIPT,
        Flag("eras", "Writes only how the time of each era was used", ""),
        CSV,
        JSONL,
        WIDTH,
    ],
};

const COMPARE: CommandSpec = CommandSpec {
    name: "compare",
    about: "Says what two benches or scenarios come to that differs",
    example: "\
The exit status is 10 if the runs differ.

Example: agc_watch compare examples/landing.toml examples/apollo-11.toml",
    arguments: &[
        Word(
            "file",
            "BEFORE",
            true,
            "The first file to read; standard input for -",
        ),
        Word(
            "after",
            "AFTER",
            true,
            "The second file to read; standard input for -",
        ),
        CSV,
        JSONL,
        WIDTH,
    ],
};

const SWEEP: CommandSpec = CommandSpec {
    name: "sweep",
    about: "Runs a scenario once for each value of one of its numbers",
    example: "\
KEY is sets, steal, seconds, seed, job.NAME.cost, event.NAME.at,
event.NAME.every or event.NAME.until. A job without a name is named by its
address. If the word after TO isn't a number, it is the file. With --find the
exit status is 10 if a value raises an alarm.

Example: agc_watch sweep steal 0 20 5 examples/landing.toml
Example: agc_watch sweep steal 0 20 5 --and sets:7:8 examples/landing.toml
Example: agc_watch sweep steal 0 100 --find examples/landing.toml",
    arguments: &[
        Word(
            "key",
            "KEY",
            true,
            "Which number: steal, sets, job.NAME.cost, ..",
        ),
        Word("from", "FROM", true, "The first value"),
        Word("to", "TO", true, "The last value"),
        Word(
            "step",
            "STEP",
            false,
            "The step from one value to the next, or 1 by default",
        ),
        FILE,
        Value(
            "and",
            "KEY:FROM:TO[:STEP]",
            "Runs it for each value of a second number, too",
        ),
        Flag(
            "find",
            "Looks for the least value that raises an alarm",
            "and progress",
        ),
        CSV,
        JSONL,
        WIDTH,
        PROGRESS,
    ],
};

const PLAY: CommandSpec = CommandSpec {
    name: "play",
    about: "Answers each request as it is typed, a line at a time",
    example: "Example: agc_watch play examples/no-vac-area.toml",
    arguments: &[Word(
        "file",
        "FILE",
        false,
        "The bench to begin from; an empty plan if none is named",
    )],
};

/// All commands, in the order of the help.
fn all_rows() -> &'static [CommandSpec] {
    static ROWS: [CommandSpec; 10] = [
        TRACE, PAGE, CHECK, EXPLORE, BENCH, PEAKS, JOBS, COMPARE, SWEEP, PLAY,
    ];
    &ROWS
}

/// A flag, as `clap` reads it, and the options with which it can't be used.
fn flag<'a>(
    alloc: Global,
    name: &'static str,
    others: &'static str,
) -> Result<Arg<'a>, AllocError> {
    let mut flag = Arg::new(alloc, name).long(name).action(ArgAction::SetTrue);
    for other in others.split_whitespace() {
        flag = flag.conflicts_with(other)?;
    }
    Ok(flag)
}

/// A value, as `clap` reads it. A negative number is one, so that the message about it is of the
/// command.
fn value<'a>(alloc: Global, name: &'static str, called: &'static str) -> Arg<'a> {
    Arg::new(alloc, name)
        .value_name(called)
        .allow_negative_numbers(true)
}

/// A word or an option of a command, as `clap` reads it.
fn arg_of<'a>(alloc: Global, argument: &Argument) -> Result<Arg<'a>, AllocError> {
    Ok(match *argument {
        Flag(name, help, others) => flag(alloc, name, others)?.help(help),
        Value(name, called, help) => value(alloc, name, called).long(name).help(help),
        Word(name, called, is_required, help) => value(alloc, name, called)
            .required(is_required)
            .help(help),
    })
}

/// A command, with its words and options.
fn command_of<'a>(alloc: Global, row: &CommandSpec) -> Result<Command<'a>, AllocError> {
    let mut args = Vec::new(alloc);
    for argument in row.arguments {
        args.push(arg_of(alloc, argument)?)?;
    }
    Command::new(alloc, row.name)
        .about(row.about)
        .after_help(row.example)
        .args(args)
}

/// The program, with all of its commands. Without a word it prints its help.
pub(crate) fn whole_command<'a>(alloc: Global) -> Result<Command<'a>, AllocError> {
    let mut commands = Vec::new(alloc);
    for row in all_rows() {
        commands.push(command_of(alloc, row)?)?;
    }
    Command::new(alloc, NAME)
        .bin_name(NAME)?
        .version(VERSION)
        .about("Shows what the requests of a bench or scenario do to the tables")
        .after_help(STATUSES)
        .subcommand_required(true)
        .arg_required_else_help(true)
        .subcommands(commands)
}

/// The error that the words after the command of this name are wrong, for a reason that `clap`
/// doesn't know; if no command has the name, those after the program's.
pub(crate) fn error_of(alloc: Global, name: &str, reason: &str) -> Result<Error, AllocError> {
    let called = format!(in alloc; "{NAME} {name}")?;
    let mut command = match all_rows().iter().find(|row| row.name == name) {
        Some(row) => command_of(alloc, row)?.bin_name(called.as_str())?,
        None => whole_command(alloc)?,
    };
    command.error(ErrorKind::ValueValidation, reason)
}
