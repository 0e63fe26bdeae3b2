//! The work of each command on its input.
use crate::checking::check;
use crate::documents::{document_in, explored_in, say_run_once, scenario_in};
use crate::files::text_of;
use crate::page::{PageDocument, PageView, put_page};
use crate::program::Console;
use crate::stops::{Stop, UNDECIDED, YES, stop_with};
use crate::sweeping::write_sweep;
use crate::words::{Input as Source, Invocation, Subcommand};
use crate::workbench::Workbench;
use agc_check::{ExploredBench, NamedText};
use agc_explore::{Exploration, ExploreOptions, ReachStatus, explore, with_endless};
use agc_peaks::{RunSummary, put_differences, scenario_bench, summary_of, write_jobs, write_peaks};
use agc_plan::Alarm;
use agc_play::{PlayFault, PlayOptions, play};
use agc_run::Subject;
use agc_session::RunFault;
use agc_table::TableForm;
use agc_text::{MOST_BYTES, alarm_code};
use agc_trace::trace;
use std::alloc::Global;
use std::io::{Input, Write};

/// Writes the page of the bench or the scenario that a text is, which opens in this view. The exit
/// status is 0.
fn write_page(
    console: &mut Console<'_>,
    (view, named): (PageView, Option<&str>),
    input: NamedText<'_>,
) -> Result<u8, Stop> {
    let alloc = console.rt.alloc();
    let _document = document_in(console.rt, input)?;
    let workbench = Workbench::find(console.rt, named)?;
    let document = PageDocument {
        text: input.text,
        view,
    };
    let bytes = workbench.text().as_bytes();
    if put_page(alloc, bytes, document, &mut console.output)? {
        Ok(0)
    } else {
        Err(workbench.is_none(alloc))
    }
}

/// Writes the trace, the peaks or the jobs of a bench or a scenario.
fn write_run(
    console: &mut Console<'_>,
    asked: Subcommand<'_>,
    subject: Subject<'_>,
) -> Result<(), RunFault> {
    let alloc = console.rt.alloc();
    let (progress, output) = (&mut console.progress, &mut console.output);
    match asked {
        Subcommand::Trace(options) => {
            let _run = trace(alloc, subject, options, progress, output)?;
        }
        Subcommand::Jobs(form, eras) => write_jobs(alloc, subject, (form, eras), output)?,
        Subcommand::Peaks(form) => write_peaks(alloc, subject, form, output)?,
        _ => {}
    }
    Ok(())
}

/// Shows the run of the bench or the scenario that a text is. The exit status is 0.
fn show_run(
    console: &mut Console<'_>,
    asked: Subcommand<'_>,
    input: NamedText<'_>,
) -> Result<u8, Stop> {
    let document = document_in(console.rt, input)?;
    match write_run(console, asked, document.subject()) {
        Ok(()) => Ok(0),
        Err(fault) => Err(Stop::from(fault)),
    }
}

/// Says on standard error that no bench is written, and why, if one was asked for.
fn say_no_bench(rt: &HostRuntime, input: NamedText<'_>, bench: Option<Alarm>, why: &str) {
    if let Some(alarm) = bench {
        let (before, code) = (input.before_line, alarm_code(alarm));
        let _ = eprintln!(rt; "{before} {why} alarm {code}, so no bench is written");
    }
}

/// Searches all orders of a bench. The exit status says whether an alarm can be reached.
fn report_orders(
    console: &mut Console<'_>,
    options: ExploreOptions,
    input: NamedText<'_>,
    explored: &ExploredBench,
) -> Result<u8, Stop> {
    let alloc = console.rt.alloc();
    let (progress, output) = (&mut console.progress, &mut console.output);
    let ExploredBench { bench, flags } = explored;
    let (workers, devices) = (flags.repeats.as_slice(), flags.endless.as_slice());
    let rules = with_endless(options.rules, bench, workers, devices);
    let options = ExploreOptions { rules, ..options };
    let asked = Exploration {
        alloc,
        bench,
        options,
    };
    let (status, why) = match explore(&asked, progress, output)? {
        ReachStatus::Some => return Ok(YES),
        ReachStatus::None => (0, "no order raises"),
        ReachStatus::Undecided => (UNDECIDED, "undecided: no order was found that raises"),
    };
    say_no_bench(console.rt, input, options.bench, why);
    Ok(status)
}

/// Explores the bench that an input is.
fn explore_bench(
    console: &mut Console<'_>,
    options: ExploreOptions,
    input: NamedText<'_>,
) -> Result<u8, Stop> {
    let explored = explored_in(console.rt.alloc(), input)?;
    report_orders(console, options, input, &explored)
}

/// Answers the lines of standard input, from a bench on. The exit status is 0.
fn play_bench(
    console: &mut Console<'_>,
    rules: PlayOptions,
    input: NamedText<'_>,
) -> Result<u8, Stop> {
    let (rt, output) = (console.rt, &mut console.output);
    let explored = explored_in(rt.alloc(), input)?;
    say_run_once(rt, input, &explored);
    match play(rt, &explored.bench, rules, &mut rt.reader(), output) {
        Ok(()) => Ok(0),
        Err(PlayFault::Input) => Err(stop_with(
            4,
            String::from_str(rt.alloc(), "-: a read failed"),
        )),
        Err(PlayFault::Run(fault)) => Err(Stop::from(fault)),
    }
}

/// Writes an input's scenario as a bench. The exit status is 0.
fn write_bench(console: &mut Console<'_>, input: NamedText<'_>) -> Result<u8, Stop> {
    let alloc = console.rt.alloc();
    let scenario = scenario_in(alloc, input)?;
    let bytes = scenario_bench(alloc, &scenario, &mut console.output)?;
    if bytes <= MOST_BYTES as u64 {
        return Ok(0);
    }
    if console.output.flush().is_err() {
        return Err(Stop::Output);
    }
    let (file, has) = (input.before_line, "its bench has");
    let sentence = format!(in alloc; "{file} {has} {bytes} bytes, and agc takes {MOST_BYTES}");
    Err(stop_with(1, sentence))
}

/// The summary of the run of an input's document.
fn summary_in(rt: &HostRuntime, input: NamedText<'_>) -> Result<RunSummary, Stop> {
    let document = document_in(rt, input)?;
    match summary_of(rt.alloc(), document.subject()) {
        Ok(summary) => Ok(summary),
        Err(fault) => Err(Stop::from(fault)),
    }
}

/// Writes what differs between an input's document and that of a file. The exit status says whether
/// they differ.
fn compare_with(
    console: &mut Console<'_>,
    (after, form): (&str, TableForm),
    input: NamedText<'_>,
) -> Result<u8, Stop> {
    let (rt, output) = (console.rt, &mut console.output);
    let before = summary_in(rt, input)?;
    let file = match after {
        "-" => Source::Standard,
        name => Source::File(name),
    };
    let text = text_of(rt, file)?;
    let before_line = format!(in rt.alloc(); "{after}:")?;
    let other = NamedText {
        before_line: before_line.as_str(),
        text: text.as_str(),
        takes_script: false,
    };
    let summary = summary_in(rt, other)?;
    let documents = [(input.text, &before), (other.text, &summary)];
    match put_differences(rt.alloc(), documents, form, output) {
        Ok(true) => Ok(YES),
        Ok(false) => Ok(0),
        Err(fault) => Err(Stop::from(fault)),
    }
}

/// Does what is asked for of an input, and returns the exit status. A script has become a bench
/// before, unless it is checked.
pub(crate) fn work(
    console: &mut Console<'_>,
    asked: &Invocation<'_>,
    rules: PlayOptions,
    input: NamedText<'_>,
) -> Result<u8, Stop> {
    match asked.subcommand {
        Subcommand::Trace(_) | Subcommand::Jobs(..) | Subcommand::Peaks(_) => {
            show_run(console, asked.subcommand, input)
        }
        Subcommand::Page(view, named) => write_page(console, (view, named), input),
        Subcommand::Check => check(console, input, asked.is_script),
        Subcommand::Explore(options) => explore_bench(console, options, input),
        Subcommand::Play => play_bench(console, rules, input),
        Subcommand::Bench => write_bench(console, input),
        Subcommand::Sweep(asked) => write_sweep(console, asked, input),
        Subcommand::Compare(second, form) => compare_with(console, (second, form), input),
    }
}
