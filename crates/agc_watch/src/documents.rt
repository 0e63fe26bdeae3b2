//! The document that a text is, or that a script becomes; if it is none, its findings.
use crate::stops::{Stop, stop_with};
use agc_check::{
    Document, ExploredBench, Findings, NamedText, explored_findings, put_bench_messages,
    put_script_messages, scenario_findings, script_findings,
};
use agc_plan::Request;
use agc_run::Subject;
use agc_scenario::{Scenario, is_scenario};
use agc_text::{Buffer, ScriptFault, read_script};
use std::alloc::{AllocError, Global};
use std::fmt::Write;

const RUN_ONCE: &str =
    "workers that repeat and devices without pulses are run once; agc refuses such a bench";

const WANTS_SCENARIO: &str = "this is a bench; a scenario has the key \"seconds\"";

const WANTS_BENCH: &str =
    "this is a scenario, whose clock fixes the order of its requests. A bench \
has callers in its place, for example:
[[worker]]
script = [\"novac 20 02000 00005\", \"end\"]
[[worker]]
script = [\"list 1 04000 00005\", \"tick\"]";

/// The bench or scenario that a document is.
#[derive(Drop)]
pub(crate) enum RunnableDocument {
    Bench(ExploredBench),
    Scenario(Scenario),
}

impl RunnableDocument {
    /// The subject of its run.
    pub(crate) fn subject(&self) -> Subject<'_> {
        match self {
            RunnableDocument::Bench(explored) => Subject::Bench(&explored.bench),
            RunnableDocument::Scenario(scenario) => Subject::Scenario(scenario),
        }
    }
}

/// Stops for messages about an input.
fn stop_for(messages: Buffer) -> Stop {
    if messages.end().is_ok() {
        Stop::Findings(messages)
    } else {
        Stop::NoMemory
    }
}

/// Stops because an input is no script.
fn no_script(alloc: Global, input: NamedText<'_>) -> Result<Stop, AllocError> {
    let findings = script_findings(alloc, input.text)?;
    let mut messages = Buffer::new(alloc)?;
    put_script_messages(&mut messages, input, findings.as_slice());
    Ok(stop_for(messages))
}

/// The requests of the script that an input is.
pub(crate) fn script_in(alloc: Global, input: NamedText<'_>) -> Result<Vec<Request>, Stop> {
    match read_script(alloc, input.text) {
        Ok(requests) => Ok(requests),
        Err(ScriptFault::NoMemory) => Err(Stop::NoMemory),
        Err(ScriptFault::Line(_first)) => Err(no_script(alloc, input)?),
    }
}

/// The bench whose script an input is, as a document, with the default of each key.
pub(crate) fn bench_of_script(alloc: Global, input: NamedText<'_>) -> Result<String, Stop> {
    let _requests = script_in(alloc, input)?;
    let mut bench = String::new(alloc);
    bench.push_str("script = [\n")?;
    for line in input.text.split_terminator('\n') {
        write!(bench, "    \"{line}\",\n")?;
    }
    bench.push_str("]\n")?;
    Ok(bench)
}

/// Says on standard error how a bench of callers that never stop is run, if it is such a bench.
pub(crate) fn say_run_once(rt: &HostRuntime, input: NamedText<'_>, explored: &ExploredBench) {
    let (file, flags) = (input.before_line, &explored.flags);
    if flags.repeats.iter().any(|repeats| *repeats)
        || flags.endless.iter().any(|endless| *endless)
    {
        let _ = eprintln!(rt; "{file} {RUN_ONCE}");
    }
}

/// The messages about these findings of an input.
fn messages_of(
    alloc: Global,
    input: NamedText<'_>,
    found: &Findings,
) -> Result<Buffer, AllocError> {
    let mut messages = Buffer::new(alloc)?;
    put_bench_messages(alloc, &mut messages, input, found)?;
    Ok(messages)
}

/// Stops for these findings of an input.
fn refusal(alloc: Global, input: NamedText<'_>, found: &Findings) -> Stop {
    match messages_of(alloc, input, found) {
        Ok(messages) => stop_for(messages),
        Err(error) => Stop::from(error),
    }
}

/// The document that an input is.
fn parse_document<'a>(alloc: Global, input: NamedText<'a>) -> Result<Document<'a>, Stop> {
    match Document::parse(alloc, input.text)? {
        Ok(document) => Ok(document),
        Err(found) => Err(refusal(alloc, input, &found)),
    }
}

/// The bench or the scenario that an input is. A scenario is a document that says how many seconds
/// it lasts.
pub(crate) fn document_in(
    rt: &HostRuntime,
    input: NamedText<'_>,
) -> Result<RunnableDocument, Stop> {
    let document = parse_document(rt.alloc(), input)?;
    let read = if is_scenario(document.table()) {
        scenario_findings(rt.alloc(), &document)?.map(RunnableDocument::Scenario)
    } else {
        explored_findings(rt.alloc(), &document)?.map(RunnableDocument::Bench)
    };
    match read {
        Ok(runnable) => {
            if let RunnableDocument::Bench(explored) = &runnable {
                say_run_once(rt, input, explored);
            }
            Ok(runnable)
        }
        Err(found) => Err(refusal(rt.alloc(), input, &found)),
    }
}

/// The bench that an input is, and which of its callers never stop.
pub(crate) fn explored_in(alloc: Global, input: NamedText<'_>) -> Result<ExploredBench, Stop> {
    let document = parse_document(alloc, input)?;
    if is_scenario(document.table()) {
        let file = input.before_line;
        return Err(stop_with(1, format!(in alloc; "{file} {WANTS_BENCH}")));
    }
    match explored_findings(alloc, &document)? {
        Ok(explored) => Ok(explored),
        Err(found) => Err(refusal(alloc, input, &found)),
    }
}

/// Stops for these findings of an input that is no scenario. A bench gets a sentence of its own.
fn no_scenario(
    alloc: Global,
    input: NamedText<'_>,
    document: &Document<'_>,
    found: &Findings,
) -> Result<Stop, AllocError> {
    let file = input.before_line;
    Ok(if explored_findings(alloc, document)?.is_ok() {
        stop_with(1, format!(in alloc; "{file} {WANTS_SCENARIO}"))
    } else {
        refusal(alloc, input, found)
    })
}

/// The scenario that an input is.
pub(crate) fn scenario_in(alloc: Global, input: NamedText<'_>) -> Result<Scenario, Stop> {
    let document = parse_document(alloc, input)?;
    match scenario_findings(alloc, &document)? {
        Ok(scenario) => Ok(scenario),
        Err(found) => Err(no_scenario(alloc, input, &document, &found)?),
    }
}
