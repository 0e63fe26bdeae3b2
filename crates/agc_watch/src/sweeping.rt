//! Sweeps: the numbers of a scenario that they change.
use crate::documents::scenario_in;
use crate::program::Console;
use crate::stops::{Stop, YES};
use crate::words::{SweepOptions, Values, refused_words};
use agc_check::{NamedText, is_near};
use agc_peaks::{Axis, FindOutcome, SweepParameter, find_alarm, run_sweep};
use agc_scenario::{Scenario, TimedEvent, TimedJob};
use agc_text::add_word;
use arrayvec::ArrayString;
use std::alloc::{AllocError, Global};
use std::fmt::Write as Told;

/// The most jobs and the most events that are listed.
const MOST_KEYS: usize = 20;

/// Keys in their list are separated by this.
const COMMA: &str = ", ";

/// Adds the key of a job's computing time, by its name or, if it has none, its address.
fn add_job(keys: &mut String, job: &TimedJob) -> Result<(), AllocError> {
    let mut address: ArrayString<32> = ArrayString::new();
    add_word(&mut address, job.at().get());
    let called = job.name().unwrap_or(address.as_str());
    write!(keys, ", job.{called}.cost")
}

/// Adds the keys of an event, if it has a name.
fn add_event(keys: &mut String, event: &TimedEvent) -> Result<(), AllocError> {
    let Some(name) = event.name() else {
        return Ok(());
    };
    write!(keys, ", event.{name}.at")?;
    match event.every() {
        None => Ok(()),
        Some(_every) => write!(keys, ", event.{name}.every, event.{name}.until"),
    }
}

/// The keys of a scenario that a sweep can take: for at most this many of its jobs, and of its
/// events.
fn keys_of(alloc: Global, scenario: &Scenario) -> Result<String, AllocError> {
    let mut keys = String::from_str(alloc, "sets, steal, seconds, seed")?;
    for job in scenario.timing().jobs().iter().take(MOST_KEYS) {
        add_job(&mut keys, job)?;
    }
    for event in scenario.timing().all_events().iter().take(MOST_KEYS) {
        add_event(&mut keys, event)?;
    }
    Ok(keys)
}

/// The key that was meant by one that is none: the first with at most this many wrong letters.
fn near_key<'a>(keys: &'a str, key: &str, most: u8) -> Option<&'a str> {
    let is_meant = |other: &&str| is_near(most, key.as_bytes(), other.as_bytes());
    keys.split(COMMA).find(is_meant)
}

/// That a key names no number of a scenario, and the one that is meant, or all that do.
fn unknown_key(alloc: Global, scenario: &Scenario, key: &str) -> Result<String, AllocError> {
    let keys = keys_of(alloc, scenario)?;
    let is_none = "is no number of this scenario";
    match near_key(keys.as_str(), key, 1).or(near_key(keys.as_str(), key, 2)) {
        Some(meant) => format!(in alloc; "'{key}' {is_none}; did you mean '{meant}'?"),
        None => format!(in alloc; "'{key}' {is_none}, which has {keys}"),
    }
}

/// The number of a scenario and its values, if it may have them all.
fn axis_of<'a>(alloc: Global, scenario: &Scenario, values: Values<'a>) -> Result<Axis<'a>, Stop> {
    let Values {
        key,
        from,
        to,
        step,
    } = values;
    let reason = match SweepParameter::from_name(scenario, key) {
        None => unknown_key(alloc, scenario, key)?,
        Some(parameter) => {
            let (least, most) = parameter.range();
            if least <= from && to <= most {
                return Ok(Axis {
                    name: key,
                    parameter,
                    from,
                    to,
                    step,
                });
            }
            let wrong = if from < least {
                "FROM is too small"
            } else {
                "TO is too large"
            };
            format!(in alloc; "{wrong}: '{key}' may be {least} to {most}")?
        }
    };
    Err(refused_words(alloc, "sweep", reason.as_str()))
}

/// The exit status that says whether a value was found. Warns on standard error if it may not be
/// the smallest.
fn status_of(rt: &HostRuntime, input: NamedText<'_>, found: FindOutcome) -> u8 {
    let FindOutcome::Found(larger) = found else {
        return 0;
    };
    if let Some(larger) = larger {
        let (file, so) = (input.before_line, "so there may be a smaller one");
        let _ = eprintln!(rt; "{file} warning: {larger} is larger and raises none, {so}");
    }
    YES
}

/// Runs a scenario for each value of a number, or of two, or looks for a value that raises an
/// alarm. Returns what was found.
fn sweep_scenario(
    console: &mut Console<'_>,
    asked: SweepOptions<'_>,
    scenario: &mut Scenario,
) -> Result<FindOutcome, Stop> {
    let alloc = console.rt.alloc();
    let (progress, output) = (&mut console.progress, &mut console.output);
    let first = axis_of(alloc, scenario, asked.first)?;
    let form = asked.form;
    if let Some(values) = asked.second {
        let axes = [first, axis_of(alloc, scenario, values)?];
        run_sweep(alloc, scenario, &axes, form, progress, output)?;
    } else if asked.finds {
        return Ok(find_alarm(alloc, scenario, &[first], form, output)?);
    } else {
        run_sweep(alloc, scenario, &[first], form, progress, output)?;
    }
    Ok(FindOutcome::None)
}

/// Sweeps the scenario that an input is. The exit status says whether a value was found.
pub(crate) fn write_sweep(
    console: &mut Console<'_>,
    asked: SweepOptions<'_>,
    input: NamedText<'_>,
) -> Result<u8, Stop> {
    let mut scenario = scenario_in(console.rt.alloc(), input)?;
    match sweep_scenario(console, asked, &mut scenario) {
        Ok(found) => Ok(status_of(console.rt, input, found)),
        Err(stop) => Err(stop),
    }
}
