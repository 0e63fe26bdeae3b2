//! The warnings about stolen time, jobs and events of a scenario.
use crate::gathered::Gathered;
use crate::messages::{Message, NONE, message_of, plain};
use crate::warnings::{Warnings, note};
use agc_clock::{LAST_TIME, Stolen, stolen_at};
use agc_document::{Bench, Location};
use agc_plan::{Action, Actions, Address, JobStart, Request, Task, action_request};
use agc_scenario::rows::{EVENTS, JOBS, STEAL};
use agc_scenario::{Scenario, TimedEvent, TimedJob, Timing};
use agc_text::Field::{Number, Text};
use std::alloc::{AllocError, Global};
use std::collections::BTreeSet;

const NOT_AGAIN: &str = "without every, until says nothing: it comes once";

/// The addresses at which jobs begin or are awakened, each with the centiseconds after which that
/// comes again there, if it does.
type Beginnings = Gathered<(Address, Option<u64>)>;

/// Adds the address at which a job begins by this request, or is awakened.
fn add_request(found: &mut Beginnings, request: &Request, period: Option<u64>) {
    match *request {
        Request::Novac(_priority, entry) | Request::Findvac(_priority, entry) => {
            found.add((entry.at, period));
        }
        Request::Sleep(awakened) => found.add((awakened, period)),
        _ => {}
    }
}

/// The centiseconds after which a task lists itself again by one of these actions.
fn period_of(task: Task, actions: &Actions) -> Option<u64> {
    let own_delay = |action: &Action| match *action {
        Action::List(delay, listed) if listed == task => Some(u64::from(delay.get())),
        _ => None,
    };
    actions.as_slice().iter().filter_map(own_delay).min()
}

/// Where anything of a bench begins a job.
fn add_bench(found: &mut Beginnings, bench: &Bench) {
    for (task, actions) in bench.rows() {
        let period = period_of(*task, actions);
        for action in actions.as_slice() {
            if let Some(request) = action_request(*action) {
                add_request(found, &request, period);
            }
        }
    }
    for entry in bench.entries() {
        if let Some(JobStart::Novac(_, entry) | JobStart::Findvac(_, entry)) = entry.job() {
            found.add((entry.at, None));
        }
    }
}

/// Where anything of a scenario begins a job.
fn beginnings_of(
    alloc: Global,
    scenario: &Scenario,
) -> Result<Vec<(Address, Option<u64>)>, AllocError> {
    let mut found = Gathered::new(alloc);
    add_bench(&mut found, scenario.bench());
    for event in scenario.timing().all_events() {
        for request in event.requests() {
            add_request(&mut found, request, event.every().map(u64::from));
        }
    }
    for job in scenario.timing().jobs() {
        for request in job.requests() {
            add_request(&mut found, request, None);
        }
    }
    found.into_list()
}

/// The percentage that is stolen in every centisecond, at least. Nothing is computed before the
/// first tick.
fn stolen_always(timing: &Timing) -> u64 {
    let mut least = 100;
    for time in 1..=timing.lasts() {
        least = stolen_at(timing.stolen(), time).min(least);
        if least == 0 {
            return 0;
        }
    }
    u64::from(least)
}

/// The warning about a job, if there is one, by where jobs begin; this percentage is always stolen.
fn job_message(
    job: &TimedJob,
    beginnings: &[(Address, Option<u64>)],
    stolen: u64,
) -> Option<Message<'static>> {
    let here = || beginnings.iter().filter(|one| one.0 == job.at());
    if here().count() == 0 {
        return Some(plain("nothing begins a job at this address"));
    }
    let period = here().filter_map(|one| one.1).min()?;
    let cost = u64::from(job.cost().from);
    let left = period.saturating_mul(100_u64.saturating_sub(stolen));
    if cost.saturating_mul(100) < left {
        return None;
    }
    let (cost, period) = (Number(cost), Number(period));
    if stolen == 0 {
        let text = "it costs {} of each {} centiseconds: nothing is left";
        return Some(message_of(text, cost, period));
    }
    let text =
        "it costs {} of each {} centiseconds, of which {} percent are stolen: nothing is left";
    Some((text, [cost, period, Number(stolen), NONE, NONE]))
}

/// The first centisecond after all those of a scenario in which a repeating row of stolen time
/// would hold.
fn end_of_repeats(again: &Stolen, lasts: u32) -> u32 {
    let rest = again.until.min(lasts).saturating_sub(again.from);
    let beats = rest.checked_div(again.every).unwrap_or(0);
    let last_beat = again.to.saturating_add(beats.saturating_mul(again.every));
    last_beat.min(lasts.saturating_add(1))
}

/// Whether a row of stolen time that doesn't repeat always holds when one that repeats would.
fn hides(row: &Stolen, again: &Stolen, lasts: u32) -> bool {
    let is_repeated = row.every == 0 && again.every != 0;
    is_repeated && row.from <= again.from && end_of_repeats(again, lasts) <= row.to
}

/// The warning about a row of stolen time, if there is one, by the rows above it.
fn row_message(timing: &Timing, above: &[Stolen], row: &Stolen) -> Option<Message<'static>> {
    let text = if row.every == 0 && row.until < LAST_TIME {
        NOT_AGAIN
    } else if row.every != 0 && row.until < row.from {
        "until is before from, so it never comes"
    } else if above.iter().any(|other| hides(other, row, timing.lasts())) {
        "an earlier row always holds when this one would, so it has no effect"
    } else {
        return None;
    };
    Some(plain(text))
}

/// The warning about an event, if there is one.
fn event_message(timing: &Timing, event: &TimedEvent) -> Option<Message<'static>> {
    if event.first() > timing.lasts() {
        return Some(plain("it comes after the end"));
    }
    let last = event.last()?;
    if event.every().is_none() {
        Some(plain(NOT_AGAIN))
    } else if last < event.first() {
        Some(plain("until is before at, so it never comes"))
    } else {
        None
    }
}

/// The warning that an earlier row of this kind has the same name, if that is so.
fn twin_message<'a>(
    names: &mut BTreeSet<&'a str>,
    name: Option<&'a str>,
    kind: &'static str,
) -> Result<Option<Message<'static>>, AllocError> {
    let Some(name) = name else {
        return Ok(None);
    };
    let is_new = names.insert(name)?;
    let message = message_of("an earlier {} has the same name", Text(kind), NONE);
    Ok((!is_new).then_some(message))
}

/// Notes the warnings about the rows of stolen time of a scenario.
fn note_rows(found: &mut Warnings, timing: &Timing) {
    let rows = timing.stolen();
    for (k, row) in rows.iter().enumerate() {
        let place = Location::Table(STEAL, (k as u64).saturating_add(1));
        note(
            found,
            place,
            row_message(timing, rows.get(..k).unwrap_or(&[]), row),
        );
    }
}

/// Notes the warnings about the stolen time, jobs and events of a scenario.
pub(crate) fn note_timing(
    alloc: Global,
    found: &mut Warnings,
    scenario: &Scenario,
) -> Result<(), AllocError> {
    let timing = scenario.timing();
    note_rows(found, timing);
    let (beginnings, stolen) = (beginnings_of(alloc, scenario)?, stolen_always(timing));
    let mut names = BTreeSet::new(alloc);
    for (number, job) in (1u64..).zip(timing.jobs()) {
        let place = Location::Table(JOBS, number);
        note(found, place, twin_message(&mut names, job.name(), "job")?);
        note(
            found,
            place,
            job_message(job, beginnings.as_slice(), stolen),
        );
    }
    let mut names = BTreeSet::new(alloc);
    for (number, event) in (1u64..).zip(timing.all_events()) {
        let place = Location::Table(EVENTS, number);
        note(
            found,
            place,
            twin_message(&mut names, event.name(), "event")?,
        );
        note(found, place, event_message(timing, event));
    }
    Ok(())
}
