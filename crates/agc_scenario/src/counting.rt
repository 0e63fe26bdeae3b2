//! Costs that are drawn without a seed, and events that count neither from one above them nor from
//! an alarm.
ghost use Rattle.std.specs.Prelude.{◌≡◌, [], not, nat_lt};
ghost use Rattle.std.specs.List.{list_all, list_any};
ghost use Rattle.agc_scenario.specs.Texts.{is_named};
ghost use Rattle.agc_scenario.specs.Keys.{can_draw, count_from_above, has_named};

use crate::rows::{AFTER, COST, EVENTS, JOBS};
use crate::texts::{EventTexts, JobTexts};
use crate::timing::alarm_called;
use agc_document::{KeyFault, Location, Notes, Text};

/// Whether a job costs the same each time.
fn is_plain(job: &JobTexts<'_>) -> bool
    ensures { result ≡ not (nat_lt job.now.cost.from job.now.cost.to) }
{
    job.cost.to <= job.cost.from
}

/// Whether all jobs cost the same each time.
fn are_plain(jobs: &[JobTexts<'_>]) -> bool
    ensures { result ≡ list_all (λ j. not (nat_lt j.cost.from j.cost.to)) jobs.now }
{
    jobs.iter().all(|job| is_plain(job))
}

/// Whether costs can be drawn: there is a seed, or no cost is drawn. If not, the first cost that is
/// drawn is noted.
pub(crate) fn can_draw(seed: Option<u32>, jobs: &[JobTexts<'_>], notes: &mut Notes<'_>) -> bool
    ensures { result ≡ can_draw seed jobs.now }
{
    if seed.is_some() || are_plain(jobs) {
        return true;
    }
    let before = jobs.iter().take_while(|job| is_plain(job)).count();
    let place = Location::Field(JOBS, (before as u64).saturating_add(1), COST);
    notes.key(place, "", KeyFault::NoSeed);
    false
}

/// Whether there is a name, and it is this text.
fn is_named(name: &Option<Text<'_>>, called: &str) -> bool
    ensures { result ≡ is_named called.now name.now }
{
    match name {
        None => false,
        Some(text) => text.as_str() == called,
    }
}

/// The number, from 1, of the first event behind this place that has this name, if one does.
fn number_named(events: &[EventTexts<'_>], place: usize, name: &Option<Text<'_>>) -> Option<u64> {
    let called = name.as_ref()?.as_str();
    for (k, event) in events.iter().enumerate() {
        if k > place && is_named(&event.name, called) {
            return Some((k as u64).saturating_add(1));
        }
    }
    None
}

fn is_any_named(events: &[EventTexts<'_>], called: &str) -> bool
    ensures { result ≡ list_any (λ e. is_named called.now e.name) events.now }
{
    events.iter().any(|event| is_named(&event.name, called))
}

/// True if there is no name, if an event has it, or if it is that of an alarm.
fn has_named(events: &[EventTexts<'_>], name: &Option<Text<'_>>) -> bool
    ensures { result ≡ has_named events.now name.now }
{
    match name {
        None => true,
        Some(called) => {
            is_any_named(events, called.as_str()) || alarm_called(called.as_str()).is_some()
        }
    }
}

/// Whether each event that counts from another has that one above it, or counts from an alarm. The
/// first that doesn't is noted.
pub(crate) fn count_from_above(events: &[EventTexts<'_>], notes: &mut Notes<'_>) -> bool
    ensures { result ≡ count_from_above [] events.now }
{
    for (k, event) in events.iter().enumerate() {
        if !has_named(&events[..k], &event.after) {
            let place = Location::Field(EVENTS, (k as u64).saturating_add(1), AFTER);
            let number = number_named(events, k, &event.after);
            notes.key(place, "", KeyFault::NoneAbove(number));
            return false;
        }
    }
    true
}
