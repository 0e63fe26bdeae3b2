//! Changing one number of a scenario.
ghost use Rattle.std.specs.Prelude.{◌≡◌, ◌≢◌, ◌≤◌, ◌++◌, [], ℕ, List, codes, IfSome, IfNone};
ghost use Rattle.std.specs.Prelude.{OnOk, OnErr};
ghost use Rattle.std.specs.List.{position};
ghost use Rattle.std.specs.Str.{bytes_eq};
ghost use Rattle.agc_text.specs.Numbers.{octal};
ghost use Rattle.agc_document.specs.Keys.{least, most};
ghost use Rattle.agc_scenario.specs.declared.changing.Number.{Number as AnyNumber};
ghost use Rattle.agc_scenario.specs.declared.changing.Number.TheVariants.{Moment as MomentOf};
ghost use Rattle.agc_scenario.specs.Texts.{is_named};
ghost use Rattle.agc_scenario.specs.Scenarios.{with_bases};
ghost use Rattle.agc_scenario.specs.Numbers.{job_called, event_called, NamesJob};
ghost use Rattle.agc_scenario.specs.Numbers.{NamesEvent, NamesNumber, key_of, nearest, change_at};
ghost use Rattle.agc_scenario.specs.Numbers.{job_with, event_with, exchanged, FitsIn};

use crate::keys::always;
use crate::rows::{COST, EVERY, MOMENT, SECONDS, SEED, STEAL, UNTIL};
use crate::scenario::Scenario;
use crate::timing::{CostRange, TimedEvent, TimedJob, Timing, count, is_named};
use agc_document::Key;
use agc_text::parse_address;
use std::alloc::{AllocError, Global};

/// A number of a scenario: the percentage that is stolen all the time, how many seconds it lasts,
/// the seed of its draws, or a number of the job or event of this index.
#[derive(Clone, Copy)]
pub enum Number {
    Steal,
    Seconds,
    Seed,
    Cost(usize),
    Moment(usize),
    Every(usize),
    Until(usize),
}

impl Number {
    /// The key whose value it is.
    fn key(self) -> Key
        ensures { result ≡ key_of self }
    {
        match self {
            Number::Steal => STEAL,
            Number::Seconds => SECONDS,
            Number::Seed => SEED,
            Number::Cost(_) => COST,
            Number::Moment(_) => MOMENT,
            Number::Every(_) => EVERY,
            Number::Until(_) => UNTIL,
        }
    }

    /// The least and the most that the number may be.
    pub fn range(self) -> (u64, u64)
        ensures least { result.0 ≡ least (key_of self) }
        ensures most { result.1 ≡ most (key_of self) }
    {
        self.key().bounds()
    }

    /// The number in its range that is nearest to this one.
    #[tactic(auto, using(crate::proofs::Numbers::fits_32, crate::proofs::Numbers::nearest_fits))]
    fn nearest(self, value: u64) -> u32
        ensures value { result ≡ nearest self value }
        ensures fits { FitsIn self result }
    {
        let (low, high) = self.range();
        value.max(low).min(high) as u32
    }
}

/// The part of a text between `front` and `back`, if it has both.
fn between<'a>(text: &'a str, front: &str, back: &str) -> Option<&'a str>
    ensures found { IfSome result (λ called. text.now ≡ front.now ++ (called.now ++ back.now)) }
    ensures only { IfNone result
        ((called : List ℕ) → text.now ≢ front.now ++ (called ++ back.now)) }
{
    let rest = text.strip_prefix(front)?;
    rest.strip_suffix(back)
}

/// Whether a text is a job's address.
fn is_at(job: &TimedJob, text: &str) -> bool
    ensures { result ≡ bytes_eq (octal 5 job.now.at) text.now }
{
    let at = job.at();
    match parse_address(text) {
        None => false,
        Some(other) => other.get() == at.get(),
    }
}

/// Sets a job's cost: from now on always this much.
fn change_cost(job: &mut TimedJob, value: u32)
    requires { value ≤ 1000000 }
    ensures { job.new ≡ job_with value job.old }
{
    job.cost = CostRange {
        from: value,
        to: value,
    };
}

/// Sets a number of an event.
fn change_event(event: &mut TimedEvent, number: Number, value: u32)
    requires { FitsIn number value }
    ensures { event.new ≡ event_with number value event.old }
{
    match number {
        Number::Moment(_) => event.at = value,
        Number::Every(_) => event.every = Some(value),
        Number::Until(_) => event.until = Some(value),
        Number::Steal | Number::Seconds | Number::Seed | Number::Cost(_) => {}
    }
}

/// Sets the cost of the job at this place, if there is one.
#[tactic(auto, using(crate::proofs::Numbers::job_changed, crate::proofs::Numbers::changed_out))]
fn change_job_at(jobs: &mut Vec<TimedJob>, k: usize, value: u32)
    requires { value ≤ 1000000 }
    ensures { jobs.new.items ≡ change_at (job_with value) k jobs.old.items }
{
    if k < jobs.len() {
        change_cost(&mut jobs[k], value);
    }
}

/// Sets a number of the event at this place, if there is one.
#[tactic(auto, using(crate::proofs::Numbers::event_changed, crate::proofs::Numbers::changed_out))]
fn change_event_at(events: &mut Vec<TimedEvent>, k: usize, number: Number, value: u32)
    requires { FitsIn number value }
    ensures { events.new.items ≡ change_at (event_with number value) k events.old.items }
{
    if k < events.len() {
        change_event(&mut events[k], number, value);
    }
}

/// Sets the time at which the event at this place comes, if there is one, and so the times of those
/// that count from it.
fn change_moment_at(events: &mut Vec<TimedEvent>, k: usize, value: u32)
    ensures { events.new.items
        ≡ with_bases [] (change_at (event_with (MomentOf k) value) k events.old.items) }
{
    change_event_at(events, k, Number::Moment(k), value);
    count(events);
}

impl Timing {
    /// The first job of this name.
    fn job_with_name(&self, called: &str) -> Option<usize>
        ensures { result ≡ position (λ j. is_named called.now j.name) self.now.jobs }
    {
        self.jobs.iter().position(|job| is_named(&job.name, called))
    }

    /// The first job that has this address.
    fn job_at(&self, called: &str) -> Option<usize>
        ensures { result ≡ position (λ j. bytes_eq (octal 5 j.at) called.now) self.now.jobs }
    {
        self.jobs.iter().position(|job| is_at(job, called))
    }

    /// The first job of this name, or else the first that has this address.
    fn job_called(&self, called: &str) -> Option<usize>
        ensures { result ≡ job_called called.now self.now.jobs }
    {
        self.job_with_name(called).or(self.job_at(called))
    }

    /// The first event of this name.
    fn event_called(&self, called: &str) -> Option<usize>
        ensures { result ≡ event_called called.now self.now.events }
    {
        self.events
            .iter()
            .position(|event| is_named(&event.name, called))
    }

    /// The job whose cost a text names.
    #[tactic(auto, using(crate::proofs::Numbers::names_found, crate::proofs::Numbers::only_job))]
    fn job_named(&self, text: &str) -> Option<usize>
        ensures found { IfSome result (NamesJob self.now.jobs text.now) }
        ensures only { IfNone result ((k : ℕ) → ¬ (NamesJob self.now.jobs text.now k)) }
    {
        self.job_called(between(text, "job.", ".cost")?)
    }

    /// The event whose number, under this key, a text names.
    #[tactic(auto, using(crate::proofs::Numbers::names_found, crate::proofs::Numbers::only_event))]
    fn event_named(&self, key: &str, text: &str) -> Option<usize>
        ensures found { IfSome result (NamesEvent self.now.events key.now text.now) }
        ensures only { IfNone result
            ((k : ℕ) → ¬ (NamesEvent self.now.events key.now text.now k)) }
    {
        self.event_called(between(text, "event.", key)?)
    }

    /// Sets a number. If memory runs out, nothing changes.
    fn exchange(&mut self, alloc: Global, number: Number, value: u32) -> Result<(), AllocError>
        requires { FitsIn number value }
        ensures ok { OnOk result (self.new ≡ exchanged number value self.old) }
        ensures err { OnErr result (self.new ≡ self.old) }
    {
        match number {
            Number::Steal => {
                let rows = always(alloc, value as u64)?;
                self.stolen = rows;
            }
            Number::Seconds => self.seconds = value,
            Number::Seed => self.seed = Some(value),
            Number::Cost(k) => change_job_at(&mut self.jobs, k, value),
            Number::Moment(k) => change_moment_at(&mut self.events, k, value),
            Number::Every(k) => change_event_at(&mut self.events, k, number, value),
            Number::Until(k) => change_event_at(&mut self.events, k, number, value),
        }
        Ok(())
    }
}

impl Scenario {
    /// The number with this name: `steal`, `seconds`, `seed`, `job.NAME.cost`, `event.NAME.at`,
    /// `event.NAME.every` or `event.NAME.until`, where a job without a name is named by its
    /// address. None if the scenario has no such job or event.
    pub fn number(&self, name: &str) -> Option<Number>
        ensures found { IfSome result (NamesNumber self.now.timing name.now) }
        ensures only { IfNone result
            ((n : AnyNumber) → ¬ (NamesNumber self.now.timing name.now n)) }
    {
        let timing = &self.timing;
        if name == "steal" {
            return Some(Number::Steal);
        }
        if name == "seconds" {
            return Some(Number::Seconds);
        }
        if name == "seed" {
            return Some(Number::Seed);
        }
        match timing.job_named(name) {
            Some(job) => Some(Number::Cost(job)),
            None => match timing.event_named(".at", name) {
                Some(event) => Some(Number::Moment(event)),
                None => match timing.event_named(".every", name) {
                    Some(event) => Some(Number::Every(event)),
                    None => match timing.event_named(".until", name) {
                        Some(event) => Some(Number::Until(event)),
                        None => None,
                    },
                },
            },
        }
    }

    /// Sets a number, or the nearest in its range.
    ///
    /// # Errors
    ///
    /// If memory runs out; nothing is exchanged.
    pub fn exchange(&mut self, alloc: Global, number: Number, value: u64) -> Result<(), AllocError>
        ensures ok { OnOk result (self.new ≡ record self.old
            { timing = exchanged number (nearest number value) self.old.timing }) }
        ensures err { OnErr result (self.new ≡ self.old) }
    {
        self.timing.exchange(alloc, number, number.nearest(value))
    }
}
