//! How time passes in a scenario.
ghost use Rattle.std.specs.Prelude.{◌≡◌, ◌≤◌, ◌*◌, [], map, option_map, string_bytes};
ghost use Rattle.std.specs.List.{range_with_len};
ghost use Rattle.agc_scenario.specs.Texts.{alarm_called, is_named};
ghost use Rattle.agc_scenario.specs.Scenarios.{base_of, comes_by, cost_of, with_bases, counted_by};
ghost use Rattle.agc_scenario.specs.Scenarios.{first_called, first_of, last_time_of, later};
ghost use Rattle.agc_scenario.specs.Scenarios.{leaves_by, seed_of, step_in, then_of};

use agc_clock::{Alarms, Cost, LAST_TIME, Step, Stolen, Then, Times, step_of};
use agc_plan::{Address, Alarm, Request};
use std::marker::Model;

/// A name, if it is there.
#[derive(Drop)]
pub struct Name {
    text: Option<String>,
}

impl Model for Name {
    ghost use Rattle.std.specs.Prelude.{ℕ, List, Option, string_bytes};
    ghost use Rattle.std.specs.Option.{option_map};

    ghost Value = { Option (List ℕ) };

    ghost view = { λ n. option_map (λ s. string_bytes s) n.text };
}

impl Name {
    /// A name that is this text, or none.
    pub(crate) fn of(text: Option<String>) -> Name
        ensures { result ≡ option_map (λ s. string_bytes s) text }
    {
        Name { text }
    }

    /// The name, if it is there.
    pub fn as_str(&self) -> Option<&str>
        ensures { option_map (λ s. s.now) result ≡ self.now }
    {
        match &self.text {
            None => None,
            Some(text) => Some(text.as_str()),
        }
    }
}

/// Whether there is a name, and it is this text.
pub(crate) fn is_named(name: &Name, called: &str) -> bool
    ensures { result ≡ is_named called.now name.now }
{
    match name.as_str() {
        None => false,
        Some(text) => text == called,
    }
}

/// The alarm that a name calls, if it is one.
pub(crate) fn alarm_called(called: &str) -> Option<Alarm>
    ensures { result ≡ alarm_called called.now }
{
    match called {
        "1201" => Some(Alarm::A1201),
        "1202" => Some(Alarm::A1202),
        "1203" => Some(Alarm::A1203),
        _ => None,
    }
}

/// A job's cost in centiseconds of computing: drawn between a least and a most, or fixed if they
/// are equal.
#[derive(Clone, Copy, PartialEq, Eq)]
pub struct CostRange {
    pub from: u32,
    pub to: u32,
}

/// A job at an address: its cost in centiseconds of computing, its requests when that is used up,
/// its deadline, and its name.
#[derive(Drop)]
pub struct TimedJob {
    pub(crate) at: Address,
    pub(crate) cost: CostRange,
    pub(crate) deadline: Option<u32>,
    pub(crate) requests: Vec<Request>,
    pub(crate) name: Name,
}

impl Model for TimedJob {
    ghost use Rattle.std.specs.Prelude.{◌≤◌};
    ghost use Rattle.agc_scenario.specs.Scenarios.{TimedJob as Job};

    ghost Value = { Job };

    ghost view = { λ j. record {
      at = j.at;
      cost = j.cost;
      deadline = j.deadline;
      requests = j.requests.items;
      name = j.name;
    } };

    ghost invariant = { λ j. (j.cost.from ≤ j.cost.to) × (j.cost.to ≤ 1000000) };
}

/// The way in which this request makes a job leave, if it does.
pub(crate) fn then_of(request: &Request) -> Option<Then>
    ensures { result ≡ then_of request.now }
{
    match *request {
        Request::EndOfJob => Some(Then::End),
        Request::Sleep(at) => Some(Then::Sleep(at)),
        _ => None,
    }
}

/// The way in which a job with these requests leaves.
fn leaves_by(requests: &[Request]) -> Then
    ensures { result ≡ leaves_by requests.now }
{
    match requests.get(requests.len().saturating_sub(1)) {
        None => Then::End,
        Some(last) => then_of(last).unwrap_or(Then::End),
    }
}

/// The step of a number among these requests.
fn step_in(requests: &[Request], number: usize) -> Option<Step>
    ensures { result ≡ step_in requests.now number }
{
    match requests.get(number) {
        None => None,
        Some(request) => step_of(request),
    }
}

/// The steps among these requests.
fn steps_of(requests: &[Request]) -> [Option<Step>; 7]
    ensures { result ≡ map (step_in requests.now) (range_with_len 0 7) }
{
    [
        step_in(requests, 0),
        step_in(requests, 1),
        step_in(requests, 2),
        step_in(requests, 3),
        step_in(requests, 4),
        step_in(requests, 5),
        step_in(requests, 6),
    ]
}

impl TimedJob {
    /// Its address.
    pub fn at(&self) -> Address
        ensures { result ≡ self.now.at }
    {
        self.at
    }

    /// Its cost in centiseconds of computing, at most 1,000,000.
    pub fn cost(&self) -> CostRange
        ensures value { result ≡ self.now.cost }
        ensures order { result.from ≤ result.to }
        ensures range { result.to ≤ 1000000 }
    {
        self.cost
    }

    /// The deadline, in centiseconds from where the job is established to its end, if it has one.
    pub fn deadline(&self) -> Option<u32>
        ensures { result ≡ self.now.deadline }
    {
        self.deadline
    }

    /// Its requests when its cost is used up, in order.
    pub fn requests(&self) -> &[Request]
        ensures { result.now ≡ self.now.requests }
    {
        self.requests.as_slice()
    }

    /// Its name, if it has one.
    pub fn name(&self) -> Option<&str>
        ensures { option_map (λ s. s.now) result ≡ self.now.name }
    {
        self.name.as_str()
    }

    /// Its cost in hundredths of a centisecond, for a clock.
    pub(crate) fn hundredths(&self) -> Cost
        ensures { result ≡ cost_of self.now }
    {
        Cost {
            at: self.at,
            hundredths: self.cost.to * 100,
            spread: (self.cost.to - self.cost.from) * 100,
            steps: steps_of(self.requests.as_slice()),
            then: leaves_by(self.requests.as_slice()),
        }
    }
}

/// The instant from which an event counts: this many centiseconds after the first alarm of a code,
/// or after the start.
#[derive(Clone, Copy)]
pub(crate) struct EventBase {
    pub(crate) alarm: Option<Alarm>,
    pub(crate) from: u32,
}

/// An event: when it comes, what it asks for, and its name.
#[derive(Drop)]
pub struct TimedEvent {
    pub(crate) at: u32,
    pub(crate) after: Name,
    pub(crate) base: EventBase,
    pub(crate) requests: Vec<Request>,
    pub(crate) every: Option<u32>,
    pub(crate) until: Option<u32>,
    pub(crate) name: Name,
}

impl Model for TimedEvent {
    ghost use Rattle.std.specs.Prelude.{◌≤◌, IfSome};
    ghost use Rattle.agc_scenario.specs.Scenarios.{TimedEvent as Event};

    ghost Value = { Event };

    ghost view = { λ e. record {
      at = e.at;
      after = e.after;
      base = e.base;
      requests = e.requests.items;
      every = e.every;
      until = e.until;
      name = e.name;
    } };

    ghost invariant = { λ e. IfSome e.every (λ n. 1 ≤ n) };
}

/// The centisecond this long after another, at most the first after a day.
fn later(from: u32, long: u32) -> u32
    ensures { result ≡ later from long }
{
    from.saturating_add(long).min(LAST_TIME + 1)
}

impl TimedEvent {
    /// The alarm from whose first an event counts, if it counts from one.
    pub fn alarm(&self) -> Option<Alarm>
        ensures { result ≡ self.now.base.alarm }
    {
        self.base.alarm
    }

    /// Its first centisecond, at most the first after a day; if it counts from an alarm, how long
    /// after that it comes, at least 1.
    pub fn first(&self) -> u32
        ensures { result ≡ first_of self.now }
    {
        let first = later(self.base.from, self.at);
        match self.base.alarm {
            None => first,
            Some(_alarm) => first.max(1),
        }
    }

    /// The last centisecond at which it may come again, if it has one, at most the first after a
    /// day; if it counts from an alarm, how long after that.
    pub fn last(&self) -> Option<u32>
        ensures { result ≡ last_time_of self.now }
    {
        match self.until {
            None => None,
            Some(until) => Some(later(self.base.from, until)),
        }
    }

    /// Its requests, in order.
    pub fn requests(&self) -> &[Request]
        ensures { result.now ≡ self.now.requests }
    {
        self.requests.as_slice()
    }

    /// After how many centiseconds it comes again, if it does.
    pub fn every(&self) -> Option<u32>
        ensures { result ≡ self.now.every }
    {
        self.every
    }

    /// Its name, if it has one.
    pub fn name(&self) -> Option<&str>
        ensures { option_map (λ s. s.now) result ≡ self.now.name }
    {
        self.name.as_str()
    }

    /// When it comes in a scenario that lasts this many centiseconds, or how long after an alarm.
    fn distances(&self, lasts: u32) -> Times
        ensures { result
            ≡ comes_by (first_of self.now) self.now.every (last_time_of self.now) lasts }
    {
        let every = match self.every {
            None => return Times::once(self.first()),
            Some(every) => every,
        };
        let until = match self.last() {
            None => lasts,
            Some(last) => last,
        };
        match Times::repeated(self.first(), every, until) {
            Some(times) => times,
            None => unreachable!(),
        }
    }

    /// When it comes, where these alarms came so far.
    pub(crate) fn times(&self, lasts: u32, alarms: &Alarms) -> Times
        ensures { result ≡ counted_by alarms.now self.now.base.alarm
            (comes_by (first_of self.now) self.now.every (last_time_of self.now) lasts) }
    {
        let times = self.distances(lasts);
        match self.base.alarm {
            None => times,
            Some(alarm) => times.after(alarms.first(alarm)),
        }
    }
}

/// The instant from which an event counts: the first of these events that has the name, or else the
/// alarm that has it.
fn first_called(events: &[TimedEvent], called: &str) -> EventBase
    ensures { result ≡ first_called called.now events.now }
{
    for event in events {
        if is_named(&event.name, called) {
            return EventBase {
                alarm: event.base.alarm,
                from: event.first(),
            };
        }
    }
    EventBase {
        alarm: alarm_called(called),
        from: 0,
    }
}

/// The instant from which an event counts that names one above it or an alarm, or none.
fn base_of(above: &[TimedEvent], after: &Name) -> EventBase
    ensures { result ≡ base_of above.now after.now }
{
    match after.as_str() {
        None => EventBase {
            alarm: None,
            from: 0,
        },
        Some(called) => first_called(above, called),
    }
}

/// Sets the instant from which an event counts.
fn count_from(event: &mut TimedEvent, base: EventBase)
    ensures { event.new ≡ record event.old { base = base } }
{
    event.base = base;
}

/// Sets the instant from which each event counts.
#[tactic(auto, using(crate::proofs::Counted::count_step))]
pub(crate) fn count(events: &mut Vec<TimedEvent>)
    ensures { events.new.items ≡ with_bases [] events.old.items }
{
    for k in 0..events.len() {
        let base = base_of(&events[..k], &events[k].after);
        count_from(&mut events[k], base);
    }
}

/// How time passes in a scenario. Contracts see its values.
#[derive(Drop)]
pub struct Timing {
    pub(crate) seconds: u32,
    pub(crate) title: Name,
    pub(crate) seed: Option<u32>,
    pub(crate) stolen: Vec<Stolen>,
    pub(crate) jobs: Vec<TimedJob>,
    pub(crate) events: Vec<TimedEvent>,
}

impl Model for Timing {
    ghost use Rattle.std.specs.Prelude.{◌≤◌};
    ghost use Rattle.agc_scenario.specs.Scenarios.{Timed};

    ghost Value = { Timed };

    ghost view = { λ t. record {
      seconds = t.seconds;
      title = t.title;
      seed = t.seed;
      stolen = t.stolen.items;
      jobs = t.jobs.items;
      events = t.events.items;
    } };

    ghost invariant = { λ t. t.seconds ≤ 86400 };
}

impl Timing {
    /// How many seconds it lasts, at most 86400, a day.
    pub fn seconds(&self) -> u32
        ensures value { result ≡ self.now.seconds }
        ensures range { result ≤ 86400 }
    {
        self.seconds
    }

    /// How many centiseconds it lasts.
    pub fn lasts(&self) -> u32
        ensures { result ≡ self.now.seconds * 100 }
    {
        self.seconds * 100
    }

    /// The rows of stolen time.
    pub fn stolen(&self) -> &[Stolen]
        ensures { result.now ≡ self.now.stolen }
    {
        self.stolen.as_slice()
    }

    /// Its title, if it has one.
    pub fn title(&self) -> Option<&str>
        ensures { option_map (λ s. s.now) result ≡ self.now.title }
    {
        self.title.as_str()
    }

    /// The seed of its lots; 0 if it has none.
    pub fn seed(&self) -> u32
        ensures { result ≡ seed_of self.now }
    {
        self.seed.unwrap_or(0)
    }

    /// The jobs that have a cost, by their addresses.
    pub fn jobs(&self) -> &[TimedJob]
        ensures { result.now ≡ self.now.jobs }
    {
        self.jobs.as_slice()
    }

    /// The events, in the order of the document.
    pub fn all_events(&self) -> &[TimedEvent]
        ensures { result.now ≡ self.now.events }
    {
        self.events.as_slice()
    }
}
