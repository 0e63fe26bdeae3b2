// A timetable in memory of a caller's own.
ghost use Rattle.std.specs.Prelude.{◌≡◌};
ghost use Rattle.libagc.specs.Times.{address_for, then_from_c, cost_from_c, times_from_c};
ghost use Rattle.libagc.specs.Times.{distances_from_c, event_after, event_at, request_for};
ghost use Rattle.libagc.specs.Times.{requests_from, step_in, steps_from_c, timetable_from_c};

use crate::numbers::address;
use crate::reading::{AgcRequest, request_of};
use agc_clock::{Cost, Step, Stolen, Then, Times, Timetables, step_of};
use agc_plan::{Address, Request};

/// The cost of a job at an address, and what the job does when that is used up: it makes some of
/// the requests that the call is given, and leaves.
#[repr(C)]
#[derive(Clone, Copy)]
pub struct AgcCost {
    /// The address, 1 to 16383.
    pub at: u32,
    /// The cost in hundredths of a centisecond of computing, 1 to 100,000,000; the greatest if it
    /// is by lot.
    pub hundredths: u32,
    /// 0 if the job ends at last; otherwise the address at which it sleeps, 1 to 16383.
    pub then: u32,
    /// The place of its first request before that, from 0.
    pub first: u32,
    /// The number of these requests, 0 to 7.
    pub count: u32,
    /// The hundredths by which a draw may reduce the cost, fewer than the cost; 0 if it is fixed.
    pub spread: u32,
}

/// An event: when it comes, in centiseconds since the start or since the first alarm of a code, 0
/// to 8,640,000, and the requests that it makes then.
#[repr(C)]
#[derive(Clone, Copy)]
pub struct AgcEvent {
    /// The first time.
    pub at: u32,
    /// After how many centiseconds it comes again; 0 if it comes once.
    pub every: u32,
    /// The last time at which it may come again.
    pub until: u32,
    /// The place of its first request among those of all events, from 0.
    pub first: u32,
    /// How many requests it has, 1 to 16.
    pub count: u32,
    /// 0 if its times count from the start. Otherwise they are distances from the first alarm of
    /// this code, and the event doesn't come until `agc_clock_told` reports that alarm.
    pub after: u32,
}

/// A timetable whose rows lie in memory of a caller's own: an address out of its range counts as
/// 16383, numbers that are no request as a change of job, which is no step of a job, and of two
/// rows for one time, or one address, the first counts. For C each list is a pointer and then a
/// length.
#[repr(C)]
#[derive(Clone, Copy)]
pub struct AgcTimetable<'a> {
    /// How many centiseconds it lasts.
    pub lasts: u32,
    pub stolen: &'a [Stolen],
    pub costs: &'a [AgcCost],
    pub events: &'a [AgcEvent],
    /// The requests of events and jobs.
    pub requests: &'a [AgcRequest],
}

fn last_address() -> Address
    ensures { result ≡ 16383 }
{
    match Address::new(16383) {
        Some(at) => at,
        None => unreachable!(),
    }
}

/// The address of a number; 16383 for one out of range.
fn address_for(number: u32) -> Address
    ensures { result ≡ address_for number }
{
    address(number).unwrap_or(last_address())
}

fn then_of(number: u32) -> Then
    ensures { result ≡ then_from_c number }
{
    if number == 0 {
        Then::End
    } else {
        Then::Sleep(address_for(number))
    }
}

fn distances_of(row: &AgcEvent) -> Times
    ensures { result ≡ distances_from_c row.now }
{
    Times::repeated(row.at, row.every, row.until).unwrap_or(Times::once(row.at))
}

fn times_of(row: &AgcEvent) -> Times
    ensures { result ≡ times_from_c row.now }
{
    let times = distances_of(row);
    if row.after == 0 {
        times
    } else {
        times.after(None)
    }
}

/// An event that counts from the start from now on, with the times that it has if the first alarm
/// of its code came at this time.
fn event_from_alarm(row: &AgcEvent, time: u32) -> AgcEvent
    ensures { result ≡ event_at time row.now }
{
    let times = distances_of(row).after(Some(time));
    AgcEvent {
        at: times.at(),
        every: times.every(),
        until: times.until(),
        after: 0,
        ..*row
    }
}

/// An event after an alarm of this code, 0 if there was none, at this time.
pub(crate) fn event_after(row: &AgcEvent, alarm: u32, time: u32) -> AgcEvent
    ensures { result ≡ event_after alarm time row.now }
{
    if alarm != 0 && row.after == alarm {
        event_from_alarm(row, time)
    } else {
        *row
    }
}

fn request_for(numbers: &AgcRequest) -> Request
    ensures { result ≡ request_for numbers.now }
{
    request_of(numbers).unwrap_or(Request::Change)
}

/// `count` of the requests, from the first on.
pub(crate) fn requests_from(requests: &[AgcRequest], first: u32, count: u32) -> &[AgcRequest]
    ensures { result.now ≡ requests_from requests.now first count }
{
    let first = (first as usize).min(requests.len());
    let rest = &requests[first..];
    let count = (count as usize).min(rest.len());
    &rest[..count]
}

/// The step of a number, up to the first request that is none.
fn step_in(requests: &[AgcRequest], number: usize) -> Option<Step>
    ensures { result ≡ step_in requests.now number }
{
    match requests.get(number) {
        None => None,
        Some(numbers) => step_of(&request_for(numbers)),
    }
}

fn steps_of(requests: &[AgcRequest], row: &AgcCost) -> [Option<Step>; 7]
    ensures { result ≡ steps_from_c requests.now row.now }
{
    let asked = requests_from(requests, row.first, row.count);
    [
        step_in(asked, 0),
        step_in(asked, 1),
        step_in(asked, 2),
        step_in(asked, 3),
        step_in(asked, 4),
        step_in(asked, 5),
        step_in(asked, 6),
    ]
}

fn cost_of(requests: &[AgcRequest], row: &AgcCost) -> Cost
    ensures { result ≡ cost_from_c requests.now row.now }
{
    Cost {
        at: address_for(row.at),
        hundredths: row.hundredths,
        spread: row.spread,
        steps: steps_of(requests, row),
        then: then_of(row.then),
    }
}

impl<'a> Timetables for AgcTimetable<'a> {
    ghost set_down = { λ t. timetable_from_c t.lasts t.stolen.now t.costs.now t.events.now
        t.requests.now };

    fn lasts(&self) -> u32 {
        self.lasts
    }

    fn stolen(&self) -> &[Stolen] {
        self.stolen
    }

    fn costs(&self) -> usize {
        self.costs.len()
    }

    fn cost(&self, row: usize) -> Option<Cost> {
        match self.costs.get(row) {
            None => None,
            Some(row) => Some(cost_of(self.requests, row)),
        }
    }

    fn events(&self) -> usize {
        self.events.len()
    }

    fn times(&self, event: usize) -> Option<Times> {
        match self.events.get(event) {
            None => None,
            Some(row) => Some(times_of(row)),
        }
    }

    fn requests(&self, event: usize) -> usize {
        match self.events.get(event) {
            None => 0,
            Some(row) => requests_from(self.requests, row.first, row.count).len(),
        }
    }

    fn request(&self, event: usize, index: usize) -> Option<Request> {
        match self.events.get(event) {
            None => None,
            Some(row) => match requests_from(self.requests, row.first, row.count).get(index) {
                None => None,
                Some(numbers) => Some(request_for(numbers)),
            },
        }
    }
}
