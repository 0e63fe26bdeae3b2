// The faults of a caller's timetable.
ghost use Rattle.std.specs.Prelude.{◌≡◌, ◌==◌};
ghost use Rattle.std.specs.List.{list_all, list_any};
ghost use Rattle.libagc.specs.Codes.{code_for};
ghost use Rattle.agc_clock.specs.Timetables.{overlap};
ghost use Rattle.libagc.specs.Numbers.{is_request};
ghost use Rattle.libagc.specs.Times.{is_steal, is_step, is_cost, is_event, are_in_range};
ghost use Rattle.libagc.specs.Times.{steals_twice, costs_twice, times_lack};

use crate::fault::Fault;
use crate::numbers::address;
use crate::reading::{AgcRequest, request_of};
use crate::timetable::{AgcCost, AgcEvent, AgcTimetable, requests_from};
use agc_clock::{LAST_TIME, Stolen, step_of};

/// The greatest cost, in hundredths of a centisecond.
const MOST_COST: u32 = 100000000;

fn is_steal(row: &Stolen) -> bool
    ensures { result ≡ is_steal row.now }
{
    row.from < row.to && row.percent <= 100 && (row.every == 0 || row.to - row.from <= row.every)
}

fn is_step(numbers: &AgcRequest) -> bool
    ensures { result ≡ is_step numbers.now }
{
    match request_of(numbers) {
        None => false,
        Some(request) => step_of(&request).is_some(),
    }
}

fn are_steps(requests: &[AgcRequest]) -> bool
    ensures { result ≡ list_all is_step requests.now }
{
    requests.iter().all(|request| is_step(request))
}

fn is_cost(row: &AgcCost, requests: &[AgcRequest]) -> bool
    ensures { result ≡ is_cost requests.now row.now }
{
    address(row.at).is_some()
        && row.spread < row.hundredths
        && row.hundredths <= MOST_COST
        && (row.then == 0 || address(row.then).is_some())
        && row.count <= 7
        && row.first as usize + row.count as usize <= requests.len()
        && are_steps(requests_from(requests, row.first, row.count))
}

fn is_event(row: &AgcEvent, requests: usize) -> bool
    ensures { result ≡ is_event requests row.now }
{
    row.at <= LAST_TIME
        && (row.every == 0 || row.until <= LAST_TIME)
        && (row.after == 0 || (0o1201 <= row.after && row.after <= 0o1203))
        && 0 < row.count
        && row.count <= 16
        && row.first as usize + row.count as usize <= requests
}

fn meets(row: &Stolen, others: &[Stolen]) -> bool
    ensures { result ≡ list_any (overlap row.now) others.now }
{
    others.iter().any(|other| row.overlaps(other))
}

fn steals_twice(rows: &[Stolen]) -> bool
    ensures { result ≡ steals_twice rows.now }
{
    for (k, row) in rows.iter().enumerate() {
        if meets(row, &rows[k + 1..]) {
            return true;
        }
    }
    false
}

fn has_cost(at: u32, rows: &[AgcCost]) -> bool
    ensures { result ≡ list_any (λ row. row.at == at) rows.now }
{
    rows.iter().any(|row| row.at == at)
}

fn costs_twice(rows: &[AgcCost]) -> bool
    ensures { result ≡ costs_twice rows.now }
{
    for (k, row) in rows.iter().enumerate() {
        if has_cost(row.at, &rows[k + 1..]) {
            return true;
        }
    }
    false
}

fn are_steals(rows: &[Stolen]) -> bool
    ensures { result ≡ list_all is_steal rows.now }
{
    rows.iter().all(|row| is_steal(row))
}

fn are_costs(rows: &[AgcCost], requests: &[AgcRequest]) -> bool
    ensures { result ≡ list_all (is_cost requests.now) rows.now }
{
    rows.iter().all(|row| is_cost(row, requests))
}

fn are_events(rows: &[AgcEvent], requests: usize) -> bool
    ensures { result ≡ list_all (is_event requests) rows.now }
{
    rows.iter().all(|row| is_event(row, requests))
}

fn are_requests(requests: &[AgcRequest]) -> bool
    ensures { result ≡ list_all is_request requests.now }
{
    requests.iter().all(|request| request_of(request).is_some())
}

fn are_in_range(
    stolen: &[Stolen],
    costs: &[AgcCost],
    events: &[AgcEvent],
    requests: &[AgcRequest],
) -> bool
    ensures { result ≡ are_in_range stolen.now costs.now events.now requests.now }
{
    are_steals(stolen)
        && are_costs(costs, requests)
        && are_events(events, requests.len())
        && are_requests(requests)
}

/// The first fault for which rows are no timetable.
pub(crate) fn times_lack(
    stolen: &[Stolen],
    costs: &[AgcCost],
    events: &[AgcEvent],
    requests: &[AgcRequest],
) -> Option<Fault>
    ensures { result ≡ times_lack stolen.now costs.now events.now requests.now }
{
    if !are_in_range(stolen, costs, events, requests) {
        Some(Fault::TimeRange)
    } else if steals_twice(stolen) {
        Some(Fault::StealTwice)
    } else if costs_twice(costs) {
        Some(Fault::CostTwice)
    } else {
        None
    }
}

/// Whether rows make a timetable: 0, or the first of 15, a number of them is out of its range, 16,
/// two rows of stolen time that come only once hold at one time, and 17, an address has two costs.
#[unsafe(no_mangle)]
pub extern "C" fn agc_clock_check(table: &AgcTimetable<'_>) -> u32
    ensures { result ≡ code_for (times_lack table.now.stolen.now table.now.costs.now
        table.now.events.now table.now.requests.now) }
{
    match times_lack(table.stolen, table.costs, table.events, table.requests) {
        None => 0,
        Some(fault) => fault.code(),
    }
}
