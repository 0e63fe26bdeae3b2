// The requests of a device's pulse, and which requests are refused.
ghost use Rattle.std.specs.Prelude.{◌≡◌, ◌≤◌, ◌<◌, ◌+◌, ◌++◌, true, Some, map, drop, take};
ghost use Rattle.std.specs.List.{list_all};
ghost use Rattle.std.specs.Option.{option_to_list};
ghost use Rattle.agc_plan.specs.declared.request.Request.{Request};
ghost use Rattle.agc_plan.specs.Pulses.{action_request, requests_for};
ghost use Rattle.libagc.specs.Numbers.{request_from_c, numbers_of};
ghost use Rattle.libagc.specs.Codes.{code_for};
ghost use Rattle.libagc.specs.Plans.{is_action, action_from_c};
ghost use Rattle.agc_machine.specs.Machines.{IsLawful, Machined, refusal_of};
ghost use Rattle.libagc.specs.Requests.{HasCounts, are_few, bounds_code, pulse_lacks, pulse_to_c};
ghost use Rattle.libagc.specs.Requests.{refusal_code, refused_code};

use crate::fault::Fault;
use crate::lacking::is_action;
use crate::lines::numbers_of;
use crate::plans::action_of;
use crate::reading::{AgcRequest, request_fault, request_of};
use crate::reply::AgcNumber;
use agc_machine::starts_over;
use agc_plan::{Request, action_request};

/// The counts of a machine, each with its bound: how many requests were served, and how many are
/// stored since the last era began. The caller keeps them.
#[repr(C)]
#[derive(Clone, Copy)]
pub struct AgcBounds {
    pub served: u64,
    pub allowance: u64,
    pub logged: u32,
    pub limit: u32,
}

/// The code of a request with these counts: 0, 19 or 20.
fn bounds_code(bounds: &AgcBounds, request: &Request) -> u32
    ensures { result ≡ bounds_code bounds.now request.now }
{
    if bounds.served >= bounds.allowance {
        19
    } else if bounds.logged >= bounds.limit && !starts_over(request) {
        20
    } else {
        0
    }
}

/// Whether a request is served, with these counts before it: 0 if it is; 4 and 5 for faults of the
/// request; 19 if as many were served as ever are; 20 if the log is full, which refuses neither a
/// restart nor a fresh start.
#[unsafe(no_mangle)]
#[tactic(auto, using(crate::proofs::Pulsing::counts_refuse))]
pub extern "C" fn agc_refusal(request: &AgcRequest, bounds: &AgcBounds) -> u32
    ensures code { result ≡ refused_code request.now bounds.now }
    // A machine with these counts refuses the same.
    ensures machine { (m : Machined) (asked : Request) → IsLawful m → HasCounts m bounds.now
        → request_from_c request.now ≡ Some asked → result ≡ refusal_code (refusal_of m asked) }
{
    match request_of(request) {
        None => request_fault(request).code(),
        Some(asked) => bounds_code(bounds, &asked),
    }
}

fn are_actions(actions: &[AgcRequest]) -> bool
    ensures { result ≡ list_all is_action actions.now }
{
    actions.iter().all(|action| is_action(action))
}

fn are_few(actions: &[AgcRequest]) -> bool
    ensures { result ≡ are_few actions.now }
{
    actions.len() <= 4 && are_actions(actions)
}

/// The fault of a pulse: of its line, or of its actions.
fn pulse_lacks(line: u32, key: &[AgcRequest], radar: &[AgcRequest]) -> Option<Fault>
    ensures { result ≡ pulse_lacks line key.now radar.now }
{
    if line > 2 {
        Some(Fault::OutOfRange)
    } else if !(are_few(key) && are_few(radar)) {
        Some(Fault::PlanRange)
    } else {
        None
    }
}

/// Writes the request of an action after the first `count` requests. Returns their number then.
fn put_request(requests: &mut [AgcRequest; 4], count: usize, action: &AgcRequest) -> usize
    requires { count < 4 }
    ensures list { take result requests.new ≡ take count requests.old
        ++ map numbers_of (option_to_list (action_request (action_from_c action.now))) }
    ensures rest { drop result requests.new ≡ drop result requests.old }
    ensures least { count ≤ result }
    ensures most { result ≤ count + 1 }
{
    match action_request(action_of(action)) {
        None => count,
        Some(request) => {
            requests[count] = numbers_of(&request);
            count + 1
        }
    }
}

/// Writes the requests of these actions, in order, into the first places. Returns their number.
fn put_requests(requests: &mut [AgcRequest; 4], actions: &[AgcRequest]) -> usize
    requires { are_few actions.now ≡ true }
    ensures list { take result requests.new
        ≡ map numbers_of (requests_for (map action_from_c actions.now)) }
    ensures rest { drop result requests.new ≡ drop result requests.old }
    ensures most { result ≤ 4 }
{
    let mut count = 0;
    for action in actions {
        count = put_request(requests, count, action);
    }
    count
}

/// Writes the requests of a pulse of this line. Returns their number.
fn put_pulse(
    requests: &mut [AgcRequest; 4],
    line: u32,
    key: &[AgcRequest],
    radar: &[AgcRequest],
) -> usize
    requires key { are_few key.now ≡ true }
    requires radar { are_few radar.now ≡ true }
    ensures list { take result requests.new ≡ pulse_to_c line key.now radar.now }
    ensures rest { drop result requests.new ≡ drop result requests.old }
    ensures most { result ≤ 4 }
{
    match line {
        0 => {
            requests[0] = numbers_of(&Request::Tick);
            1
        }
        1 => put_requests(requests, key),
        _ => put_requests(requests, radar),
    }
}

/// The requests of a pulse, in order: for line 0, the timer's, a tick; for line 1, the keys', and
/// line 2, the radar's, the plan's actions, at most four, of which those of kind 0 make no request.
/// The requests are in the first places, and the number says how many there are, 0 to 4. Code 4 if
/// there is no such line, and 9 if there are more than four actions, or one of them is no action.
#[unsafe(no_mangle)]
pub extern "C" fn agc_pulse(
    line: u32,
    key: &[AgcRequest],
    radar: &[AgcRequest],
    requests: &mut [AgcRequest; 4],
) -> AgcNumber
    ensures code { result.code ≡ code_for (pulse_lacks line key.now radar.now) }
    ensures served { result.code ≡ 0
        → take result.number requests.new ≡ pulse_to_c line key.now radar.now }
    ensures rest { drop result.number requests.new ≡ drop result.number requests.old }
    ensures most { result.number ≤ 4 }
    ensures with_fault { ¬ (result.code ≡ 0)
        → (requests.new ≡ requests.old) × (result.number ≡ 0) }
{
    match pulse_lacks(line, key, radar) {
        Some(fault) => AgcNumber::with_fault(fault),
        None => AgcNumber::of(put_pulse(requests, line, key, radar) as u32),
    }
}
