// The requests of pulses.
ghost use Rattle.std.specs.Prelude.{◌≡◌, ◌≤◌, ◌+◌, ◌<◌, ◌++◌, ◌==◌, length, take};
ghost use Rattle.std.specs.Option.{option_to_list};
ghost use Rattle.agc_plan.specs.Pulses.{action_request, asks_nothing, pulse_requests};
ghost use Rattle.agc_plan.specs.Pulses.{requests_for};
ghost use Rattle.agc_session.specs.Pieces.{pulse_asks};
ghost use Rattle.agc_session.specs.Runs.{bench_plan};

use agc_document::Bench;
use agc_plan::{Action, Line, Request, action_request};

/// Puts the request of an action after the first `count` requests. Returns their number then.
fn put_request(requests: &mut [Request; 4], count: usize, action: Action) -> usize
    requires { count < 4 }
    ensures list { take result requests.new
        ≡ take count requests.old ++ option_to_list (action_request action) }
    ensures most { result ≤ count + 1 }
{
    match action_request(action) {
        None => count,
        Some(request) => {
            requests[count] = request;
            count + 1
        }
    }
}

/// The requests of these actions, in order, and how many of the four there are.
fn requests_for(actions: &[Action]) -> ([Request; 4], usize)
    requires { length actions.now ≤ 4 }
    ensures requests { take result.1 result.0 ≡ requests_for actions.now }
    ensures most { result.1 ≤ 4 }
{
    let mut requests = [Request::Tick; 4];
    let mut count = 0;
    for action in actions {
        count = put_request(&mut requests, count, *action);
    }
    (requests, count)
}

/// The requests of a pulse: a tick for the timer, otherwise those of the actions.
pub(crate) fn pulse_asks(key: &[Action], radar: &[Action], line: Line) -> ([Request; 4], usize)
    requires key { length key.now ≤ 4 }
    requires radar { length radar.now ≤ 4 }
    ensures requests { take result.1 result.0 ≡ pulse_asks key.now radar.now line }
    ensures most { result.1 ≤ 4 }
{
    match line {
        Line::Timer => ([Request::Tick; 4], 1),
        Line::Key => requests_for(key),
        Line::Radar => requests_for(radar),
    }
}

/// The requests of a pulse, by the bench's plan.
fn pulse_of(bench: &Bench, line: Line) -> ([Request; 4], usize)
    ensures requests { take result.1 result.0 ≡ pulse_requests (bench_plan bench.now) line }
    ensures most { result.1 ≤ 4 }
{
    pulse_asks(bench.key().as_slice(), bench.radar().as_slice(), line)
}

/// Whether pulses of the line make no requests. A timer's are ticks; the others' are those of the
/// plan's actions.
pub fn asks_nothing(bench: &Bench, line: Line) -> bool
    ensures { result ≡ asks_nothing (bench_plan bench.now) line }
{
    pulse_of(bench, line).1 == 0
}
