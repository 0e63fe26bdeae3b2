ghost use Rattle.std.specs.Prelude.{◌≡◌, ◌<◌, ℕ, IfSome, slice_get};
ghost use Rattle.agc_plan.specs.Plans.{planned_with};
ghost use Rattle.agc_plan.specs.Pulses.{action_request, pulse_requests, requests_for};

use crate::line::Line;
use crate::plan::Plan;
use crate::request::{Action, Request};

/// The request by which an action is asked for; none for [`Action::Nothing`].
pub fn action_request(action: Action) -> Option<Request>
    ensures { result ≡ action_request action }
{
    match action {
        Action::Nothing => None,
        Action::Novac(priority, entry) => Some(Request::Novac(priority, entry)),
        Action::Findvac(priority, entry) => Some(Request::Findvac(priority, entry)),
        Action::Rouse(at) => Some(Request::Rouse(at)),
        Action::List(delay, task) => Some(Request::List(delay, task)),
    }
}

/// The request before which so many others are asked for these actions.
fn request_after(actions: &[Action], others: u64) -> Option<Request>
    ensures { result ≡ slice_get (requests_for actions.now) others }
{
    let mut left = others;
    for action in actions {
        if let Some(request) = action_request(*action) {
            if left == 0 {
                return Some(request);
            }
            left -= 1;
        }
    }
    None
}

/// The next request of a pulse, after this many others of it: a tick for the timer's, and for the
/// other lines the plan's actions in order; None after the last.
pub fn pulse_request(plan: &Plan, line: Line, others: u64) -> Option<Request>
    ensures request { (sets : ℕ)
        → result ≡ slice_get (pulse_requests (planned_with plan.now sets) line) others }
    ensures few { IfSome result (λ _. others < 4) }
{
    match line {
        Line::Timer => {
            if others == 0 {
                Some(Request::Tick)
            } else {
                None
            }
        }
        Line::Key => request_after(plan.key_actions(), others),
        Line::Radar => request_after(plan.radar_actions(), others),
    }
}
