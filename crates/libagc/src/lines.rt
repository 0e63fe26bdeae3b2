// Lines of text as requests and actions.
ghost use Rattle.std.specs.Prelude.{◌≡◌, IfSome, Some};
ghost use Rattle.std.specs.Str.{IsUtf8};
ghost use Rattle.agc_plan.specs.declared.request.Action.{Action};
ghost use Rattle.agc_plan.specs.declared.request.Request.{Request};
ghost use Rattle.agc_plan.specs.Ranges.{IsRequest, IsAction};
ghost use Rattle.agc_text.specs.Lines.{line_of, action_line_of};
ghost use Rattle.libagc.specs.Numbers.{request_with, numbers_of, action_numbers, ReadsRequest};
ghost use Rattle.libagc.specs.Numbers.{ReadsAction};

use crate::fault::Fault;
use crate::reading::AgcRequest;
use agc_plan::{Action, Entry, Priority, Request, action_request};
use agc_text::{parse_action, parse_line};

pub(crate) fn request_with(kind: u32, first: u32, second: u32, third: u32) -> AgcRequest
    ensures { result ≡ request_with kind first second third }
{
    AgcRequest {
        kind,
        first,
        second,
        third,
    }
}

/// The numbers of a job's request of this kind.
fn starting(kind: u32, priority: Priority, entry: Entry) -> AgcRequest
    ensures { result ≡ request_with kind priority entry.at entry.bank }
{
    request_with(
        kind,
        u32::from(priority.get()),
        u32::from(entry.at.get()),
        u32::from(entry.bank.bits()),
    )
}

pub(crate) fn numbers_of(request: &Request) -> AgcRequest
    ensures { result ≡ numbers_of request.now }
{
    match *request {
        Request::Novac(priority, entry) => starting(1, priority, entry),
        Request::Findvac(priority, entry) => starting(2, priority, entry),
        Request::EndOfJob => request_with(3, 0, 0, 0),
        Request::Sleep(at) => request_with(4, u32::from(at.get()), 0, 0),
        Request::Rouse(at) => request_with(5, u32::from(at.get()), 0, 0),
        Request::Prio(priority) => request_with(6, u32::from(priority.get()), 0, 0),
        Request::Change => request_with(7, 0, 0, 0),
        Request::Store(place, word) => request_with(
            8,
            u32::from(place.get()),
            u32::from(word.bits()),
            0,
        ),
        Request::List(delay, task) => request_with(
            9,
            u32::from(delay.get()),
            u32::from(task.at.get()),
            u32::from(task.bank.bits()),
        ),
        Request::Tick => request_with(10, 0, 0, 0),
        Request::SetPhase(group, phase) => {
            request_with(11, u32::from(group.get()), u32::from(phase.get()), 0)
        }
        Request::Restart => request_with(12, 0, 0, 0),
        Request::Fresh => request_with(13, 0, 0, 0),
    }
}

fn action_numbers(action: &Action) -> AgcRequest
    ensures { result ≡ action_numbers action.now }
{
    match action_request(*action) {
        None => request_with(0, 0, 0, 0),
        Some(request) => numbers_of(&request),
    }
}

fn request_in(text: &[u8]) -> Option<Request>
    ensures found { IfSome result (λ r. IsRequest r × (text.now ≡ line_of r)) }
    ensures only { (r : Request) → IsRequest r → text.now ≡ line_of r → result ≡ Some r }
{
    match str::from_utf8(text) {
        Ok(line) => parse_line(line),
        Err(_not_text) => None,
    }
}

fn action_in(text: &[u8]) -> Option<Action>
    ensures found { IfSome result (λ a. IsAction a × (text.now ≡ action_line_of a)) }
    ensures only { (a : Action) → IsAction a → text.now ≡ action_line_of a → result ≡ Some a }
{
    match str::from_utf8(text) {
        Ok(line) => parse_action(line),
        Err(_not_text) => None,
    }
}

/// The request that a line of a script spells, without the line's end: code 0, or 13, and then the
/// request stays as it was.
#[unsafe(no_mangle)]
pub extern "C" fn agc_read_request(text: &[u8], request: &mut AgcRequest) -> u32
    // The text is the spelling of the result.
    ensures found { result ≡ 0 → ReadsRequest text.now request.new }
    // The spelling of a request is read.
    ensures only { (r : Request) → IsRequest r → text.now ≡ line_of r
        → (result ≡ 0) × (request.new ≡ numbers_of r) }
    ensures with_fault { ¬ (result ≡ 0) → (result ≡ 13) × (request.new ≡ request.old) }
{
    match request_in(text) {
        Some(found) => {
            *request = numbers_of(&found);
            0
        }
        None => Fault::NotSpelled.code(),
    }
}

/// The action that a line of a plan spells: `nothing`, or the line of a `novac`, `findvac`, `rouse`
/// or `list`. Code 0, or 13, and then the action stays as it was.
#[unsafe(no_mangle)]
pub extern "C" fn agc_read_action(text: &[u8], action: &mut AgcRequest) -> u32
    // The text is the spelling of the result.
    ensures found { result ≡ 0 → ReadsAction text.now action.new }
    // The spelling of an action is read.
    ensures only { (a : Action) → IsAction a → text.now ≡ action_line_of a
        → (result ≡ 0) × (action.new ≡ action_numbers a) }
    ensures with_fault { ¬ (result ≡ 0) → (result ≡ 13) × (action.new ≡ action.old) }
{
    match action_in(text) {
        Some(found) => {
            *action = action_numbers(&found);
            0
        }
        None => Fault::NotSpelled.code(),
    }
}
