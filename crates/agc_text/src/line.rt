ghost use Rattle.std.specs.Prelude.{◌≡◌, IfSome, Some};
ghost use Rattle.std.specs.Option.{option_map};
ghost use Rattle.agc_plan.specs.declared.request.Action.{Action};
ghost use Rattle.agc_plan.specs.declared.request.Request.{Request};
ghost use Rattle.agc_plan.specs.Ranges.{IsRequest, IsAction};
ghost use Rattle.agc_text.specs.Lines.{line_of, action_line_of};
ghost use Rattle.agc_text.specs.Reading.{cut, established_of, listed_of, stored_of, phased_of};
ghost use Rattle.agc_text.specs.Reading.{novac_of, findvac_of, listing_of, parted_request};
ghost use Rattle.agc_text.specs.Reading.{bare_request, request_of, action_of};

use crate::numbers::{address, delay, group, phase, place, priority, word};
use agc_plan::{Action, Delay, Entry, Priority, Request, Task};

/// The text before the first space, and the text after it.
fn split_at_space(text: &str) -> Option<(&str, &str)>
    ensures { option_map (λ x. (x.0.now, x.1.now)) result ≡ cut 32 text.now }
{
    text.split_once(' ')
}

/// `P A W`
#[tactic(auto, unfolding(crate::specs::Reading::established_of))]
fn job_operands(text: &str) -> Option<(Priority, Entry)>
    ensures { result ≡ established_of text.now }
{
    let (priority_text, rest) = split_at_space(text)?;
    let (address_text, bank_text) = split_at_space(rest)?;
    match (
        priority(priority_text),
        address(address_text),
        word(bank_text),
    ) {
        (Some(priority), Some(at), Some(bank)) => Some((priority, Entry { at, bank })),
        _ => None,
    }
}

/// `D A W`
#[tactic(auto, unfolding(crate::specs::Reading::listed_of))]
fn task_operands(text: &str) -> Option<(Delay, Task)>
    ensures { result ≡ listed_of text.now }
{
    let (delay_text, rest) = split_at_space(text)?;
    let (address_text, bank_text) = split_at_space(rest)?;
    match (delay(delay_text), address(address_text), word(bank_text)) {
        (Some(delay), Some(at), Some(bank)) => Some((delay, Task { at, bank })),
        _ => None,
    }
}

/// `K W`
#[tactic(auto, unfolding(crate::specs::Reading::stored_of))]
fn store_request(text: &str) -> Option<Request>
    ensures { result ≡ stored_of text.now }
{
    let (place_text, word_text) = split_at_space(text)?;
    match (place(place_text), word(word_text)) {
        (Some(place), Some(word)) => Some(Request::Store(place, word)),
        _ => None,
    }
}

/// `G N`
#[tactic(auto, unfolding(crate::specs::Reading::phased_of))]
fn phase_request(text: &str) -> Option<Request>
    ensures { result ≡ phased_of text.now }
{
    let (group_text, phase_text) = split_at_space(text)?;
    match (group(group_text), phase(phase_text)) {
        (Some(group), Some(phase)) => Some(Request::SetPhase(group, phase)),
        _ => None,
    }
}

fn novac(text: &str) -> Option<Request>
    ensures { result ≡ novac_of text.now }
{
    let (priority, entry) = job_operands(text)?;
    Some(Request::Novac(priority, entry))
}

fn findvac(text: &str) -> Option<Request>
    ensures { result ≡ findvac_of text.now }
{
    let (priority, entry) = job_operands(text)?;
    Some(Request::Findvac(priority, entry))
}

fn listing(text: &str) -> Option<Request>
    ensures { result ≡ listing_of text.now }
{
    let (delay, task) = task_operands(text)?;
    Some(Request::List(delay, task))
}

/// A line of several words, the first of which names the kind of request.
#[tactic(auto, unfolding(crate::specs::Reading::parted_request))]
fn parted_line(kind: &str, rest: &str) -> Option<Request>
    ensures { result ≡ parted_request kind.now rest.now }
{
    match kind {
        "novac" => novac(rest),
        "findvac" => findvac(rest),
        "sleep" => Some(Request::Sleep(address(rest)?)),
        "rouse" => Some(Request::Rouse(address(rest)?)),
        "prio" => Some(Request::Prio(priority(rest)?)),
        "store" => store_request(rest),
        "list" => listing(rest),
        "phase" => phase_request(rest),
        _ => None,
    }
}

/// A line of one word.
#[tactic(auto, unfolding(crate::specs::Reading::bare_request))]
fn bare_line(kind: &str) -> Option<Request>
    ensures { result ≡ bare_request kind.now }
{
    match kind {
        "end" => Some(Request::EndOfJob),
        "change" => Some(Request::Change),
        "tick" => Some(Request::Tick),
        "restart" => Some(Request::Restart),
        "fresh" => Some(Request::Fresh),
        _ => None,
    }
}

#[tactic(auto, unfolding(crate::specs::Reading::request_of))]
fn any_line(line: &str) -> Option<Request>
    ensures { result ≡ request_of line.now }
{
    match split_at_space(line) {
        Some((kind, rest)) => parted_line(kind, rest),
        None => bare_line(line),
    }
}

/// The request that a line spells. The line comes without its end. None for every other text.
pub fn parse_line(line: &str) -> Option<Request>
    // The text is the spelling of the request that is returned.
    ensures found { IfSome result (λ r. IsRequest r × (line.now ≡ line_of r)) }
    // The spelling of a request is read.
    ensures only { (r : Request) → IsRequest r → line.now ≡ line_of r → result ≡ Some r }
{
    any_line(line)
}

/// The action that does what a request asks. None if there is none.
fn action_of(request: &Request) -> Option<Action>
    ensures { result ≡ action_of request.now }
{
    match *request {
        Request::Novac(priority, entry) => Some(Action::Novac(priority, entry)),
        Request::Findvac(priority, entry) => Some(Action::Findvac(priority, entry)),
        Request::Rouse(at) => Some(Action::Rouse(at)),
        Request::List(delay, task) => Some(Action::List(delay, task)),
        _ => None,
    }
}

/// The action that a text spells: `nothing`, or the line of a `novac`, `findvac`, `rouse` or
/// `list`. None for every other text.
pub fn parse_action(text: &str) -> Option<Action>
    // The text is the spelling of the action that is returned.
    ensures found { IfSome result (λ a. IsAction a × (text.now ≡ action_line_of a)) }
    // The spelling of an action is read.
    ensures only { (a : Action) → IsAction a → text.now ≡ action_line_of a → result ≡ Some a }
{
    if text == "nothing" {
        return Some(Action::Nothing);
    }
    match parse_line(text) {
        Some(request) => action_of(&request),
        None => None,
    }
}
