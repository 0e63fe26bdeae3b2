// Numbers of a caller as requests, and their parts.
ghost use Rattle.std.specs.Prelude.{◌≡◌};
ghost use Rattle.libagc.specs.Numbers.{entry_from_c, start_from_c, task_told, listing_from_c};
ghost use Rattle.libagc.specs.Numbers.{request_from_c, request_fault, without_word};

use crate::fault::Fault;
use crate::numbers::{address, delay, group, phase, place, priority, word};
use agc_plan::{Delay, Entry, Priority, Request, Task};

/// A request: its kind, and its numbers in the order of a script's line. Numbers that the kind
/// doesn't have are ignored. An action is a request of kind 0 (nothing), 1, 2, 5 or 9.
#[repr(C)]
#[derive(Clone, Copy)]
pub struct AgcRequest {
    /// 1 NOVAC, 2 FINDVAC, 3 end of job, 4 a sleep, 5 a rouse, 6 a priority, 7 a change of job, 8 a
    /// store, 9 a listing, 10 a tick, 11 a phase, 12 a restart, 13 a fresh start.
    pub kind: u32,
    /// A priority (1 to 31), an address (1 to 16383), a place or a group (1 to 6), or a delay (1 to
    /// 16250 centiseconds).
    pub first: u32,
    /// An address, a word (0 to 32767) or a phase (0 to 127).
    pub second: u32,
    /// The word of a bank, 0 to 32767.
    pub third: u32,
}

fn entry_of(at: u32, bank: u32) -> Option<Entry>
    ensures { result ≡ entry_from_c at bank }
{
    let at = address(at)?;
    let bank = word(bank)?;
    Some(Entry { at, bank })
}

pub(crate) fn task_of(at: u32, bank: u32) -> Option<Task>
    ensures { result ≡ task_told at bank }
{
    let at = address(at)?;
    let bank = word(bank)?;
    Some(Task { at, bank })
}

pub(crate) fn start_of(number: u32, at: u32, bank: u32) -> Option<(Priority, Entry)>
    ensures { result ≡ start_from_c number at bank }
{
    priority(number).zip(entry_of(at, bank))
}

pub(crate) fn listing_of(number: u32, at: u32, bank: u32) -> Option<(Delay, Task)>
    ensures { result ≡ listing_from_c number at bank }
{
    delay(number).zip(task_of(at, bank))
}

/// A request. None if a number is out of its range, or a word is none.
pub(crate) fn request_of(request: &AgcRequest) -> Option<Request>
    ensures { result ≡ request_from_c request.now }
{
    let AgcRequest {
        kind,
        first,
        second,
        third,
    } = *request;
    match kind {
        1 => start_of(first, second, third).map(|start| Request::Novac(start.0, start.1)),
        2 => start_of(first, second, third).map(|start| Request::Findvac(start.0, start.1)),
        3 => Some(Request::EndOfJob),
        4 => address(first).map(|at| Request::Sleep(at)),
        5 => address(first).map(|at| Request::Rouse(at)),
        6 => priority(first).map(|priority| Request::Prio(priority)),
        7 => Some(Request::Change),
        8 => place(first)
            .zip(word(second))
            .map(|it| Request::Store(it.0, it.1)),
        9 => listing_of(first, second, third).map(|listing| Request::List(listing.0, listing.1)),
        10 => Some(Request::Tick),
        11 => group(first)
            .zip(phase(second))
            .map(|it| Request::SetPhase(it.0, it.1)),
        12 => Some(Request::Restart),
        13 => Some(Request::Fresh),
        _ => None,
    }
}

fn without_word(request: &AgcRequest) -> AgcRequest
    ensures { result ≡ without_word request.now }
{
    let (second, third) = match request.kind {
        8 => (0, request.third),
        _ => (request.second, 0),
    };
    AgcRequest {
        kind: request.kind,
        first: request.first,
        second,
        third,
    }
}

/// The fault of numbers that are no request: either only the word is no word, or a number is out of
/// its range.
#[inline(never)]
pub(crate) fn request_fault(request: &AgcRequest) -> Fault
    ensures { result ≡ request_fault request.now }
{
    if request_of(&without_word(request)).is_some() {
        Fault::NotAWord
    } else {
        Fault::OutOfRange
    }
}
