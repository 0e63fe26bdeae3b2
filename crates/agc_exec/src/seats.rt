// Who holds which core set, as it is shown.
ghost use Rattle.std.specs.Prelude.{◌≡◌, ◌+◌, ◌/◌, ◌%◌, ◌<◌, slice_index, slice_get, Some, None};
ghost use Rattle.agc_word.specs.Layout as layout;
ghost use Rattle.agc_word.specs.Layout.{IsSized, sets_in, set_place};
ghost use Rattle.agc_exec.specs.Image.{IsLawfulWords, jobs_in};
ghost use Rattle.agc_exec.specs.Seats.{named_of, seats_in};

use crate::change::running;
use crate::core_set::{LOC, MINUS_ZERO, PRIORITY, PRIORITY_UNIT, SIGN, word_of};
use agc_word::Erasable;
use agc_word::layout::{NEWJOB, SET_SIZE, area_of};

/// The job in a core set: its number, 1 to 8; the address where it begins, or at which it sleeps;
/// its priority, 1 to 31; and its VAC area, 1 to 5, or 0 for none. Source: the listings' EXECUTIVE
/// section; numbers: profile.
#[derive(Clone, Copy, PartialEq, Eq)]
pub struct Seat {
    pub number: u16,
    pub at: u16,
    pub priority: u16,
    pub asleep: bool,
    pub area: u16,
}

/// The job of a set, of which the PRIORITY word, with its sign taken off, is this.
fn seat_with(e: &Erasable, k: usize, urgency: u16, asleep: bool) -> Seat
    requires set { k < sets_in e.now }
    requires sized { IsSized e.now }
    ensures number { result.number ≡ slice_index e.now (set_place k + 0) }
    ensures at { result.at ≡ slice_index e.now (set_place k + 8) }
    ensures priority { result.priority ≡ urgency / 512 }
    ensures asleep { result.asleep ≡ asleep }
    ensures area { result.area ≡ layout.area_of (urgency % 512) }
{
    Seat {
        number: word_of(e, k, 0),
        at: word_of(e, k, LOC),
        priority: urgency / PRIORITY_UNIT,
        asleep,
        area: area_of(urgency % PRIORITY_UNIT),
    }
}

/// The job in core set k, from 0; None where the set is free. Source: the listings' EXECUTIVE
/// section.
pub fn job_at(e: &Erasable, k: usize) -> Option<Seat>
    requires set { k < sets_in e.now }
    requires sized { IsSized e.now }
    ensures { slice_get (seats_in e.now) k ≡ Some result }
{
    let urgency = word_of(e, k, PRIORITY);
    if urgency == MINUS_ZERO {
        None
    } else if urgency < SIGN {
        Some(seat_with(e, k, urgency, false))
    } else {
        Some(seat_with(e, k, MINUS_ZERO - urgency, true))
    }
}

/// The number of the job in core set k, unless that is set 0.
fn number_behind(e: &Erasable, k: usize) -> Option<u16>
    requires set { k < sets_in e.now }
    requires sized { IsSized e.now }
    ensures first { k ≡ 0 → result ≡ None }
    ensures behind { (s : Seat) → 0 < k → slice_get (seats_in e.now) k ≡ Some (Some s)
        → result ≡ Some s.number }
{
    if k == 0 {
        return None;
    }
    match job_at(e, k) {
        None => None,
        Some(seat) => Some(seat.number),
    }
}

/// The number, 1 to 8, of the job that NEWJOB names: the best, where it is strictly more urgent
/// than the one that runs; else None. Source: the listings' EXECUTIVE section; numbers: profile.
pub fn named_job(e: &Erasable) -> Option<u16>
    requires lawful { IsLawfulWords e.now }
    ensures { result ≡ named_of (jobs_in e.now) }
{
    match running(e) {
        None => None,
        Some(_number) => number_behind(e, e.get(NEWJOB).bits() as usize / SET_SIZE),
    }
}
