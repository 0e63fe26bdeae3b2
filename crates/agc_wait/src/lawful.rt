// Whether the words are a table in order.
ghost use Rattle.std.specs.Prelude.{◌≡◌, ◌↔◌, ◌<◌, ◌≤◌, ◌+◌, IsTrue, length};
ghost use Rattle.agc_wait.specs.Table.{IsLawfulTable, lst1, time3, waits_of};
ghost use Rattle.agc_wait.specs.Parts.{AreAll, AreTasks, AreWords, IsBlankBehind, IsCounter, IsGap};

use crate::coding::{FULL_COUNT, NO_GAP, distance_of, gap_of};
use crate::spot::count_tasks;
use agc_word::Erasable;
use agc_word::layout::{LST1, LST2, PHASE_WORDS, TIME3};

/// Whether no word of the table has more than fifteen bits.
fn are_words(e: &Erasable) -> bool
    ensures { IsTrue result ↔ AreWords e.now }
{
    for place in TIME3..PHASE_WORDS {
        if e.get(place).bits() >= 32768 {
            return false;
        }
    }
    true
}

/// Whether TIME3 isn't negative, and is 00000 where no task waits.
fn is_counter(e: &Erasable, count: usize) -> bool
    requires { count ≡ length (waits_of e.now) }
    ensures { IsTrue result ↔ IsCounter e.now }
{
    let counter = e.get(TIME3).bits();
    if count == 0 {
        counter == 0
    } else {
        counter < FULL_COUNT
    }
}

/// Whether no task stands behind a place, of so many, or the word of LST1 there may be a gap.
fn is_gap(e: &Erasable, k: usize, count: usize) -> bool
    requires { k ≤ 8 }
    ensures { IsTrue result ↔ (k + 1 < count → IsGap (lst1 e.now k)) }
{
    let bits = e.get(LST1 + k).bits();
    k + 1 >= count || bits <= 1 || bits >= 0o40000
}

/// Whether these tasks and the gaps between them are within their ranges.
fn are_tasks(e: &Erasable, count: usize) -> bool
    requires counter { time3 e.now < 0o40000 }
    requires count { count ≡ length (waits_of e.now) }
    requires nine { count ≤ 9 }
    ensures { IsTrue result ↔ AreTasks e.now count }
{
    let mut distance = distance_of(e.get(TIME3));
    for k in 0..count {
        if distance > 16250 {
            return false;
        }
        if e.get(LST2 + 2 * k).bits() >= 0o40000 {
            return false;
        }
        if !is_gap(e, k, count) {
            return false;
        }
        distance += gap_of(e.get(LST1 + k));
    }
    true
}

/// Whether the words of these places are all this one.
fn are_all(e: &Erasable, from: usize, to: usize, word: u16) -> bool
    requires { to ≤ 132 }
    ensures { IsTrue result ↔ AreAll e.now from to word }
{
    for place in from..to {
        if e.get(place).bits() != word {
            return false;
        }
    }
    true
}

/// Whether LST1 from the last of so many tasks on is 57777, and LST2 behind them 00000.
fn is_blank_behind(e: &Erasable, count: usize) -> bool
    requires { count ≤ 9 }
    ensures { IsTrue result ↔ IsBlankBehind e.now count }
{
    are_all(e, LST1 + count.saturating_sub(1), LST2, NO_GAP)
        && are_all(e, LST2 + 2 * count, PHASE_WORDS, 0)
}

/// Whether TIME3, LST1 and LST2 are in order, between requests or inside a tick: what is read is
/// within its range, and all else is blank. Source: the listings' WAITLIST section; the coding:
/// profile.
pub fn is_lawful(e: &Erasable) -> bool
    ensures { IsTrue result ↔ IsLawfulTable e.now }
{
    let count = count_tasks(e);
    if !are_words(e) {
        return false;
    }
    if !is_counter(e, count) {
        return false;
    }
    if !are_tasks(e, count) {
        return false;
    }
    is_blank_behind(e, count)
}
