// NEWJOB: which set holds a job that is to run before the one in set 0.
ghost use Rattle.std.specs.Prelude.{◌≡◌, ◌+◌, ◌<◌, ℕ, true, false, IsNone, IfSome, slice_index};
ghost use Rattle.agc_word.specs.Layout as layout;
ghost use Rattle.agc_word.specs.Layout.{sets_in, OutsideCores, Keeps};
ghost use Rattle.agc_exec.specs.Blocks.{blocks_of};
ghost use Rattle.agc_exec.specs.Image.{sets_of, IsSet, IsLawfulWords};
ghost use Rattle.agc_exec.specs.Stages.{newjob_of};
ghost use Rattle.agc_plan.specs.Jobs.{best};
ghost use Rattle.agc_exec.specs.Sets.{slots_of, running_in};
ghost use Rattle.agc_exec.specs.Stages.{FrontRuns, IsLed, IsNewcomer, Stays, GivesWayTo};

use crate::core_set::{MINUS_ZERO, PRIORITY, PRIORITY_UNIT, word_of};
use crate::search::{RANK_UNIT, best_rank, set_of_rank, somebody_runs};
use agc_word::layout::{NEWJOB, SET_SIZE};
use agc_word::{Erasable, Word};

/// The word that NEWJOB must be.
pub fn newjob(e: &Erasable) -> u16
    requires { IsSet e.now }
    ensures value { result ≡ newjob_of (sets_of e.now) }
    ensures range { result < 32768 }
{
    let best = best_rank(e);
    if best == 0 {
        MINUS_ZERO
    } else if best / RANK_UNIT > word_of(e, 0, PRIORITY) / PRIORITY_UNIT + 1 {
        (SET_SIZE * set_of_rank(best)) as u16
    } else {
        0
    }
}

/// Brings NEWJOB up to date.
pub fn bring_newjob_up_to_date(e: &mut Erasable)
    requires { IsSet e.old }
    ensures words { blocks_of e.new ≡ blocks_of e.old }
    ensures newjob { slice_index e.new layout.newjob ≡ newjob_of (sets_of e.old) }
    ensures uses { (i : ℕ) → i < layout.newjob → slice_index e.new i ≡ slice_index e.old i }
    ensures others { Keeps OutsideCores e.old e.new }
{
    let newjob = newjob(e);
    e.set(NEWJOB, Word::of_bits(newjob));
}

/// The word that NEWJOB must be after the job in set k became awake: the name of that set, if its
/// job is to run before the job that NEWJOB names.
fn newjob_with(e: &Erasable, k: usize) -> u16
    requires set { IsSet e.now }
    requires place { k < sets_in e.now }
    requires newcomer { IsNewcomer e.now k }
    ensures value { result ≡ newjob_of (sets_of e.now) }
    ensures range { result < 32768 }
{
    let named = e.get(NEWJOB).bits();
    let j = named as usize / SET_SIZE;
    let urgency = word_of(e, k, PRIORITY);
    let other = word_of(e, j, PRIORITY);
    if urgency / PRIORITY_UNIT < other / PRIORITY_UNIT {
        return named;
    }
    if urgency / PRIORITY_UNIT > other / PRIORITY_UNIT {
        return (SET_SIZE * k) as u16;
    }
    if j == 0 {
        return named;
    }
    let number = word_of(e, j, 0);
    if number < word_of(e, k, 0) {
        return named;
    }
    (SET_SIZE * k) as u16
}

/// The word that NEWJOB must be after the job in set k became awake, and took set 0 if no job ran.
fn newjob_after(e: &Erasable, k: usize, ran: bool) -> u16
    requires set { IsSet e.now }
    requires place { k < sets_in e.now }
    requires busy { ran ≡ true → IsNewcomer e.now k }
    requires idle { ran ≡ false → IsLed (sets_of e.now) }
    ensures value { result ≡ newjob_of (sets_of e.now) }
    ensures range { result < 32768 }
{
    if ran { newjob_with(e, k) } else { 0 }
}

/// Brings NEWJOB up to date after the job in set k became awake, and took set 0 if nobody ran.
pub fn note_newcomer(e: &mut Erasable, k: usize, ran: bool)
    requires set { IsSet e.old }
    requires place { k < sets_in e.old }
    requires busy { ran ≡ true → IsNewcomer e.old k }
    requires idle { ran ≡ false → IsLed (sets_of e.old) }
    ensures words { blocks_of e.new ≡ blocks_of e.old }
    ensures newjob { slice_index e.new layout.newjob ≡ newjob_of (sets_of e.old) }
    ensures uses { (i : ℕ) → i < layout.newjob → slice_index e.new i ≡ slice_index e.old i }
    ensures others { Keeps OutsideCores e.old e.new }
{
    let newjob = newjob_after(e, k, ran);
    e.set(NEWJOB, Word::of_bits(newjob));
}

/// The word that NEWJOB must be while the best job runs, or no job is awake.
fn newjob_of_best(e: &Erasable) -> u16
    requires set { IsSet e.now }
    requires first { running_in (sets_of e.now) ≡ best (slots_of (sets_of e.now)) }
    ensures value { result ≡ newjob_of (sets_of e.now) }
    ensures range { result < 32768 }
{
    if somebody_runs(e) { 0 } else { MINUS_ZERO }
}

/// Brings NEWJOB up to date where the best job runs, or nobody is awake.
pub fn note_best_runs(e: &mut Erasable)
    requires set { IsSet e.old }
    requires first { running_in (sets_of e.old) ≡ best (slots_of (sets_of e.old)) }
    ensures words { blocks_of e.new ≡ blocks_of e.old }
    ensures newjob { slice_index e.new layout.newjob ≡ newjob_of (sets_of e.old) }
    ensures uses { (i : ℕ) → i < layout.newjob → slice_index e.new i ≡ slice_index e.old i }
    ensures others { Keeps OutsideCores e.old e.new }
{
    let newjob = newjob_of_best(e);
    e.set(NEWJOB, Word::of_bits(newjob));
}

/// The set that NEWJOB names, 0 where the job in set 0 is to run on.
pub fn named_set(e: &Erasable) -> usize
    requires lawful { IsLawfulWords e.now }
    requires runs { FrontRuns (sets_of e.now) }
    ensures stays { result ≡ 0 → Stays (sets_of e.now) }
    ensures gives_way { 0 < result → GivesWayTo (sets_of e.now) result }
    ensures range { result < sets_in e.now }
{
    e.get(NEWJOB).bits() as usize / SET_SIZE
}
