// The calls of the Waitlist.
ghost use Rattle.std.specs.Prelude.{◌≡◌, ◌⊎◌, ◌<◌, ◌≤◌, ◌-◌, ◌==◌, if◌then◌else◌, ℕ, length};
ghost use Rattle.std.specs.Prelude.{slice_index, true, false};
ghost use Rattle.std.specs.Result.{is_ok};
ghost use Rattle.agc_wait.specs.Waits.{is_due};
ghost use Rattle.agc_wait.specs.Table.{waits_of, IsLawfulTable, at_in, bank_in, gap_of};
ghost use Rattle.agc_wait.specs.Writing.{counter_at, gap_word};
ghost use Rattle.agc_wait.specs.Moving.{gap_put, task_put};
ghost use Rattle.agc_wait.specs.Calls.{Clears, Counts, Dispatches, Lists, TellsDue};

use crate::coding::{NO_GAP, TASKS, counter_at, gap_of, gap_word};
use crate::moving::{fill, move_down, move_up};
use crate::spot::{is_occupied, spot_for};
use agc_plan::{Address, Delay, Task};
use agc_word::layout::{LST1, LST2, PHASE_WORDS, TIME3};
use agc_word::{Erasable, Word};
use thiserror::Error;

/// A tenth task was to be listed: nine wait already. Source: the listings' WAITLIST section.
#[derive(Clone, Copy, PartialEq, Eq, Debug, Error)]
#[error("nine tasks wait already")]
pub struct Full;

/// Takes all tasks out, from any words: TIME3 and LST2 are 00000, LST1 is 57777. Source: the
/// listings' WAITLIST section.
pub fn clear(e: &mut Erasable)
    ensures { Clears e.old e.new }
{
    e.set(TIME3, Word::zero());
    fill(e, LST1, LST2, Word::of_bits(NO_GAP));
    fill(e, LST2, PHASE_WORDS, Word::zero());
}

/// Whether a task is due now: whether one waits and TIME3 is 00000. Source: the listings' WAITLIST
/// section.
pub fn due(e: &Erasable) -> bool
    requires { IsLawfulTable e.now }
    ensures { TellsDue e.now result }
{
    e.get(LST2).bits() != 0 && e.get(TIME3).bits() == 0
}

/// A centisecond passes; no task may be due before it. Answers whether one is due now: whether
/// TIME3 overflowed. It stands still where no task waits. Source: the listings' WAITLIST section.
pub fn count_time3(e: &mut Erasable) -> bool
    requires lawful { IsLawfulTable e.old }
    requires none_due { is_due (waits_of e.old) ≡ false }
    ensures { Counts e.old result e.new }
{
    if e.get(LST2).bits() == 0 {
        return false;
    }
    let counter = e.get(TIME3).bits();
    if counter == 0o37777 {
        e.set(TIME3, Word::zero());
        true
    } else {
        e.set(TIME3, Word::of_bits(counter + 1));
        false
    }
}

/// TIME3 once the first task is gone: the second task's address word, and the gap to it, say how
/// far that is.
fn next_counter(second: Word, gap: Word) -> Word
    requires { 1 ≤ second → gap_of gap ≤ 16250 }
    ensures { result ≡ (if second == 0 then 0 else counter_at (gap_of gap)) }
{
    if second.bits() == 0 {
        Word::zero()
    } else {
        counter_at(gap_of(gap))
    }
}

/// The task of the first place.
fn first_task(e: &Erasable) -> Task
    requires low { 1 ≤ at_in e.now 0 }
    requires high { at_in e.now 0 ≤ 16383 }
    ensures { result ≡ record { at = at_in e.now 0; bank = bank_in e.now 0 } }
{
    match Address::new(e.get(LST2).bits()) {
        Some(at) => Task {
            at,
            bank: e.get(LST2 + 1),
        },
        None => unreachable!(),
    }
}

/// Takes out the first task, which must be due: of the tasks that are due now, the one that arrived
/// first. The others move up by one place, and the last place becomes 57777 and 00000 00000.
/// Source: the listings' WAITLIST section.
pub fn dispatch(e: &mut Erasable) -> Task
    requires lawful { IsLawfulTable e.old }
    requires due { is_due (waits_of e.old) ≡ true }
    ensures { Dispatches e.old result e.new }
{
    let task = first_task(e);
    let counter = next_counter(e.get(LST2 + 2), e.get(LST1));
    e.set(TIME3, counter);
    move_up(e, LST1, LST2 - 1, 1);
    e.set(LST2 - 1, Word::of_bits(NO_GAP));
    move_up(e, LST2, PHASE_WORDS - 2, 2);
    e.set(PHASE_WORDS - 2, Word::zero());
    e.set(PHASE_WORDS - 1, Word::zero());
    task
}

/// Puts a task into a place, and what stands there and behind down by one: with no more than eight
/// tasks the last place is empty.
fn put_task(e: &mut Erasable, place: usize, task: Task)
    requires { place ≤ 8 }
    ensures low { 1 ≤ task.at }
    ensures high { task.at ≤ 16383 }
    ensures word { task.bank < 32768 }
    ensures all { length e.new ≡ length e.old }
    ensures put { (j : ℕ) → slice_index e.new j ≡ task_put e.old place task.at task.bank j }
{
    move_down(e, LST2 + 2 * place, PHASE_WORDS - 2, 2);
    e.set(LST2 + 2 * place, Word::of_bits(task.at.get()));
    e.set(LST2 + 2 * place + 1, Word::of_bits(task.bank.bits()));
}

/// Puts the gap behind a place, if a task stood there, and the gaps from there on down by one.
fn put_gap(e: &mut Erasable, place: usize, is_before: bool, distance: u16, after: u16)
    requires room { is_before ≡ true → place ≤ 7 }
    requires rises { is_before ≡ true → (distance ≤ after) × (after ≤ 16250) }
    ensures all { length e.new ≡ length e.old }
    ensures put { (j : ℕ) → slice_index e.new j
        ≡ gap_put e.old place is_before (gap_word (after - distance)) j }
{
    if is_before {
        move_down(e, LST1 + place, LST2 - 1, 1);
        e.set(LST1 + place, gap_word(after - distance));
    }
}

/// The word before a place: TIME3 before the first, else a gap.
fn word_before(place: usize, before: u16, distance: u16) -> Word
    requires far { distance ≤ 16250 }
    requires rises { before ≤ distance }
    ensures { result ≡ (if place == 0 then counter_at distance else gap_word (distance - before)) }
{
    if place == 0 {
        counter_at(distance)
    } else {
        gap_word(distance - before)
    }
}

/// Lists a task that is due this many centiseconds from now: after all tasks that are due no later.
/// This shortens the gap after it, and the words of the later tasks move down by one place. Source:
/// the listings' WAITLIST section.
///
/// # Errors
///
/// `Full` exactly where nine tasks wait; nothing then changes.
// In line in a tick, which lists for each task that fires.
#[inline(always)]
pub fn list(e: &mut Erasable, delay: Delay, task: Task) -> Result<(), Full>
    requires { IsLawfulTable e.old }
    ensures { Lists delay task e.old (is_ok result) e.new }
{
    if e.get(LST2 + 2 * (TASKS - 1)).bits() != 0 {
        return Err(Full);
    }
    let distance = delay.get();
    let spot = spot_for(e, distance);
    let is_before = is_occupied(e, spot.place);
    put_task(e, spot.place, task);
    put_gap(e, spot.place, is_before, distance, spot.after);
    // TIME3 stands just before LST1.
    e.set(
        TIME3 + spot.place,
        word_before(spot.place, spot.before, distance),
    );
    Ok(())
}
