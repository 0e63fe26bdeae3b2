// The place for a new task.
ghost use Rattle.std.specs.Prelude.{◌≡◌, ◌↔◌, IsTrue, ◌<◌, ◌≤◌, ℕ, length, slice_index};
ghost use Rattle.agc_wait.specs.Table.{at_in, waits_of, IsLawfulTable};
ghost use Rattle.agc_wait.specs.Moving.{IsSpot};

use crate::coding::{TASKS, distance_of, written_gap};
use agc_word::Erasable;
use agc_word::layout::{LST1, LST2, TIME3};

/// A place for a new task: how far the task before it is from now, and the one that stands there,
/// if one does.
#[derive(Clone, Copy)]
pub(crate) struct Spot {
    pub(crate) place: usize,
    pub(crate) before: u16,
    pub(crate) after: u16,
}

/// Whether a task stands in a place: whether its address in LST2 isn't 00000.
pub(crate) fn is_occupied(e: &Erasable, place: usize) -> bool
    requires { place ≤ 8 }
    ensures { IsTrue result ↔ (1 ≤ at_in e.now place) }
{
    e.get(LST2 + 2 * place).bits() != 0
}

/// The place after all tasks that are due no later than this.
pub(crate) fn spot_for(e: &Erasable, distance: u16) -> Spot
    requires lawful { IsLawfulTable e.now }
    requires room { length (waits_of e.now) ≤ 8 }
    ensures { IsSpot (waits_of e.now) distance result.place result.before result.after }
{
    let mut before = 0;
    let mut here = distance_of(e.get(TIME3));
    for place in 0..TASKS {
        if !is_occupied(e, place) {
            return Spot {
                place,
                before,
                after: here,
            };
        }
        if distance < here {
            return Spot {
                place,
                before,
                after: here,
            };
        }
        before = here;
        here += written_gap(e.get(LST1 + place));
    }
    unreachable!()
}

/// How many tasks wait.
pub(crate) fn count_tasks(e: &Erasable) -> usize
    ensures count { result ≡ length (waits_of e.now) }
    ensures nine { result ≤ 9 }
{
    for k in 0..TASKS {
        if !is_occupied(e, k) {
            return k;
        }
    }
    TASKS
}
