// The tasks that wait, in order.
ghost use Rattle.std.specs.Prelude.{◌≡◌, ◌+◌, ◌<◌, ◌≤◌, [], ◌∷◌, ◌++◌, length};
ghost use Rattle.agc_wait.specs.Table.{at_in, bank_in, waits_of, IsLawfulTable};

use crate::coding::{TASKS, distance_of, gap_of};
use crate::spot::is_occupied;
use agc_plan::{Address, Task};
use agc_word::layout::{LST1, LST2, TIME3};
use agc_word::{Erasable, Word};
use arrayvec::ArrayVec;
use std::marker::Model;

/// A task that waits, and in how many centiseconds it is due, 0 to 16,250. Source: the listings'
/// WAITLIST section.
#[derive(Clone, Copy)]
pub struct Waiting {
    pub task: Task,
    pub distance: u32,
}

impl Model for Waiting {
    ghost use Rattle.agc_plan.specs.Tasks as plain;

    ghost Value = { plain.Waiting };

    ghost view = { λ w. record { task = w.task; distance = w.distance } };

    ghost inverse = { λ w. record { task = w.task; distance = w.distance } };
}

impl Default for Waiting {
    fn default() -> Waiting {
        match Address::new(1) {
            Some(at) => Waiting {
                task: Task {
                    at,
                    bank: Word::zero(),
                },
                distance: 0,
            },
            None => unreachable!(),
        }
    }
}

/// Tasks that wait, in order: at most nine. Contracts see them as a list.
#[derive(Drop)]
pub struct Waits {
    waits: ArrayVec<Waiting, 9>,
}

impl Model for Waits {
    ghost use Rattle.std.specs.Prelude.{List};
    ghost use Rattle.agc_plan.specs.Tasks as plain;

    ghost Value = { List plain.Waiting };

    ghost view = { λ w. w.waits.items };
}

impl Waits {
    /// No task waits.
    fn new() -> Waits
        ensures { result ≡ [] }
    {
        Waits {
            waits: ArrayVec::new(),
        }
    }

    /// One more task waits, behind the others.
    fn push(&mut self, task: Task, distance: u32)
        requires { length self.old < 9 }
        ensures items { self.new ≡ self.old ++ record { task = task; distance = distance } ∷ [] }
        ensures len { length self.new ≡ length self.old + 1 }
    {
        self.waits.push(Waiting { task, distance });
    }

    /// All of them, in order.
    pub fn as_slice(&self) -> &[Waiting]
        ensures value { result.now ≡ self.now }
        ensures nine { length result.now ≤ 9 }
    {
        self.waits.as_slice()
    }
}

/// The task of an occupied place.
pub(crate) fn task_at(e: &Erasable, place: usize) -> Task
    requires nine { place < 9 }
    requires low { 1 ≤ at_in e.now place }
    requires high { at_in e.now place ≤ 16383 }
    ensures { result ≡ record { at = at_in e.now place; bank = bank_in e.now place } }
{
    match Address::new(e.get(LST2 + 2 * place).bits()) {
        Some(at) => Task {
            at,
            bank: e.get(LST2 + 2 * place + 1),
        },
        None => unreachable!(),
    }
}

/// All tasks that wait, the one that is due first before the others, and of those that are due at
/// one time the earliest arrival first; each with the centiseconds that it still has. Source: the
/// listings' WAITLIST section.
pub fn tasks_waiting(e: &Erasable) -> Waits
    requires { IsLawfulTable e.now }
    ensures { result ≡ waits_of e.now }
{
    let mut waits = Waits::new();
    let mut distance = distance_of(e.get(TIME3)) as u32;
    for place in 0..TASKS {
        if !is_occupied(e, place) {
            return waits;
        }
        waits.push(task_at(e, place), distance);
        distance += gap_of(e.get(LST1 + place)) as u32;
    }
    waits
}
