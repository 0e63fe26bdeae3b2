ghost use Rattle.std.specs.Prelude.{◌≡◌, ◌<◌, ◌≤◌, [], ◌∷◌, ◌++◌, length, slice_get};

use crate::number::Address;
use crate::request::Task;
use agc_word::Word;
use arrayvec::ArrayVec;
use std::marker::Model;

/// A task that fired: `ArrayVec` wants a default, which a task has not.
#[derive(Clone, Copy)]
struct FiredTask {
    task: Task,
}

impl Model for FiredTask {
    ghost use Rattle.agc_plan.specs.declared.request.Task.{Task};

    ghost Value = { Task };

    ghost view = { λ p. p.task };

    ghost inverse = { λ t. record { task = t } };
}

impl Default for FiredTask {
    fn default() -> FiredTask {
        match Address::new(1) {
            Some(at) => FiredTask {
                task: Task {
                    at,
                    bank: Word::zero(),
                },
            },
            None => unreachable!(),
        }
    }
}

/// The tasks that a tick fired, in order: at most nine. Contracts see them as a list.
#[derive(Drop)]
pub struct Fired {
    tasks: ArrayVec<FiredTask, 9>,
}

impl Model for Fired {
    ghost use Rattle.std.specs.Prelude.{List};
    ghost use Rattle.agc_plan.specs.declared.request.Task.{Task};

    ghost Value = { List Task };

    ghost view = { λ f. f.tasks.items };
}

impl Fired {
    /// No task fired.
    pub fn new() -> Fired
        ensures { result ≡ [] }
    {
        Fired {
            tasks: ArrayVec::new(),
        }
    }

    /// One more task fired, after the others. There is room for nine, so fewer have to be there.
    pub fn push(&mut self, task: Task)
        requires { length self.old < 9 }
        ensures { self.new ≡ self.old ++ task ∷ [] }
    {
        self.tasks.push(FiredTask { task });
    }

    /// No task fired: those that were there are gone.
    pub fn clear(&mut self)
        ensures { self.new ≡ [] }
    {
        self.tasks.clear();
    }

    /// How many tasks fired, 0 to 9.
    pub fn len(&self) -> usize
        ensures value { result ≡ length self.now }
        ensures most { result ≤ 9 }
    {
        self.tasks.len()
    }

    /// The task that fired at this place, counted from 0. None from `len` on.
    pub fn get(&self, index: usize) -> Option<Task>
        ensures { result ≡ slice_get self.now index }
    {
        match self.tasks.as_slice().get(index) {
            Some(fired) => Some(fired.task),
            None => None,
        }
    }
}
