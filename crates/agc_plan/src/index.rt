//! The numbers of tasks' rows, by task.
ghost use Rattle.std.specs.Prelude.{◌≡◌, ◌⊎◌, true, false, IfOk, IfErr, IfSome, OnOk};
ghost use Rattle.agc_plan.specs.Index.{indexed, IsIndex};
ghost use Rattle.agc_plan.specs.Plans.{actions_in, task_twice};

use crate::actions::Actions;
use crate::plan::PlanFault;
use crate::request::Task;
use std::alloc::Global;
use std::collections::BTreeMap;

/// The number of each task's row, from 0, by its address and bank.
pub(crate) type Index = BTreeMap<(u16, u16), usize>;

/// The number of a task's row.
pub(crate) fn number_of(index: &Index, task: &Task) -> Option<usize>
    ensures { result ≡ indexed index.now task.now }
{
    index.get(&(task.at.get(), task.bank.bits())).copied()
}

/// For each of 64 remainders the number of a row, whose task is asked for most likely. It is looked
/// at before the index, and spares the walk down the tree where it is right.
pub(crate) type Guesses = [u8; 64];

/// Which of the guesses is a task's.
fn remainder(task: &Task) -> usize {
    let at = task.at.get();
    ((at ^ (at >> 6) ^ task.bank.bits()) % 64) as usize
}

/// Guesses for these rows.
pub(crate) fn guesses_of(rows: &[(Task, Actions)]) -> Guesses {
    let mut guesses = [0; 64];
    for (k, row) in rows.iter().enumerate() {
        match guesses.get_mut(remainder(&row.0)) {
            Some(guess) => *guess = (k % 256) as u8,
            None => {}
        }
    }
    guesses
}

/// The actions of the row that is guessed for a task, where it is the task's.
pub(crate) fn guessed<'a>(
    rows: &'a [(Task, Actions)],
    guesses: &Guesses,
    task: &Task,
) -> Option<&'a Actions>
    requires { task_twice rows.now ≡ false }
    ensures { IfSome result (λ actions. actions.now ≡ actions_in rows.now task.now) }
{
    let guess = match guesses.get(remainder(task)) {
        Some(guess) => *guess as usize,
        None => 0,
    };
    if guess < rows.len() && rows[guess].0 == *task {
        Some(&rows[guess].1)
    } else {
        None
    }
}

/// The index of rows, of which no two are of one task.
pub(crate) fn index_of(alloc: Global, rows: &[(Task, Actions)]) -> Result<Index, PlanFault>
    ensures index { IfOk result (λ index. IsIndex rows.now index) }
    ensures accepted { OnOk result (task_twice rows.now ≡ false) }
    ensures refused { IfErr result (λ fault. (fault ≡ PlanFault.NoMemory)
        ⊎ ((fault ≡ PlanFault.TaskTwice) × (task_twice rows.now ≡ true))) }
{
    let mut index = BTreeMap::new(alloc);
    for (k, row) in rows.iter().enumerate() {
        match index.insert((row.0.at.get(), row.0.bank.bits()), k) {
            Err(_refused) => return Err(PlanFault::NoMemory),
            Ok(Some(_earlier)) => return Err(PlanFault::TaskTwice),
            Ok(None) => {}
        }
    }
    Ok(index)
}
