// Laws of the plain list of tasks: each is the contract of a function that does nothing.
ghost use Rattle.std.specs.Prelude.{ℕ, List};
ghost use Rattle.std.specs.List.{All};
ghost use Rattle.agc_plan.specs.Tasks.{Pending, Agenda, InOrder, RisesFrom};
ghost use Rattle.agc_wait.specs.Runs.{Move, MovesLater, run_of, FiresWhenDue, FiresInOrder};
ghost use Rattle.agc_wait.specs.Table.{Shows, SameTable};

/// Law: over every run of listings and ticks in which no task has an action and a tenth listing is
/// passed over (the machine raises 1203 there, and loses all tasks), a task that is listed with
/// delay d while fewer than nine wait fires in the d-th tick after it, in no earlier and no later
/// one, and the tasks of one due time fire in the order in which they were listed. Source: the
/// listings' WAITLIST section.
pub fn tasks_fire_when_due()
    ensures { (sets : ℕ) (moves : List Move) → All MovesLater moves
        → FiresWhenDue (run_of sets moves) }
{}

/// Law: where no task is overdue, to fire the earliest arrival of those that are due is to fire the
/// first in order. Source: the listings' WAITLIST section.
pub fn earliest_arrival_is_first_in_order()
    ensures { (time : ℕ) (tasks ordered : List Pending) → InOrder tasks ordered
        → RisesFrom time ordered → FiresInOrder time tasks ordered }
{}

/// Law: an agenda has at most one table of words: two lists of words whose tables are in order and
/// tidy, and stand for the same agenda, have the same words TIME3, LST1 and LST2. Source: the
/// listings' WAITLIST section; the coding: profile.
pub fn one_table_of_an_agenda()
    ensures { (agenda : Agenda) (these those : List ℕ) → Shows these agenda → Shows those agenda
        → SameTable these those }
{}
