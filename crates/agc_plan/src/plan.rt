ghost use Rattle.std.specs.Prelude.{◌≡◌, ◌≤◌, ◌⊎◌, [], ◌∷◌, Some, None, IfOk, IfErr, OnOk};
ghost use Rattle.std.specs.Prelude.{length};
ghost use Rattle.agc_plan.specs.Plans.{Written, has_entry};
ghost use Rattle.agc_plan.specs.Plans.{phase_twice, wants_area, group_wants, all_want, fault_of};
ghost use Rattle.agc_plan.specs.Plans.{actions_in, entry_at, is_for, first_action, one_each};
ghost use Rattle.std.specs.Option.{option_copied};
ghost use Rattle.agc_plan.specs.Quiet.{BeginsQuietly};
ghost use Rattle.agc_plan.specs.Messages.{plan_fault_text};

use crate::actions::Actions;
use crate::index::{Guesses, Index, guessed, guesses_of, index_of, number_of};
use crate::number::{Group, Phase};
use crate::request::{Action, JobStart, PhaseEntry, Task};
use std::alloc::Global;
use std::error::Error;
use std::fmt;
use std::marker::Model;

/// Why rows and entries make no plan. Of several faults the first in this order is answered.
#[derive(Clone, Copy, PartialEq, Eq, Debug)]
pub enum PlanFault {
    /// The allocator refused room for the rows or for the entries. It may come in place of each
    /// other fault.
    NoMemory,
    /// One task, of one address and bank, has two rows.
    TaskTwice,
    /// One group and phase has two entries.
    PhaseTwice,
    /// Each of the six groups has an entry whose job wants a VAC area, and there are five areas.
    TooManyAreas,
}

impl PlanFault {
    /// The fault's text in messages.
    pub fn text(self) -> &'static str
        ensures { result.now ≡ plan_fault_text self }
    {
        match self {
            PlanFault::NoMemory => "no memory",
            PlanFault::TaskTwice => "task twice",
            PlanFault::PhaseTwice => "phase twice",
            PlanFault::TooManyAreas => "too many areas",
        }
    }
}

impl fmt::Display for PlanFault {
    ghost output = { λ fault. Some (plan_fault_text fault) };

    fn fmt<W: fmt::Write>(&self, f: &mut fmt::Formatter<W>) -> fmt::Result {
        f.write_str(self.text())
    }
}

impl Error for PlanFault {}

/// The actions of tasks when they fire and of key and radar pulses, and the entries with which an
/// era begins. Contracts see its rows, its entries, and the actions of both pulses.
#[derive(Drop)]
pub struct Plan {
    rows: Vec<(Task, Actions)>,
    index: Index,
    guesses: Guesses,
    entries: Vec<PhaseEntry>,
    key: Actions,
    radar: Actions,
}

impl Model for Plan {
    ghost use Rattle.std.specs.Prelude.{◌≡◌, None};
    ghost use Rattle.agc_plan.specs.Plans.{Written, fault_of};
    ghost use Rattle.agc_plan.specs.Index.{IsIndex};

    ghost Value = { Written };

    ghost view = { λ p. record
        { rows = p.rows.items; entries = p.entries.items; key = p.key; radar = p.radar } };

    ghost invariant = { λ p. (fault_of p.rows.items p.entries.items ≡ None)
        × IsIndex p.rows.items p.index };
}

/// Whether a group's phase has an entry.
fn has_entry(entries: &[PhaseEntry], group: Group, phase: Phase) -> bool
    ensures { result ≡ has_entry entries.now group phase }
{
    for other in entries {
        if other.group() == group && other.phase() == phase {
            return true;
        }
    }
    false
}

/// Whether a group's phase has two entries.
fn phase_twice(entries: &[PhaseEntry]) -> bool
    ensures { result ≡ phase_twice entries.now }
{
    for (k, entry) in entries.iter().enumerate() {
        if has_entry(&entries[k + 1..], entry.group(), entry.phase()) {
            return true;
        }
    }
    false
}

/// Whether a job wants a VAC area.
pub fn wants_area(job: Option<JobStart>) -> bool
    ensures { result ≡ wants_area job }
{
    match job {
        None => false,
        Some(JobStart::Novac(_, _)) => false,
        Some(JobStart::Findvac(_, _)) => true,
    }
}

/// Whether an entry of the group names a job with an area.
fn group_wants(entries: &[PhaseEntry], group: u8) -> bool
    ensures { result ≡ group_wants entries.now group }
{
    for entry in entries {
        if entry.group().get() == group && wants_area(entry.job()) {
            return true;
        }
    }
    false
}

/// Whether each of the six groups has an entry that wants a VAC area.
fn all_want(entries: &[PhaseEntry]) -> bool
    ensures { result ≡ all_want entries.now }
{
    group_wants(entries, 1)
        && group_wants(entries, 2)
        && group_wants(entries, 3)
        && group_wants(entries, 4)
        && group_wants(entries, 5)
        && group_wants(entries, 6)
}

/// The fault of these entries, if they have one.
fn entries_fault(entries: &[PhaseEntry]) -> Option<PlanFault>
    ensures { result ≡ fault_of [] entries.now }
{
    if phase_twice(entries) {
        Some(PlanFault::PhaseTwice)
    } else if all_want(entries) {
        Some(PlanFault::TooManyAreas)
    } else {
        None
    }
}

fn copied_rows(alloc: Global, rows: &[(Task, Actions)]) -> Result<Vec<(Task, Actions)>, PlanFault>
    ensures copied { IfOk result (λ own. own.items ≡ rows.now) }
    ensures refused { IfErr result (λ fault. fault ≡ PlanFault.NoMemory) }
{
    let Ok(mut own) = Vec::with_capacity(alloc, rows.len()) else {
        return Err(PlanFault::NoMemory);
    };
    for row in rows {
        if own.push((row.0, row.1.copied())).is_err() {
            return Err(PlanFault::NoMemory);
        }
    }
    Ok(own)
}

/// Rows of one action each, as rows of lists.
fn listed_rows(alloc: Global, rows: &[(Task, Action)]) -> Result<Vec<(Task, Actions)>, PlanFault>
    ensures listed { IfOk result (λ own. own.items ≡ one_each rows.now) }
    ensures refused { IfErr result (λ fault. fault ≡ PlanFault.NoMemory) }
{
    let Ok(mut own) = Vec::with_capacity(alloc, rows.len()) else {
        return Err(PlanFault::NoMemory);
    };
    for row in rows {
        if own.push((row.0, Actions::one(row.1))).is_err() {
            return Err(PlanFault::NoMemory);
        }
    }
    Ok(own)
}

/// The first of some actions, `Nothing` where there is none.
fn first_action(actions: &[Action]) -> Action
    ensures { result ≡ first_action actions.now }
{
    match actions {
        [] => Action::Nothing,
        [first, ..] => *first,
    }
}

impl Plan {
    /// A plan of these rows, entries and actions of pulses: one action for each task that has a
    /// row, and for each pulse. `Nothing` stands for none.
    ///
    /// # Errors
    ///
    /// `NoMemory`, or else the first of `TaskTwice`, `PhaseTwice` and `TooManyAreas` that applies.
    pub fn new(
        alloc: Global,
        rows: &[(Task, Action)],
        entries: &[PhaseEntry],
        key: Action,
        radar: Action,
    ) -> Result<Plan, PlanFault>
        ensures plan { IfOk result (λ p. p ≡ record {
          rows = one_each rows.now;
          entries = entries.now;
          key = key ∷ [];
          radar = radar ∷ [];
        }) }
        ensures accepted { OnOk result (fault_of (one_each rows.now) entries.now ≡ None) }
        ensures refused { IfErr result (λ fault. (fault ≡ PlanFault.NoMemory)
            ⊎ (fault_of (one_each rows.now) entries.now ≡ Some fault)) }
        ensures quiet { IfOk result BeginsQuietly }
    {
        let own_rows = listed_rows(alloc, rows)?;
        Plan::of(
            alloc,
            own_rows,
            entries,
            Actions::one(key),
            Actions::one(radar),
        )
    }

    /// A plan of these rows, entries and actions of pulses, each row the actions of one task:
    /// copies of them, in this order.
    ///
    /// # Errors
    ///
    /// `NoMemory`, or else the first of `TaskTwice`, `PhaseTwice` and `TooManyAreas` that applies.
    pub fn with_lists(
        alloc: Global,
        rows: &[(Task, Actions)],
        entries: &[PhaseEntry],
        key: Actions,
        radar: Actions,
    ) -> Result<Plan, PlanFault>
        ensures plan { IfOk result (λ p. p
            ≡ record { rows = rows.now; entries = entries.now; key = key; radar = radar }) }
        ensures accepted { OnOk result (fault_of rows.now entries.now ≡ None) }
        ensures refused { IfErr result (λ fault. (fault ≡ PlanFault.NoMemory)
            ⊎ (fault_of rows.now entries.now ≡ Some fault)) }
        ensures quiet { IfOk result BeginsQuietly }
    {
        let own_rows = copied_rows(alloc, rows)?;
        Plan::of(alloc, own_rows, entries, key, radar)
    }

    /// A plan of these rows, of a copy of the entries, and of the actions of pulses.
    fn of(
        alloc: Global,
        rows: Vec<(Task, Actions)>,
        entries: &[PhaseEntry],
        key: Actions,
        radar: Actions,
    ) -> Result<Plan, PlanFault>
        ensures plan { IfOk result (λ p. p
            ≡ record { rows = rows.items; entries = entries.now; key = key; radar = radar }) }
        ensures accepted { OnOk result (fault_of rows.items entries.now ≡ None) }
        ensures refused { IfErr result (λ fault. (fault ≡ PlanFault.NoMemory)
            ⊎ (fault_of rows.items entries.now ≡ Some fault)) }
        ensures quiet { IfOk result BeginsQuietly }
    {
        let mut own_entries = Vec::new(alloc);
        if own_entries.extend_from_slice(entries).is_err() {
            return Err(PlanFault::NoMemory);
        }
        let index = index_of(alloc, rows.as_slice())?;
        let guesses = guesses_of(rows.as_slice());
        match entries_fault(entries) {
            Some(fault) => Err(fault),
            None => Ok(Plan {
                rows,
                index,
                guesses,
                entries: own_entries,
                key,
                radar,
            }),
        }
    }

    /// A law: this plan has no fault, and an era of it begins with no alarm, whatever the six
    /// phases, with seven core sets or eight.
    pub fn begins_quietly(&self)
        ensures accepted { fault_of self.now.rows self.now.entries ≡ None }
        ensures quiet { BeginsQuietly self.now }
    {
        let _ = &self.rows;
    }

    /// The action of this task when it fires, in a plan of one action each: `Nothing` for a task
    /// that has no row. In a plan with lists it is the first of the task's actions, `Nothing` if
    /// there is none.
    pub fn action(&self, task: &Task) -> Action
        ensures { result ≡ first_action (actions_in self.now.rows task.now) }
    {
        first_action(self.actions(task))
    }

    /// The actions of this task when it fires, in order: none for a task that has no row.
    pub fn actions(&self, task: &Task) -> &[Action]
        ensures { result.now ≡ actions_in self.now.rows task.now }
    {
        match guessed(self.rows.as_slice(), &self.guesses, task) {
            Some(actions) => actions.as_slice(),
            None => match number_of(&self.index, task) {
                None => &[],
                Some(number) => self.rows[number].1.as_slice(),
            },
        }
    }

    /// The entry that begins again while a group is in a phase. None if the plan has no such entry.
    pub fn entry(&self, group: Group, phase: Phase) -> Option<&PhaseEntry>
        ensures { option_copied result ≡ entry_at self.now.entries group phase }
    {
        entry_at(&self.entries, group, phase)
    }

    /// The action of a key pulse, in a plan of one action each. In a plan with lists it is the
    /// first of the pulse's actions, `Nothing` if there is none.
    pub fn key(&self) -> Action
        ensures { result ≡ first_action self.now.key }
    {
        first_action(self.key_actions())
    }

    /// The action of a radar pulse, in a plan of one action each. In a plan with lists it is the
    /// first of the pulse's actions, `Nothing` if there is none.
    pub fn radar(&self) -> Action
        ensures { result ≡ first_action self.now.radar }
    {
        first_action(self.radar_actions())
    }

    /// The actions of a key pulse, in order: at most four.
    pub fn key_actions(&self) -> &[Action]
        ensures value { result.now ≡ self.now.key }
        ensures most { length result.now ≤ 4 }
    {
        self.key.as_slice()
    }

    /// The actions of a radar pulse, in order: at most four.
    pub fn radar_actions(&self) -> &[Action]
        ensures value { result.now ≡ self.now.radar }
        ensures most { length result.now ≤ 4 }
    {
        self.radar.as_slice()
    }
}

/// The entry of a group's phase.
fn entry_at(entries: &[PhaseEntry], group: Group, phase: Phase) -> Option<&PhaseEntry>
    ensures { option_copied result ≡ entry_at entries.now group phase }
{
    for entry in entries {
        if entry.group() == group && entry.phase() == phase {
            return Some(entry);
        }
    }
    None
}
