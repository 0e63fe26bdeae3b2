// A plan in memory of a caller's own.
ghost use Rattle.std.specs.Prelude.{◌≡◌, ◌<◌, [], IfSome, IfNone};
ghost use Rattle.libagc.specs.Plans.{action_from_c, actions_from_c, rows_from_c, job_told};
ghost use Rattle.libagc.specs.Plans.{listed_from_c, entries_from_c, plan_from_c};
ghost use Rattle.agc_plan.specs.Plans.{actions_in, entry_at};

use crate::numbers::address;
use crate::reading::{AgcRequest, listing_of, start_of};
use agc_plan::{Action, Actions, Delay, Group, JobStart, Phase, PhaseEntry, Plans, Task};

/// A task's row: its address, the word for its bank, and the four actions, in order, that are done
/// when it fires.
#[repr(C)]
#[derive(Clone, Copy)]
pub struct AgcRow {
    pub at: u32,
    pub bank: u32,
    pub first: AgcRequest,
    pub second: AgcRequest,
    pub third: AgcRequest,
    pub fourth: AgcRequest,
}

/// A restart entry, which begins again while a group is in a phase: a job, a task, both or neither.
#[repr(C)]
#[derive(Clone, Copy)]
pub struct AgcPhaseEntry {
    /// 1 to 6.
    pub group: u32,
    /// 1 to 127.
    pub phase: u32,
    /// 0 no job, 1 NOVAC, 2 FINDVAC.
    pub job: u32,
    pub priority: u32,
    pub job_at: u32,
    pub job_bank: u32,
    /// In centiseconds; 0 if there is no task.
    pub delay: u32,
    pub task_at: u32,
    pub task_bank: u32,
}

/// A plan in memory of a caller's own: a number out of its range does nothing, and of two rows or
/// entries the first counts. For C each list is a pointer and then a length.
#[repr(C)]
#[derive(Clone, Copy)]
pub struct AgcPlan<'a> {
    pub rows: &'a [AgcRow],
    pub entries: &'a [AgcPhaseEntry],
}

pub(crate) fn action_of(a: &AgcRequest) -> Action
    ensures { result ≡ action_from_c a.now }
{
    match a.kind {
        1 => start_of(a.first, a.second, a.third).map_or(
            Action::Nothing,
            |start| Action::Novac(start.0, start.1),
        ),
        2 => start_of(a.first, a.second, a.third).map_or(
            Action::Nothing,
            |start| Action::Findvac(start.0, start.1),
        ),
        5 => address(a.first).map_or(Action::Nothing, |at| Action::Rouse(at)),
        9 => listing_of(a.first, a.second, a.third).map_or(
            Action::Nothing,
            |listing| Action::List(listing.0, listing.1),
        ),
        _ => Action::Nothing,
    }
}

/// Adds the actions of a row to room that has none yet.
fn put_actions(row: &AgcRow, room: &mut Actions)
    requires { room.old ≡ [] }
    ensures { room.new ≡ actions_from_c row.now }
{
    room.push(action_of(&row.first));
    room.push(action_of(&row.second));
    room.push(action_of(&row.third));
    room.push(action_of(&row.fourth));
}

pub(crate) fn job_of(e: &AgcPhaseEntry) -> Option<JobStart>
    ensures { result ≡ job_told e.now }
{
    match e.job {
        1 => start_of(e.priority, e.job_at, e.job_bank).map(|start| JobStart::Novac(
            start.0, start.1,
        )),
        2 => start_of(e.priority, e.job_at, e.job_bank).map(|start| JobStart::Findvac(
            start.0, start.1,
        )),
        _ => None,
    }
}

pub(crate) fn listed_of(e: &AgcPhaseEntry) -> Option<(Delay, Task)>
    ensures { result ≡ listed_from_c e.now }
{
    listing_of(e.delay, e.task_at, e.task_bank)
}

/// The first row of a task.
fn row_of<'a>(rows: &'a [AgcRow], task: &Task) -> Option<&'a AgcRow>
    ensures row { IfSome result
        (λ row. actions_from_c row.now ≡ actions_in (rows_from_c rows.now) task.now) }
    ensures none { IfNone result (actions_in (rows_from_c rows.now) task.now ≡ []) }
{
    let at = u32::from(task.at.get());
    let bank = u32::from(task.bank.bits());
    for row in rows {
        if row.at == at && row.bank == bank {
            return Some(row);
        }
    }
    None
}

/// The first entry of a group's phase.
fn entry_at(entries: &[AgcPhaseEntry], group: Group, phase: Phase) -> Option<PhaseEntry>
    requires { 0 < phase }
    ensures { result ≡ entry_at (entries_from_c entries.now) group phase }
{
    let of_group = u32::from(group.get());
    let of_phase = u32::from(phase.get());
    for entry in entries {
        if entry.group == of_group && entry.phase == of_phase {
            return PhaseEntry::new(group, phase, job_of(entry), listed_of(entry));
        }
    }
    None
}

impl<'a> Plans for AgcPlan<'a> {
    ghost written = { λ p. plan_from_c p.rows.now p.entries.now };

    fn actions<'b>(&'b self, task: &Task, room: &'b mut Actions) -> &'b [Action] {
        *room = Actions::new();
        match row_of(self.rows, task) {
            Some(row) => put_actions(row, room),
            None => {}
        }
        room.as_slice()
    }

    fn entry(&self, group: Group, phase: Phase) -> Option<PhaseEntry> {
        entry_at(self.entries, group, phase)
    }
}
