// The faults of a caller's plan.
ghost use Rattle.std.specs.Prelude.{◌≡◌, IfNone};
ghost use Rattle.std.specs.List.{list_all};
ghost use Rattle.agc_plan.specs.Plans.{has_task, task_twice, has_entry, phase_twice, group_wants};
ghost use Rattle.agc_plan.specs.Plans.{all_want};
ghost use Rattle.agc_plan.specs.Quiet.{BeginsQuietly};
ghost use Rattle.libagc.specs.Codes.{code_for};
ghost use Rattle.libagc.specs.Plans.{rows_from_c, entries_from_c, plan_from_c, is_action, is_row};
ghost use Rattle.libagc.specs.Plans.{is_entry, lacking};

use crate::fault::Fault;
use crate::numbers::{group, phase};
use crate::plans::{AgcPhaseEntry, AgcPlan, AgcRow, job_of, listed_of};
use crate::reading::{AgcRequest, request_of, task_of};
use agc_plan::wants_area;

fn has_row(rows: &[AgcRow], at: u32, bank: u32) -> bool
    ensures { result ≡ has_task (rows_from_c rows.now) (record { at = at; bank = bank }) }
{
    for row in rows {
        if row.at == at && row.bank == bank {
            return true;
        }
    }
    false
}

fn task_twice(rows: &[AgcRow]) -> bool
    ensures { result ≡ task_twice (rows_from_c rows.now) }
{
    for (k, row) in rows.iter().enumerate() {
        if has_row(&rows[k + 1..], row.at, row.bank) {
            return true;
        }
    }
    false
}

fn has_entry(entries: &[AgcPhaseEntry], group: u32, phase: u32) -> bool
    ensures { result ≡ has_entry (entries_from_c entries.now) group phase }
{
    for other in entries {
        if other.group == group && other.phase == phase {
            return true;
        }
    }
    false
}

fn phase_twice(entries: &[AgcPhaseEntry]) -> bool
    ensures { result ≡ phase_twice (entries_from_c entries.now) }
{
    for (k, entry) in entries.iter().enumerate() {
        if has_entry(&entries[k + 1..], entry.group, entry.phase) {
            return true;
        }
    }
    false
}

fn group_wants(entries: &[AgcPhaseEntry], group: u32) -> bool
    ensures { result ≡ group_wants (entries_from_c entries.now) group }
{
    for entry in entries {
        if entry.group == group && wants_area(job_of(entry)) {
            return true;
        }
    }
    false
}

fn all_want(entries: &[AgcPhaseEntry]) -> bool
    ensures { result ≡ all_want (entries_from_c entries.now) }
{
    group_wants(entries, 1)
        && group_wants(entries, 2)
        && group_wants(entries, 3)
        && group_wants(entries, 4)
        && group_wants(entries, 5)
        && group_wants(entries, 6)
}

// Most rows have fewer than four, so the test for none is in line.
#[inline(always)]
pub(crate) fn is_action(a: &AgcRequest) -> bool
    ensures { result ≡ is_action a.now }
{
    match a.kind {
        0 => true,
        1 | 2 | 5 | 9 => request_of(a).is_some(),
        _ => false,
    }
}

fn is_row(row: &AgcRow) -> bool
    ensures { result ≡ is_row row.now }
{
    task_of(row.at, row.bank).is_some()
        && is_action(&row.first)
        && is_action(&row.second)
        && is_action(&row.third)
        && is_action(&row.fourth)
}

fn is_entry(e: &AgcPhaseEntry) -> bool
    ensures { result ≡ is_entry e.now }
{
    group(e.group).is_some()
        && phase(e.phase).is_some()
        && 0 < e.phase
        && (e.job == 0 || job_of(e).is_some())
        && (e.delay == 0 || listed_of(e).is_some())
}

fn are_rows(rows: &[AgcRow]) -> bool
    ensures { result ≡ list_all is_row rows.now }
{
    rows.iter().all(|row| is_row(row))
}

fn are_entries(entries: &[AgcPhaseEntry]) -> bool
    ensures { result ≡ list_all is_entry entries.now }
{
    entries.iter().all(|entry| is_entry(entry))
}

/// The first fault for which rows and entries are no plan. None if they are one; then an era that
/// begins by it raises no alarm, whatever the six phases.
pub(crate) fn plan_lacks(rows: &[AgcRow], entries: &[AgcPhaseEntry]) -> Option<Fault>
    ensures first { result ≡ lacking rows.now entries.now }
    ensures quiet { IfNone result (BeginsQuietly (plan_from_c rows.now entries.now)) }
{
    if !(are_rows(rows) && are_entries(entries)) {
        Some(Fault::PlanRange)
    } else if task_twice(rows) {
        Some(Fault::TaskTwice)
    } else if phase_twice(entries) {
        Some(Fault::PhaseTwice)
    } else if all_want(entries) {
        Some(Fault::TooManyAreas)
    } else {
        None
    }
}

/// Whether rows and entries make a plan: 0, and then an era of it begins with no alarm, whatever
/// the phases; or the first of 9, a number of them is out of its range, 10, a task has two rows,
/// 11, a group's phase has two entries, and 12, each of the six groups wants a VAC area.
#[unsafe(no_mangle)]
pub extern "C" fn agc_plan_check(plan: &AgcPlan<'_>) -> u32
    ensures code { result ≡ code_for (lacking plan.now.rows.now plan.now.entries.now) }
    ensures quiet { result ≡ 0
        → BeginsQuietly (plan_from_c plan.now.rows.now plan.now.entries.now) }
{
    match plan_lacks(plan.rows, plan.entries) {
        None => 0,
        Some(fault) => fault.code(),
    }
}
