//! The places for which rows and entries make no plan.
use crate::key::Key;
use crate::location::Location;
use crate::rows::{PHASES, TASKS};
use agc_plan::{Actions, PhaseEntry, PlanFault, Task};
use std::alloc::{AllocError, Global};

/// The first table with the same two numbers as an earlier one. The third number of each is the
/// table's own.
fn first_twin(tables: &mut Vec<(u16, u16, u64)>) -> Result<Option<u64>, AllocError> {
    tables.sort()?;
    let mut found: Option<u64> = None;
    let mut last: Option<(u16, u16)> = None;
    for (first, second, number) in tables.as_slice() {
        let is_same = last == Some((*first, *second));
        if is_same && *number < found.unwrap_or(u64::MAX) {
            found = Some(*number);
        }
        last = Some((*first, *second));
    }
    Ok(found)
}

/// The place of the first table of a key's array that repeats an earlier one.
fn place_of(key: Key, tables: &mut Vec<(u16, u16, u64)>) -> Result<Location, AllocError> {
    match first_twin(tables)? {
        Some(number) => Ok(Location::Table(key, number)),
        None => Ok(Location::Value(key)),
    }
}

/// The place for which rows and entries are refused.
pub(crate) fn refused_at(
    alloc: Global,
    fault: PlanFault,
    rows: &[(Task, Actions)],
    entries: &[PhaseEntry],
) -> Result<Location, AllocError> {
    let mut tables: Vec<(u16, u16, u64)> = Vec::new(alloc);
    match fault {
        PlanFault::TaskTwice => {
            for (k, row) in rows.iter().enumerate() {
                tables.push((row.0.at.get(), row.0.bank.bits(), k as u64 + 1))?;
            }
            place_of(TASKS, &mut tables)
        }
        PlanFault::PhaseTwice => {
            for (k, entry) in entries.iter().enumerate() {
                let group = u16::from(entry.group().get());
                let phase = u16::from(entry.phase().get());
                tables.push((group, phase, k as u64 + 1))?;
            }
            place_of(PHASES, &mut tables)
        }
        _ => Ok(Location::Value(PHASES)),
    }
}
