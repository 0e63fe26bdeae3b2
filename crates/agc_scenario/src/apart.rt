//! Rows of stolen time that overlap, and jobs of one address.
ghost use Rattle.std.specs.Prelude.{◌≡◌, map, not};
ghost use Rattle.std.specs.List.{list_all};
ghost use Rattle.agc_document.specs.Keys.{is_among};
ghost use Rattle.agc_clock.specs.Timetables.{overlap};
ghost use Rattle.agc_scenario.specs.Keys.{are_apart, are_distinct};

use crate::rows::{JOBS, STEAL};
use crate::texts::JobTexts;
use agc_clock::Stolen;
use agc_document::{Key, KeyFault, Location, Notes};

/// Whether a row of stolen time overlaps none of the others.
fn overlaps_none(row: Stolen, others: &[Stolen]) -> bool
    ensures { result ≡ list_all (λ other. not (overlap row other)) others.now }
{
    others.iter().all(|other| !row.overlaps(other))
}

/// Whether no two of these rows of stolen time overlap; the first has this number. The first row
/// that overlaps an earlier one is noted.
pub(crate) fn are_apart(rows: &[Stolen], number: u64, notes: &mut Notes<'_>) -> bool
    ensures { result ≡ are_apart rows.now }
{
    match rows {
        [] => true,
        [row, others @ ..] => {
            if overlaps_none(*row, others) {
                are_apart(others, number.saturating_add(1), notes)
            } else {
                notes.key(overlap_place(*row, others, number), "", KeyFault::Overlap);
                false
            }
        }
    }
}

/// The place of a table in a key's array, `later` places after the one that follows this number.
fn later_place(key: Key, number: u64, later: usize) -> Location {
    let number = number.saturating_add(later as u64).saturating_add(1);
    Location::Table(key, number)
}

/// The place of the first later row that overlaps this one, which has this number.
fn overlap_place(row: Stolen, others: &[Stolen], number: u64) -> Location {
    let later = others
        .iter()
        .take_while(|other| !row.overlaps(*other))
        .count();
    later_place(STEAL, number, later)
}

/// The place of the first later job with this address. The job that has it first has this number.
fn twin_place(at: &str, others: &[JobTexts<'_>], number: u64) -> Location {
    let later = others
        .iter()
        .take_while(|other| other.at.as_str() != at)
        .count();
    later_place(JOBS, number, later)
}

fn is_listed(jobs: &[JobTexts<'_>], at: &str) -> bool
    ensures { result ≡ is_among (map (λ j. j.at) jobs.now) at.now }
{
    match jobs {
        [] => false,
        [job, others @ ..] => job.at.as_str() == at || is_listed(others, at),
    }
}

/// Whether all these jobs have different addresses; the first has this number. The first job whose
/// address is that of an earlier one is noted.
pub(crate) fn are_distinct(jobs: &[JobTexts<'_>], number: u64, notes: &mut Notes<'_>) -> bool
    ensures { result ≡ are_distinct (map (λ j. j.at) jobs.now) }
{
    match jobs {
        [] => true,
        [job, others @ ..] => {
            if is_listed(others, job.at.as_str()) {
                let place = twin_place(job.at.as_str(), others, number);
                notes.key(place, "", KeyFault::JobTwice);
                false
            } else {
                are_distinct(others, number.saturating_add(1), notes)
            }
        }
    }
}
