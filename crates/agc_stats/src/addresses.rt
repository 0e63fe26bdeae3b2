//! The rows of a table of jobs by their addresses.
ghost use Rattle.std.specs.Prelude.{◌≡◌, ◌==◌, ◌<◌, ℕ, List, [], ◌∷◌, ◌++◌, Option, OnOk};
ghost use Rattle.std.specs.List.{All, count_by, position};
ghost use Rattle.std.specs.List.Sorted.{IsNonDecreasing};
ghost use Rattle.agc_stats.specs.Addresses.{AreRows};
ghost use Rattle.agc_stats.specs.declared.live_jobs.JobLife.{JobLife};

use crate::address_statistics::AddressStatistics;
use crate::live_jobs::JobLife;
use std::alloc::{AllocError, Global};

/// The row of an address, if it has one.
fn place_of(rows: &[AddressStatistics], at: u16) -> Option<usize>
    ensures { result ≡ position (λ row. row.at == at) rows.now }
{
    rows.iter().position(|row| row.at == at)
}

/// Counts the release of a job in the row of its address, which may be a new one with this
/// deadline.
pub(crate) fn count_release(
    rows: &mut Vec<AddressStatistics>,
    alloc: Global,
    at: u16,
    deadline: Option<u64>,
) -> Result<(), AllocError>
    ensures { OnOk result ((deadlines : ℕ → Option ℕ) (releases : List ℕ) (lives : List JobLife)
        → deadline ≡ deadlines at → AreRows deadlines releases lives rows.old.items
        → AreRows deadlines (releases ++ at ∷ []) lives rows.new.items) }
{
    match place_of(rows.as_slice(), at) {
        Some(place) => {
            rows[place].release();
            Ok(())
        }
        None => {
            let mut row = AddressStatistics::at(alloc, at, deadline);
            row.release();
            rows.push(row)?;
            Ok(())
        }
    }
}

/// Sorts the response times of each row.
pub(crate) fn sort_rows(rows: &mut Vec<AddressStatistics>) -> Result<(), AllocError>
    ensures rows { OnOk result ((deadlines : ℕ → Option ℕ) (releases : List ℕ)
        (lives : List JobLife) → AreRows deadlines releases lives rows.old.items
        → AreRows deadlines releases lives rows.new.items) }
    ensures sorted { OnOk result
        (All (λ row. IsNonDecreasing row.responses.items) rows.new.items) }
{
    for place in 0..rows.len() {
        rows[place].sort()?;
    }
    Ok(())
}

/// Adds a life that is over to the row of its address.
pub(crate) fn count_life(
    rows: &mut Vec<AddressStatistics>,
    life: &JobLife,
) -> Result<(), AllocError>
    ensures { OnOk result ((deadlines : ℕ → Option ℕ) (releases : List ℕ) (lives : List JobLife)
        → 0 < count_by (λ at. at == life.now.job.at) releases
        → AreRows deadlines releases lives rows.old.items
        → AreRows deadlines releases (lives ++ life.now ∷ []) rows.new.items) }
{
    match place_of(rows.as_slice(), life.job.at) {
        Some(place) => rows[place].leave(life),
        None => Ok(()),
    }
}
