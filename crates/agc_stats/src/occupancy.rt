//! How full the tables are.
ghost use Rattle.std.specs.Prelude.{◌≡◌, if◌then◌else◌};
ghost use Rattle.agc_word.specs.Layout.{IsSized};
ghost use Rattle.agc_exec.specs.Image.{IsLawfulWords};
ghost use Rattle.agc_wait.specs.Table.{IsLawfulTable};
ghost use Rattle.agc_run.specs.Reading.{scene_in};
ghost use Rattle.agc_stats.specs.Occupancies.{occupancy_of, owns_area};

use agc_exec::{Seat, job_at, running};
use agc_wait::tasks_waiting;
use agc_word::Erasable;

/// The number of core sets, areas and places of the Waitlist that are taken, and whether a job is
/// running.
#[derive(Clone, Copy)]
pub(crate) struct Occupancy {
    pub(crate) sets: u64,
    pub(crate) areas: u64,
    pub(crate) tasks: u64,
    pub(crate) runs: bool,
}

/// 1 where this is so, else 0.
pub(crate) fn one_if(is: bool) -> u64
    ensures { result ≡ (if is then 1 else 0) }
{
    if is { 1 } else { 0 }
}

/// Whether the job in a core set owns an area.
fn owns_area(seat: Option<Seat>) -> bool
    ensures { result ≡ owns_area seat }
{
    match seat {
        None => false,
        Some(seat) => seat.area > 0,
    }
}

/// How full the tables in these words are.
pub(crate) fn occupancy_of(e: &Erasable) -> Occupancy
    requires sized { IsSized e.now }
    requires cores { IsLawfulWords e.now }
    requires waits { IsLawfulTable e.now }
    ensures { result ≡ occupancy_of (scene_in e.now) }
{
    let mut sets: u64 = 0;
    let mut areas: u64 = 0;
    for k in 0..e.sets().count() {
        let seat = job_at(e, k);
        sets = sets.saturating_add(one_if(seat.is_some()));
        areas = areas.saturating_add(one_if(owns_area(seat)));
    }
    Occupancy {
        sets,
        areas,
        tasks: tasks_waiting(e).as_slice().len() as u64,
        runs: running(e).is_some(),
    }
}
