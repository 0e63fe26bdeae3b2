// The request since which each job is there.
ghost use Rattle.std.specs.Prelude.{◌≡◌, ◌+◌, ◌<◌, ◌≤◌, [], ◌∷◌, ◌++◌, length, unwrap_or};
ghost use Rattle.agc_run.specs.Origins.{known_since, origin_in, origins_after};

use crate::scene::Scene;
use agc_exec::Seat;
use arrayvec::ArrayVec;
use std::marker::Model;

/// The request with which a job or a task came, 0 for power-up; and whether it came with that
/// request's restart.
#[derive(Clone, Copy, Default)]
pub struct Since {
    pub request: u64,
    pub restart: bool,
}

/// The request since which the job of this number is there.
#[derive(Clone, Copy, Default)]
pub struct Origin {
    pub job: u16,
    pub since: Since,
}

/// The request since which each job in a core set is there. Contracts see them as a list.
#[derive(Drop)]
pub struct Origins {
    origins: ArrayVec<Origin, 8>,
}

impl Model for Origins {
    ghost use Rattle.std.specs.Prelude.{List};
    ghost use Rattle.agc_run.specs.declared.origins.Origin.{Origin};

    ghost Value = { List Origin };

    ghost view = { λ o. o.origins.items };
}

impl Origins {
    /// No origins.
    pub(crate) fn new() -> Origins
        ensures { result ≡ [] }
    {
        Origins {
            origins: ArrayVec::new(),
        }
    }

    /// Adds an origin.
    fn push(&mut self, origin: Origin)
        requires { length self.old < 8 }
        ensures items { self.new ≡ self.old ++ origin ∷ [] }
        ensures len { length self.new ≡ length self.old + 1 }
    {
        self.origins.push(origin);
    }

    /// All origins: at most eight.
    pub fn as_slice(&self) -> &[Origin]
        ensures value { result.now ≡ self.now }
        ensures most { length result.now ≤ 8 }
    {
        self.origins.as_slice()
    }

    pub(crate) fn duplicate(&self) -> Origins
        ensures { result ≡ self.now }
    {
        let mut copy = Origins::new();
        for origin in self.as_slice() {
            copy.push(*origin);
        }
        copy
    }

    /// The request since which the job of this number is there, if that is known.
    pub fn of_job(&self, job: u16) -> Option<Since>
        ensures { result ≡ known_since self.now job }
    {
        for origin in self.as_slice() {
            if origin.job == job {
                return Some(origin.since);
            }
        }
        None
    }
}

fn known_or(known_since: Option<Since>, now: Since) -> Since
    ensures { result ≡ unwrap_or known_since now }
{
    match known_since {
        None => now,
        Some(known_since) => known_since,
    }
}

/// Appends the origin of the job in a core set, if there is one.
fn add_origin(found: &mut Origins, now: Since, origins: &Origins, seat: Option<Seat>)
    requires { length found.old < 8 }
    ensures items { found.new ≡ found.old ++ origin_in now origins.now seat }
    ensures len { length found.new ≤ length found.old + 1 }
{
    match seat {
        None => {}
        Some(seat) => {
            let job = seat.number;
            let since = known_or(origins.of_job(job), now);
            found.push(Origin { job, since });
        }
    }
}

/// The origin of each job: the known one, or now.
pub(crate) fn origins_after(now: Since, origins: &Origins, scene: &Scene) -> Origins
    ensures { result ≡ origins_after now origins.now scene.now.seats }
{
    let mut found = Origins::new();
    for seat in scene.seats() {
        add_origin(&mut found, now, origins, *seat);
    }
    found
}
