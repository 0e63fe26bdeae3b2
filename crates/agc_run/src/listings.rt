// The request since which each task waits.
ghost use Rattle.std.specs.Prelude.{◌≡◌, ◌+◌, ◌<◌, ◌≤◌, [], ◌∷◌, ◌++◌, length, if◌then◌else◌};
ghost use Rattle.std.specs.Prelude.{◌^◌, slice_get};
ghost use Rattle.agc_run.specs.Origins.{left_by, listings_after, nearer};
ghost use Rattle.agc_run.specs.Reading.{is_old, listing_of};

use crate::origins::Since;
use crate::scene::Scene;
use arrayvec::ArrayVec;
use std::marker::Model;

/// The centiseconds after which a task is due, and since when it waits.
#[derive(Clone, Copy, Default)]
pub struct Listing {
    pub distance: u32,
    pub since: Since,
}

/// The request since which each task waits, in the order of the tasks. Contracts see them as a
/// list.
#[derive(Drop)]
pub struct Listings {
    listings: ArrayVec<Listing, 9>,
}

impl Model for Listings {
    ghost use Rattle.std.specs.Prelude.{List};
    ghost use Rattle.agc_run.specs.declared.listings.Listing.{Listing};

    ghost Value = { List Listing };

    ghost view = { λ l. l.listings.items };
}

impl Listings {
    /// No tasks.
    pub(crate) fn new() -> Listings
        ensures { result ≡ [] }
    {
        Listings {
            listings: ArrayVec::new(),
        }
    }

    /// Adds a task, after the others.
    fn push(&mut self, listing: Listing)
        requires { length self.old < 9 }
        ensures items { self.new ≡ self.old ++ listing ∷ [] }
        ensures len { length self.new ≡ length self.old + 1 }
    {
        self.listings.push(listing);
    }

    /// All listings: at most nine.
    pub fn as_slice(&self) -> &[Listing]
        ensures value { result.now ≡ self.now }
        ensures most { length result.now ≤ 9 }
    {
        self.listings.as_slice()
    }

    pub(crate) fn duplicate(&self) -> Listings
        ensures { result ≡ self.now }
    {
        let mut copy = Listings::new();
        for listing in self.as_slice() {
            copy.push(*listing);
        }
        copy
    }
}

/// A task that was listed before, a tick later or not.
fn nearer(ticked: bool, listing: Listing) -> Listing
    ensures { result ≡ nearer ticked listing }
{
    if ticked {
        Listing {
            distance: listing.distance.saturating_sub(1),
            since: listing.since,
        }
    } else {
        listing
    }
}

/// The tasks that were listed before and still are: the first ones fired.
pub(crate) fn left_by(ticked: bool, fired: usize, listings: &Listings) -> Listings
    ensures { result ≡ left_by ticked fired listings.now }
{
    let mut left = Listings::new();
    let listings = listings.as_slice();
    for k in fired..listings.len() {
        left.push(nearer(ticked, listings[k]));
    }
    left
}

/// Whether a task that is due at this time was listed before.
fn is_old(old: Option<Listing>, distance: u32) -> bool
    ensures { result ≡ is_old old distance }
{
    match old {
        None => false,
        Some(old) => old.distance == distance,
    }
}

/// A task that is due at this time: one that was listed before, or a new one.
fn listing_of(now: Since, old: Option<Listing>, distance: u32) -> Listing
    ensures { result ≡ listing_of now old distance }
{
    match old {
        None => Listing {
            distance,
            since: now,
        },
        Some(old) => {
            if old.distance == distance {
                old
            } else {
                Listing {
                    distance,
                    since: now,
                }
            }
        }
    }
}

/// The task at a place, if there is one.
fn at(listings: &[Listing], place: usize) -> Option<Listing>
    ensures { result ≡ slice_get listings.now place }
{
    match listings.get(place) {
        None => None,
        Some(listing) => Some(*listing),
    }
}

/// The number of earlier tasks that have been found, after one more task.
fn old_count_after(place: usize, is_old: bool) -> usize
    requires { place < 2 ^ 32 }
    ensures { result ≡ (if is_old then place + 1 else place) }
{
    if is_old { place + 1 } else { place }
}

/// The request since which each task waits. Of those due at one time the earlier ones come first.
pub(crate) fn listings_after(now: Since, were: &Listings, scene: &Scene) -> Listings
    ensures { result ≡ listings_after now were.now scene.now.waits }
{
    let mut found = Listings::new();
    let mut place = 0;
    for wait in scene.waits() {
        let distance = wait.distance;
        let old = at(were.as_slice(), place);
        found.push(listing_of(now, old, distance));
        place = old_count_after(place, is_old(old, distance));
    }
    found
}
