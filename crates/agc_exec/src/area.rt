// The VAC areas, by their use words.
ghost use Rattle.std.specs.Prelude.{◌≡◌, ◌<◌, ◌≤◌, ◌==◌, ℕ, IfSome, slice_index, if◌then◌else◌};
ghost use Rattle.agc_word.specs.Layout as layout;
ghost use Rattle.agc_word.specs.Layout.{address_of, area_of, IsSized, OutsideCores, use_place};
ghost use Rattle.agc_word.specs.Layout.{Keeps};
ghost use Rattle.agc_plan.specs.Jobs.{least_unowned};
ghost use Rattle.agc_exec.specs.Blocks.{blocks_of};
ghost use Rattle.agc_exec.specs.HeldJob.{HeldJob};
ghost use Rattle.agc_exec.specs.Image.{sets_of, IsSet, IsLawfulWords};
ghost use Rattle.agc_exec.specs.Sets.{slots_of, Holds};
ghost use Rattle.agc_exec.specs.Stages.{FrontRuns, IsUnowned};

use crate::core_set::{PRIORITY, PRIORITY_UNIT, word_of};
use agc_word::layout::{address_of, area_of, use_place};
use agc_word::{Erasable, Word};

/// The least area whose use word isn't 00000.
pub fn free_area(e: &Erasable) -> Option<u16>
    requires { IsLawfulWords e.now }
    ensures area { result ≡ least_unowned 5 1 (slots_of (sets_of e.now)) }
    ensures free { IfSome result (λ area. (1 ≤ area) × (area ≤ 5)
        × IsUnowned (sets_of e.now) area) }
{
    for area in 1..6u16 {
        if e.get(use_place(area as usize)).bits() != 0 {
            return Some(area);
        }
    }
    None
}

/// Marks the area of a new job as owned, if it has one.
pub fn take_area(e: &mut Erasable, area: u16)
    requires sized { IsSized e.old }
    requires range { area ≤ 5 }
    ensures words { blocks_of e.new ≡ blocks_of e.old }
    ensures uses { (a : ℕ) → 1 ≤ a → a ≤ 5 → slice_index e.new (use_place a)
        ≡ (if a == area then 0 else slice_index e.old (use_place a)) }
    ensures newjob { slice_index e.new layout.newjob ≡ slice_index e.old layout.newjob }
    ensures others { Keeps OutsideCores e.old e.new }
{
    if area > 0 {
        e.set(use_place(area as usize), Word::zero());
    }
}

/// The area of the running job, 0 for none.
pub fn front_area(e: &Erasable) -> u16
    requires set { IsSet e.now }
    requires runs { FrontRuns (sets_of e.now) }
    ensures area { (job : HeldJob) → Holds (sets_of e.now) 0 job → result ≡ job.area }
    ensures five { result ≤ 5 }
{
    area_of(word_of(e, 0, PRIORITY) % PRIORITY_UNIT)
}

/// Frees the use word of an area, if there is one.
pub fn release_area(e: &mut Erasable, area: u16)
    requires sized { IsSized e.old }
    requires five { area ≤ 5 }
    ensures words { blocks_of e.new ≡ blocks_of e.old }
    ensures uses { (a : ℕ) → 1 ≤ a → a ≤ 5 → slice_index e.new (use_place a)
        ≡ (if a == area then address_of area else slice_index e.old (use_place a)) }
    ensures others { Keeps OutsideCores e.old e.new }
{
    if area > 0 {
        e.set(use_place(area as usize), Word::of_bits(address_of(area)));
    }
}
