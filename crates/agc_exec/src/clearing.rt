// All sets and areas free.
ghost use Rattle.std.specs.Prelude.{◌≡◌, ◌≤◌, ℕ, length, map, slice_index};
ghost use Rattle.agc_word.specs.Layout.{address_of, IsSized, OutsideCores, use_place};
ghost use Rattle.agc_exec.specs.Frames.{OutsideSets};
ghost use Rattle.agc_word.specs.Layout.{Keeps};
ghost use Rattle.agc_exec.specs.Blocks.{blocks_of};
ghost use Rattle.agc_exec.specs.Calls.{Clears, freed_block};

use crate::area::release_area;
use crate::core_set::{MINUS_ZERO, PRIORITY, set_word};
use agc_word::layout::NEWJOB;
use agc_word::{Erasable, Word};

/// Frees all sets.
fn clear_sets(e: &mut Erasable)
    requires { IsSized e.old }
    ensures words { blocks_of e.new ≡ map freed_block (blocks_of e.old) }
    ensures others { Keeps OutsideSets e.old e.new }
{
    for k in 0..e.sets().count() {
        set_word(e, k, PRIORITY, Word::of_bits(MINUS_ZERO));
    }
}

/// Frees all areas.
fn clear_areas(e: &mut Erasable)
    requires { IsSized e.old }
    ensures words { blocks_of e.new ≡ blocks_of e.old }
    ensures uses { (a : ℕ) → 1 ≤ a → a ≤ 5 → slice_index e.new (use_place a) ≡ address_of a }
    ensures others { Keeps OutsideCores e.old e.new }
{
    for area in 1..6u16 {
        release_area(e, area);
    }
}

/// Frees all core sets and VAC areas, whatever the words were, so that no job runs. Of the words of
/// a core set, only PRIORITY changes. Source: the listings' EXECUTIVE section.
pub fn clear(e: &mut Erasable)
    ensures clears { Clears e.old e.new }
    ensures all { IsSized e.new }
{
    let _all = e.sets();
    clear_sets(e);
    clear_areas(e);
    e.set(NEWJOB, Word::of_bits(MINUS_ZERO));
}
