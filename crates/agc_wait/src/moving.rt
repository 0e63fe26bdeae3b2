// Words that move by some places, and places that are filled.
ghost use Rattle.std.specs.Prelude.{◌≡◌, ◌≤◌, ◌+◌, ℕ, length, slice_index};
ghost use Rattle.agc_wait.specs.Moving.{filled, moved_down, moved_up};

use agc_word::{Erasable, Word};

/// Moves words, to these places, up from that many places further on.
pub(crate) fn move_up(e: &mut Erasable, from: usize, to: usize, by: usize)
    requires forth { from ≤ to }
    requires room { to + by ≤ 132 }
    ensures all { length e.new ≡ length e.old }
    ensures moved { (j : ℕ) → slice_index e.new j ≡ moved_up e.old from to by j }
{
    for i in from..to {
        e.set(i, e.get(i + by));
    }
}

/// Moves the words of these places down by so many places.
pub(crate) fn move_down(e: &mut Erasable, from: usize, to: usize, by: usize)
    requires forth { from ≤ to }
    requires room { to + by ≤ 132 }
    ensures all { length e.new ≡ length e.old }
    ensures moved { (j : ℕ) → slice_index e.new j ≡ moved_down e.old from to by j }
{
    for k in 0..to - from {
        let i = to - 1 - k;
        e.set(i + by, e.get(i));
    }
}

/// Sets the words of these places.
pub(crate) fn fill(e: &mut Erasable, from: usize, to: usize, word: Word)
    requires forth { from ≤ to }
    requires room { to ≤ 132 }
    ensures all { length e.new ≡ length e.old }
    ensures filled { (j : ℕ) → slice_index e.new j ≡ filled e.old from to word j }
{
    for i in from..to {
        e.set(i, word);
    }
}
