// The twelve words of a core set: the only functions that know where they stand.
ghost use Rattle.std.specs.Prelude.{◌≡◌, ◌+◌, ◌<◌, ◌≤◌, length, slice_index, slice_index_or};
ghost use Rattle.std.specs.Prelude.{slice_set, swap, replicate, None};
ghost use Rattle.agc_word.specs.Layout.{IsSized, sets_in, set_place, Keeps};
ghost use Rattle.agc_exec.specs.Frames.{OutsideSets};
ghost use Rattle.agc_exec.specs.Blocks.{block_in, blocks_of};
ghost use Rattle.agc_exec.specs.Calls.{block_with};
ghost use Rattle.agc_exec.specs.Image.{sets_of};
ghost use Rattle.agc_exec.specs.Sets.{number_in};

use agc_plan::{Entry, JobNo};
use agc_word::layout::{SET_SIZE, set_place};
use agc_word::{Erasable, Word};

/// How many core sets stand before core set 7: all, where there are seven.
pub const COMMON_SETS: usize = 7;

/// LOC, from a set's first word.
pub const LOC: usize = 8;

/// BANKSET, from a set's first word.
const BANKSET: usize = 9;

/// PRIORITY, from a set's first word.
pub const PRIORITY: usize = 11;

/// Minus zero: PRIORITY of a free set, and NEWJOB where no job is awake.
pub const MINUS_ZERO: u16 = 0o77777;

/// The first word whose sign is set: from here on PRIORITY is a sleeper's or a free set's.
pub const SIGN: u16 = 0o40000;

/// The lowest bit of the priority in PRIORITY; below it stands the area's address.
pub const PRIORITY_UNIT: u16 = 0o1000;

/// The word at a place of a set.
pub fn word_of(e: &Erasable, k: usize, i: usize) -> u16
    requires set { k < sets_in e.now }
    requires place { i < 12 }
    requires sized { IsSized e.now }
    ensures value { result ≡ slice_index e.now (set_place k + i) }
    ensures range { result < 32768 }
{
    e.get(set_place(k) + i).bits()
}

/// The number of a set's job, 0 for none.
pub fn entry(e: &Erasable, k: usize) -> u16
    requires set { k < sets_in e.now }
    requires sized { IsSized e.now }
    ensures { result ≡ number_in (slice_index_or (sets_of e.now) k None) }
{
    if word_of(e, k, PRIORITY) == MINUS_ZERO {
        0
    } else {
        word_of(e, k, 0)
    }
}

/// Sets the word at a place of a set.
pub fn set_word(e: &mut Erasable, k: usize, i: usize, word: Word)
    requires set { k < sets_in e.old }
    requires place { i < 12 }
    requires sized { IsSized e.old }
    ensures blocks { blocks_of e.new ≡ slice_set (blocks_of e.old) k
        (slice_set (block_in e.old k) i word) }
    ensures others { Keeps OutsideSets e.old e.new }
{
    e.set(set_place(k) + i, word);
}

/// Sets the twelve words of a set to 00000.
fn blank(e: &mut Erasable, k: usize)
    requires sized { IsSized e.old }
    requires set { k < sets_in e.old }
    ensures blocks { blocks_of e.new ≡ slice_set (blocks_of e.old) k (replicate 12 0) }
    ensures others { Keeps OutsideSets e.old e.new }
{
    let first = set_place(k);
    for i in 0..SET_SIZE {
        e.set(first + i, Word::zero());
    }
}

/// Writes the twelve words of a new job, of this PRIORITY word.
pub fn write_new(e: &mut Erasable, k: usize, number: JobNo, entry: Entry, urgency: Word)
    requires sized { IsSized e.old }
    requires set { k < sets_in e.old }
    ensures blocks { blocks_of e.new ≡ slice_set (blocks_of e.old) k
        (block_with number entry urgency) }
    ensures range { (1 ≤ entry.at) × (entry.at ≤ 16383) }
    ensures others { Keeps OutsideSets e.old e.new }
{
    blank(e, k);
    set_word(e, k, 0, Word::of_bits(number.get() as u16));
    set_word(e, k, LOC, Word::of_bits(entry.at.get()));
    set_word(e, k, BANKSET, entry.bank);
    set_word(e, k, PRIORITY, urgency);
}

/// Exchanges the twelve words of set 0 and of another.
fn exchange_words(e: &mut Erasable, k: usize)
    requires sized { IsSized e.old }
    requires set { (0 < k) × (k < sets_in e.old) }
    ensures blocks { blocks_of e.new ≡ swap (blocks_of e.old) 0 k }
    ensures others { Keeps OutsideSets e.old e.new }
{
    let first = set_place(k);
    for i in 0..SET_SIZE {
        let front = e.get(i);
        let other = e.get(first + i);
        e.set(i, other);
        e.set(first + i, front);
    }
}

/// Exchanges the twelve words of set 0 and of a set, which may be set 0 itself.
pub fn exchange(e: &mut Erasable, k: usize)
    requires sized { IsSized e.old }
    requires set { k < sets_in e.old }
    ensures blocks { blocks_of e.new ≡ swap (blocks_of e.old) 0 k }
    ensures others { Keeps OutsideSets e.old e.new }
{
    if k > 0 {
        exchange_words(e, k);
    }
}
