// How distances and gaps are written as words, and read from them.
ghost use Rattle.std.specs.Prelude.{◌≡◌, ◌⊎◌, ◌<◌, ◌≤◌};
ghost use Rattle.agc_wait.specs.Table.{gap_of};
ghost use Rattle.agc_wait.specs.Parts.{distance_of};
ghost use Rattle.agc_wait.specs.Writing.{counter_at, gap_word};

use agc_word::Word;

/// How many tasks may wait.
pub(crate) const TASKS: usize = 9;

/// The word of LST1 where no gap is.
pub(crate) const NO_GAP: u16 = 0o57777;

/// How many centiseconds a full TIME3 counts.
pub(crate) const FULL_COUNT: u16 = 0o40000;

/// The word of LST1 for a gap.
pub(crate) fn gap_word(gap: u16) -> Word
    requires { gap ≤ 16383 }
    ensures { result ≡ gap_word gap }
{
    if gap < 2 {
        Word::of_bits(1 - gap)
    } else {
        Word::of_bits(0o100000 - gap)
    }
}

/// The gap that a word of LST1 says.
pub(crate) fn gap_of(word: Word) -> u16
    ensures value { result ≡ gap_of word }
    ensures small { result ≤ 0o40000 }
{
    let bits = word.bits();
    if bits == 0 {
        1
    } else if bits < FULL_COUNT {
        0
    } else {
        0o100000 - bits
    }
}

/// The gap that a word of LST1 says, where it is one that a gap may have: so it is read as it is
/// written, in fewer steps.
pub(crate) fn written_gap(word: Word) -> u16
    requires { (word ≤ 1) ⊎ (0o40000 ≤ word) }
    ensures value { result ≡ gap_of word }
    ensures small { result ≤ 0o40000 }
{
    let bits = word.bits();
    if bits < 2 { 1 - bits } else { 0o100000 - bits }
}

/// TIME3 where the first task is this far from now.
pub(crate) fn counter_at(distance: u16) -> Word
    requires { distance ≤ 16250 }
    ensures { result ≡ counter_at distance }
{
    if distance == 0 {
        Word::zero()
    } else {
        Word::of_bits(FULL_COUNT - distance)
    }
}

/// The distance that TIME3 says.
pub(crate) fn distance_of(counter: Word) -> u16
    requires { counter < 0o40000 }
    ensures { result ≡ distance_of counter }
{
    let bits = counter.bits();
    if bits == 0 { 0 } else { FULL_COUNT - bits }
}
