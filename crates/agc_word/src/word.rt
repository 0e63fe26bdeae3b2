ghost use Rattle.std.specs.Prelude.{◌≡◌, ◌+◌, ◌<◌, ◌≤◌, ◌↔◌, ◌≤ℤ◌, ◌+ℤ◌, ◌-ℤ◌, pos, neg_ℤ, true};
ghost use Rattle.std.specs.Prelude.{false, IsTrue, IsFalse, IsSome, IfSome};
ghost use Rattle.agc_word.specs.Words.{value_of, complement, word_of, sum_of, carried_round};

use std::marker::Model;

/// A word of fifteen bits in ones' complement, 00000 to 77777 octal, of value -16383 to 16383.
/// 77777 is minus zero. Contracts see it as its bits, a number below 32768. Source: the listings,
/// in all sections.
#[derive(Clone, Copy, PartialEq, Eq, Debug)]
pub struct Word {
    bits: u16,
}

impl Model for Word {
    ghost use Rattle.std.specs.Prelude.{ℕ, ◌<◌};

    ghost Value = { ℕ };

    ghost view = { λ w. w.bits };

    ghost invariant = { λ w. w.bits < 32768 };

    ghost inverse = { λ n. record { bits = n } };
}

impl Word {
    /// The word of these bits, 0 to 32767. None from 32768 on. Source: the listings' words.
    pub fn new(bits: u16) -> Option<Word>
        ensures valid { IsSome result ↔ (bits < 32768) }
        ensures value { IfSome result (λ w. w ≡ bits) }
    {
        if bits < 32768 {
            Some(Word { bits })
        } else {
            None
        }
    }

    /// The word of these bits, which are below 32768: for a number that is known to be. Source: the
    /// listings' words.
    pub fn of_bits(bits: u16) -> Word
        requires { bits < 32768 }
        ensures { result ≡ bits }
    {
        Word { bits }
    }

    /// Plus zero, 00000. Source: the listings' words.
    pub fn zero() -> Word
        ensures { result ≡ 0 }
    {
        Word { bits: 0 }
    }

    /// The fifteen bits, as a number below 32768. Source: the listings' words.
    pub fn bits(self) -> u16
        ensures value { result ≡ self }
        ensures range { self < 32768 }
    {
        self.bits
    }

    /// The negative: each bit turned, so that 00000 gives 77777, and the negative of that the same
    /// word again. Source: the listings' words.
    pub fn neg(self) -> Word
        ensures turned { result ≡ complement self }
        ensures twice { complement result ≡ self }
    {
        Word {
            bits: 0o77777 - self.bits,
        }
    }

    /// The word of a value: 00000 for 0, the complement of its amount for a negative value. None
    /// outside -16383 to
    /// 16383. Source: the listings' words.
    pub fn of_value(value: i32) -> Option<Word>
        ensures valid { IsSome result ↔ ((neg_ℤ (pos 16383) ≤ℤ value) × (value ≤ℤ pos 16383)) }
        ensures word { IfSome result (λ w. w ≡ word_of value) }
        ensures value { IfSome result (λ w. value_of w ≡ value) }
    {
        if value < -16383 || value > 16383 {
            None
        } else if value < 0 {
            let bits = (value + 32767) as u16;
            Some(Word { bits })
        } else {
            Some(Word { bits: value as u16 })
        }
    }

    /// The value, from -16383 to 16383. Both zeros have value 0. Source: the listings' words.
    pub fn value(self) -> i32
        ensures value { result ≡ value_of self }
        ensures range { (neg_ℤ (pos 16383) ≤ℤ result) × (result ≤ℤ pos 16383) }
    {
        if self.bits < 0o40000 {
            self.bits as i32
        } else {
            self.bits as i32 - 0o77777
        }
    }

    /// The sum, and whether the exact sum of both values overflows: whether it is beyond -16383 to
    /// 16383. Where it is, the value of the answer is nearer to zero by 16384 than the exact sum.
    /// Source: the listings' words, with end-around carry; what an overflow leaves: profile.
    pub fn add(self, other: Word) -> (Word, bool)
        ensures sum { result ≡ sum_of self other }
        ensures exact { IsFalse result.1 → value_of result.0 ≡ value_of self +ℤ value_of other }
        ensures above { let exact = value_of self +ℤ value_of other in
            pos 16384 ≤ℤ exact → IsTrue result.1 × (value_of result.0 ≡ exact -ℤ pos 16384) }
        ensures below { let exact = value_of self +ℤ value_of other in
            exact ≤ℤ neg_ℤ (pos 16384) → IsTrue result.1
            × (value_of result.0 ≡ exact +ℤ pos 16384) }
        ensures range { result.0 < 32768 }
    {
        let exact = self.value() + other.value();
        if exact >= 16384 {
            let bits = (exact - 16384) as u16;
            (Word { bits }, true)
        } else if exact <= -16384 {
            let bits = (-exact - 16384) as u16;
            (Word { bits }.neg(), true)
        } else {
            (carried_round(self.bits + other.bits), false)
        }
    }

    /// The sum with 00001, and whether it overflows: 37777 gives 00000 and true. Minus zero gives
    /// 00001. Source: the listings' counters.
    pub fn count_up(self) -> (Word, bool)
        ensures sum { result ≡ sum_of self 1 }
        ensures next { self < 16383 → result ≡ (self + 1, false) }
        ensures over { self ≡ 16383 → result ≡ (0, true) }
    {
        self.add(Word { bits: 1 })
    }

    /// Whether this is minus zero, 77777. Source: the listings' words.
    pub fn is_minus_zero(self) -> bool
        ensures { IsTrue result ↔ (self ≡ 0o77777) }
    {
        self.bits == 0o77777
    }

    /// Whether the first of the fifteen bits is set: 40000 to 77777, minus zero too. Source: the
    /// listings' words.
    pub fn is_negative(self) -> bool
        ensures { IsTrue result ↔ (0o40000 ≤ self) }
    {
        self.bits >= 0o40000
    }
}

/// The default is plus zero, 00000.
impl Default for Word {
    ghost is_default = { λ w. w ≡ 0 };

    fn default() -> Word {
        Word::zero()
    }
}

// The word of a sum of bits, with its carry brought round to the low end.
fn carried_round(sum: u16) -> Word
    requires { sum < 65535 }
    ensures { result ≡ carried_round sum }
{
    if sum < 32768 {
        Word { bits: sum }
    } else {
        Word {
            bits: sum - 0o77777,
        }
    }
}
