ghost use Rattle.std.specs.Prelude.{◌≡◌, ◌<◌, ◌↔◌, ℕ, [], ◌∷◌, true, IfSome, slice_index};
ghost use Rattle.agc_text.specs.Numbers.{octal, IsWord};
ghost use Rattle.agc_plan.specs.Ranges.{IsAddress};
ghost use Rattle.agc_text.specs.Reading.{digit_of, octal_one_of, octal_pair_of, octal_five_of};
ghost use Rattle.agc_text.specs.Reading.{decimal_of, priority_of, address_of, delay_of, group_of};
ghost use Rattle.agc_text.specs.Reading.{phase_of, place_of};

use agc_plan::{Address, Delay, Group, Phase, Place, Priority};
use agc_word::Word;

fn octal_digit(byte: u8) -> Option<u8>
    ensures exact { result ≡ digit_of byte }
    ensures small { IfSome result (λ d. d < 8) }
{
    match byte {
        b'0'..=b'7' => Some(byte - b'0'),
        _ => None,
    }
}

/// One octal digit.
fn octal_one(text: &str) -> Option<u8>
    ensures { result ≡ octal_one_of text.now }
{
    match text.as_bytes() {
        [a] => octal_digit(*a),
        _ => None,
    }
}

/// The number of two octal digits.
fn pair_of(front: u8, back: u8) -> Option<u8>
    ensures exact { result ≡ octal_pair_of (front ∷ back ∷ []) }
    ensures small { IfSome result (λ n. n < 64) }
{
    match (octal_digit(front), octal_digit(back)) {
        (Some(front), Some(back)) => Some(8 * front + back),
        _ => None,
    }
}

/// Two octal digits.
fn octal_pair(text: &str) -> Option<u8>
    ensures { result ≡ octal_pair_of text.now }
{
    match text.as_bytes() {
        [a, b] => pair_of(*a, *b),
        _ => None,
    }
}

/// Five octal digits.
#[tactic(auto, using(crate::proofs::Octals::five_in_parts))]
fn octal_five(text: &str) -> Option<u16>
    ensures exact { result ≡ octal_five_of text.now }
    ensures small { IfSome result (λ n. n < 32768) }
{
    match text.as_bytes() {
        [a, b, c, d, e] => match (octal_digit(*a), pair_of(*b, *c), pair_of(*d, *e)) {
            (Some(one), Some(pair), Some(last)) => {
                Some(64 * (64 * one as u16 + pair as u16) + last as u16)
            }
            _ => None,
        },
        _ => None,
    }
}

fn begins_with(text: &str, byte: u8) -> bool
    requires { 0 < byte }
    ensures { (result ≡ true) ↔ (slice_index text.now 0 ≡ byte) }
{
    match text.as_bytes() {
        [first, ..] => *first == byte,
        [] => false,
    }
}

/// A decimal number without leading zeros.
#[tactic(auto, using(crate::proofs::Decimals::parsed_is))]
fn decimal(text: &str) -> Option<u16>
    ensures { result ≡ decimal_of text.now }
{
    #[tactic(auto, using(crate::proofs::Decimals::none_at_plus))]
    if begins_with(text, b'+') {
        return None;
    }
    #[tactic(auto, using(crate::proofs::Decimals::none_at_zero))]
    if text.len() > 1 && begins_with(text, b'0') {
        return None;
    }
    text.parse().ok()
}

/// The priority that two octal digits spell, 01 to 37; None for any other text.
#[tactic(auto, unfolding(crate::specs::Reading::priority_of))]
pub fn priority(text: &str) -> Option<Priority>
    ensures { result ≡ priority_of text.now }
{
    Priority::new(octal_pair(text)?)
}

/// The address that five octal digits spell, 00001 to 37777; None for any other text.
#[tactic(auto, unfolding(crate::specs::Reading::address_of))]
pub fn address(text: &str) -> Option<Address>
    ensures { result ≡ address_of text.now }
{
    Address::new(octal_five(text)?)
}

/// The word that five octal digits spell; None for any other text.
pub fn word(text: &str) -> Option<Word>
    ensures { result ≡ octal_five_of text.now }
{
    Word::new(octal_five(text)?)
}

/// The delay in centiseconds that decimal digits without leading zeros spell, 1 to 16250; None for
/// any other text.
#[tactic(auto, unfolding(crate::specs::Reading::delay_of))]
pub fn delay(text: &str) -> Option<Delay>
    ensures { result ≡ delay_of text.now }
{
    Delay::new(decimal(text)?)
}

/// The restart group that one octal digit spells, 1 to 6; None for any other text.
#[tactic(auto, unfolding(crate::specs::Reading::group_of))]
pub fn group(text: &str) -> Option<Group>
    ensures { result ≡ group_of text.now }
{
    Group::new(octal_one(text)?)
}

/// The place of a work word that one octal digit spells, 1 to 6; None for any other text.
#[tactic(auto, unfolding(crate::specs::Reading::place_of))]
pub fn place(text: &str) -> Option<Place>
    ensures { result ≡ place_of text.now }
{
    Place::new(octal_one(text)?)
}

/// The phase that decimal digits without leading zeros spell, 0 to 127; None for any other text.
#[tactic(auto, unfolding(crate::specs::Reading::phase_of))]
pub fn phase(text: &str) -> Option<Phase>
    ensures { result ≡ phase_of text.now }
{
    let number = decimal(text)?;
    if number > 127 {
        return None;
    }
    Phase::new(number as u8)
}

/// The address that five octal digits spell.
pub fn parse_address(text: &str) -> Option<Address>
    ensures found { IfSome result (λ a. IsAddress a × (text.now ≡ octal 5 a)) }
    ensures only { (a : ℕ) → IsAddress a → text.now ≡ octal 5 a → result ≡ Some a }
{
    address(text)
}

/// The word that five octal digits spell.
pub fn parse_word(text: &str) -> Option<Word>
    ensures found { IfSome result (λ w. IsWord w × (text.now ≡ octal 5 w)) }
    ensures only { (w : ℕ) → IsWord w → text.now ≡ octal 5 w → result ≡ Some w }
{
    word(text)
}
