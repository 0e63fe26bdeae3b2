// The numbers of a call, as the types that have their ranges.
ghost use Rattle.std.specs.Prelude.{◌≡◌, ◌↔◌, ◌<◌, ◌≤◌, IsSome, IfSome};
ghost use Rattle.agc_plan.specs.Ranges.{IsPriority, IsAddress, IsDelay, IsSix};
ghost use Rattle.agc_word.specs.Profiles.{count_of};
ghost use Rattle.agc_phase.specs.Image.{code_of_word};
ghost use Rattle.agc_image.specs.Images.{IsSets};
ghost use Rattle.libagc.specs.Numbers.{word_from_c, priority_from_c, address_from_c, delay_from_c};
ghost use Rattle.libagc.specs.Numbers.{six_from_c, phase_from_c};

use agc_plan::{Address, Code, Delay, Group, Phase, Place, Priority};
use agc_word::{Sets, Word};

/// A number of core sets. None but for 7 and 8.
pub(crate) fn sets(count: u32) -> Option<Sets>
    ensures valid { IsSome result ↔ IsSets count }
    ensures value { IfSome result (λ sets. count_of sets ≡ count) }
{
    match count {
        7 => Some(Sets::Seven),
        8 => Some(Sets::Eight),
        _ => None,
    }
}

/// A priority. None outside 1 to 31. Source: the listings' EXECUTIVE section.
pub(crate) fn priority(number: u32) -> Option<Priority>
    ensures { result ≡ priority_from_c number }
{
    Priority::new(u8::try_from(number).ok()?)
}

/// An address. None outside 1 to 16383. Source: the listings' EXECUTIVE and WAITLIST sections.
pub(crate) fn address(number: u32) -> Option<Address>
    ensures { result ≡ address_from_c number }
{
    Address::new(u16::try_from(number).ok()?)
}

/// A delay in centiseconds. None outside 1 to 16250.
pub(crate) fn delay(number: u32) -> Option<Delay>
    ensures { result ≡ delay_from_c number }
{
    Delay::new(u16::try_from(number).ok()?)
}

/// A restart group. None outside 1 to 6. Source: the listings' PHASE TABLE MAINTENANCE section.
pub(crate) fn group(number: u32) -> Option<Group>
    ensures value { IfSome result (λ group. group ≡ number) }
    ensures told { result ≡ six_from_c number }
{
    Group::new(u8::try_from(number).ok()?)
}

/// A phase. None above 127.
pub(crate) fn phase(number: u32) -> Option<Phase>
    ensures value { IfSome result (λ phase. phase ≡ number) }
    ensures told { result ≡ phase_from_c number }
{
    Phase::new(u8::try_from(number).ok()?)
}

/// The place of a work word. None outside 1 to 6.
pub(crate) fn place(number: u32) -> Option<Place>
    ensures { result ≡ six_from_c number }
{
    Place::new(u8::try_from(number).ok()?)
}

/// A word. None from 32768 on. Source: the listings' words.
pub(crate) fn word(number: u32) -> Option<Word>
    ensures value { IfSome result (λ word. word ≡ number) }
    ensures told { result ≡ word_from_c number }
{
    Word::new(u16::try_from(number).ok()?)
}

/// The code that a number is, as FAILREG has it: 01107, 01201, 01202 or 01203, in octal. None for
/// any other. Source: the listings' FRESH START AND RESTART section.
pub(crate) fn alarm_code(number: u32) -> Option<Code>
    ensures { result ≡ code_of_word number }
{
    match number {
        0o1107 => Some(Code::C1107),
        0o1201 => Some(Code::C1201),
        0o1202 => Some(Code::C1202),
        0o1203 => Some(Code::C1203),
        _ => None,
    }
}
