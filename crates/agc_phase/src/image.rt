// How phases and codes are spelled as words.
ghost use Rattle.std.specs.Prelude.{◌≡◌, ◌+◌, ◌<◌, ◌↔◌, IsSome, IsTrue, IfSome, length};
ghost use Rattle.agc_phase.specs.Image.{ArePairs, phases_in, code_word, code_of_word};
ghost use Rattle.agc_phase.specs.Writing.{IsPair};
ghost use Rattle.agc_phase.specs.Image.{AreFirstSecondLatest, phase_words};
ghost use Rattle.agc_phase.specs.Image.{IsCodeWord};
ghost use Rattle.agc_phase.specs.Writing.{IsLawfulFailreg, WritesPair, PairsWritten, CodesWritten};

use crate::bases::Phases;
use agc_plan::{Code, Phase};
use agc_word::layout::{FAILREG, PHASE_WORDS};
use agc_word::{Erasable, Word};

/// Phase 0.
pub(crate) fn inactive() -> Phase
    ensures { result ≡ 0 }
{
    match Phase::new(0) {
        Some(phase) => phase,
        None => unreachable!(),
    }
}

/// The word of a code: its digits in octal, or 00000 for none.
pub fn code_word(code: Option<Code>) -> Word
    ensures { result ≡ code_word code }
{
    match code {
        None => Word::zero(),
        Some(Code::C1107) => Word::of_bits(0o1107),
        Some(Code::C1201) => Word::of_bits(0o1201),
        Some(Code::C1202) => Word::of_bits(0o1202),
        Some(Code::C1203) => Word::of_bits(0o1203),
    }
}

/// The code that a word is read as: none, where it is no code's word.
pub(crate) fn code_of_word(word: Word) -> Option<Code>
    ensures { result ≡ code_of_word word }
{
    match word.bits() {
        0o1107 => Some(Code::C1107),
        0o1201 => Some(Code::C1201),
        0o1202 => Some(Code::C1202),
        0o1203 => Some(Code::C1203),
        _ => None,
    }
}

/// Whether this is 00000 or a code's word.
fn is_code_word(word: Word) -> bool
    ensures { IsTrue result ↔ IsCodeWord word }
{
    word == code_word(code_of_word(word))
}

/// Whether FAILREG may hold these: none at all, one that is both first and latest, or two and a
/// latest.
fn are_first_second_latest(first: Option<Code>, second: Option<Code>, latest: Option<Code>) -> bool
    ensures { IsTrue result ↔ AreFirstSecondLatest first second latest }
{
    match first {
        None => second.is_none() && latest.is_none(),
        Some(code) => match second {
            None => latest == Some(code),
            Some(_) => latest.is_some(),
        },
    }
}

/// Whether these are words of FAILREG.
pub(crate) fn is_failreg(first: Word, second: Word, latest: Word) -> bool
    ensures { IsTrue result ↔ IsLawfulFailreg first second latest }
{
    is_code_word(first)
        && is_code_word(second)
        && is_code_word(latest)
        && are_first_second_latest(
            code_of_word(first),
            code_of_word(second),
            code_of_word(latest),
        )
}

/// The phase of a pair. None where the words aren't complements of each other, or the phase is
/// above 127.
fn phase_of(minus: Word, phase: Word) -> Option<Phase>
    ensures valid { IsSome result ↔ IsPair minus phase }
    ensures value { IfSome result (λ value. value ≡ phase) }
{
    if minus != phase.neg() {
        return None;
    }
    match u8::try_from(phase.bits()) {
        Ok(value) => Phase::new(value),
        Err(_) => None,
    }
}

/// The phases in the twelve phase words -PHASE1, PHASE1 to -PHASE6, PHASE6, as power-up finds them.
/// None exactly if the words of a pair aren't complements of each other, or a phase is above 127.
/// Source: the listings' FRESH START AND RESTART section; the greatest phase is profile.
pub fn recover(words: &[Word; 12]) -> Option<Phases>
    ensures valid { IsSome result ↔ ArePairs words.now }
    ensures phases { IfSome result (λ phases. phases ≡ phases_in words.now) }
{
    let mut phases = [inactive(); 6];
    for group in 0..6usize {
        phases[group] = phase_of(words[2 * group], words[2 * group + 1])?;
    }
    Some(phases)
}

/// The twelve phase words.
pub(crate) fn phase_words(e: &Erasable) -> [Word; 12]
    ensures { result ≡ phase_words e.now }
{
    let mut words = [Word::zero(); 12];
    for k in 0..12usize {
        words[k] = e.get(PHASE_WORDS + k);
    }
    words
}

/// Writes the pair of a group, counted from 0.
pub(crate) fn write_pair(e: &mut Erasable, group: usize, phase: Phase)
    requires { group < 6 }
    ensures { WritesPair group phase e.old e.new }
{
    let word = Word::of_bits(u16::from(phase.get()));
    let place = PHASE_WORDS + 2 * group;
    e.set(place, word.neg());
    e.set(place + 1, word);
}

/// Writes the six pairs.
pub(crate) fn write_pairs(e: &mut Erasable, phases: &Phases)
    ensures { PairsWritten phases.now e.old 6 e.new }
{
    for k in 0..6usize {
        write_pair(e, k, phases[k]);
    }
}

/// Writes FAILREG.
pub(crate) fn write_codes(e: &mut Erasable, codes: &[Option<Code>; 3])
    ensures { CodesWritten codes.now e.old 3 e.new }
{
    for k in 0..3usize {
        e.set(FAILREG + k, code_word(codes[k]));
    }
}
