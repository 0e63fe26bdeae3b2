// The requests that read and change phases and FAILREG.
ghost use Rattle.std.specs.Prelude.{◌≡◌, ◌+◌, ◌<◌, ◌↔◌, IsTrue, map};
ghost use Rattle.agc_word.specs.Layout as layout;
ghost use Rattle.agc_plan.specs.Base.{fresh_base, with_phase, with_code};
ghost use Rattle.agc_phase.specs.Image.{base_of, code_word, failreg_words, IsLawfulTable, Becomes};
ghost use Rattle.agc_phase.specs.Image.{ArePairs, phase_in, phase_words, power_base};
ghost use Rattle.agc_phase.specs.Recording.{free_place};

use crate::bases::{Base, Phases};
use crate::image::{code_word, is_failreg, phase_words, recover, write_pair};
use agc_plan::{Code, Group, Phase};
use agc_word::layout::{FAILREG, PHASE_WORDS};
use agc_word::{Erasable, Word};

/// Whether the words of phases and FAILREG are lawful: the words of each pair are complements of
/// each other, no phase is above 127, and FAILREG has code words, in the order in which alarms
/// leave them. Words that come from outside are to be tested so, before another call than `clear`
/// or `Base::restore` is given them. Source: the listings' PHASE TABLE MAINTENANCE section; the
/// greatest phase, and FAILREG: profile.
pub fn is_lawful(e: &Erasable) -> bool
    ensures { IsTrue result ↔ IsLawfulTable e.now }
{
    let [first, second, latest] = failreg(e);
    recover(&phase_words(e)).is_some() && is_failreg(first, second, latest)
}

/// The phase of a group, counted from 0, of which the other word of its pair says the same.
fn phase_at(e: &Erasable, group: usize) -> Phase
    requires table { IsLawfulTable e.now }
    requires six { group < 6 }
    ensures { result ≡ phase_in (phase_words e.now) group }
{
    let word = e.get(PHASE_WORDS + 2 * group + 1);
    match Phase::new(word.bits() as u8) {
        Some(phase) => phase,
        None => unreachable!(),
    }
}

/// The phases of groups 1 to 6. Source: the listings' PHASE TABLE MAINTENANCE section.
pub fn phases(e: &Erasable) -> Phases
    requires { IsLawfulTable e.now }
    ensures { result ≡ (base_of e.now).phases }
{
    [
        phase_at(e, 0),
        phase_at(e, 1),
        phase_at(e, 2),
        phase_at(e, 3),
        phase_at(e, 4),
        phase_at(e, 5),
    ]
}

/// FAILREG: the words of the first, the second and the latest code, 00000 for none.
pub fn failreg(e: &Erasable) -> [Word; 3]
    ensures words { result ≡ failreg_words e.now }
    ensures codes { IsLawfulTable e.now → result ≡ map code_word (base_of e.now).codes }
{
    [e.get(FAILREG), e.get(FAILREG + 1), e.get(FAILREG + 2)]
}

/// Sets a group's phase, and no other's. Source: the listings' PHASE TABLE MAINTENANCE section.
pub fn set_phase(e: &mut Erasable, group: Group, phase: Phase)
    requires { IsLawfulTable e.old }
    ensures { Becomes (with_phase group phase (base_of e.old)) e.old e.new }
{
    write_pair(e, group.get() as usize - 1, phase);
}

/// The first free place of the first and the second code, else the latest's.
fn free_place(e: &Erasable) -> usize
    ensures { result ≡ free_place e.now }
{
    if e.get(FAILREG) == Word::zero() {
        FAILREG
    } else if e.get(FAILREG + 1) == Word::zero() {
        FAILREG + 1
    } else {
        FAILREG + 2
    }
}

/// Adds a code: as the first where there is none, else as the second where there is none, and
/// always as the latest.
pub fn record_alarm(e: &mut Erasable, code: Code)
    requires { IsLawfulTable e.old }
    ensures { Becomes (with_code code (base_of e.old)) e.old e.new }
{
    let word = code_word(Some(code));
    e.set(free_place(e), word);
    e.set(FAILREG + 2, word);
}

/// Makes all groups inactive and drops the codes, whatever stood there. Source: the listings' FRESH
/// START AND RESTART section; codes: profile.
pub fn clear(e: &mut Erasable)
    ensures { Becomes fresh_base e.old e.new }
{
    Base::fresh().restore(e);
}

/// Writes the phases and codes with which an era begins after power came back with these phase
/// words, -PHASE1, PHASE1 to -PHASE6, PHASE6: their phases and no codes, or six phases 0 and code
/// 01107 where not all of them agree. Returns whether they do. Source: the listings' FRESH START
/// AND RESTART section; the codes are profile.
pub fn recover_into(words: &[Word; 12], e: &mut Erasable) -> bool
    ensures recovered { IsTrue result ↔ ArePairs words.now }
    ensures base { Becomes (power_base result words.now) e.old e.new }
{
    match recover(words) {
        Some(phases) => {
            Base::with_phases(phases).restore(e);
            true
        }
        None => {
            clear(e);
            record_alarm(e, Code::C1107);
            false
        }
    }
}
