// The beginning of an era, and power coming back.
ghost use Rattle.std.specs.Prelude.{◌≡◌, ℕ, []};
ghost use Rattle.std.specs.Option.{is_some};
ghost use Rattle.libagc.specs.Codes.{Coded, code_for, code_unless, first_of};
ghost use Rattle.agc_image.specs.Images.{AreWords, Changed, IsImage, IsSets};
ghost use Rattle.libagc.specs.Plans.{lacking};
ghost use Rattle.libagc.specs.declared.fault.Fault.TheVariants.{OutOfRange};
ghost use Rattle.agc_phase.specs.Image.{Becomes, IsLawfulTable, base_of, code_of_word};
ghost use Rattle.agc_word.specs.Profiles.{count_of};
ghost use Rattle.libagc.specs.Stepping.{Begins, PowersUp, PowerCoded, alarm_lack, base_after};
ghost use Rattle.libagc.specs.Stepping.{power_number};

use crate::fault::{Fault, image_in};
use crate::lacking::plan_lacks;
use crate::numbers;
use crate::numbers::alarm_code;
use crate::plans::{AgcPhaseEntry, AgcPlan};
use crate::reply::AgcNumber;
use agc_image::{twelve, write_back};
use agc_machine::begin;
use agc_phase::{record_alarm, recover_into};
use agc_word::{Erasable, Sets, Word};

fn alarm_lack(alarm: u32) -> u32
    ensures { result ≡ alarm_lack alarm }
{
    if alarm == 0 || alarm_code(alarm).is_some() {
        0
    } else {
        Fault::OutOfRange.code()
    }
}

fn note(alarm: u32, e: &mut Erasable)
    requires { IsLawfulTable e.old }
    ensures { Becomes (base_after alarm (base_of e.old)) e.old e.new }
{
    match alarm_code(alarm) {
        Some(code) => record_alarm(e, code),
        None => {}
    }
}

/// An era begins, as after an alarm: its code, 01107, 01201, 01202 or 01203, is recorded, or none
/// if it is 0. All jobs and tasks are gone, and then for groups 1 to 6 in order the entry of the
/// group's phase begins, its job and then its task. Returns the code: 1 to 3 for the image, 4 for
/// the alarm, 9, 11 or 12 for the entries. Source: the listings' FRESH START AND RESTART section.
#[unsafe(no_mangle)]
pub extern "C" fn agc_begin(
    words: &mut [u16; 144],
    sets: u32,
    alarm: u32,
    entries: &[AgcPhaseEntry],
) -> u32
    ensures code { Coded result sets words.old
        (first_of (alarm_lack alarm) (code_for (lacking [] entries.now))) }
    ensures served { result ≡ 0 → Changed (Begins entries.now alarm) sets words.old words.new }
    ensures with_fault { ¬ (result ≡ 0) → words.new ≡ words.old }
{
    match image_in(words, sets) {
        Err(fault) => fault.code(),
        Ok(mut image) => {
            let lack = alarm_lack(alarm);
            if lack != 0 {
                return lack;
            }
            match plan_lacks(&[], entries) {
                Some(fault) => fault.code(),
                None => {
                    note(alarm, &mut image);
                    begin(&AgcPlan { rows: &[], entries }, &mut image);
                    write_back(&image, words);
                    0
                }
            }
        }
    }
}

/// Adds an alarm's code to FAILREG: 01107, 01201, 01202 or 01203. Answers the code of the call, 4
/// if it is none of these.
#[unsafe(no_mangle)]
pub extern "C" fn agc_record_alarm(words: &mut [u16; 144], sets: u32, alarm: u32) -> u32
    ensures code { Coded result sets words.old
        (code_unless (is_some (code_of_word alarm)) OutOfRange) }
    ensures served { result ≡ 0 → Changed
        (λ old new. Becomes (base_after alarm (base_of old)) old new) sets words.old words.new }
    ensures with_fault { ¬ (result ≡ 0) → words.new ≡ words.old }
{
    match image_in(words, sets) {
        Err(fault) => fault.code(),
        Ok(mut image) => {
            if alarm_code(alarm).is_none() {
                return Fault::OutOfRange.code();
            }
            note(alarm, &mut image);
            write_back(&image, words);
            0
        }
    }
}

fn power_number(recovered: bool) -> u32
    ensures { result ≡ power_number recovered }
{
    if recovered { 0 } else { 0o1107 }
}

/// Brings power back with these phase words.
fn rise(
    words: &mut [u16; 144],
    count: Sets,
    entries: &[AgcPhaseEntry],
    phase_words: &[Word; 12],
) -> AgcNumber
    ensures served { (sets : ℕ) → IsSets sets → count_of count ≡ sets
        → PowersUp sets entries.now phase_words.now words.old words.new result.number }
    ensures code { result.code ≡ 0 }
{
    let mut image = Erasable::new(count);
    let recovered = recover_into(phase_words, &mut image);
    let plan = AgcPlan { rows: &[], entries };
    begin(&plan, &mut image);
    write_back(&image, words);
    AgcNumber::of(power_number(recovered))
}

/// Power comes back with these phase words, -PHASE1, PHASE1 to -PHASE6, PHASE6, whatever was in the
/// array. An era begins with their phases and no codes, and the number returned is 0. If they don't
/// agree, it is a fresh start with code 01107, and the number returned is 01107. Codes: 1 for the
/// number of core sets, 2 if a phase word is not a word, 9, 11 or 12 for the entries. Source: the
/// listings' FRESH START AND RESTART section; the codes are profile.
#[unsafe(no_mangle)]
pub extern "C" fn agc_power_up(
    words: &mut [u16; 144],
    sets: u32,
    entries: &[AgcPhaseEntry],
    phase_words: &[u16; 12],
) -> AgcNumber
    ensures code { PowerCoded result.code sets phase_words.now
        (code_for (lacking [] entries.now)) }
    ensures served { result.code ≡ 0
        → PowersUp sets entries.now phase_words.now words.old words.new result.number }
    ensures with_fault { ¬ (result.code ≡ 0) → (words.new ≡ words.old) × (result.number ≡ 0) }
{
    match numbers::sets(sets) {
        None => AgcNumber::with_fault(Fault::NoSuchSets),
        Some(count) => match twelve(phase_words) {
            None => AgcNumber::with_fault(Fault::NotWords),
            Some(found) => match plan_lacks(&[], entries) {
                Some(fault) => AgcNumber::with_fault(fault),
                None => rise(words, count, entries, &found),
            },
        },
    }
}
