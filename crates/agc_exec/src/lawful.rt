// Whether words are lawful, for those that come from outside.
ghost use Rattle.std.specs.Prelude.{◌≡◌, ◌+◌, ◌<◌, ◌≤◌, ◌↔◌, true, false, IsTrue, length};
ghost use Rattle.std.specs.Prelude.{if◌then◌else◌, replicate, slice_index_or, slice_set};
ghost use Rattle.agc_word.specs.Layout.{IsSized, sets_in, address_of};
ghost use Rattle.agc_exec.specs.Image.{sets_of, IsSet, IsLawfulWords};
ghost use Rattle.agc_exec.specs.Stages.{UsesAgree};
ghost use Rattle.agc_exec.specs.Sets.{slots_of, IsFronted};
ghost use Rattle.agc_exec.specs.Stages.{unsigned, AreSound, IsSoundAt, AreSoundSets, area_at};
ghost use Rattle.agc_exec.specs.Stages.{IsApart, AllApart, AreJudged, AreMarked, NobodyAwake};
ghost use Rattle.agc_exec.specs.Stages.{owned_in};

use crate::core_set::{LOC, MINUS_ZERO, PRIORITY, PRIORITY_UNIT, SIGN, word_of};
use crate::newjob::newjob;
use crate::search::somebody_runs;
use agc_word::Erasable;
use agc_word::layout::{NEWJOB, address_of, area_of, use_place};

/// PRIORITY with its sign taken off.
fn unsigned(word: u16) -> u16
    requires { word < 32768 }
    ensures { result ≡ unsigned word }
{
    if word < SIGN { word } else { MINUS_ZERO - word }
}

/// Whether a number, LOC and PRIORITY with its sign taken off are a job's, with so many core sets.
fn are_sound(sets: u16, number: u16, at: u16, urgency: u16) -> bool
    ensures yes { result ≡ true → AreSound sets number at urgency }
    ensures no { AreSound sets number at urgency → result ≡ true }
{
    if number < 1 {
        return false;
    }
    if number > sets {
        return false;
    }
    if at < 1 {
        return false;
    }
    if at > 16383 {
        return false;
    }
    if urgency < PRIORITY_UNIT {
        return false;
    }
    let address = urgency % PRIORITY_UNIT;
    let area = area_of(address);
    if area > 5 {
        return false;
    }
    address == address_of(area)
}

/// Sets the mark of a number. Whether it wasn't set, or the number is 0, which any may have.
fn take(marks: &mut [bool; 9], number: u16) -> bool
    requires nine { length marks.old ≡ 9 }
    requires within { number < 9 }
    ensures free { (result ≡ true) ↔ (0 < number → slice_index_or marks.old number false ≡ false) }
    ensures marks { marks.new ≡ slice_set marks.old number true }
{
    let taken = marks[number as usize];
    marks[number as usize] = true;
    number == 0 || !taken
}

/// Whether a set is free, or its words are a job's and its number and area aren't marked; marks
/// them.
fn is_judged(e: &Erasable, k: usize, numbers: &mut [bool; 9], areas: &mut [bool; 9]) -> bool
    requires set { k < sets_in e.now }
    requires sized { IsSized e.now }
    requires judged { AreJudged e.now k numbers.old areas.old }
    ensures yes { result ≡ true → AreJudged e.now (k + 1) numbers.new areas.new }
    ensures no { IsSoundAt e.now k → IsApart (sets_of e.now) k → result ≡ true }
{
    let priority = word_of(e, k, PRIORITY);
    if priority == MINUS_ZERO {
        return true;
    }
    let number = word_of(e, k, 0);
    let urgency = unsigned(priority);
    if !are_sound(e.sets().count() as u16, number, word_of(e, k, LOC), urgency) {
        return false;
    }
    let area = area_of(urgency % PRIORITY_UNIT);
    if !take(numbers, number) {
        return false;
    }
    take(areas, area)
}

/// Whether each set is free, or its words are a job's, and no two share a number or an area; marks
/// the areas that are owned.
fn are_judged(e: &Erasable, areas: &mut [bool; 9]) -> bool
    requires sized { IsSized e.now }
    requires blank { areas.old ≡ replicate 9 false }
    ensures sound { result ≡ true → AreSoundSets e.now }
    ensures apart { result ≡ true → AllApart (sets_of e.now) }
    ensures areas { result ≡ true → AreMarked (area_at (sets_of e.now)) (sets_in e.now) areas.new }
    ensures no { AreSoundSets e.now → AllApart (sets_of e.now) → result ≡ true }
{
    let mut numbers = [false; 9];
    for k in 0..e.sets().count() {
        if !is_judged(e, k, &mut numbers, areas) {
            return false;
        }
    }
    true
}

/// Whether no job is awake.
fn nobody_awake(e: &Erasable) -> bool
    requires { IsSized e.now }
    ensures yes { result ≡ true → NobodyAwake e.now }
    ensures no { NobodyAwake e.now → result ≡ true }
{
    for k in 0..e.sets().count() {
        if word_of(e, k, PRIORITY) < SIGN {
            return false;
        }
    }
    true
}

/// Whether the job in set 0 is awake, where anybody is.
fn is_fronted(e: &Erasable) -> bool
    requires { IsSized e.now }
    ensures yes { result ≡ true → IsFronted (sets_of e.now) }
    ensures no { IsSet e.now → result ≡ true }
{
    if somebody_runs(e) {
        return true;
    }
    nobody_awake(e)
}

/// Whether the core sets are lawful; marks the areas that are owned.
fn has_lawful_sets(e: &Erasable, areas: &mut [bool; 9]) -> bool
    requires sized { IsSized e.now }
    requires blank { areas.old ≡ replicate 9 false }
    ensures yes { result ≡ true → IsSet e.now }
    ensures areas { result ≡ true → AreMarked (area_at (sets_of e.now)) (sets_in e.now) areas.new }
    ensures no { IsSet e.now → result ≡ true }
{
    if !are_judged(e, areas) {
        return false;
    }
    is_fronted(e)
}

/// The use word that an area is to have.
fn use_word(e: &Erasable, areas: &[bool; 9], area: u16) -> u16
    requires sized { IsSized e.now }
    requires marked { AreMarked (area_at (sets_of e.now)) (sets_in e.now) areas.now }
    requires range { (1 ≤ area) × (area ≤ 5) }
    ensures { result ≡ (if owned_in area (sets_of e.now) then 0 else address_of area) }
{
    if areas[area as usize] {
        0
    } else {
        address_of(area)
    }
}

/// Whether each use word says whether its area is owned, where these are marked.
fn uses_agree(e: &Erasable, areas: &[bool; 9]) -> bool
    requires set { IsSet e.now }
    requires marked { AreMarked (area_at (sets_of e.now)) (sets_in e.now) areas.now }
    ensures yes { result ≡ true → UsesAgree e.now (slots_of (sets_of e.now)) }
    ensures no { UsesAgree e.now (slots_of (sets_of e.now)) → result ≡ true }
{
    for area in 1..6u16 {
        if e.get(use_place(area as usize)).bits() != use_word(e, areas, area) {
            return false;
        }
    }
    true
}

/// Whether core sets, use words and NEWJOB are lawful: PRIORITY of each set is 77777 (free), or 512
/// times a priority from 1 to 31 plus an area's address or 0 (awake), or the complement of such a
/// word (asleep); a job's number is from 1 to the number of sets, and its LOC 1 to 16383; no two
/// jobs share a number or an area; if any job is awake, the job in set 0 is; a use word is its
/// area's address if no job owns the area, and 00000 otherwise; NEWJOB is 77777 if no job is awake,
/// 12 times the best job's set if that job is strictly more urgent than the one in set 0, and 00000
/// otherwise. Test an image from outside with this before any other call.
pub fn is_lawful(e: &Erasable) -> bool
    ensures { IsTrue result ↔ IsLawfulWords e.now }
{
    let _all = e.sets();
    let mut areas = [false; 9];
    if !has_lawful_sets(e, &mut areas) {
        return false;
    }
    if !uses_agree(e, &areas) {
        return false;
    }
    e.get(NEWJOB).bits() == newjob(e)
}
