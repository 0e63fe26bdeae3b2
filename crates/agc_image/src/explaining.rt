// The first word of an array that breaks a rule, and the word that would be right. What a function
// finds that has a definition's name, `Rules.antt` says.
ghost use Rattle.std.specs.Prelude.{◌≡◌, ◌<◌, ◌≤◌, ℕ, IsTrue, Some};
ghost use Rattle.agc_image.specs.Rules.{IsFound, any_set, best_set, better, gap_of, holds_area};
ghost use Rattle.agc_image.specs.Rules.{holds_number, is_area, is_awake, is_better, is_code};
ghost use Rattle.agc_image.specs.Rules.{is_held, left_at, newjob_naming, priority_at, tasks_in};
ghost use Rattle.agc_image.specs.Rules.{first_left, urgency_at, use_word};

use crate::rule::Rule;
use agc_word::layout::{
    FAILREG, LST1, LST2, NEWJOB, OTHERS_SIZE, PHASE_WORDS, SET_SIZE, TIME3, address_of, set_place,
    use_place,
};

/// A rule of lawful words that a word breaks.
#[derive(Clone, Copy)]
pub struct BrokenRule {
    pub rule: Rule,
    /// The word's place in the array, from 0.
    pub place: usize,
    /// The number that would have to be there, if the other words leave only one choice; otherwise
    /// 65535.
    pub wanted: u16,
}

/// A broken rule at a place where several words would do.
fn at(rule: Rule, place: usize) -> Option<BrokenRule>
    ensures { result ≡ Some (record { rule = rule; place = place; wanted = 0xFFFF }) }
{
    right(rule, place, 0xFFFF)
}

/// A broken rule at a place where only this word is right.
fn right(rule: Rule, place: usize, wanted: u16) -> Option<BrokenRule>
    ensures { result ≡ Some (record { rule = rule; place = place; wanted = wanted }) }
{
    Some(BrokenRule {
        rule,
        place,
        wanted,
    })
}

/// The first of this many words that has more than fifteen bits.
fn wide(words: &[u16; 144], size: usize) -> Option<BrokenRule>
    requires { size ≤ 144 }
    ensures { (sets : ℕ) → IsFound words.now sets result }
{
    for place in 0..size {
        if words[place] >= 32768 {
            return at(Rule::FifteenBits, place);
        }
    }
    None
}

fn priority_at(words: &[u16; 144], set: usize) -> u16
    requires { set ≤ 7 }
    ensures { result ≡ priority_at words.now set }
{
    words[set_place(set) + 11]
}

fn is_held(words: &[u16; 144], set: usize) -> bool
    requires { set ≤ 7 }
    ensures { result ≡ is_held words.now set }
{
    priority_at(words, set) != 0o77777
}

fn is_awake(words: &[u16; 144], set: usize) -> bool
    requires { set ≤ 7 }
    ensures { result ≡ is_awake words.now set }
{
    priority_at(words, set) < 0o40000
}

fn urgency_at(words: &[u16; 144], set: usize) -> u16
    requires { set ≤ 7 }
    ensures { result ≡ urgency_at words.now set }
{
    let word = priority_at(words, set);
    if word < 0o40000 {
        word
    } else {
        0o77777u16.saturating_sub(word)
    }
}

#[tactic(auto, unfolding(crate::specs::Rules::any_set))]
fn has_number(words: &[u16; 144], sets: usize, number: u16) -> bool
    requires { sets ≤ 8 }
    ensures { result ≡ any_set (holds_number words.now number) sets }
{
    let mut found = false;
    for set in 0..sets {
        found = found || (is_held(words, set) && words[set_place(set)] == number);
    }
    found
}

#[tactic(auto, unfolding(crate::specs::Rules::any_set))]
fn has_area(words: &[u16; 144], sets: usize, address: u16) -> bool
    requires { sets ≤ 8 }
    ensures { result ≡ any_set (holds_area words.now address) sets }
{
    let mut found = false;
    for set in 0..sets {
        found = found || (is_held(words, set) && urgency_at(words, set) % 512 == address);
    }
    found
}

fn is_area(address: u16) -> bool
    ensures { result ≡ is_area address }
{
    address == 0
        || address == address_of(1)
        || address == address_of(2)
        || address == address_of(3)
        || address == address_of(4)
        || address == address_of(5)
}

/// The rule that PRIORITY of a job breaks.
fn in_priority(words: &[u16; 144], set: usize) -> Option<BrokenRule>
    requires set { set ≤ 7 }
    requires held { IsTrue (is_held words.now set) }
    ensures { (sets : ℕ) → IsFound words.now sets result }
{
    let place = set_place(set) + 11;
    let urgency = urgency_at(words, set);
    let address = urgency % 512;
    if urgency < 512 {
        at(Rule::JobPriority, place)
    } else if !is_area(address) {
        at(Rule::JobArea, place)
    } else if address != 0 && has_area(words, set, address) {
        at(Rule::JobAreaTwice, place)
    } else {
        None
    }
}

/// The rule that the words of the job in a core set break.
fn in_job(words: &[u16; 144], sets: usize, set: usize) -> Option<BrokenRule>
    requires { set ≤ 7 }
    ensures { IsFound words.now sets result }
{
    let place = set_place(set);
    let number = words[place];
    let address = words[place + 8];
    if !is_held(words, set) {
        None
    } else if number < 1 || number as usize > sets {
        at(Rule::JobNumber, place)
    } else if has_number(words, set, number) {
        at(Rule::JobNumberTwice, place)
    } else if address < 1 || address > 16383 {
        at(Rule::JobAddress, place + 8)
    } else {
        in_priority(words, set)
    }
}

/// The rule that the core sets break.
fn in_sets(words: &[u16; 144], sets: usize) -> Option<BrokenRule>
    requires { sets ≤ 8 }
    ensures { IsFound words.now sets result }
{
    for set in 0..sets {
        if let Some(broken) = in_job(words, sets, set) {
            return Some(broken);
        }
    }
    for set in 0..sets {
        if is_awake(words, set) && !is_awake(words, 0) {
            return at(Rule::AwakeInFront, 11);
        }
    }
    None
}

fn use_word(words: &[u16; 144], sets: usize, area: usize) -> u16
    requires sets { sets ≤ 8 }
    requires area { (1 ≤ area) × (area ≤ 5) }
    ensures { result ≡ use_word words.now sets area }
{
    let address = address_of(area as u16);
    if has_area(words, sets, address) {
        0
    } else {
        address
    }
}

/// The rule that the use words of the VAC areas break.
fn in_areas(words: &[u16; 144], sets: usize) -> Option<BrokenRule>
    requires { sets ≤ 8 }
    ensures { IsFound words.now sets result }
{
    for area in 1..6usize {
        let wanted = use_word(words, sets, area);
        if words[use_place(area)] != wanted {
            return right(Rule::UseWord, use_place(area), wanted);
        }
    }
    None
}

fn is_better(words: &[u16; 144], set: usize, best: usize) -> bool
    requires set { set ≤ 7 }
    requires best { best ≤ 7 }
    ensures { result ≡ is_better words.now set best }
{
    let this = priority_at(words, set) / 512;
    let that = priority_at(words, best) / 512;
    let is_first = words[set_place(set)] < words[set_place(best)];
    is_awake(words, set) && (!is_awake(words, best) || that < this || (that == this && is_first))
}

fn better(words: &[u16; 144], best: usize, set: usize) -> usize
    requires best { best ≤ 7 }
    requires set { set ≤ 7 }
    ensures choice { result ≡ better words.now best set }
    ensures range { result ≤ 7 }
{
    if is_better(words, set, best) {
        set
    } else {
        best
    }
}

#[tactic(auto, unfolding(crate::specs::Rules::best_set))]
fn best_set(words: &[u16; 144], sets: usize) -> usize
    requires { sets ≤ 8 }
    ensures set { result ≡ best_set words.now sets }
    ensures range { result ≤ 7 }
{
    let mut best = 0usize;
    for set in 0..sets {
        best = better(words, best, set);
    }
    best
}

fn newjob_naming(words: &[u16; 144], best: usize) -> u16
    requires { best ≤ 7 }
    ensures { result ≡ newjob_naming words.now best }
{
    if !is_awake(words, best) {
        0o77777
    } else if priority_at(words, best) / 512 > priority_at(words, 0) / 512 {
        (SET_SIZE * best) as u16
    } else {
        0
    }
}

/// The rule that NEWJOB breaks.
fn in_newjob(words: &[u16; 144], sets: usize) -> Option<BrokenRule>
    requires { sets ≤ 8 }
    ensures { IsFound words.now sets result }
{
    let wanted = newjob_naming(words, best_set(words, sets));
    if words[NEWJOB] != wanted {
        return right(Rule::NewjobNamesBest, NEWJOB, wanted);
    }
    None
}

#[tactic(auto, unfolding(crate::specs::Rules::tasks_before))]
fn tasks_in(words: &[u16; 144]) -> usize
    ensures count { result ≡ tasks_in words.now }
    ensures range { result ≤ 9 }
{
    let mut count = 0usize;
    for place in 0..9usize {
        count = if count == place && words[LST2 + 2 * place] != 0 {
            place + 1
        } else {
            count
        };
    }
    count
}

fn first_left(word: u16) -> u32
    ensures value { result ≡ first_left word }
    ensures bound { result ≤ 16384 }
{
    if word == 0 {
        0
    } else {
        16384u32.saturating_sub(u32::from(word))
    }
}

fn gap_of(word: u16) -> u32
    ensures value { result ≡ gap_of word }
    ensures bound { result ≤ 16384 }
{
    if word < 0o40000 {
        u32::from(1u16.saturating_sub(word))
    } else {
        0o100000u32.saturating_sub(u32::from(word))
    }
}

#[tactic(auto, unfolding(crate::specs::Rules::left_at))]
fn left_at(words: &[u16; 144], place: usize) -> u32
    requires { place < 9 }
    ensures { result ≡ left_at words.now place }
{
    let mut left = first_left(words[TIME3]);
    for k in 0..place {
        left += gap_of(words[LST1 + k]);
    }
    left
}

/// The rule that a task breaks, or the gap after it, of this many tasks.
fn in_task(words: &[u16; 144], place: usize, count: usize) -> Option<BrokenRule>
    requires place { place < count }
    requires count { count ≤ 9 }
    requires tasks { count ≡ tasks_in words.now }
    ensures { (sets : ℕ) → IsFound words.now sets result }
{
    let gap = words[LST1 + place];
    if left_at(words, place) > 16250 {
        at(Rule::TaskNear, TIME3 + place)
    } else if words[LST2 + 2 * place] > 16383 {
        at(Rule::TaskAddress, LST2 + 2 * place)
    } else if place + 1 < count && gap > 1 && gap < 0o40000 {
        at(Rule::Gap, LST1 + place)
    } else {
        None
    }
}

/// The rule that the waiting tasks break.
fn in_tasks(words: &[u16; 144], count: usize) -> Option<BrokenRule>
    requires range { count ≤ 9 }
    requires tasks { count ≡ tasks_in words.now }
    ensures { (sets : ℕ) → IsFound words.now sets result }
{
    let counter = words[TIME3];
    if count == 0 && counter != 0 {
        return right(Rule::Time3, TIME3, 0);
    }
    if counter > 16383 {
        return at(Rule::Time3, TIME3);
    }
    for place in 0..count {
        if let Some(broken) = in_task(words, place, count) {
            return Some(broken);
        }
    }
    None
}

/// The rule that LST1 and LST2 break after the last of this many tasks.
fn after_tasks(words: &[u16; 144], count: usize) -> Option<BrokenRule>
    requires range { count ≤ 9 }
    requires tasks { count ≡ tasks_in words.now }
    ensures { (sets : ℕ) → IsFound words.now sets result }
{
    for place in LST1 + count.saturating_sub(1)..LST2 {
        if words[place] != 0o57777 {
            return right(Rule::NoGapAfterLast, place, 0o57777);
        }
    }
    for place in LST2 + 2 * count..PHASE_WORDS {
        if words[place] != 0 {
            return right(Rule::NoTaskAfterLast, place, 0);
        }
    }
    None
}

/// The rule that the phases break.
fn in_phases(words: &[u16; 144]) -> Option<BrokenRule>
    ensures { (sets : ℕ) → IsFound words.now sets result }
{
    for group in 0..6usize {
        let place = PHASE_WORDS + 2 * group;
        let phase = words[place + 1];
        let minus = 0o77777u16.saturating_sub(phase);
        if phase > 127 {
            return at(Rule::PhaseRange, place + 1);
        }
        if words[place] != minus {
            return right(Rule::PhasePair, place, minus);
        }
    }
    None
}

fn is_code(word: u16) -> bool
    ensures { result ≡ is_code word }
{
    word == 0o1107 || word == 0o1201 || word == 0o1202 || word == 0o1203
}

/// The rule that FAILREG breaks.
fn in_failreg(words: &[u16; 144]) -> Option<BrokenRule>
    ensures { (sets : ℕ) → IsFound words.now sets result }
{
    let first = words[FAILREG];
    let second = words[FAILREG + 1];
    let latest = words[FAILREG + 2];
    if first != 0 && !is_code(first) {
        at(Rule::AlarmCodes, FAILREG)
    } else if first == 0 && second != 0 {
        right(Rule::AlarmCodes, FAILREG + 1, 0)
    } else if second != 0 && !is_code(second) {
        at(Rule::AlarmCodes, FAILREG + 1)
    } else if second == 0 && latest != first {
        right(Rule::AlarmCodes, FAILREG + 2, first)
    } else if second != 0 && !is_code(latest) {
        at(Rule::AlarmCodes, FAILREG + 2)
    } else {
        None
    }
}

/// The rule that tasks, phases or codes break.
fn in_others(words: &[u16; 144]) -> Option<BrokenRule>
    ensures { (sets : ℕ) → IsFound words.now sets result }
{
    let count = tasks_in(words);
    in_tasks(words, count)
        .or(after_tasks(words, count))
        .or(in_phases(words))
        .or(in_failreg(words))
}

/// The rule that TIME3 breaks where a task is due.
fn in_due(words: &[u16; 144]) -> Option<BrokenRule>
    ensures { (sets : ℕ) → IsFound words.now sets result }
{
    if words[TIME3] == 0 && tasks_in(words) > 0 {
        at(Rule::NoneDue, TIME3)
    } else {
        None
    }
}

/// The rule that MODE and PUSHLOC of jobs break, or gaps, as no step leaves them.
fn in_untidy(words: &[u16; 144], sets: usize) -> Option<BrokenRule>
    requires { sets ≤ 8 }
    ensures { IsFound words.now sets result }
{
    for set in 0..sets {
        let place = set_place(set);
        if is_held(words, set) && words[place + 7] != 0 {
            return right(Rule::JobTidy, place + 7, 0);
        }
        if is_held(words, set) && words[place + 10] != 0 {
            return right(Rule::JobTidy, place + 10, 0);
        }
    }
    for place in LST1..LST2 {
        if words[place] == 0o77777 {
            return right(Rule::GapTidy, place, 0);
        }
    }
    None
}

/// The first rule that the words of seven or eight core sets break: those of lawful words, then
/// those that each step keeps besides. None if they break none.
pub fn first_broken(words: &[u16; 144], sets: usize) -> Option<BrokenRule>
    requires { sets ≤ 8 }
    ensures { IsFound words.now sets result }
{
    wide(words, OTHERS_SIZE + SET_SIZE * sets)
        .or(in_sets(words, sets))
        .or(in_areas(words, sets))
        .or(in_newjob(words, sets))
        .or(in_others(words))
        .or(in_due(words))
        .or(in_untidy(words, sets))
}
