// Searches in the core sets.
ghost use Rattle.std.specs.Prelude.{◌≡◌, ◌+◌, ◌<◌, ◌≤◌, ◌%◌, nat_lt, if◌then◌else◌, true, false};
ghost use Rattle.std.specs.Prelude.{IsSome, Some, None, length, option_map, slice_index_or};
ghost use Rattle.std.specs.Prelude.{◌==◌, ◌&&◌, replicate};
ghost use Rattle.agc_word.specs.Layout.{IsSized, sets_in, Keeps};
ghost use Rattle.agc_exec.specs.Frames.{OutsideSets};
ghost use Rattle.agc_plan.specs.Jobs.{least_unused, best};
ghost use Rattle.agc_plan.specs.Places.{place_of};
ghost use Rattle.agc_exec.specs.Blocks.{blocks_of};
ghost use Rattle.agc_exec.specs.Calls.{fronted_blocks};
ghost use Rattle.agc_exec.specs.Image.{sets_of, IsSet};
ghost use Rattle.agc_exec.specs.Sets.{slots_of, entries_of, running_in, IsLawful};
ghost use Rattle.agc_exec.specs.Stages.{FrontRuns, IsHeldAt, sleeper_rank, IsBestRank};
ghost use Rattle.agc_exec.specs.Stages.{IsSleeperRank, IsMarked, IsFirstFree, IsFreeAt, IsBestAt};
ghost use Rattle.agc_exec.specs.Stages.{BringsBest};

use crate::core_set::{
    COMMON_SETS, LOC, MINUS_ZERO, PRIORITY, PRIORITY_UNIT, SIGN, entry, exchange, word_of,
};
use agc_plan::{Address, JobNo};
use agc_word::{Erasable, Sets};

/// By how much a rank grows with a priority, or with a lower number; what is left is the set.
pub const RANK_UNIT: u16 = 8;

/// No core set: one more than there may be.
const NO_SET: usize = 8;

/// The job's number that a word is.
fn job_no(number: u16) -> JobNo
    requires { (1 ≤ number) × (number ≤ 8) }
    ensures { result ≡ number }
{
    match JobNo::new(number as u8) {
        Some(number) => number,
        None => unreachable!(),
    }
}

/// The number of the job in a set.
pub fn number_in_set(e: &Erasable, k: usize) -> JobNo
    requires set { IsSet e.now }
    requires place { k < sets_in e.now }
    requires held { IsHeldAt (sets_of e.now) k }
    ensures { Some result ≡ option_map (λ r. r.number) (slice_index_or (sets_of e.now) k None) }
{
    job_no(word_of(e, k, 0))
}

/// Whether the job in set 0 runs.
pub fn somebody_runs(e: &Erasable) -> bool
    requires { IsSized e.now }
    ensures runs { result ≡ true → FrontRuns (sets_of e.now) }
    ensures idle { result ≡ false → running_in (sets_of e.now) ≡ None }
{
    word_of(e, 0, PRIORITY) < SIGN
}

/// The number of the job in set 0, if it is awake.
pub fn runner(e: &Erasable) -> Option<JobNo>
    requires { IsSet e.now }
    ensures { result ≡ running_in (sets_of e.now) }
{
    if somebody_runs(e) {
        Some(number_in_set(e, 0))
    } else {
        None
    }
}

fn greater(a: u16, b: u16) -> u16
    ensures { result ≡ (if nat_lt a b then b else a) }
{
    if a < b { b } else { a }
}

/// The set of a rank.
pub fn set_of_rank(rank: u16) -> usize
    ensures { result ≡ rank % 8 }
{
    (rank % RANK_UNIT) as usize
}

/// The rank of the best job after one more set: 0 where nobody is awake, else 8 times (its priority
/// + 1), plus its set.
fn better(e: &Erasable, most: u16, k: usize) -> u16
    requires set { k < sets_in e.now }
    requires sized { IsSized e.now }
    requires lawful { IsLawful (sets_of e.now) }
    requires before { IsBestRank (sets_of e.now) k most }
    ensures { IsBestRank (sets_of e.now) (k + 1) result }
{
    let urgency = word_of(e, k, PRIORITY);
    if urgency >= SIGN {
        return most;
    }
    let priority = urgency / PRIORITY_UNIT + 1;
    if priority < most / RANK_UNIT {
        return most;
    }
    if priority > most / RANK_UNIT {
        return RANK_UNIT * priority + k as u16;
    }
    if word_of(e, set_of_rank(most), 0) < word_of(e, k, 0) {
        return most;
    }
    RANK_UNIT * priority + k as u16
}

/// The rank of the best job, 0 where none is awake.
pub fn best_rank(e: &Erasable) -> u16
    requires sized { IsSized e.now }
    requires lawful { IsLawful (sets_of e.now) }
    ensures { IsBestRank (sets_of e.now) (length (sets_of e.now)) result }
{
    let mut best = 0;
    for k in 0..COMMON_SETS {
        best = better(e, best, k);
    }
    match e.sets() {
        Sets::Seven => best,
        Sets::Eight => better(e, best, COMMON_SETS),
    }
}

/// Exchanges the best job into set 0.
pub fn bring_best(e: &mut Erasable)
    requires sized { IsSized e.old }
    requires lawful { IsLawful (sets_of e.old) }
    ensures brings { BringsBest (sets_of e.old) (sets_of e.new) }
    ensures blocks { blocks_of e.new ≡ fronted_blocks (best (slots_of (sets_of e.old)))
        (entries_of (sets_of e.old)) (blocks_of e.old) }
    ensures others { Keeps OutsideSets e.old e.new }
{
    let best = best_rank(e);
    if best > 0 {
        exchange(e, set_of_rank(best));
    }
}

/// Taking over: where nobody ran, the job in set k, which is the only one awake, takes set 0.
pub fn take_over(e: &mut Erasable, k: usize, ran: bool)
    requires sized { IsSized e.old }
    requires set { k < sets_in e.old }
    requires lawful { IsLawful (sets_of e.old) }
    requires best { ran ≡ false → IsBestAt (sets_of e.old) k }
    ensures idle { ran ≡ false → BringsBest (sets_of e.old) (sets_of e.new) }
    ensures idle_blocks { ran ≡ false → blocks_of e.new
        ≡ fronted_blocks (best (slots_of (sets_of e.old))) (entries_of (sets_of e.old))
        (blocks_of e.old) }
    ensures busy { ran ≡ true → e.new ≡ e.old }
    ensures others { Keeps OutsideSets e.old e.new }
{
    if !ran {
        exchange(e, k);
    }
}

/// The rank of a set among the sleepers of an address: 0 unless it holds one.
fn sleepers_rank(e: &Erasable, at: Address, k: usize) -> u16
    requires set { k < sets_in e.now }
    requires sized { IsSized e.now }
    requires lawful { IsLawful (sets_of e.now) }
    ensures { result ≡ sleeper_rank at k (slice_index_or (sets_of e.now) k None) }
{
    if word_of(e, k, LOC) != at.get() {
        return 0;
    }
    let urgency = word_of(e, k, PRIORITY);
    if urgency < SIGN || urgency == MINUS_ZERO {
        return 0;
    }
    RANK_UNIT * (9 - word_of(e, k, 0)) + k as u16
}

/// The rank of the least-numbered sleeper of an address, 0 where nobody sleeps there.
pub fn first_sleeper(e: &Erasable, at: Address) -> u16
    requires sized { IsSized e.now }
    requires lawful { IsLawful (sets_of e.now) }
    ensures { IsSleeperRank (sets_of e.now) at (length (sets_of e.now)) result }
{
    let mut first = 0;
    for k in 0..COMMON_SETS {
        first = greater(first, sleepers_rank(e, at, k));
    }
    match e.sets() {
        Sets::Seven => first,
        Sets::Eight => greater(first, sleepers_rank(e, at, COMMON_SETS)),
    }
}

/// The earlier of the free set so far and set k, which is free where its entry is 0.
fn earlier(free: usize, k: usize, number: u16) -> usize
    ensures { result ≡ (if number == 0 && nat_lt k free then k else free) }
{
    if number == 0 && k < free { k } else { free }
}

/// Marks the numbers that jobs have, and answers the least free core set, 8 where none is free. The
/// first of the nine marks says nothing.
pub fn mark_used(e: &Erasable, used: &mut [bool; 9]) -> usize
    requires sized { IsSized e.now }
    requires lawful { IsLawful (sets_of e.now) }
    requires blank { used.old ≡ replicate 9 false }
    ensures used { IsMarked (sets_of e.now) (length (sets_of e.now)) used.new }
    ensures free { IsFirstFree (sets_of e.now) (length (sets_of e.now)) result }
{
    let mut free = NO_SET;
    for k in 0..COMMON_SETS {
        let number = entry(e, k);
        used[number as usize] = true;
        free = earlier(free, k, number);
    }
    match e.sets() {
        Sets::Seven => free,
        Sets::Eight => {
            let number = entry(e, COMMON_SETS);
            used[number as usize] = true;
            earlier(free, COMMON_SETS, number)
        }
    }
}

/// The least number that no job has, where these are marked.
pub fn free_number(e: &Erasable, used: &[bool; 9]) -> Option<JobNo>
    requires sized { IsSized e.now }
    requires lawful { IsLawful (sets_of e.now) }
    requires marked { IsMarked (sets_of e.now) (length (sets_of e.now)) used.now }
    ensures { result ≡ least_unused 1 (slots_of (sets_of e.now)) }
{
    for number in 1..e.sets().count() as u16 + 1 {
        if !used[number as usize] {
            return Some(job_no(number));
        }
    }
    None
}
