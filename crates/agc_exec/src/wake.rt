// Waking a sleeper.
ghost use Rattle.std.specs.Prelude.{◌≡◌, ◌<◌, true, false, Some, None};
ghost use Rattle.agc_word.specs.Layout.{sets_in, Keeps};
ghost use Rattle.agc_exec.specs.Frames.{OutsideSets};
ghost use Rattle.agc_plan.specs.Jobs as plain;
ghost use Rattle.agc_plan.specs.declared.reply.Reply.TheVariants.{Roused};
ghost use Rattle.agc_plan.specs.Places.{fronted};
ghost use Rattle.agc_exec.specs.Blocks.{blocks_of};
ghost use Rattle.agc_exec.specs.Calls.{blocks_roused, DoesWake};
ghost use Rattle.agc_exec.specs.Image.{sets_of, Each, IsLawfulBlock, IsLawfulWords};
ghost use Rattle.agc_exec.specs.Sets.{entries_of, running_in};
ghost use Rattle.agc_exec.specs.Stages.{jobs_of};
ghost use Rattle.agc_exec.specs.Stages.{FrontRuns, IsFirstAt, IsLed, IsNewcomer, Gives};

use crate::core_set::{PRIORITY, set_word, word_of};
use crate::newjob::note_newcomer;
use crate::search::{first_sleeper, number_in_set, set_of_rank, somebody_runs, take_over};
use agc_plan::{Address, JobNo, Reply};
use agc_word::{Erasable, Word};

/// Wakes the sleeper of a set: the words of the sets alone.
fn wake_set(e: &mut Erasable, k: usize, at: Address, ran: bool) -> JobNo
    requires lawful { IsLawfulWords e.old }
    requires place { k < sets_in e.old }
    requires is { IsFirstAt (sets_of e.old) at k }
    requires runs { ran ≡ true → FrontRuns (sets_of e.old) }
    requires idle { ran ≡ false → running_in (sets_of e.old) ≡ None }
    ensures gives { Gives (plain.rouse at (jobs_of (sets_of e.old)))
        (fronted (running_in (sets_of e.new)) (entries_of (sets_of e.old))) (sets_of e.new)
        (Roused result) }
    ensures words { blocks_of e.new ≡ blocks_roused (Some result) (running_in (sets_of e.new))
        (entries_of (sets_of e.old)) (blocks_of e.old) }
    ensures coded { Each IsLawfulBlock (blocks_of e.new) }
    ensures newcomer { ran ≡ true → IsNewcomer e.new k }
    ensures led { ran ≡ false → IsLed (sets_of e.new) }
    ensures others { Keeps OutsideSets e.old e.new }
{
    let number = number_in_set(e, k);
    let priority = Word::of_bits(word_of(e, k, PRIORITY));
    set_word(e, k, PRIORITY, priority.neg());
    take_over(e, k, ran);
    number
}

/// JOBWAKE: awakens the job with the lowest number that sleeps at this address; it runs at once if
/// no job was running. Returns `Roused` with its number. If no job sleeps there, returns
/// `NoSleeper` and changes nothing. Source: the listings' EXECUTIVE section; lowest number, and
/// that it runs at once if no job was running: profile.
// In line in its caller no reply is handed on, which saves a tenth of a rouse of nobody.
#[inline(always)]
pub fn job_wake(e: &mut Erasable, at: Address) -> Reply
    requires { IsLawfulWords e.old }
    ensures { DoesWake at e.old e.new result }
{
    let first = first_sleeper(e, at);
    if first == 0 {
        return Reply::NoSleeper;
    }
    let k = set_of_rank(first);
    let ran = somebody_runs(e);
    let number = wake_set(e, k, at, ran);
    note_newcomer(e, k, ran);
    Reply::Roused(number)
}
