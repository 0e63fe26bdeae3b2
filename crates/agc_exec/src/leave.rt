// The running job leaves: it ends, or sleeps.
ghost use Rattle.std.specs.Prelude.{◌≡◌, slice_set};
ghost use Rattle.agc_word.specs.Layout.{Keeps};
ghost use Rattle.agc_exec.specs.Frames.{OutsideSets};
ghost use Rattle.agc_plan.specs.Jobs as plain;
ghost use Rattle.agc_plan.specs.Jobs.{best};
ghost use Rattle.agc_plan.specs.declared.reply.Reply.TheVariants.{Left};
ghost use Rattle.agc_plan.specs.Places.{placed_end, fronted};
ghost use Rattle.agc_exec.specs.Blocks.{blocks_of};
ghost use Rattle.agc_exec.specs.Calls.{blocks_end, fronted_blocks, slept_block, front_block};
ghost use Rattle.agc_exec.specs.Calls.{DoesEnd, DoesSleep};
ghost use Rattle.agc_exec.specs.Image.{sets_of, IsSet, Each, IsLawfulBlock, IsLawfulWords};
ghost use Rattle.agc_exec.specs.Sets.{slots_of, entries_of, running_in};
ghost use Rattle.agc_exec.specs.Stages.{jobs_of};
ghost use Rattle.agc_exec.specs.Stages.{FrontRuns, Gives};

use crate::area::{front_area, release_area};
use crate::core_set::{LOC, MINUS_ZERO, PRIORITY, set_word, word_of};
use crate::newjob::note_best_runs;
use crate::search::{bring_best, runner, somebody_runs};
use agc_plan::{Address, JobNo, Reply};
use agc_word::{Erasable, Word};

/// Ends the job in set 0, which runs: the words of the sets alone.
fn end_front(e: &mut Erasable) -> Option<JobNo>
    requires set { IsSet e.old }
    requires runs { FrontRuns (sets_of e.old) }
    ensures gives { Gives (plain.end_of_job (jobs_of (sets_of e.old)))
        (placed_end (running_in (sets_of e.old)) (running_in (sets_of e.new))
        (entries_of (sets_of e.old))) (sets_of e.new) (Left result) }
    ensures words { blocks_of e.new ≡ blocks_end (running_in (sets_of e.old))
        (running_in (sets_of e.new)) (entries_of (sets_of e.old)) (blocks_of e.old) }
    ensures coded { Each IsLawfulBlock (blocks_of e.new) }
    ensures first { running_in (sets_of e.new) ≡ best (slots_of (sets_of e.new)) }
    ensures others { Keeps OutsideSets e.old e.new }
{
    set_word(e, 0, PRIORITY, Word::of_bits(MINUS_ZERO));
    bring_best(e);
    runner(e)
}

/// End of job: frees the running job's set and area; the best job takes set 0. Returns `Left` with
/// the job that runs next. If no job was running, returns `NoJob` and changes nothing. Source: the
/// listings' EXECUTIVE section; among equal priorities the lowest number: profile.
pub fn end_of_job(e: &mut Erasable) -> Reply
    requires { IsLawfulWords e.old }
    ensures { DoesEnd e.old e.new result }
{
    if !somebody_runs(e) {
        return Reply::NoJob;
    }
    let area = front_area(e);
    let number = end_front(e);
    release_area(e, area);
    note_best_runs(e);
    Reply::Left(number)
}

/// Puts the job in set 0 to sleep: the words of the sets alone.
fn sleep_front(e: &mut Erasable, at: Address) -> Option<JobNo>
    requires set { IsSet e.old }
    requires runs { FrontRuns (sets_of e.old) }
    ensures gives { Gives (plain.sleep at (jobs_of (sets_of e.old)))
        (fronted (running_in (sets_of e.new)) (entries_of (sets_of e.old))) (sets_of e.new)
        (Left result) }
    ensures words { blocks_of e.new ≡ fronted_blocks (running_in (sets_of e.new))
        (entries_of (sets_of e.old)) (slice_set (blocks_of e.old) 0
        (slept_block at (front_block (blocks_of e.old)))) }
    ensures coded { Each IsLawfulBlock (blocks_of e.new) }
    ensures first { running_in (sets_of e.new) ≡ best (slots_of (sets_of e.new)) }
    ensures others { Keeps OutsideSets e.old e.new }
{
    let priority = Word::of_bits(word_of(e, 0, PRIORITY));
    set_word(e, 0, PRIORITY, priority.neg());
    set_word(e, 0, LOC, Word::of_bits(at.get()));
    bring_best(e);
    runner(e)
}

/// JOBSLEEP: the running job sleeps until this address is called; the best job takes set 0. Returns
/// `Left` with the job that runs next. If no job was running, returns `NoJob` and changes nothing.
/// Source: the listings' EXECUTIVE section; among equal priorities the lowest number: profile.
pub fn job_sleep(e: &mut Erasable, at: Address) -> Reply
    requires { IsLawfulWords e.old }
    ensures { DoesSleep at e.old e.new result }
{
    if !somebody_runs(e) {
        return Reply::NoJob;
    }
    let number = sleep_front(e, at);
    note_best_runs(e);
    Reply::Left(number)
}
