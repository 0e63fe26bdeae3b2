// The running job changes, or gives way.
ghost use Rattle.std.specs.Prelude.{◌≡◌};
ghost use Rattle.agc_exec.specs.Calls.{DoesChange, DoesPrio, DoesStore};
ghost use Rattle.agc_exec.specs.Image.{IsLawfulWords, runner_in};

use crate::core_set::{PRIORITY, PRIORITY_UNIT, exchange, set_word, word_of};
use crate::newjob::{bring_newjob_up_to_date, named_set};
use crate::search::{number_in_set, runner, somebody_runs};
use agc_plan::{JobNo, Place, Priority, Reply};
use agc_word::layout::NEWJOB;
use agc_word::{Erasable, Word};

/// The number of the running job, or None if no job is running. Source: the listings' EXECUTIVE
/// section; numbers: profile.
pub fn running(e: &Erasable) -> Option<JobNo>
    requires { IsLawfulWords e.now }
    ensures { result ≡ runner_in e.now }
{
    runner(e)
}

/// Change of job: if NEWJOB names a set, its job takes set 0. Returns `Runs` with the job that runs
/// next. If no job was running, returns `NoJob` and changes nothing. Source: the listings'
/// EXECUTIVE section; among equal priorities the lowest number: profile.
pub fn change_job(e: &mut Erasable) -> Reply
    requires { IsLawfulWords e.old }
    ensures { DoesChange e.old e.new result }
{
    if !somebody_runs(e) {
        return Reply::NoJob;
    }
    let k = named_set(e);
    let number = number_in_set(e, k);
    if k == 0 {
        return Reply::Runs(number);
    }
    exchange(e, k);
    e.set(NEWJOB, Word::zero());
    Reply::Runs(number)
}

/// PRIOCHNG: sets the running job's priority; if another awake job is then strictly more urgent,
/// the best job takes set 0. Returns `Runs` with the job that runs next. If no job was running,
/// returns `NoJob` and changes nothing. Source: the listings' EXECUTIVE section; that the change is
/// immediate, and among equal priorities the lowest number: profile.
pub fn prio_change(e: &mut Erasable, priority: Priority) -> Reply
    requires { IsLawfulWords e.old }
    ensures { DoesPrio priority e.old e.new result }
{
    if !somebody_runs(e) {
        return Reply::NoJob;
    }
    let area = word_of(e, 0, PRIORITY) % PRIORITY_UNIT;
    let urgency = Word::of_bits(PRIORITY_UNIT * priority.get() as u16 + area);
    set_word(e, 0, PRIORITY, urgency);
    bring_newjob_up_to_date(e);
    change_job(e)
}

/// Sets a work word of the running job, MPAC+1 to MPAC+6. Returns `Stored`. If no job is running,
/// returns `NoJob` and changes nothing.
pub fn store(e: &mut Erasable, place: Place, word: Word) -> Reply
    requires { IsLawfulWords e.old }
    ensures { DoesStore place word e.old e.new result }
{
    if !somebody_runs(e) {
        return Reply::NoJob;
    }
    set_word(e, 0, place.get() as usize, word);
    Reply::Stored
}
