// The beginning of an era.
ghost use Rattle.std.specs.Prelude.{◌≡◌, length, Some};
ghost use Rattle.agc_word.specs.Layout.{sets_in};
ghost use Rattle.agc_plan.specs.Plans.{planned_with};
ghost use Rattle.agc_plan.specs.Eras.{active, no_work};
ghost use Rattle.agc_plan.specs.Groups.{group_begun};
ghost use Rattle.agc_plan.specs.Groups.{no_places};
ghost use Rattle.agc_phase.specs.Image as phases;
ghost use Rattle.agc_machine.specs.Stands.{IsSound, Stands, Changes, SameDue, with_job, with_task};
ghost use Rattle.agc_machine.specs.Stands.{places_with_job, same_places, places_group};
ghost use Rattle.agc_machine.specs.Stands.{BeginsGroups, BeginsEra};

use crate::tick::list;
use agc_exec::{findvac, novac};
use agc_phase::phases;
use agc_plan::{Delay, Group, JobStart, Phase, PhaseEntry, Plans, Task};
use agc_word::Erasable;

/// Establishes the job of a phase.
fn start(job: JobStart, e: &mut Erasable)
    requires { IsSound e.old }
    ensures changes { Changes (with_job (Some job)) (places_with_job (Some job)) e.old e.new }
    ensures due { SameDue e.old e.new }
{
    match job {
        JobStart::Novac(priority, entry) => {
            let _ = novac(e, priority, entry);
        }
        JobStart::Findvac(priority, entry) => {
            let _ = findvac(e, priority, entry);
        }
    }
}

/// Establishes a phase's job, if it has one.
fn begin_job(job: Option<JobStart>, e: &mut Erasable)
    requires { IsSound e.old }
    ensures changes { Changes (with_job job) (places_with_job job) e.old e.new }
    ensures due { SameDue e.old e.new }
{
    match job {
        None => {}
        Some(job) => start(job, e),
    }
}

/// Lists a phase's task, if it has one.
fn begin_task(task: Option<(Delay, Task)>, e: &mut Erasable)
    requires { IsSound e.old }
    ensures changes { Changes (with_task task) same_places e.old e.new }
    ensures due { SameDue e.old e.new }
{
    match task {
        None => {}
        Some(listing) => {
            let _ = list(e, listing.0, listing.1);
        }
    }
}

/// The entry of a group that has a phase other than 0.
fn active<P: Plans>(plan: &P, group: Group, phase: Phase) -> Option<PhaseEntry>
    ensures { result ≡ active (P.written plan.now).entries group phase }
{
    if phase.get() == 0 {
        None
    } else {
        plan.entry(group, phase)
    }
}

/// One group begins, where it has an entry.
fn begin_group(entry: Option<PhaseEntry>, e: &mut Erasable)
    requires { IsSound e.old }
    ensures changes { Changes (group_begun entry) (places_group entry) e.old e.new }
    ensures due { SameDue e.old e.new }
{
    match entry {
        None => {}
        Some(entry) => {
            begin_job(entry.job(), e);
            begin_task(entry.task(), e);
        }
    }
}

/// The six groups begin, in order.
fn begin_groups<P: Plans>(plan: &P, phases: &[Phase], e: &mut Erasable)
    requires six { length phases.now ≡ 6 }
    requires clear { Stands e.old (no_work (sets_in e.old)) (no_places (sets_in e.old)) }
    requires sound { IsSound e.old }
    ensures { BeginsGroups (planned_with (P.written plan.now) (sets_in e.old)) phases.now e.old
        e.new }
{
    for (k, phase) in phases.iter().enumerate() {
        let group = Group::new(k as u8 + 1).unwrap();
        begin_group(active(plan, group, *phase), e);
    }
}

/// An era begins with the phases in these words: all jobs and tasks are gone but those of the
/// plan's entries.
pub(crate) fn begin_era<P: Plans>(plan: &P, e: &mut Erasable)
    requires { phases.IsLawfulTable e.old }
    ensures { BeginsEra (planned_with (P.written plan.now) (sets_in e.old)) e.old e.new }
{
    let phases = phases(e);
    agc_exec::clear(e);
    agc_wait::clear(e);
    begin_groups(plan, &phases, e);
}
