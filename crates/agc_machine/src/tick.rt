// A tick: the Waitlist counts, and what is due fires.
ghost use Rattle.std.specs.Prelude.{◌≡◌, ◌≤◌, [], None};
ghost use Rattle.agc_plan.specs.declared.reply.Reply.TheVariants.{Ticked};
ghost use Rattle.agc_plan.specs.Steps.{with_listed, ticked};
ghost use Rattle.agc_wait.specs.Table.{waits_of};
ghost use Rattle.agc_wait.specs.Waits.{due_now};
ghost use Rattle.agc_machine.specs.Stands.{IsSound, IsReady, Works, SameDue, same_places, Performs};
ghost use Rattle.agc_machine.specs.Stands.{PerformsAll, FiresDue, FiresTick, RaisesTick};
ghost use Rattle.agc_machine.specs.Stands.{places_ticked, alarm_in, number_in};
ghost use Rattle.agc_machine.specs.Stands.{listing_told};

use agc_exec::{findvac, job_wake, novac};
use agc_plan::{Action, Actions, Alarm, Delay, Fired, Plans, Task};
use agc_wait::{count_time3, dispatch, due};
use agc_word::Erasable;

/// Lists a task, if there is room; else answers the alarm. That is shorter than a reply, which
/// would be handed on through memory.
#[inline(always)]
pub(crate) fn list(e: &mut Erasable, delay: Delay, task: Task) -> Option<Alarm>
    requires { IsSound e.old }
    ensures works { Works (with_listed delay task) same_places e.old (listing_told result) e.new }
    ensures due { SameDue e.old e.new }
{
    match agc_wait::list(e, delay, task) {
        Ok(()) => None,
        Err(_full) => Some(Alarm::A1203),
    }
}

/// Does an action of the plan. Answers the alarm that it raised, if it did.
fn perform(action: Action, e: &mut Erasable) -> Option<Alarm>
    requires { IsSound e.old }
    ensures { Performs action e.old result e.new }
{
    match action {
        Action::Nothing => None,
        Action::Novac(priority, entry) => novac(e, priority, entry).alarm(),
        Action::Findvac(priority, entry) => findvac(e, priority, entry).alarm(),
        Action::Rouse(at) => job_wake(e, at).alarm(),
        Action::List(delay, task) => list(e, delay, task),
    }
}

/// An alarm, and which of its task's actions raised it, counted from 1.
#[derive(Clone, Copy)]
pub(crate) struct Raised {
    pub(crate) alarm: Alarm,
    pub(crate) number: usize,
}

/// The alarm that was raised, if one was.
pub(crate) fn alarm_in(raised: Option<Raised>) -> Option<Alarm>
    ensures { result ≡ alarm_in raised }
{
    match raised {
        Some(raised) => Some(raised.alarm),
        None => None,
    }
}

/// Which action raised it, and 0 where none did.
pub(crate) fn number_in(raised: Option<Raised>) -> usize
    ensures { result ≡ number_in raised }
{
    match raised {
        Some(raised) => raised.number,
        None => 0,
    }
}

/// Does actions of the plan, in order, up to the first that raises an alarm, which is answered.
fn perform_all(actions: &[Action], e: &mut Erasable) -> Option<Raised>
    requires { IsSound e.old }
    ensures { PerformsAll actions.now e.old (alarm_in result) (number_in result) e.new }
{
    for (k, action) in actions.iter().enumerate() {
        match perform(*action, e) {
            Some(alarm) => {
                return Some(Raised {
                    alarm,
                    number: k + 1,
                });
            }
            None => {}
        }
    }
    None
}

/// Fires the tasks that are due, until an action raises an alarm, which is answered.
fn fire<P: Plans>(plan: &P, e: &mut Erasable, fired: &mut Fired) -> Option<Raised>
    requires sound { IsSound e.old }
    requires few { due_now (waits_of e.old) ≤ 9 }
    requires none { fired.old ≡ [] }
    ensures { FiresDue (P.written plan.now).rows e.old fired.new (alarm_in result)
        (number_in result) e.new }
{
    while due(e) {
        let task = dispatch(e);
        fired.push(task);
        let mut room = Actions::new();
        match perform_all(plan.actions(&task, &mut room), e) {
            Some(raised) => return Some(raised),
            None => {}
        }
    }
    None
}

/// A centisecond passes, and what is due fires. Answers the alarm that ended it, if one did. It
/// stands apart so that other requests don't pay for its locals.
#[inline(never)]
pub(crate) fn tick<P: Plans>(plan: &P, e: &mut Erasable, fired: &mut Fired) -> Option<Raised>
    requires ready { IsReady e.old }
    requires none { fired.old ≡ [] }
    ensures works { Works (ticked (P.written plan.now).rows) (places_ticked (P.written
        plan.now).rows) e.old
        (Ticked (alarm_in result)) e.new }
    ensures fired { FiresTick (P.written plan.now).rows e.old fired.new }
    ensures raised { RaisesTick (P.written plan.now).rows e.old (number_in result) }
    ensures none_due { alarm_in result ≡ None → due_now (waits_of e.new) ≡ 0 }
{
    let _ = count_time3(e);
    fire(plan, e, fired)
}
