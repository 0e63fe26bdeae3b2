// The effect of a request before an era begins with it.
ghost use Rattle.std.specs.Prelude.{◌≡◌, [], false, true};
ghost use Rattle.agc_word.specs.Layout.{sets_in};
ghost use Rattle.agc_plan.specs.Plans.{planned_with};
ghost use Rattle.agc_plan.specs.Steps.{begins};
ghost use Rattle.agc_wait.specs.Table.{waits_of};
ghost use Rattle.agc_wait.specs.Waits.{due_now};
ghost use Rattle.agc_machine.specs.Stands.{IsReady, Acts, FiresIn, RaisesIn, StepsTo};

use crate::step::{act, begin_after};
use crate::tick::{alarm_in, number_in, tick};
use agc_plan::{Fired, Plans, Reply, Request};
use agc_word::{Erasable, Sets};
use std::marker::Model;

/// The words after a request was acted on and before an era has begun with it, the reply, the tasks
/// that fired, and which action raised an alarm. Contracts see all four.
#[derive(Drop)]
pub struct Moment {
    erasable: Erasable,
    reply: Reply,
    fired: Fired,
    number: usize,
}

impl Model for Moment {
    ghost use Rattle.agc_machine.specs.Moments.{Acting};

    ghost Value = { Acting };

    ghost view = { λ m. record {
      words = m.erasable;
      reply = m.reply;
      fired = m.fired;
      number = m.number;
    } };
}

impl Moment {
    /// The words, by place.
    pub fn words(&self) -> &Erasable
        ensures { result.now ≡ self.now.words }
    {
        &self.erasable
    }

    /// The reply to the request.
    pub fn reply(&self) -> &Reply
        ensures { result.now ≡ self.now.reply }
    {
        &self.reply
    }

    /// The tasks that fired, in order.
    pub fn fired(&self) -> &Fired
        ensures { result.now ≡ self.now.fired }
    {
        &self.fired
    }

    /// Where an alarm came inside a tick: which of the actions of the task that fired last raised
    /// it, counted from 1. Else 0.
    pub fn number(&self) -> usize
        ensures { result ≡ self.now.number }
    {
        self.number
    }

    /// Nothing fired, and no action raised an alarm. The words stay.
    pub(crate) fn clear(&mut self)
        ensures fired { self.new.fired ≡ [] }
        ensures number { self.new.number ≡ 0 }
    {
        self.fired.clear();
        self.number = 0;
    }
}

fn copy_of(e: &Erasable) -> Erasable
    ensures { result ≡ e.now }
{
    let sets = e.sets();
    let places = match sets {
        Sets::Seven => 132,
        Sets::Eight => 144,
    };
    let mut copy = Erasable::new(sets);
    for place in 0..places {
        copy.set(place, e.get(place));
    }
    copy
}

/// The effect of a request, before an era begins with it, and which action raised an alarm inside a
/// tick.
pub(crate) fn act_told<P: Plans>(
    plan: &P,
    e: &mut Erasable,
    request: &Request,
    fired: &mut Fired,
) -> (Reply, usize)
    requires ready { IsReady e.old }
    requires none { fired.old ≡ [] }
    ensures acts { Acts (planned_with (P.written plan.now) (sets_in e.old)) request.now e.old
        result.0 e.new }
    ensures fired { FiresIn (planned_with (P.written plan.now) (sets_in e.old)) request.now e.old
        fired.new }
    ensures raised { RaisesIn (planned_with (P.written plan.now) (sets_in e.old)) request.now
        e.old result.1 }
    ensures none_due { begins result.0 ≡ false → due_now (waits_of e.new) ≡ 0 }
{
    match *request {
        Request::Tick => {
            let raised = tick(plan, e, fired);
            (Reply::Ticked(alarm_in(raised)), number_in(raised))
        }
        _ => (act(plan, e, request, fired), 0),
    }
}

/// The moment of a request that is asked of these words.
pub(crate) fn moment_of<P: Plans>(plan: &P, e: &Erasable, request: &Request) -> Moment
    requires ready { IsReady e.now }
    ensures acts { Acts (planned_with (P.written plan.now) (sets_in e.now)) request.now e.now
        result.reply result.words }
    ensures fired { FiresIn (planned_with (P.written plan.now) (sets_in e.now)) request.now e.now
        result.fired }
    ensures raised { RaisesIn (planned_with (P.written plan.now) (sets_in e.now)) request.now e.now
        result.number }
    ensures none_due { begins result.reply ≡ false → due_now (waits_of result.words) ≡ 0 }
{
    let mut erasable = copy_of(e);
    let mut fired = Fired::new();
    let (reply, number) = act_told(plan, &mut erasable, request, &mut fired);
    Moment {
        erasable,
        reply,
        fired,
        number,
    }
}

/// One step, as `step`. If an era begins with it, the moment before that is kept. What fires goes
/// into an empty list.
pub(crate) fn step_with_snapshot<P: Plans>(
    plan: &P,
    e: &mut Erasable,
    request: &Request,
    moment: &mut Moment,
) -> Reply
    requires ready { IsReady e.old }
    requires none { moment.old.fired ≡ [] }
    ensures steps { StepsTo (planned_with (P.written plan.now) (sets_in e.old)) request.now e.old
        result e.new }
    ensures fired { FiresIn (planned_with (P.written plan.now) (sets_in e.old)) request.now e.old
        moment.new.fired }
    ensures raised { RaisesIn (planned_with (P.written plan.now) (sets_in e.old)) request.now e.old
        moment.new.number }
    ensures reply { moment.new.reply ≡ result }
    ensures acts { begins result ≡ true → Acts (planned_with (P.written plan.now) (sets_in e.old))
        request.now e.old result moment.new.words }
{
    let (reply, number) = act_told(plan, e, request, &mut moment.fired);
    moment.reply = reply;
    moment.number = number;
    if reply.begins() {
        moment.erasable = copy_of(e);
        begin_after(plan, reply.alarm(), e);
    }
    reply
}
