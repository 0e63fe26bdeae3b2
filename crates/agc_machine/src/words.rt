// Steps on words of a caller's own, by a plan wherever it lies: whole, in two parts, and the
// beginning of an era alone.
ghost use Rattle.std.specs.Prelude.{◌≡◌, false, if◌then◌else◌, length};
ghost use Rattle.agc_plan.specs.Plans.{planned_with};
ghost use Rattle.agc_plan.specs.Seats.{places_acted, places_after, era_places};
ghost use Rattle.agc_plan.specs.Steps.{Plain, acted, step, begins, base_after, ended, era};
ghost use Rattle.agc_plan.specs.Steps.{fired_in, raised_in};
ghost use Rattle.agc_exec.specs.Image.{entries_in};
ghost use Rattle.agc_wait.specs.Table.{waits_of};
ghost use Rattle.agc_wait.specs.Waits.{is_due};
ghost use Rattle.agc_phase.specs.Image.{base_of};
ghost use Rattle.agc_phase.specs.Image as phases;
ghost use Rattle.agc_word.specs.Layout.{sets_in};
ghost use Rattle.agc_machine.specs.Image.{AreLawful, IsLawfulImage, IsTidyImage, WordsStandFor};

use crate::era::begin_era;
use crate::moment::act_told;
use crate::step::{begin_after, step};
use agc_plan::{Fired, Plan, Plans, Reply, Request};
use agc_word::Erasable;

/// Does a request on the words of a machine, and begins an era, if one begins with it. Nothing is
/// refused, and nothing is stored. Source: the request's own.
pub fn step_words(plan: &Plan, e: &mut Erasable, request: &Request) -> Reply
    requires lawful { IsLawfulImage e.old }
    requires tidy { IsTidyImage e.old }
    ensures lawful { IsLawfulImage e.new }
    ensures tidy { IsTidyImage e.new }
    ensures same_length { length e.new ≡ length e.old }
    ensures steps { (plain : Plain) → WordsStandFor e.old plain
        → WordsStandFor e.new (step (planned_with plan.now (sets_in e.old)) request.now plain).plain
        × (result ≡ (step (planned_with plan.now (sets_in e.old)) request.now plain).reply)
        × (entries_in e.new ≡ places_after (planned_with plan.now (sets_in e.old)) request.now plain
        (entries_in e.old)) }
{
    let mut fired = Fired::new();
    step(plan, e, request, &mut fired)
}

/// Does a request on words of a caller's own, before an era begins with it: returns the reply, and
/// which action raised an alarm inside a tick, counted from 1, or 0. The words must be lawful and
/// tidy, with no task due, as each step leaves them. The tasks that fired, in order, replace the
/// contents of the list that is lent. No memory is taken. Source: the request's own.
pub fn act_words<P: Plans>(
    plan: &P,
    e: &mut Erasable,
    request: &Request,
    fired: &mut Fired,
) -> (Reply, usize)
    requires lawful { IsLawfulImage e.old }
    requires tidy { IsTidyImage e.old }
    ensures lawful { AreLawful e.new }
    ensures tidy { IsTidyImage e.new }
    ensures none_due { begins result.0 ≡ false → is_due (waits_of e.new) ≡ false }
    ensures same_length { length e.new ≡ length e.old }
    ensures acts { (plain : Plain) → WordsStandFor e.old plain
        → WordsStandFor e.new (acted (planned_with (P.written plan.now) (sets_in e.old)) request.now
        plain).plain
        × (result.0 ≡ (acted (planned_with (P.written plan.now) (sets_in e.old)) request.now
        plain).reply)
        × (entries_in e.new ≡ places_acted (planned_with (P.written plan.now) (sets_in e.old))
        request.now plain (entries_in e.old)) }
    ensures fired { (plain : Plain) → WordsStandFor e.old plain
        → fired.new ≡ fired_in (planned_with (P.written plan.now) (sets_in e.old)) request.now
        plain }
    ensures raised { (plain : Plain) → WordsStandFor e.old plain
        → result.1 ≡ raised_in (planned_with (P.written plan.now) (sets_in e.old)) request.now
        plain }
{
    fired.clear();
    act_told(plan, e, request, fired)
}

/// A step ends on the words that `act_words` left with this reply: an era begins, where one begins
/// with it. No memory is taken. Source: the listings' FRESH START AND RESTART section.
pub fn finish_words<P: Plans>(plan: &P, reply: &Reply, e: &mut Erasable)
    requires lawful { AreLawful e.old }
    requires tidy { IsTidyImage e.old }
    requires none_due { begins reply.now ≡ false → is_due (waits_of e.old) ≡ false }
    ensures lawful { IsLawfulImage e.new }
    ensures tidy { IsTidyImage e.new }
    ensures same_length { length e.new ≡ length e.old }
    ensures ends { (plain : Plain) → WordsStandFor e.old plain
        → WordsStandFor e.new (ended (planned_with (P.written plan.now) (sets_in e.old))
        (record { plain = plain; reply = reply.now }))
        × (entries_in e.new ≡ (if begins reply.now then era_places (planned_with (P.written
        plan.now) (sets_in e.old)) (base_after reply.now plain.base) else entries_in e.old)) }
{
    if reply.begins() {
        begin_after(plan, reply.alarm(), e);
    }
}

/// An era begins with the phases in these words: all jobs and tasks are gone but those of the
/// plan's entries. No memory is taken. Source: the listings' FRESH START AND RESTART section.
pub fn begin<P: Plans>(plan: &P, e: &mut Erasable)
    requires { phases.IsLawfulTable e.old }
    ensures lawful { IsLawfulImage e.new }
    ensures tidy { IsTidyImage e.new }
    ensures same_length { length e.new ≡ length e.old }
    ensures stands { WordsStandFor e.new (era (planned_with (P.written plan.now) (sets_in e.old))
        (base_of e.old)) }
    ensures placed { entries_in e.new ≡ era_places (planned_with (P.written plan.now)
        (sets_in e.old)) (base_of e.old) }
{
    begin_era(plan, e);
}
