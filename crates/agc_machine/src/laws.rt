//! Laws of a machine's answers about full tables: each is the contract of a function that does
//! nothing. `ask`, `apply` and the desk's `serve` answer by `answer_of`.

ghost use Rattle.std.specs.Prelude.{◌≡◌, ◌↔◌, Option, None, Ok, Err, []};
ghost use Rattle.agc_plan.specs.declared.reply.Alarm.{Alarm};
ghost use Rattle.agc_plan.specs.declared.reply.Reply.TheVariants.{Alarmed, Ticked};
ghost use Rattle.agc_plan.specs.declared.request.Request.{Request};
ghost use Rattle.agc_plan.specs.declared.request.Request.TheVariants.{Tick};
ghost use Rattle.agc_plan.specs.Steps.{later_work};
ghost use Rattle.agc_plan.specs.Laws.{EndsByLast};
ghost use Rattle.agc_machine.specs.declared.answer.Refusal.{Refusal};
ghost use Rattle.agc_machine.specs.Machines.{Machined, plain_of, refusal_of, answer_of, fired_of};
ghost use Rattle.agc_machine.specs.Machines.{after};
ghost use Rattle.agc_machine.specs.Laws.{FindsFull};

/// Of every machine: a request is answered by an alarm exactly if it isn't refused and finds its
/// table full. FINDVAC is answered by 1201 if each of the five areas is owned, and by 1202 if one
/// is free and each core set is held; NOVAC is answered by 1202 if each core set is held; and a
/// listing is answered by 1203 if nine tasks wait. No other request is answered by an alarm, except
/// that a tick tells the alarm of an action of the task that fired last, if that action found its
/// table full; the actions before it, and the tasks before that task, found what they needed. A
/// refused request has no alarm, fires nothing, and changes nothing.
pub fn alarm_where_its_table_is_full()
    ensures alarmed { (m : Machined) (asked : Request) (alarm : Alarm)
        → (answer_of m asked ≡ Ok (Alarmed alarm))
        ↔ ((refusal_of m asked ≡ None) × FindsFull alarm asked m) }
    ensures ticked { (m : Machined) (asked : Request) (told : Option Alarm)
        → answer_of m asked ≡ Ok (Ticked told)
        → (asked ≡ Tick)
        × EndsByLast m.plan.rows (later_work (plain_of m).work) (fired_of m asked) told }
    ensures refused { (m : Machined) (asked : Request) (why : Refusal)
        → answer_of m asked ≡ Err why → (after m asked ≡ m) × (fired_of m asked ≡ []) }
{}
