//! A law of pulses: the contract of a function that does nothing.
ghost use Rattle.std.specs.Prelude.{◌≡◌, ◌≤◌, ℕ, List, [], ◌∷◌, length};
ghost use Rattle.agc_latch.specs.Lines.{on};
ghost use Rattle.agc_plan.specs.declared.line.Line.{Line};
ghost use Rattle.agc_plan.specs.declared.request.Action.{Action};
ghost use Rattle.agc_plan.specs.Plans.{Planned};
ghost use Rattle.agc_plan.specs.Pulses.{pulse_requests, repeated, requests_for};
ghost use Rattle.agc_desk.specs.declared.drain.Drained.{Drained};
ghost use Rattle.agc_desk.specs.declared.ties.Call.{Call};
ghost use Rattle.agc_desk.specs.Desks.{ArePulses, Desked};
ghost use Rattle.agc_desk.specs.Draining.{Drains, left_by};
ghost use Rattle.agc_desk.specs.History.{Holder, served_on};
ghost use Rattle.agc_desk.specs.Laws.{DoesOneEach, IsOneOrNone, whole_of};

/// Where a key pulse does at most one thing, and so does a radar pulse, as in every plan that
/// `Plan::new` makes, pulses are asked for whole. A pulse asks for one request or for none, and is
/// never begun without being applied. What was served of a line's pulses is what its applied ones
/// ask for, each once. A drain serves whole pulses, as many of each line as it says it applied, and
/// leaves whole pulses, as many as are owed.
///
/// The like of [`agc_plan::laws::one_action_is_done_as_by_itself`], for pulses.
pub fn pulses_of_one_action_are_whole()
    ensures action { (act : Action) → length (requests_for (act ∷ [])) ≤ 1 }
    ensures asked { (plan : Planned) (line : Line) → DoesOneEach plan
        → IsOneOrNone (pulse_requests plan line) }
    ensures not_begun { (plan : Planned) (calls : List Call) (applied : List ℕ) (begun : List ℕ)
        (line : Line) → DoesOneEach plan → ArePulses plan calls applied begun
        → on line begun ≡ 0 }
    ensures served { (plan : Planned) (calls : List Call) (applied : List ℕ) (begun : List ℕ)
        (line : Line) → DoesOneEach plan → ArePulses plan calls applied begun
        → served_on line calls ≡ repeated (pulse_requests plan line) (on line applied) }
    ensures drained { (old : Desked) (share : Holder) (told : Drained) (now : Desked)
        (heard : Holder) (before : List Call) (calls : List Call) → DoesOneEach old.machine.plan
        → ArePulses old.machine.plan before old.lines.applied old.lines.begun
        → ArePulses old.machine.plan calls now.lines.applied now.lines.begun
        → (drains : Drains old share told now heard)
        → drains.served ≡ whole_of old.machine.plan told.applied }
    ensures left { (old : Desked) (now : Desked) (calls : List Call)
        → DoesOneEach old.machine.plan
        → ArePulses old.machine.plan calls now.lines.applied now.lines.begun
        → left_by old.machine.plan now.lines ≡ whole_of old.machine.plan now.lines.owed }
{}
