// A plan, wherever its rows and entries lie.
ghost use Rattle.std.specs.Prelude.{◌≡◌, ◌<◌};
ghost use Rattle.agc_plan.specs.Plans.{Written, actions_in, entry_at};

use crate::actions::Actions;
use crate::number::{Group, Phase};
use crate::plan::Plan;
use crate::request::{Action, PhaseEntry, Task};

/// A plan, wherever its rows and entries lie. Contracts see what is written in it.
pub trait Plans {
    ghost written: { Self → Written };

    /// The actions of this task when it fires, in order: none for a task that has no row. A plan
    /// that has its actions as numbers makes them in the room that is lent.
    fn actions<'a>(&'a self, task: &Task, room: &'a mut Actions) -> &'a [Action]
        ensures { result.now ≡ actions_in (written self.now).rows task.now };

    /// The entry that begins again while a group is in a phase other than 0. None if the plan has
    /// no such entry.
    fn entry(&self, group: Group, phase: Phase) -> Option<PhaseEntry>
        requires { 0 < phase }
        ensures { result ≡ entry_at (written self.now).entries group phase };
}

impl Plans for Plan {
    ghost written = { λ p. p };

    fn actions<'a>(&'a self, task: &Task, room: &'a mut Actions) -> &'a [Action] {
        let _room = room;
        Plan::actions(self, task)
    }

    fn entry(&self, group: Group, phase: Phase) -> Option<PhaseEntry> {
        Plan::entry(self, group, phase).copied()
    }
}
