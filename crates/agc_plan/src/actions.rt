ghost use Rattle.std.specs.Prelude.{◌≡◌, ◌≤◌, ◌<◌, [], ◌∷◌, ◌++◌, length};

use crate::request::Action;
use arrayvec::ArrayVec;
use std::marker::Model;

impl Default for Action {
    fn default() -> Action {
        Action::Nothing
    }
}

/// The actions that a task does when it fires: at most four, in order. Contracts see them as a
/// list.
#[derive(Drop)]
pub struct Actions {
    actions: ArrayVec<Action, 4>,
}

impl Model for Actions {
    ghost use Rattle.std.specs.Prelude.{List};
    ghost use Rattle.agc_plan.specs.declared.request.Action.{Action};

    ghost Value = { List Action };

    ghost view = { λ a. a.actions.items };
}

impl Actions {
    /// No action.
    pub fn new() -> Actions
        ensures { result ≡ [] }
    {
        Actions {
            actions: ArrayVec::new(),
        }
    }

    /// This action alone.
    pub fn one(action: Action) -> Actions
        ensures { result ≡ action ∷ [] }
    {
        let mut actions = ArrayVec::new();
        actions.push(action);
        Actions { actions }
    }

    /// One more action, done after the others. There is room for four, so fewer have to be there.
    pub fn push(&mut self, action: Action)
        requires { length self.old < 4 }
        ensures { self.new ≡ self.old ++ action ∷ [] }
    {
        self.actions.push(action);
    }

    /// The actions, in order: at most four.
    pub fn as_slice(&self) -> &[Action]
        ensures value { result.now ≡ self.now }
        ensures most { length result.now ≤ 4 }
    {
        self.actions.as_slice()
    }

    /// A copy of these actions.
    pub fn copied(&self) -> Actions
        ensures { result ≡ self.now }
    {
        let mut copy = Actions::new();
        for action in self.as_slice() {
            copy.push(*action);
        }
        copy
    }
}
