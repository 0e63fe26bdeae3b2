//! Numbers with range, requests and replies, plans, and in `specs/` the whole model: what each
//! request does to the plain lists of jobs, tasks, phases and alarm codes.
#![tactic(auto)]

mod actions;
mod fired;
mod index;
pub mod laws;
mod line;
mod memory;
mod number;
mod plan;
mod plans;
mod pulse;
mod reply;
mod request;

pub use actions::Actions;
pub use fired::Fired;
pub use line::Line;
pub use memory::NoMemory;
pub use number::{Address, Delay, Group, JobNo, Limit, Phase, Place, Priority};
pub use plan::{Plan, PlanFault, wants_area};
pub use plans::Plans;
pub use pulse::{action_request, pulse_request};
pub use reply::{Alarm, Code, Reply};
pub use request::{Action, Entry, JobStart, PhaseEntry, Request, Task};
