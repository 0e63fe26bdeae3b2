//! Scenarios: benches in which time passes by itself, jobs cost computing time, something else
//! steals it, and events come.
#![tactic(auto)]

mod apart;
mod changing;
mod counting;
mod current_timetable;
mod keys;
mod laws;
pub mod rows;
mod scenario;
mod texts;
mod timing;
mod values;

pub use changing::Number;
pub use current_timetable::CurrentTimetable;
pub use laws::keys_are_those_listed;
pub use scenario::{Scenario, is_scenario, read_scenario, scenario_of};
pub use timing::{CostRange, Name, TimedEvent, TimedJob, Timing};
