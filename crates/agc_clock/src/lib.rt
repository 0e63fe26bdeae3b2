//! Time that passes: by a timetable, what a machine is asked from one centisecond to the next.
#![tactic(auto)]

mod alarms;
mod asked;
mod clock;
mod counting;
mod elapsed;
pub mod laws;
mod times;
mod timetable;

pub use alarms::Alarms;
pub use asked::{Asked, Source};
pub use clock::Clock;
pub use counting::stolen_at;
pub use elapsed::Elapsed;
pub use times::{LAST_TIME, Times};
pub use timetable::{Cost, Step, Stolen, Then, Timetables, step_of};
