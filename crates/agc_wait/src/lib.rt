//! The Waitlist: at most nine tasks, in the words TIME3, LST1 and LST2 of the erasable memory.
#![tactic(auto)]

mod coding;
mod lawful;
mod laws;
mod moving;
mod order;
mod spot;
mod table;

pub use lawful::is_lawful;
pub use laws::{earliest_arrival_is_first_in_order, one_table_of_an_agenda, tasks_fire_when_due};
pub use order::{Waiting, Waits, tasks_waiting};
pub use table::{Full, clear, count_time3, dispatch, due, list};
