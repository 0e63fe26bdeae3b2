//! The phases of the six restart groups, and FAILREG, which keeps the codes of alarms, in the
//! erasable words.
#![tactic(auto)]

mod bases;
mod image;
pub mod laws;
mod table;

pub use agc_plan::Code;
pub use bases::{Base, Phases};
pub use image::{code_word, recover};
pub use table::{clear, failreg, is_lawful, phases, record_alarm, recover_into, set_phase};
