//! Play with a machine: a request a line, and of each at once its row, the tables, and the account
//! of its alarm.
#![tactic(auto)]

mod line;
mod player;
mod playing;

pub use playing::{PlayFault, PlayOptions, play};
