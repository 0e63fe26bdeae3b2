//! The machine: its tables, the log of requests since the last era began, and its totals.
#![tactic(auto)]

mod answer;
mod era;
pub mod laws;
mod machine;
mod migration;
mod moment;
mod step;
mod tick;
mod totals;
mod words;

pub use agc_plan::NoMemory;
pub use answer::{Answer, Refusal};
pub use machine::{Machine, starts_over};
pub use migration::migrate;
pub use moment::Moment;
pub use totals::Totals;
pub use words::{act_words, begin, finish_words, step_words};
