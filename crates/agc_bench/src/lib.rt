//! Benches: reading one, and running it by one caller or by threads. The runs of threads are this
//! crate's own; the rest is passed on from `agc_document`, `agc_session`, `agc_text` and
//! `agc_desk`.
#![tactic(auto)]

mod asker;
mod closing;
mod hall;
pub mod laws;
mod opening;
mod poster;
mod threading;

pub use agc_desk::{Gate, OpenGate};
pub use agc_document::{Bench, BenchFault, read_bench};
pub use agc_session::{RunFault, machine_of, run_script, serial};
pub use agc_text::{
    Output, ReadFault, ScriptFault, parse_action, parse_address, parse_line, parse_word, read_all,
    read_script, report, write_answer_to,
};
pub use agc_word::{Sets, Word};
pub use threading::threads;
