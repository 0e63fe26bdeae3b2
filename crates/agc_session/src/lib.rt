//! Runs by one caller: of a script, or of a bench.
#![tactic(auto)]

mod asking;
mod counting;
mod following;
pub mod laws;
mod progress;
mod run;
mod run_fault;
mod source;
mod walk;

pub use counting::{RequestCount, count_requests};
pub use following::asks_nothing;
pub use progress::Progress;
pub use run::{bench_plan, machine_of, machine_on, run_script, script_machine, serial};
pub use run_fault::{RunFault, write_result};
pub use source::{PendingRequest, Source, line_name};
pub use walk::Walk;
