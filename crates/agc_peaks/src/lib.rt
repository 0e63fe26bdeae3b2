//! Summaries of runs: how full the tables were in each era, the first alarm of many scenarios, the
//! differences between two documents, and the bench of a scenario.
#![tactic(auto)]

mod comparing;
mod eras_rows;
mod finding;
mod jobs;
mod jobs_rows;
mod keys;
mod lines;
mod peaks;
mod summary;
mod sweep;
mod writing;

pub use comparing::put_differences;
pub use finding::{FindOutcome, find_alarm};
pub use jobs::write_jobs;
pub use peaks::write_peaks;
pub use summary::{RunSummary, summary_of};
pub use sweep::{Axis, SweepParameter, run_sweep};
pub use writing::scenario_bench;
