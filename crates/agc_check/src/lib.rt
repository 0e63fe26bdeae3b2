//! The sentences about faults in a script or a bench, and about what in a bench deserves a second
//! look though it can be run: each with its line, and what was expected there.
#![tactic(auto)]

mod bench;
mod document;
mod explored;
mod finding;
mod gathered;
mod items;
mod line;
mod line_form;
mod locate;
mod messages;
mod names;
mod problem;
mod reading;
mod run_counts;
mod scenario;
mod script;
mod summary;
mod warnings;

pub use bench::put_bench_messages;
pub use document::Document;
pub use explored::{ExploredBench, Flags, explored_findings};
pub use finding::{Finding, Findings};
pub use line::LineFault;
pub use line_form::{LineForm, LineWord};
pub use messages::{NamedText, put_quoted};
pub use names::is_near;
pub use problem::Problem;
pub use reading::scenario_findings;
pub use run_counts::{RunCounts, run_subject};
pub use script::{LineFinding, put_script_messages, script_findings};
pub use summary::{put_report, put_script_summary};
