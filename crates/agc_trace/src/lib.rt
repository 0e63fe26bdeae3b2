//! Tracing a run: a row for each request, with the tables as they were when it was answered.
#![tactic(auto)]

mod alarms;
mod brief;
mod chart;
mod columns;
mod ends;
mod json;
mod lanes;
mod laws;
mod names;
mod page;
mod showing;
mod trace_rows;
mod tracer;

pub use columns::Columns;
pub use laws::quiet_request_changes_the_time_alone;
pub use trace_rows::{Rows, TraceFormat, TraceOptions};
pub use tracer::trace;
