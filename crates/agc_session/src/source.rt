// Sources of requests.
use agc_plan::{Line, Request};

/// The source of a request: the script, a worker by its number from 1, a pulse of a line, the clock
/// of a scenario, or one of its events by its number from 0.
#[derive(Clone, Copy, PartialEq, Eq)]
pub enum Source {
    Script,
    Worker(u64),
    Pulse(Line),
    Clock,
    Event(usize),
}

/// A request that comes next, and its source.
#[derive(Clone, Copy)]
pub struct PendingRequest {
    pub source: Source,
    pub request: Request,
}

/// The name of a pulse line in rows and sentences.
pub fn line_name(line: Line) -> &'static str {
    match line {
        Line::Timer => "timer",
        Line::Key => "key",
        Line::Radar => "radar",
    }
}
