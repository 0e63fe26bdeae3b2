// Requests of a clock, with their sources.
ghost use Rattle.std.specs.Prelude.{◌≡◌};
ghost use Rattle.agc_clock.specs.Instants.{by_clock};

use agc_plan::Request;

/// Who asks: the clock itself (for a tick, for a look at NEWJOB, for what a job does that has used
/// up its cost), or the event of this number, from 0.
#[derive(Clone, Copy, PartialEq, Eq)]
pub enum Source {
    Clock,
    Event(usize),
}

/// A request, and who asks for it.
#[derive(Clone, Copy)]
pub struct Asked {
    pub request: Request,
    pub source: Source,
}

/// The clock itself asks.
pub(crate) fn by_clock(request: Request) -> Asked
    ensures { result ≡ by_clock request }
{
    Asked {
        request,
        source: Source::Clock,
    }
}
