// The time between two requests.
ghost use Rattle.std.specs.Prelude.{◌≡◌};
ghost use Rattle.agc_clock.specs.Elapsing.{none_elapsed};

/// The time that passed, in hundredths of a centisecond: computed by jobs with a cost, stolen, and
/// idle, at which no such job was running.
#[derive(Clone, Copy)]
pub struct Elapsed {
    pub computed: u32,
    pub stolen: u32,
    pub idle: u32,
}

impl Elapsed {
    /// No time.
    pub fn none() -> Elapsed
        ensures { result ≡ none_elapsed }
    {
        Elapsed {
            computed: 0,
            stolen: 0,
            idle: 0,
        }
    }
}
