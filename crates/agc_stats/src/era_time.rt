//! How the time of an era was used.
ghost use Rattle.std.specs.Prelude.{◌≡◌, List, [], ◌∷◌, ◌++◌};
ghost use Rattle.agc_clock.specs.declared.elapsed.Elapsed.{Elapsed};
ghost use Rattle.agc_stats.specs.Eras.{all_used, used_in};

use agc_clock::Elapsed;

/// The centisecond at which an era began, and how its time was used, in hundredths of one: by jobs
/// that have a cost, by what steals time, and by nothing.
#[derive(Clone, Copy)]
pub struct EraTime {
    pub began: u64,
    pub computed: u64,
    pub stolen: u64,
    pub idle: u64,
}

impl EraTime {
    /// An era that begins at a centisecond.
    pub(crate) fn new(began: u64) -> EraTime
        ensures began { result.began ≡ began }
        ensures used { used_in result ≡ all_used [] }
    {
        EraTime {
            began,
            computed: 0,
            stolen: 0,
            idle: 0,
        }
    }

    /// Adds time that has passed.
    pub(crate) fn pass(&mut self, elapsed: Elapsed)
        ensures began { self.new.began ≡ self.old.began }
        ensures used { (all : List Elapsed) → used_in self.old ≡ all_used all
            → used_in self.new ≡ all_used (all ++ elapsed ∷ []) }
    {
        self.computed = self.computed.saturating_add(u64::from(elapsed.computed));
        self.stolen = self.stolen.saturating_add(u64::from(elapsed.stolen));
        self.idle = self.idle.saturating_add(u64::from(elapsed.idle));
    }
}
