ghost use Rattle.std.specs.Prelude.{◌≡◌, ◌<◌};
ghost use Rattle.agc_plan.specs.Pulses.{word_of};

/// Whose pulses these are.
#[derive(Clone, Copy, PartialEq, Eq, Debug)]
pub enum Line {
    /// The timer's.
    Timer,
    /// The keyboard's.
    Key,
    /// The radar's.
    Radar,
}

impl Line {
    /// The place of the line's word, and of its count where there is one for each line.
    pub fn word(self) -> usize
        ensures word { result ≡ word_of self }
        ensures range { result < 3 }
    {
        match self {
            Line::Timer => 0,
            Line::Key => 1,
            Line::Radar => 2,
        }
    }
}
