ghost use Rattle.std.specs.Prelude.{◌≡◌};
ghost use Rattle.agc_word.specs.Profiles.{count_of};

/// How many core sets a computer has, which says how many words its erasable memory has.
#[derive(Clone, Copy, PartialEq, Eq)]
pub enum Sets {
    /// Seven core sets, 132 words.
    Seven,
    /// Eight core sets, 144 words.
    Eight,
}

impl Sets {
    /// The number of core sets: 7 or 8.
    pub fn count(self) -> usize
        ensures { result ≡ count_of self }
    {
        match self {
            Sets::Seven => 7,
            Sets::Eight => 8,
        }
    }
}
