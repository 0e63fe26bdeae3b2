ghost use Rattle.std.specs.Prelude.{◌≡◌, None, length, replicate};
ghost use Rattle.agc_plan.specs.Base.{fresh_base};
ghost use Rattle.agc_phase.specs.Image.{base_of, IsLawfulTable, Becomes};

use crate::image::{code_of_word, inactive, write_codes, write_pairs};
use crate::table::{failreg, phases};
use agc_plan::{Code, Phase};
use agc_word::Erasable;
use std::marker::Model;

/// The phases of groups 1 to 6, in order, each 0 to 127, 0 for inactive. Source: the listings'
/// PHASE TABLE MAINTENANCE section; the greatest phase is profile.
pub type Phases = [Phase; 6];

/// The part of the tables that a restart keeps: the phases of the six restart groups, and the
/// first, the second and the latest alarm code. Source: the listings' PHASE TABLE MAINTENANCE
/// section; the contents of FAILREG are profile.
#[derive(Clone, Copy)]
pub struct Base {
    phases: Phases,
    codes: [Option<Code>; 3],
}

impl Model for Base {
    ghost use Rattle.std.specs.Prelude.{◌≡◌, length};
    ghost use Rattle.agc_plan.specs.Base as plain;
    ghost use Rattle.agc_phase.specs.Image.{IsFailreg};

    ghost Value = { plain.Base };

    ghost view = { λ b. record { phases = b.phases; codes = b.codes } };

    ghost invariant = { λ b. (length b.phases ≡ 6) × (length b.codes ≡ 3) × IsFailreg b.codes };

    ghost inverse = { λ b. record { phases = b.phases; codes = b.codes } };
}

impl Base {
    /// A fresh start's: all groups inactive, and no codes. Source: the listings' FRESH START AND
    /// RESTART section; codes: profile.
    pub fn fresh() -> Base
        ensures { result ≡ fresh_base }
    {
        Base::with_phases([inactive(); 6])
    }

    /// These phases, and no codes, as power-up begins with what it recovered. Source: the listings'
    /// FRESH START AND RESTART section; codes: profile.
    pub fn with_phases(phases: Phases) -> Base
        ensures { result ≡ record { phases = phases; codes = replicate 3 None } }
    {
        Base {
            phases,
            codes: [None; 3],
        }
    }

    /// The phases of groups 1 to 6. Source: the listings' PHASE TABLE MAINTENANCE section.
    pub fn phases(&self) -> Phases
        ensures phases { result ≡ self.now.phases }
        ensures six { length self.now.phases ≡ 6 }
    {
        self.phases
    }

    /// The first, the second and the latest code.
    pub fn codes(&self) -> [Option<Code>; 3]
        ensures codes { result ≡ self.now.codes }
        ensures three { length self.now.codes ≡ 3 }
    {
        self.codes
    }

    /// The part of these words that a restart keeps: all phases and codes. Source: the listings'
    /// PHASE TABLE MAINTENANCE section; the contents of FAILREG are profile.
    pub fn read(e: &Erasable) -> Base
        requires { IsLawfulTable e.now }
        ensures { result ≡ base_of e.now }
    {
        let [first, second, latest] = failreg(e);
        Base {
            phases: phases(e),
            codes: [
                code_of_word(first),
                code_of_word(second),
                code_of_word(latest),
            ],
        }
    }

    /// Writes phases and codes, whatever stood there, as an era begins with them. Source: the
    /// listings' FRESH START AND RESTART section; codes: profile.
    pub fn restore(&self, e: &mut Erasable)
        ensures { Becomes self.now e.old e.new }
    {
        write_pairs(e, &self.phases);
        write_codes(e, &self.codes);
    }
}
