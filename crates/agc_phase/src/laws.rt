//! Laws of the words of phases and FAILREG: each is the contract of a function that does nothing.
ghost use Rattle.std.specs.Prelude.{ℕ, List};
ghost use Rattle.agc_phase.specs.Image.{ShowSameBase, SameTable};

/// Law: phases and codes have one table of words. Two lists of words whose tables are lawful, and
/// are read as the same phases and codes, have the same phase words and the same FAILREG. Source:
/// the listings' PHASE TABLE MAINTENANCE section; FAILREG: profile.
pub fn one_table_of_a_base()
    ensures { (these those : List ℕ) → ShowSameBase these those → SameTable these those }
{}
