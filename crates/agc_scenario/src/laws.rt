//! A law of the table of keys.
ghost use Rattle.agc_scenario.specs.KeyTable.{AreTheKeys};

/// The keys of a scenario, their ranges, and which of them must be there, are those that
/// `specs/KeyTable.antt` lists.
pub fn keys_are_those_listed()
    ensures { AreTheKeys }
{}
