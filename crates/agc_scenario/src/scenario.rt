//! A scenario, read from a document.
ghost use Rattle.std.specs.Prelude.{◌≡◌, ◌≢◌, true, Some, IfOk, IfErr};
ghost use Rattle.std.specs.List.{list_all};
ghost use Rattle.toml.specs.Parse.{parse_document};
ghost use Rattle.toml.specs.View.{table_view};
ghost use Rattle.agc_document.specs.Gives.{RefusedLine};
ghost use Rattle.agc_scenario.specs.Keys.{has_seconds};
ghost use Rattle.agc_scenario.specs.Faults.{HasTexts, RefusesTexts, RefusesScenario};
ghost use Rattle.agc_scenario.specs.Scenarios.{IsScenario, IsTimed, Timed, can_be_shown};
ghost use Rattle.agc_scenario.specs.Scenarios.{scenario_texts, timing_texts};

use crate::keys::scenario_in;
use crate::rows::SECONDS;
use crate::texts::ScenarioTexts;
use crate::timing::{Name, Timing};
use crate::values::timing_of;
use agc_document::{Bench, BenchFault, Notes, Text, all_spelled, bench_from, table_of, value_of};
use std::alloc::Global;
use std::marker::Model;
use toml::Table;

/// A scenario: a bench without requests, names for its tasks and phases, and how time passes.
/// Contracts see its values.
#[derive(Drop)]
pub struct Scenario {
    pub(crate) bench: Bench,
    pub(crate) row_names: Vec<Name>,
    pub(crate) entry_names: Vec<Name>,
    pub(crate) timing: Timing,
}

impl Model for Scenario {
    ghost use Rattle.agc_scenario.specs.Scenarios.{Scenarioed};

    ghost Value = { Scenarioed };

    ghost view = { λ s. record {
      bench = s.bench;
      row_names = s.row_names.items;
      entry_names = s.entry_names.items;
      timing = s.timing;
    } };
}

impl Scenario {
    /// The bench of the scenario. Its script is empty.
    pub fn bench(&self) -> &Bench
        ensures { result.now ≡ self.now.bench }
    {
        &self.bench
    }

    /// How time passes.
    pub fn timing(&self) -> &Timing
        ensures { result.now ≡ self.now.timing }
    {
        &self.timing
    }

    /// The name of each task's row, in order.
    pub fn row_names(&self) -> &[Name]
        ensures { result.now ≡ self.now.row_names }
    {
        self.row_names.as_slice()
    }

    /// The name of each phase entry, in order.
    pub fn entry_names(&self) -> &[Name]
        ensures { result.now ≡ self.now.entry_names }
    {
        self.entry_names.as_slice()
    }
}

/// The names that texts are. A fault `Line` if one can't be shown.
#[tactic(auto, using(crate::proofs::Refusals::names_refused))]
fn names_of(alloc: Global, names: &[Option<Text<'_>>]) -> Result<Vec<Name>, BenchFault>
    ensures found { IfOk result (λ v. (v.items ≡ names.now)
        × (list_all can_be_shown names.now ≡ true)) }
    ensures refused { IfErr result (RefusedLine (list_all can_be_shown names.now ≢ true)) }
{
    all_spelled(alloc, names)
}

/// The scenario that numbers and texts spell; each text was checked when it was read.
#[tactic(auto, using(crate::proofs::Refusals::refused_bench))]
fn scenario_from_texts(
    alloc: Global,
    texts: ScenarioTexts<'_>,
    notes: &mut Notes<'_>,
) -> Result<Scenario, BenchFault>
    ensures found { IfOk result (λ s. IsScenario s × (scenario_texts s ≡ texts.entry)) }
    ensures refused { IfErr result (RefusesTexts texts.entry) }
{
    let row_names = names_of(alloc, texts.row_names.as_slice());
    let entry_names = names_of(alloc, texts.entry_names.as_slice());
    let timing = timing_of(alloc, texts.timing);
    match (row_names, entry_names, timing) {
        (Ok(row_names), Ok(entry_names), Ok(timing)) => {
            let bench = bench_from(alloc, &texts.bench, notes)?;
            Ok(Scenario {
                bench,
                row_names,
                entry_names,
                timing,
            })
        }
        (Err(fault), _, _) | (_, Err(fault), _) | (_, _, Err(fault)) => Err(fault),
    }
}

/// The scenario that a document's table is. Faults are noted, if that is wanted.
///
/// # Errors
///
/// As those of [`read_scenario`], of a text that is a document.
#[tactic(auto, using(crate::proofs::Refusals::refused_texts))]
pub fn scenario_of<'a>(
    alloc: Global,
    table: &'a Table,
    notes: &mut Notes<'a>,
) -> Result<Scenario, BenchFault>
    ensures found { IfOk result (λ s. IsScenario s
        × HasTexts (Some (table_view table.now)) (scenario_texts s)) }
    ensures refused { IfErr result (RefusesScenario (Some (table_view table.now))) }
{
    let texts = scenario_in(alloc, table, notes)?;
    scenario_from_texts(alloc, texts, notes)
}

/// The scenario that a TOML document is: its values, and the default of each key that is missing.
///
/// # Errors
///
/// The first that applies: `NotToml`; `Key`, an unknown key at any level, a missing required key, a
/// value of another kind, an integer out of range, an array of another length, a row of stolen time
/// that ends before it begins, two that overlap, two jobs of one address, a cost by lot whose least
/// is above its most or for which there is no seed, an event that counts from none above it;
/// `Line`, a text that is not of its form; `TaskTwice`, `PhaseTwice` and `TooManyAreas`, rows and
/// entries that make no plan. `NoMemory` may come in place of any.
pub fn read_scenario(alloc: Global, text: &str) -> Result<Scenario, BenchFault>
    ensures found { IfOk result (λ s. IsScenario s
        × HasTexts (parse_document text.now) (scenario_texts s)) }
    ensures refused { IfErr result (RefusesScenario (parse_document text.now)) }
{
    let table = match table_of(alloc, text)? {
        Ok(table) => table,
        Err(_error) => return Err(BenchFault::NotToml),
    };
    scenario_of(alloc, &table, &mut Notes::new(false))
}

/// Whether a document has the key `seconds`, and so should be a scenario.
pub fn is_scenario(table: &Table) -> bool
    ensures { result ≡ has_seconds (table_view table.now) }
{
    value_of(table, SECONDS).is_some()
}
