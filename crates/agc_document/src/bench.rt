ghost use Rattle.std.specs.Prelude.{◌≡◌, ◌≢◌, ◌≤◌, ◌⊎◌, length, map, Some, None, IfOk, IfErr};
ghost use Rattle.std.specs.Prelude.{IfSome, IfNone};
ghost use Rattle.std.specs.Option.{option_map};
ghost use Rattle.toml.specs.Parse.{parse_document};
ghost use Rattle.toml.specs.View.{table_view};
ghost use Rattle.agc_word.specs.Profiles.{count_of};
ghost use Rattle.agc_plan.specs.Plans.{fault_of};
ghost use Rattle.agc_plan.specs.Ranges.{IsBetween};
ghost use Rattle.agc_text.specs.Numbers.{octal};
ghost use Rattle.agc_text.specs.Lines.{action_line_of};
ghost use Rattle.agc_document.specs.Benches.{Benched, bench_texts, settings_texts, AreActions};
ghost use Rattle.agc_document.specs.Benches.{IsPower, IsInRange, IsBench};
ghost use Rattle.agc_document.specs.Faults.{bench_fault, HasTexts, RefusesTexts, RefusesBench};
ghost use Rattle.agc_document.specs.Gives.{RefusedLine};

use crate::fault::BenchFault;
use crate::keys::texts_by;
use crate::notes::Notes;
use crate::rows::{DEVICES, WORKERS};
use crate::tables::{LocatedTable, table_of};
use crate::texts::{Settings, Texts};
use crate::twice::refused_at;
use crate::values::{actions_of, all_spelled, power_of, workers_of};
use agc_plan::{Actions, Limit, Line, PhaseEntry, Plan, PlanFault, Request, Task};
use agc_word::{Sets, Word};
use std::alloc::Global;
use std::marker::Model;
use toml::Table;

#[derive(Drop)]
struct Parts {
    sets: Sets,
    limit: Limit,
    allowance: u64,
    attends: u32,
    key: Actions,
    radar: Actions,
    power: Option<[Word; 12]>,
    script: Vec<Request>,
    rows: Vec<(Task, Actions)>,
    entries: Vec<PhaseEntry>,
    workers: Vec<Vec<Request>>,
    devices: Vec<(Line, u32)>,
}

impl Model for Parts {
    ghost use Rattle.std.specs.Prelude.{map};
    ghost use Rattle.agc_word.specs.Profiles.{count_of};
    ghost use Rattle.agc_document.specs.Benches.{Benched};

    ghost Value = { Benched };

    ghost view = { λ p. record {
      sets = count_of p.sets;
      limit = p.limit;
      allowance = p.allowance;
      attends = p.attends;
      key = p.key;
      radar = p.radar;
      power = p.power;
      script = p.script.items;
      rows = p.rows.items;
      entries = p.entries.items;
      workers = map (λ w. w.items) p.workers.items;
      devices = p.devices.items;
    } };
}

/// A bench: what a machine is run on. Its numbers are in their ranges, and its rows and entries
/// make a plan. Contracts see its values.
#[derive(Drop)]
pub struct Bench {
    parts: Parts,
}

impl Model for Bench {
    ghost use Rattle.agc_document.specs.Benches.{Benched, IsBench};

    ghost Value = { Benched };

    ghost view = { λ b. b.parts };

    ghost invariant = { λ b. IsBench b.parts };
}

impl Bench {
    /// How many core sets the machine has.
    pub fn sets(&self) -> Sets
        ensures { count_of result ≡ self.now.sets }
    {
        self.parts.sets
    }

    /// How many requests the log may hold, 1 to 1,000,000.
    pub fn limit(&self) -> Limit
        ensures { result ≡ self.now.limit }
    {
        self.parts.limit
    }

    /// How many requests the machine may serve, below 2 to the 63rd.
    pub fn allowance(&self) -> u64
        ensures value { result ≡ self.now.allowance }
        ensures range { result ≤ 9223372036854775807 }
    {
        self.parts.allowance
    }

    /// How often one thread attends to pulses while `threads` of `agc_bench` runs, 0 to 1000.
    pub fn attends(&self) -> u32
        ensures value { result ≡ self.now.attends }
        ensures range { result ≤ 1000 }
    {
        self.parts.attends
    }

    /// The actions of a key pulse, in order: one to four.
    pub fn key(&self) -> &Actions
        ensures value { result.now ≡ self.now.key }
        ensures range { IsBetween 1 4 (length result.now) }
    {
        &self.parts.key
    }

    /// The actions of a radar pulse, in order: one to four.
    pub fn radar(&self) -> &Actions
        ensures value { result.now ≡ self.now.radar }
        ensures range { IsBetween 1 4 (length result.now) }
    {
        &self.parts.radar
    }

    /// The twelve phase words of a power-up, -PHASE1 first. None for a fresh start.
    pub fn power(&self) -> Option<[Word; 12]>
        ensures { result ≡ self.now.power }
    {
        self.parts.power
    }

    /// The requests that come first, in order.
    pub fn script(&self) -> &[Request]
        ensures { result.now ≡ self.now.script }
    {
        self.parts.script.as_slice()
    }

    /// The actions of each task that has any. Together with `entries` these rows make a plan,
    /// unless memory runs out.
    pub fn rows(&self) -> &[(Task, Actions)]
        ensures value { result.now ≡ self.now.rows }
        ensures check_plan { fault_of self.now.rows self.now.entries ≡ None }
    {
        self.parts.rows.as_slice()
    }

    /// The restart entries: each begins with an era while its group is in its phase.
    pub fn entries(&self) -> &[PhaseEntry]
        ensures value { result.now ≡ self.now.entries }
        ensures check_plan { fault_of self.now.rows self.now.entries ≡ None }
    {
        self.parts.entries.as_slice()
    }

    /// The requests of each worker, in order; at most 32 workers.
    pub fn workers(&self) -> &[Vec<Request>]
        ensures value { map (λ w. w.items) result.now ≡ self.now.workers }
        ensures few { length result.now ≤ 32 }
    {
        self.parts.workers.as_slice()
    }

    /// The line of each device, and how many pulses it sends, 0 to 1,000,000; at most 32 devices.
    pub fn devices(&self) -> &[(Line, u32)]
        ensures value { result.now ≡ self.now.devices }
        ensures few { length result.now ≤ 32 }
    {
        self.parts.devices.as_slice()
    }
}

/// The value of an option. A fault `Line` if there is none.
pub fn or_line<T: Drop>(value: Option<T>) -> Result<T, BenchFault>
    ensures found { IfOk result (λ x. value ≡ Some x) }
    ensures refused { IfErr result (λ fault. (fault ≡ BenchFault.Line) × (value ≡ None)) }
{
    match value {
        Some(value) => Ok(value),
        None => Err(BenchFault::Line),
    }
}

/// The limit, the actions of both pulses, and the power-up that numbers and texts spell.
fn once_of(texts: &Settings<'_>) -> Option<(Limit, Actions, Actions, Option<[Word; 12]>)>
    ensures limit { IfSome result (λ p. IsBetween 1 1000000 p.0 × (texts.now.limit ≡ p.0)) }
    ensures key { IfSome result (λ p. AreActions p.1
        × (texts.now.key ≡ map action_line_of p.1)) }
    ensures radar { IfSome result (λ p. AreActions p.2
        × (texts.now.radar ≡ map action_line_of p.2)) }
    ensures power { IfSome result (λ p. IfSome p.3 IsPower
        × (texts.now.power ≡ option_map (map (octal 5)) p.3)) }
    ensures only { IfNone result
        ((b : Benched) → IsInRange b → texts.now ≢ settings_texts b) }
{
    let limit = Limit::new(texts.limit);
    let key = actions_of(texts.key.as_slice());
    let radar = actions_of(texts.radar.as_slice());
    let power = power_of(&texts.power);
    match (limit, key, radar, power) {
        (Some(limit), Some(key), Some(radar), Some(power)) => Some((limit, key, radar, power)),
        _ => None,
    }
}

/// The values that numbers and texts spell.
fn parts_of(alloc: Global, texts: &Texts<'_>) -> Result<Parts, BenchFault>
    ensures found { IfOk result (λ p. IsInRange (p) × (texts.now ≡ bench_texts (p))) }
    ensures refused { IfErr result (RefusedLine
        ((b : Benched) → IsInRange b → texts.now ≢ bench_texts b)) }
{
    let Some((limit, key, radar, power)) = once_of(&texts.settings) else {
        return Err(BenchFault::Line);
    };
    let script = all_spelled(alloc, texts.lists.script.as_slice());
    let rows = all_spelled(alloc, texts.lists.rows.as_slice());
    let entries = all_spelled(alloc, texts.lists.entries.as_slice());
    let workers = workers_of(alloc, texts.lists.workers.as_slice());
    let devices = all_spelled(alloc, texts.lists.devices.as_slice());
    match (script, rows, entries, workers, devices) {
        (Ok(script), Ok(rows), Ok(entries), Ok(workers), Ok(devices)) => Ok(Parts {
            sets: texts.settings.sets,
            limit,
            allowance: texts.settings.allowance,
            attends: texts.settings.attends,
            key,
            radar,
            power,
            script,
            rows,
            entries,
            workers,
            devices,
        }),
        (Err(fault), ..) | (_, Err(fault), ..) | (_, _, Err(fault), ..) => Err(fault),
        (.., Err(fault), _) | (.., Err(fault)) => Err(fault),
    }
}

/// Checks whether the rows and entries of parts make a plan.
fn check_plan(alloc: Global, parts: &Parts) -> Result<(), PlanFault>
    ensures found { IfOk result (λ _. fault_of parts.now.rows parts.now.entries ≡ None) }
    ensures refused { IfErr result (λ fault. (fault ≡ PlanFault.NoMemory)
        ⊎ (fault_of parts.now.rows parts.now.entries ≡ Some fault)) }
{
    match Plan::with_lists(
        alloc,
        parts.rows.as_slice(),
        parts.entries.as_slice(),
        parts.key.copied(),
        parts.radar.copied(),
    ) {
        Ok(_plan) => Ok(()),
        Err(fault) => Err(fault),
    }
}

/// Notes the place of a plan's fault, and returns the fault that a bench has for it; `NoMemory` if
/// there is none to find the place.
fn fault_at(alloc: Global, fault: PlanFault, parts: &Parts, notes: &mut Notes<'_>) -> BenchFault
    ensures { (result ≡ BenchFault.NoMemory) ⊎ (result ≡ bench_fault fault) }
{
    match refused_at(
        alloc,
        fault,
        parts.rows.as_slice(),
        parts.entries.as_slice(),
    ) {
        Ok(place) => {
            notes.plan = place;
            BenchFault::from(fault)
        }
        Err(_error) => BenchFault::NoMemory,
    }
}

/// The bench that numbers and texts spell; each text was checked when it was read. If rows and
/// entries make no plan, the place is noted.
///
/// # Errors
///
/// The first that applies: a text that is not of its form, or rows and entries that make no plan.
/// `NoMemory` may come in place of any.
#[tactic(auto, using(crate::proofs::Refusals::refused_line, crate::proofs::Refusals::refused_plan))]
pub fn bench_from(
    alloc: Global,
    texts: &Texts<'_>,
    notes: &mut Notes<'_>,
) -> Result<Bench, BenchFault>
    ensures found { IfOk result (λ b. IsBench b × (texts.now ≡ bench_texts b)) }
    ensures refused { IfErr result (RefusesTexts texts.now) }
{
    let parts = parts_of(alloc, texts)?;
    match check_plan(alloc, &parts) {
        Ok(()) => Ok(Bench { parts }),
        Err(fault) => Err(fault_at(alloc, fault, &parts, notes)),
    }
}

/// The bench that a document's table is. Faults are noted, if that is wanted.
///
/// # Errors
///
/// As those of [`read_bench`], of a text that is a document.
#[tactic(auto, using(crate::proofs::Refusals::refused_texts))]
pub fn bench_of<'a>(
    alloc: Global,
    table: &'a Table,
    notes: &mut Notes<'a>,
) -> Result<Bench, BenchFault>
    ensures found { IfOk result (λ b. IsBench b
        × HasTexts (Some (table_view table.now)) (bench_texts b)) }
    ensures refused { IfErr result (RefusesBench (Some (table_view table.now))) }
{
    let texts = texts_by(
        LocatedTable::of_document(alloc, table),
        WORKERS,
        DEVICES,
        notes,
    )?;
    bench_from(alloc, &texts, notes)
}

/// The bench that a TOML document is: its values, and the default of each key that is missing.
///
/// # Errors
///
/// The first that applies: `NotToml`; `Key`, an unknown key at any level, a missing required key, a
/// value of another kind, an integer out of range, `power` or actions of another length, more than
/// 32 workers or devices; `Line`, a text that is not of its form; `TaskTwice`, `PhaseTwice` and
/// `TooManyAreas`, rows and entries that make no plan. `NoMemory` may come in place of any.
#[tactic(auto, using(crate::proofs::Refusals::refused_in, crate::proofs::Refusals::texts_of))]
pub fn read_bench(alloc: Global, text: &str) -> Result<Bench, BenchFault>
    ensures found { IfOk result (λ b. IsBench b
        × HasTexts (parse_document text.now) (bench_texts b)) }
    ensures refused { IfErr result (RefusesBench (parse_document text.now)) }
{
    match table_of(alloc, text) {
        Ok(Ok(table)) => bench_of(alloc, &table, &mut Notes::new(false)),
        Ok(Err(_error)) => Err(BenchFault::NotToml),
        Err(_error) => Err(BenchFault::NoMemory),
    }
}
