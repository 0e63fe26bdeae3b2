//! The numbers and texts of a bench, by the table of keys.
ghost use Rattle.std.specs.Prelude.{◌≡◌, ◌≤◌, ◌∷◌, [], codes, length, IfOk};
ghost use Rattle.toml.specs.View.{table_view};
ghost use Rattle.agc_word.specs.Profiles.{count_of};
ghost use Rattle.agc_plan.specs.Ranges.{IsBetween};
ghost use Rattle.agc_document.specs.Gives.{GivesOrKey};
ghost use Rattle.agc_document.specs.Rows.{kind_of, bounds_of};
ghost use Rattle.agc_document.specs.Keys.{row, entry, keys_by, pulses_by, device};
ghost use Rattle.agc_document.specs.Keys.{least, most, texts_of, read_at, read_or};
ghost use Rattle.agc_document.specs.Keys.{numbers_in, settings_in, lists_in, texts_by};
ghost use Rattle.agc_document.specs.declared.rows.TheConstants as key_of;

use crate::fault::BenchFault;
use crate::key::{Key, Kind};
use crate::key_fault::Level;
use crate::notes::Notes;
use crate::rows::{
    ACTION, ALLOWANCE, AT, ATTENDS, BANK, BENCH_KEYS, DEVICE_KEYS, EXPLORED_WORKER_KEYS, GROUP,
    JOB, KEY, LIMIT, LINE, LISTING, NAMED_PHASE_KEYS, NAMED_TASK_KEYS, PHASE, PHASE_KEYS, PHASES,
    POWER, PULSES, RADAR, REQUESTS, SCRIPT, SETS, TASK_KEYS, TASKS, WORKER_KEYS,
};
use crate::tables::{FromTable, LocatedTable, has_only, items_or_none, read_at, read_if, read_or};
use crate::texts::{
    DeviceTexts, EntryTexts, Lists, RowTexts, Settings, TextList, Texts, WorkerTexts,
};
use agc_word::Sets;

impl<'a> FromTable<'a> for RowTexts<'a> {
    ghost keys = { λ k. keys_by (kind_of k) key_of.NAMED_TASK_KEYS key_of.TASK_KEYS };

    ghost fields = { λ k. row };

    fn keys_and_level(key: Key) -> (&'a [Key], Level)
        ensures { result.0.now ≡ keys_by (kind_of key) key_of.NAMED_TASK_KEYS key_of.TASK_KEYS }
    {
        match key.kind() {
            Kind::OtherTables(_low, _high) => (&NAMED_TASK_KEYS, Level::NamedTask),
            _ => (&TASK_KEYS, Level::Task),
        }
    }

    #[tactic(auto, unfolding(crate::specs::Keys::row))]
    fn from_table(
        site: LocatedTable<'a>,
        _key: Key,
        notes: &mut Notes<'a>,
    ) -> Result<RowTexts<'a>, BenchFault> {
        let at = read_at(site, AT, notes);
        let bank = read_at(site, BANK, notes);
        let actions = read_at(site, ACTION, notes);
        match (at, bank, actions) {
            (Ok(at), Ok(bank), Ok(actions)) => Ok(RowTexts { at, bank, actions }),
            (Err(fault), ..) | (_, Err(fault), _) | (.., Err(fault)) => Err(fault),
        }
    }
}

impl<'a> FromTable<'a> for EntryTexts<'a> {
    ghost keys = { λ k. keys_by (kind_of k) key_of.NAMED_PHASE_KEYS key_of.PHASE_KEYS };

    ghost fields = { λ k. entry };

    fn keys_and_level(key: Key) -> (&'a [Key], Level)
        ensures { result.0.now ≡ keys_by (kind_of key) key_of.NAMED_PHASE_KEYS key_of.PHASE_KEYS }
    {
        match key.kind() {
            Kind::OtherTables(_low, _high) => (&NAMED_PHASE_KEYS, Level::NamedPhase),
            _ => (&PHASE_KEYS, Level::Phase),
        }
    }

    #[tactic(auto, unfolding(crate::specs::Keys::entry))]
    fn from_table(
        site: LocatedTable<'a>,
        _key: Key,
        notes: &mut Notes<'a>,
    ) -> Result<EntryTexts<'a>, BenchFault> {
        let group: Result<u64, BenchFault> = read_at(site, GROUP, notes);
        let phase: Result<u64, BenchFault> = read_at(site, PHASE, notes);
        let job = read_if(site, JOB, notes);
        let task = read_if(site, LISTING, notes);
        match (group, phase, job, task) {
            (Ok(group), Ok(phase), Ok(job), Ok(task)) => Ok(EntryTexts {
                group: group as u8,
                phase: phase as u8,
                job,
                task,
            }),
            (Err(fault), ..) | (_, Err(fault), ..) => Err(fault),
            (.., Err(fault), _) | (.., Err(fault)) => Err(fault),
        }
    }
}

impl<'a> FromTable<'a> for WorkerTexts<'a> {
    ghost keys = { λ k. keys_by (kind_of k) key_of.EXPLORED_WORKER_KEYS key_of.WORKER_KEYS };

    ghost fields = { λ k. read_at texts_of key_of.REQUESTS };

    fn keys_and_level(key: Key) -> (&'a [Key], Level)
        ensures { result.0.now
            ≡ keys_by (kind_of key) key_of.EXPLORED_WORKER_KEYS key_of.WORKER_KEYS }
    {
        match key.kind() {
            Kind::OtherTables(_low, _high) => (&EXPLORED_WORKER_KEYS, Level::Explored),
            _ => (&WORKER_KEYS, Level::Worker),
        }
    }

    fn from_table(
        site: LocatedTable<'a>,
        _key: Key,
        notes: &mut Notes<'a>,
    ) -> Result<WorkerTexts<'a>, BenchFault> {
        let script = read_at(site, REQUESTS, notes)?;
        Ok(WorkerTexts { script })
    }
}

/// The number of pulses of a device's table, by the key of the devices. One that is explored and
/// has no number never stops; it is given one.
#[tactic(auto, unfolding(crate::specs::Keys::pulses_by))]
fn pulses_by<'a>(
    site: LocatedTable<'a>,
    devices: Key,
    notes: &mut Notes<'a>,
) -> Result<u64, BenchFault>
    ensures value { GivesOrKey (λ x. x) result
        (pulses_by (kind_of devices) (table_view site.entry.table.now)) }
    ensures range { IfOk result (λ x. x ≤ 1000000) }
{
    match devices.kind() {
        Kind::OtherTables(_low, _high) => read_or(site, PULSES, 1, notes),
        _ => read_at(site, PULSES, notes),
    }
}

impl<'a> FromTable<'a> for DeviceTexts<'a> {
    ghost keys = { λ k. key_of.DEVICE_KEYS };

    ghost fields = { device };

    fn keys_and_level(_key: Key) -> (&'a [Key], Level)
        ensures { result.0.now ≡ key_of.DEVICE_KEYS }
    {
        (&DEVICE_KEYS, Level::Device)
    }

    #[tactic(auto, unfolding(crate::specs::Keys::device))]
    fn from_table(
        site: LocatedTable<'a>,
        key: Key,
        notes: &mut Notes<'a>,
    ) -> Result<DeviceTexts<'a>, BenchFault> {
        let line = read_at(site, LINE, notes);
        let pulses = pulses_by(site, key, notes);
        match (line, pulses) {
            (Ok(line), Ok(pulses)) => Ok(DeviceTexts {
                line,
                pulses: pulses as u32,
            }),
            (Err(fault), _) | (_, Err(fault)) => Err(fault),
        }
    }
}

/// The core sets that a number stands for.
fn sets_for(number: u64) -> Sets
    requires { IsBetween 7 8 number }
    ensures { count_of result ≡ number }
{
    if number == 7 {
        Sets::Seven
    } else {
        Sets::Eight
    }
}

/// The numbers of a bench: its core sets, its limit, its allowance, and how often a thread attends.
#[tactic(auto, unfolding(crate::specs::Keys::numbers_in))]
fn numbers_in<'a>(
    site: LocatedTable<'a>,
    notes: &mut Notes<'a>,
) -> Result<(Sets, u32, u64, u32), BenchFault>
    ensures value { GivesOrKey (λ n. (count_of n.0, n.1, n.2, n.3)) result
        (numbers_in (table_view site.entry.table.now)) }
    ensures range { IfOk result (λ n. (n.2 ≤ 9223372036854775807) × (n.3 ≤ 1000)) }
{
    let sets: Result<u64, BenchFault> = read_or(site, SETS, 7, notes);
    let limit: Result<u64, BenchFault> = read_or(site, LIMIT, 1000, notes);
    let allowance: Result<u64, BenchFault> = read_or(site, ALLOWANCE, 1_000_000, notes);
    let attends: Result<u64, BenchFault> = read_or(site, ATTENDS, 16, notes);
    match (sets, limit, allowance, attends) {
        (Ok(sets), Ok(limit), Ok(allowance), Ok(attends)) => {
            Ok((sets_for(sets), limit as u32, allowance, attends as u32))
        }
        (Err(fault), ..) | (_, Err(fault), ..) => Err(fault),
        (.., Err(fault), _) | (.., Err(fault)) => Err(fault),
    }
}

/// The actions of a pulse, from its key; the action `nothing` if the key is missing.
fn pulse_in<'a>(
    site: LocatedTable<'a>,
    key: Key,
    notes: &mut Notes<'a>,
) -> Result<TextList<'a>, BenchFault>
    requires { IsBetween (least key) (most key) 1 }
    ensures value { GivesOrKey (λ t. t) result
        (read_or (codes "nothing" ∷ []) texts_of key (table_view site.entry.table.now)) }
    ensures range { IfOk result (λ t. IsBetween (least key) (most key) (length t)) }
{
    let nothing = TextList::of(site.alloc, "nothing")?;
    read_or(site, key, nothing, notes)
}

/// Reads the single values of a bench from the table of a document.
#[tactic(auto, unfolding(crate::specs::Keys::settings_in))]
pub fn settings_in<'a>(
    site: LocatedTable<'a>,
    notes: &mut Notes<'a>,
) -> Result<Settings<'a>, BenchFault>
    ensures value { GivesOrKey (λ s. s) result (settings_in (table_view site.entry.table.now)) }
{
    let numbers = numbers_in(site, notes);
    let key = pulse_in(site, KEY, notes);
    let radar = pulse_in(site, RADAR, notes);
    let power = read_if(site, POWER, notes);
    match (numbers, key, radar, power) {
        (Ok((sets, limit, allowance, attends)), Ok(key), Ok(radar), Ok(power)) => Ok(Settings {
            sets,
            limit,
            allowance,
            attends,
            key,
            radar,
            power,
        }),
        (Err(fault), ..) | (_, Err(fault), ..) => Err(fault),
        (.., Err(fault), _) | (.., Err(fault)) => Err(fault),
    }
}

#[tactic(auto, unfolding(crate::specs::Keys::lists_in))]
fn lists_in<'a>(
    site: LocatedTable<'a>,
    workers: Key,
    devices: Key,
    notes: &mut Notes<'a>,
) -> Result<Lists<'a>, BenchFault>
    requires workers { bounds_of (kind_of workers) ≡ (0, 32) }
    requires devices { bounds_of (kind_of devices) ≡ (0, 32) }
    ensures value { GivesOrKey (λ l. l) result
        (lists_in workers devices (table_view site.entry.table.now)) }
{
    let script = read_or(site, SCRIPT, TextList::none(site.alloc), notes);
    let rows = items_or_none(site, TASKS, notes);
    let entries = items_or_none(site, PHASES, notes);
    let workers = items_or_none(site, workers, notes);
    let devices = items_or_none(site, devices, notes);
    match (script, rows, entries, workers, devices) {
        (Ok(script), Ok(rows), Ok(entries), Ok(workers), Ok(devices)) => Ok(Lists {
            script,
            rows,
            entries,
            workers,
            devices,
        }),
        (Err(fault), ..) | (_, Err(fault), ..) | (_, _, Err(fault), ..) => Err(fault),
        (.., Err(fault), _) | (.., Err(fault)) => Err(fault),
    }
}

/// The numbers and texts of a document, by the keys of its workers and its devices. A fault `Key`
/// if a key or the kind, range or length of its value is wrong, which is noted.
#[tactic(auto, unfolding(crate::specs::Keys::texts_by))]
pub fn texts_by<'a>(
    site: LocatedTable<'a>,
    workers: Key,
    devices: Key,
    notes: &mut Notes<'a>,
) -> Result<Texts<'a>, BenchFault>
    requires workers { bounds_of (kind_of workers) ≡ (0, 32) }
    requires devices { bounds_of (kind_of devices) ≡ (0, 32) }
    ensures value { GivesOrKey (λ t. t) result
        (texts_by workers devices (table_view site.entry.table.now)) }
{
    let check_keys = has_only(site, &BENCH_KEYS, Level::Bench, notes);
    let settings = check_keys.and(settings_in(site, notes));
    let lists = lists_in(site, workers, devices, notes);
    match (settings, lists) {
        (Ok(settings), Ok(lists)) => Ok(Texts { settings, lists }),
        (Err(fault), _) | (_, Err(fault)) => Err(fault),
    }
}
