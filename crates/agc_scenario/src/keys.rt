//! The numbers and texts of a scenario, by the table of keys.
ghost use Rattle.std.specs.Prelude.{◌≡◌, ◌≤◌, ◌∷◌, ◌++◌, [], codes, map, IfOk, IfSome, OnOk};
ghost use Rattle.std.specs.Prelude.{if◌then◌else◌, Some, None};
ghost use Rattle.toml.specs.View.{view, table_view};
ghost use Rattle.agc_document.specs.declared.key.Key.{Key as AnyKey};
ghost use Rattle.agc_document.specs.Gives.{GivesOrKey};
ghost use Rattle.agc_document.specs.Keys.{least, most, number_of, read_at, read_if, read_or};
ghost use Rattle.agc_document.specs.Keys.{texts_of};
ghost use Rattle.agc_scenario.specs.declared.rows.TheConstants as key_of;
ghost use Rattle.agc_scenario.specs.Keys.{forward, stolen_rows, read_named};
ghost use Rattle.agc_scenario.specs.Keys.{stolen_row, job, event, always, ample_settings_in};
ghost use Rattle.agc_scenario.specs.Keys.{ascending, cost, drawn_cost, is_coherent};
ghost use Rattle.agc_scenario.specs.Keys.{timing_in, named_in, texts_with, scenario_in};

use crate::apart::{are_apart, are_distinct};
use crate::counting::{can_draw, count_from_above};
use crate::rows::{
    AFTER, BEFORE, COST, COST_KEYS, DEADLINE, DO, EVENT_KEYS, EVENTS, EVERY, FROM, JOB_KEYS, JOBS,
    LAST, LEAST, MOMENT, MOST, NAMED_PHASES, NAMED_TASKS, PERCENT, SCENARIO_KEYS, SECONDS, SEED,
    STEAL, STEAL_KEYS, THEN, TITLE, TO, UNTIL,
};
use crate::texts::{
    EventTexts, JobTexts, Named, NamedTexts, ScenarioTexts, StolenRow, TimingTexts,
};
use crate::timing::CostRange;
use agc_clock::{LAST_TIME, Stolen};
use agc_document::rows::{ALLOWANCE, AT, LIMIT, NAME};
use agc_document::{
    BenchFault, FromData, FromTable, Key, KeyFault, Level, Lists, LocatedTable, LocatedValue,
    Location, Notes, Settings, Text, TextList, Texts, has_only, items_of, items_or_none, read_at,
    read_if, read_or, settings_in, table_in, value_of,
};
use agc_text::parse_line;
use std::alloc::{AllocError, Global};
use toml::{Table, Value};

impl<'a, T: FromTable<'a>> FromTable<'a> for Named<'a, T> {
    ghost keys = { T.keys };

    ghost fields = { λ k. read_named (T.fields k) };

    fn keys_and_level(key: Key) -> (&'a [Key], Level)
        ensures { result.0.now ≡ T.keys key }
    {
        T::keys_and_level(key)
    }

    #[tactic(auto, unfolding(crate::specs::Keys::read_named))]
    fn from_table(
        site: LocatedTable<'a>,
        key: Key,
        notes: &mut Notes<'a>,
    ) -> Result<Self, BenchFault> {
        let item = T::from_table(site, key, notes);
        let name = read_if(site, NAME, notes);
        match (item, name) {
            (Ok(item), Ok(name)) => Ok(Named { item, name }),
            (Err(fault), _) | (_, Err(fault)) => Err(fault),
        }
    }
}

/// The row of stolen time, if it ends after it begins, and doesn't come again before it ends.
fn forward<'a>(row: Stolen, place: Location, notes: &mut Notes<'a>) -> Result<StolenRow, BenchFault>
    ensures value { GivesOrKey (λ r. r) result (forward row) }
{
    if row.to <= row.from {
        Err(notes.key(place, "", KeyFault::Backward))
    } else if row.every != 0 && row.every < row.to - row.from {
        Err(notes.key(place, "", KeyFault::OverlapsItself))
    } else {
        Ok(StolenRow { row })
    }
}

/// An integer of a table, if it is there.
fn number_if<'a>(
    site: LocatedTable<'a>,
    key: Key,
    notes: &mut Notes<'a>,
) -> Result<Option<u32>, BenchFault>
    requires { most key ≤ 2147483646 }
    ensures value { GivesOrKey (λ o. o) result
        (read_if number_of key (table_view site.entry.table.now)) }
    ensures range { IfOk result (λ o. IfSome o (λ n. least key ≤ n)) }
{
    let number: Option<u64> = read_if(site, key, notes)?;
    match number {
        None => Ok(None),
        Some(number) => Ok(Some(number as u32)),
    }
}

impl<'a> FromTable<'a> for StolenRow {
    ghost keys = { λ k. key_of.STEAL_KEYS };

    ghost fields = { λ k. stolen_row };

    fn keys_and_level(_key: Key) -> (&'a [Key], Level)
        ensures { result.0.now ≡ key_of.STEAL_KEYS }
    {
        (&STEAL_KEYS, Level::Steal)
    }

    #[tactic(auto, unfolding(crate::specs::Keys::stolen_row))]
    fn from_table(
        site: LocatedTable<'a>,
        _key: Key,
        notes: &mut Notes<'a>,
    ) -> Result<StolenRow, BenchFault> {
        let from: Result<u64, BenchFault> = read_at(site, FROM, notes);
        let to: Result<u64, BenchFault> = read_at(site, TO, notes);
        let percent: Result<u64, BenchFault> = read_at(site, PERCENT, notes);
        let every = number_if(site, EVERY, notes);
        let until = number_if(site, UNTIL, notes);
        match (from, to, percent, every, until) {
            (Ok(from), Ok(to), Ok(percent), Ok(every), Ok(until)) => {
                let row = Stolen {
                    from: from as u32,
                    to: to as u32,
                    percent: percent as u32,
                    every: every.unwrap_or(0),
                    until: until.unwrap_or(LAST_TIME),
                };
                forward(row, site.place, notes)
            }
            (Err(fault), ..) | (_, Err(fault), ..) | (_, _, Err(fault), ..) => Err(fault),
            (.., Err(fault), _) | (.., Err(fault)) => Err(fault),
        }
    }
}

/// Notes a request of a job at a place where the job can't make it.
fn look_at_request<'a>(text: &'a str, is_last: bool, place: Location, notes: &mut Notes<'a>) {
    if parse_line(text).is_some() {
        notes.look_at(place, text, if is_last { LAST } else { BEFORE });
    }
}

/// Notes the requests of a job at places where the job can't make them.
fn look_at_order<'a>(site: LocatedTable<'a>, notes: &mut Notes<'a>) {
    let Some(value) = value_of(site.table, THEN) else {
        return;
    };
    let place = site.place.of_value(THEN);
    if let Some(text) = value.as_str() {
        look_at_request(text, true, place, notes);
    }
    if let Some(values) = value.as_array() {
        for (k, value) in values.iter().enumerate() {
            if let Some(text) = value.as_str() {
                let place = place.of_item(k as u64 + 1);
                look_at_request(text, k + 1 == values.len(), place, notes);
            }
        }
    }
}

/// A cost, if its least isn't above its most.
fn ascending<'a>(
    cost: CostRange,
    place: Location,
    notes: &mut Notes<'a>,
) -> Result<CostRange, BenchFault>
    ensures value { GivesOrKey (λ c. c) result (ascending cost) }
    ensures order { IfOk result (λ c. c.from ≤ c.to) }
    ensures same { IfOk result (λ c. c ≡ cost) }
{
    if cost.from <= cost.to {
        Ok(cost)
    } else {
        Err(notes.key(place, "", KeyFault::LeastAboveMost))
    }
}

/// A cost that is drawn.
#[tactic(auto, unfolding(crate::specs::Keys::drawn_cost))]
fn drawn_cost<'a>(
    with_base: LocatedValue<'a>,
    notes: &mut Notes<'a>,
) -> Result<CostRange, BenchFault>
    ensures value { GivesOrKey (λ c. c) result (drawn_cost (view with_base.entry.value.now)) }
    ensures order { IfOk result (λ c. c.from ≤ c.to) }
    ensures range { IfOk result (λ c. c.to ≤ 1000000) }
{
    let site = table_in(with_base, notes)?;
    let check_keys = has_only(site, &COST_KEYS, Level::Cost, notes);
    let from: Result<u64, BenchFault> = check_keys.and(read_at(site, LEAST, notes));
    let to: Result<u64, BenchFault> = read_at(site, MOST, notes);
    match (from, to) {
        (Ok(from), Ok(to)) => {
            let cost = CostRange {
                from: from as u32,
                to: to as u32,
            };
            ascending(cost, site.place, notes)
        }
        (Err(fault), _) | (_, Err(fault)) => Err(fault),
    }
}

/// A job's cost: a fixed number, or a range from which it is drawn.
fn cost_of<'a>(
    site: LocatedTable<'a>,
    value: &'a Value,
    notes: &mut Notes<'a>,
) -> Result<CostRange, BenchFault>
    ensures value { GivesOrKey (λ c. c) result (cost key_of.COST (view value.now)) }
    ensures order { IfOk result (λ c. c.from ≤ c.to) }
    ensures range { IfOk result (λ c. c.to ≤ 1000000) }
{
    let with_base = site.with_value(value, COST);
    match value.as_table() {
        Some(_table) => drawn_cost(with_base, notes),
        None => {
            let cost: u64 = u64::from_value(with_base, notes)?;
            Ok(CostRange {
                from: cost as u32,
                to: cost as u32,
            })
        }
    }
}

/// A job's cost that is given as a table.
fn cost_in<'a>(site: LocatedTable<'a>, notes: &mut Notes<'a>) -> Result<CostRange, BenchFault>
    ensures value { GivesOrKey (λ c. c) result
        (read_at cost key_of.COST (table_view site.entry.table.now)) }
    ensures order { IfOk result (λ c. c.from ≤ c.to) }
    ensures range { IfOk result (λ c. c.to ≤ 1000000) }
{
    match value_of(site.table, COST) {
        Some(value) => cost_of(site, value, notes),
        None => Err(notes.key(site.place, "", KeyFault::Missing(COST))),
    }
}

/// The requests of a job when its cost is used up; its end, if its table doesn't say.
fn requests_in<'a>(
    site: LocatedTable<'a>,
    notes: &mut Notes<'a>,
) -> Result<TextList<'a>, BenchFault>
    ensures value { GivesOrKey (λ t. t) result
        (read_or (codes "end" ∷ []) texts_of key_of.THEN (table_view site.entry.table.now)) }
{
    let end = TextList::of(site.alloc, "end")?;
    let requests = read_or(site, THEN, end, notes);
    look_at_order(site, notes);
    requests
}

impl<'a> FromTable<'a> for JobTexts<'a> {
    ghost keys = { λ k. key_of.JOB_KEYS };

    ghost fields = { λ k. job };

    fn keys_and_level(_key: Key) -> (&'a [Key], Level)
        ensures { result.0.now ≡ key_of.JOB_KEYS }
    {
        (&JOB_KEYS, Level::Job)
    }

    #[tactic(auto, unfolding(crate::specs::Keys::job))]
    fn from_table(
        site: LocatedTable<'a>,
        _key: Key,
        notes: &mut Notes<'a>,
    ) -> Result<JobTexts<'a>, BenchFault> {
        let at = read_at(site, AT, notes);
        let cost = cost_in(site, notes);
        let deadline = number_if(site, DEADLINE, notes);
        let requests = requests_in(site, notes);
        let name = read_if(site, NAME, notes);
        match (at, cost, deadline, requests, name) {
            (Ok(at), Ok(cost), Ok(deadline), Ok(requests), Ok(name)) => Ok(JobTexts {
                at,
                cost,
                deadline,
                requests,
                name,
            }),
            (Err(fault), ..) | (_, Err(fault), ..) | (_, _, Err(fault), ..) => Err(fault),
            (.., Err(fault), _) | (.., Err(fault)) => Err(fault),
        }
    }
}

impl<'a> FromTable<'a> for EventTexts<'a> {
    ghost keys = { λ k. key_of.EVENT_KEYS };

    ghost fields = { λ k. event };

    fn keys_and_level(_key: Key) -> (&'a [Key], Level)
        ensures { result.0.now ≡ key_of.EVENT_KEYS }
    {
        (&EVENT_KEYS, Level::Event)
    }

    #[tactic(auto, unfolding(crate::specs::Keys::event))]
    fn from_table(
        site: LocatedTable<'a>,
        _key: Key,
        notes: &mut Notes<'a>,
    ) -> Result<EventTexts<'a>, BenchFault> {
        let at: Result<u64, BenchFault> = read_at(site, MOMENT, notes);
        let after = read_if(site, AFTER, notes);
        let requests = read_at(site, DO, notes);
        let every = number_if(site, EVERY, notes);
        let until = number_if(site, UNTIL, notes);
        let name = read_if(site, NAME, notes);
        match (at, after, requests, every, until, name) {
            (Ok(at), Ok(after), Ok(requests), Ok(every), Ok(until), Ok(name)) => Ok(EventTexts {
                at: at as u32,
                after,
                requests,
                every,
                until,
                name,
            }),
            (Err(fault), ..) | (_, Err(fault), ..) | (_, _, Err(fault), ..) => Err(fault),
            (.., Err(fault), _, _) | (.., Err(fault), _) | (.., Err(fault)) => Err(fault),
        }
    }
}

/// The rows themselves, in order.
fn rows_of(alloc: Global, rows: &[StolenRow]) -> Result<Vec<Stolen>, AllocError>
    ensures { IfOk result (λ v. v.items ≡ rows.now) }
{
    let mut stolen = Vec::new(alloc);
    for row in rows {
        stolen.push(row.row)?;
    }
    Ok(stolen)
}

/// One row for all the time that a scenario may last.
pub(crate) fn always(alloc: Global, percent: u64) -> Result<Vec<Stolen>, AllocError>
    requires { percent ≤ 100 }
    ensures { IfOk result (λ v. v.items ≡ always percent) }
{
    let mut rows = Vec::new(alloc);
    rows.push(Stolen {
        from: 0,
        to: LAST_TIME + 1,
        percent: percent as u32,
        every: 0,
        until: LAST_TIME,
    })?;
    Ok(rows)
}

/// The rows of stolen time: a percent alone, or an array of tables.
fn stolen_rows<'a>(
    site: LocatedTable<'a>,
    value: &'a Value,
    notes: &mut Notes<'a>,
) -> Result<Vec<Stolen>, BenchFault>
    ensures value { GivesOrKey (λ v. v.items) result (stolen_rows key_of.STEAL (view value.now)) }
{
    let with_base = site.with_value(value, STEAL);
    match value.as_integer() {
        Some(_percent) => {
            let percent: u64 = u64::from_value(with_base, notes)?;
            let rows = always(site.alloc, percent)?;
            Ok(rows)
        }
        None => {
            let rows: Vec<StolenRow> = items_of(with_base, notes)?;
            let stolen = rows_of(site.alloc, rows.as_slice())?;
            Ok(stolen)
        }
    }
}

/// The rows of stolen time of a document, none if it has none.
fn stolen_in<'a>(site: LocatedTable<'a>, notes: &mut Notes<'a>) -> Result<Vec<Stolen>, BenchFault>
    ensures value { GivesOrKey (λ v. v.items) result
        (read_or [] stolen_rows key_of.STEAL (table_view site.entry.table.now)) }
{
    match value_of(site.table, STEAL) {
        None => Ok(Vec::new(site.alloc)),
        Some(value) => stolen_rows(site, value, notes),
    }
}

/// Whether the timing is coherent: rows of stolen time don't overlap, no two jobs have one address,
/// costs can be drawn, and events count from events above them or from alarms.
fn is_coherent(texts: &TimingTexts<'_>, notes: &mut Notes<'_>) -> bool
    ensures { result ≡ is_coherent texts.now }
{
    let are_apart = are_apart(texts.stolen.as_slice(), 1, notes);
    let are_distinct = are_distinct(texts.jobs.as_slice(), 1, notes);
    let can_draw = can_draw(texts.seed, texts.jobs.as_slice(), notes);
    let count_from_above = count_from_above(texts.events.as_slice(), notes);
    are_apart && are_distinct && can_draw && count_from_above
}

/// The value, if it is coherent; otherwise a fault `Key`.
fn if_coherent<T: Drop>(is_coherent: bool, read: T) -> Result<T, BenchFault>
    ensures { GivesOrKey (λ x. x) result (if is_coherent then Some read else None) }
{
    if is_coherent {
        Ok(read)
    } else {
        Err(BenchFault::Key)
    }
}

/// Reads how time passes.
#[tactic(auto, unfolding(crate::specs::Keys::timing_in))]
fn timing_in<'a>(
    site: LocatedTable<'a>,
    notes: &mut Notes<'a>,
) -> Result<TimingTexts<'a>, BenchFault>
    ensures value { GivesOrKey (λ t. t) result (timing_in (table_view site.entry.table.now)) }
{
    let seconds: Result<u64, BenchFault> = read_at(site, SECONDS, notes);
    let title = read_if(site, TITLE, notes);
    let seed = number_if(site, SEED, notes);
    let stolen = stolen_in(site, notes);
    let jobs = items_or_none(site, JOBS, notes);
    let events = items_or_none(site, EVENTS, notes);
    match (seconds, title, seed, stolen, jobs, events) {
        (Ok(seconds), Ok(title), Ok(seed), Ok(stolen), Ok(jobs), Ok(events)) => {
            let texts = TimingTexts {
                seconds: seconds as u32,
                title,
                seed,
                stolen,
                jobs,
                events,
            };
            if_coherent(is_coherent(&texts, notes), texts)
        }
        (Err(fault), ..) | (_, Err(fault), ..) | (_, _, Err(fault), ..) => Err(fault),
        (.., Err(fault), _, _) | (.., Err(fault), _) | (.., Err(fault)) => Err(fault),
    }
}

/// Reads the tasks and phases.
#[tactic(auto, unfolding(crate::specs::Keys::named_in))]
fn named_in<'a>(site: LocatedTable<'a>, notes: &mut Notes<'a>) -> Result<NamedTexts<'a>, BenchFault>
    ensures value { GivesOrKey (λ t. t) result (named_in (table_view site.entry.table.now)) }
{
    let rows = items_or_none(site, NAMED_TASKS, notes);
    let entries = items_or_none(site, NAMED_PHASES, notes);
    match (rows, entries) {
        (Ok(rows), Ok(entries)) => Ok(NamedTexts { rows, entries }),
        (Err(fault), _) | (_, Err(fault)) => Err(fault),
    }
}

/// Appends an item, and its name.
fn push_both<'a, T: Drop>(
    items: &mut Vec<T>,
    names: &mut Vec<Option<Text<'a>>>,
    one: Named<'a, T>,
) -> Result<(), AllocError>
    ensures items { OnOk result (items.new.items ≡ items.old.items ++ one.entry.item ∷ []) }
    ensures names { OnOk result (names.new.items ≡ names.old.items ++ one.entry.name ∷ []) }
{
    let Named { item, name } = one;
    items.push(item)?;
    names.push(name)?;
    Ok(())
}

/// The items without their names, and the names.
fn items_and_names<'a, T: Drop>(
    alloc: Global,
    read_named: Vec<Named<'a, T>>,
) -> Result<(Vec<T>, Vec<Option<Text<'a>>>), AllocError>
    ensures items { IfOk result (λ r. r.0.items ≡ map (λ n. n.item) read_named.entry.items) }
    ensures names { IfOk result (λ r. r.1.items ≡ map (λ n. n.name) read_named.entry.items) }
{
    let mut items = Vec::new(alloc);
    let mut names = Vec::new(alloc);
    for one in read_named {
        push_both(&mut items, &mut names, one)?;
    }
    Ok((items, names))
}

/// The texts of a scenario that has these settings, tasks and phases.
fn texts_with<'a>(
    alloc: Global,
    settings: Settings<'a>,
    read_named: NamedTexts<'a>,
    timing: TimingTexts<'a>,
) -> Result<ScenarioTexts<'a>, AllocError>
    ensures { IfOk result (λ t. t ≡ texts_with settings.entry read_named.entry timing.entry) }
{
    let (rows, row_names) = items_and_names(alloc, read_named.rows)?;
    let (entries, entry_names) = items_and_names(alloc, read_named.entries)?;
    let lists = Lists {
        script: TextList::none(alloc),
        rows,
        entries,
        workers: Vec::new(alloc),
        devices: Vec::new(alloc),
    };
    Ok(ScenarioTexts {
        bench: Texts { settings, lists },
        row_names,
        entry_names,
        timing,
    })
}

/// The single values of a scenario: as in a bench, but the greatest limit and allowance by default.
#[tactic(auto, unfolding(crate::specs::Keys::ample_settings_in))]
fn ample_settings_in<'a>(
    site: LocatedTable<'a>,
    notes: &mut Notes<'a>,
) -> Result<Settings<'a>, BenchFault>
    ensures value { GivesOrKey (λ s. s) result
        (ample_settings_in (table_view site.entry.table.now)) }
{
    let settings = settings_in(site, notes)?;
    let limit: Result<u64, BenchFault> = read_or(site, LIMIT, 1_000_000, notes);
    let most = 9_223_372_036_854_775_807;
    let allowance: Result<u64, BenchFault> = read_or(site, ALLOWANCE, most, notes);
    match (limit, allowance) {
        (Ok(limit), Ok(allowance)) => Ok(Settings {
            limit: limit as u32,
            allowance,
            ..settings
        }),
        (Err(fault), _) | (_, Err(fault)) => Err(fault),
    }
}

/// The numbers and texts of a document. A fault `Key` if a key or the kind, range or length of its
/// value is wrong, or the timing isn't coherent; it is noted.
#[tactic(auto, unfolding(crate::specs::Keys::scenario_in))]
pub(crate) fn scenario_in<'a>(
    alloc: Global,
    table: &'a Table,
    notes: &mut Notes<'a>,
) -> Result<ScenarioTexts<'a>, BenchFault>
    ensures { GivesOrKey (λ t. t) result (scenario_in (table_view table.now)) }
{
    let site = LocatedTable::of_document(alloc, table);
    let check_keys = has_only(site, &SCENARIO_KEYS, Level::Scenario, notes);
    let settings = ample_settings_in(site, notes);
    let read_named = named_in(site, notes);
    let timing = timing_in(site, notes);
    match (check_keys, settings, read_named, timing) {
        (Ok(()), Ok(settings), Ok(read_named), Ok(timing)) => {
            let texts = texts_with(alloc, settings, read_named, timing)?;
            Ok(texts)
        }
        (Err(fault), ..) | (_, Err(fault), ..) => Err(fault),
        (.., Err(fault), _) | (.., Err(fault)) => Err(fault),
    }
}
