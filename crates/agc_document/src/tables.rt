//! Tables, numbers and texts of a document, by the table of keys.
ghost use Rattle.std.specs.Prelude.{◌≡◌, List, [], ◌∷◌, map, length, Option, Some, None};
ghost use Rattle.std.specs.Prelude.{IfSome};
ghost use Rattle.std.specs.Prelude.{IfOk, MatchResult, string_bytes, true};
ghost use Rattle.std.specs.Option.{option_map};
ghost use Rattle.std.specs.List.{list_all};
ghost use Rattle.std.specs.BTreeMap.{keys};
ghost use Rattle.toml.specs.Data.{Data, Members, get_member, as_table};
ghost use Rattle.toml.specs.Parse.{parse_document};
ghost use Rattle.toml.specs.View.{view, items_view, table_view};
ghost use Rattle.agc_plan.specs.Ranges.{IsBetween};
ghost use Rattle.agc_document.specs.Gives.{GivesOrKey};
ghost use Rattle.agc_document.specs.declared.key.Key.{Key as AnyKey};
ghost use Rattle.agc_document.specs.Rows.{name_of, kind_of, is_required};
ghost use Rattle.agc_document.specs.Keys.{is_among, has_only, known_to, value_of, number_of};
ghost use Rattle.agc_document.specs.Keys.{flag_of, text_of, texts_of, least, most, read_at};
ghost use Rattle.agc_document.specs.Keys.{read_or, read_if, each, in_bounds, items_of, one_in};
ghost use Rattle.agc_document.specs.Keys.{table_with};

use crate::fault::BenchFault;
use crate::key::{Key, Kind};
use crate::key_fault::{KeyFault, Level};
use crate::location::Location;
use crate::notes::Notes;
use crate::texts::{Text, TextList};
use std::alloc::{AllocError, Global};
use toml::de::Error;
use toml::{Table, Value};

/// A table that is read, and its place in the document.
#[derive(Clone, Copy)]
pub struct LocatedTable<'a> {
    pub alloc: Global,
    pub table: &'a Table,
    pub place: Location,
}

/// A value, the key that has it or its array, and its place in the document.
#[derive(Clone, Copy)]
pub struct LocatedValue<'a> {
    pub alloc: Global,
    pub value: &'a Value,
    pub key: Key,
    pub place: Location,
}

impl<'a> LocatedTable<'a> {
    /// A document.
    pub fn of_document(alloc: Global, table: &'a Table) -> LocatedTable<'a>
        ensures { result.table.now ≡ table.entry.now }
    {
        LocatedTable {
            alloc,
            table,
            place: Location::Whole,
        }
    }

    /// The value that the table has of a key.
    pub fn with_value(self, value: &'a Value, key: Key) -> LocatedValue<'a>
        ensures value { result.value.now ≡ value.entry.now }
        ensures key { result.key ≡ key }
    {
        LocatedValue {
            alloc: self.alloc,
            value,
            key,
            place: self.place.of_value(key),
        }
    }
}

impl<'a> LocatedValue<'a> {
    /// An item of the array, counted from 0.
    fn with_item(self, value: &'a Value, k: usize) -> LocatedValue<'a>
        ensures value { result.value.now ≡ value.entry.now }
        ensures key { result.key ≡ self.entry.key }
    {
        let place = self.place.of_item((k as u64).saturating_add(1));
        LocatedValue {
            value,
            place,
            ..self
        }
    }
}

/// The table of the document that a text is, or the parser's error.
///
/// # Errors
///
/// If memory runs out.
pub fn table_of(alloc: Global, text: &str) -> Result<Result<Table, Error>, AllocError>
    ensures { IfOk result (λ read. MatchResult read
        (λ t. parse_document text.now ≡ Some (table_view t))
        (λ _. parse_document text.now ≡ None)) }
{
    match toml::table_from_str(alloc, text) {
        Ok(table) => Ok(Ok(table)),
        Err(error) => {
            if error.is_memory() {
                return Err(AllocError);
            }
            Ok(Err(error))
        }
    }
}

fn is_among(keys: &[Key], name: &str) -> bool
    ensures { result ≡ is_among (map name_of keys.now) name.now }
{
    for key in keys {
        if key.name() == name {
            return true;
        }
    }
    false
}

/// Whether the name of every key of a table is in a list.
fn all_among(table: &Table, among: &[Key]) -> bool
    ensures { result ≡ list_all
        (λ k. is_among (map name_of among.now) (string_bytes k)) (keys table.now) }
{
    table.keys().all(|name| is_among(among, name.as_str()))
}

/// Whether a table has these keys and no others.
#[tactic(auto, using(crate::proofs::Names::all_among))]
fn is_known(table: &Table, among: &[Key]) -> bool
    ensures { result ≡ has_only (map name_of among.now) (table_view table.now) }
{
    all_among(table, among)
}

/// Notes each key of a table that isn't in the list.
fn note_unknown<'a>(site: LocatedTable<'a>, among: &[Key], level: Level, notes: &mut Notes<'a>) {
    for name in site.table.keys() {
        if !is_among(among, name.as_str()) {
            notes.key(site.place, name.as_str(), KeyFault::Unknown(level));
        }
    }
}

/// Whether a table has these keys, those of its level, and no others.
pub fn has_only<'a>(
    site: LocatedTable<'a>,
    among: &[Key],
    level: Level,
    notes: &mut Notes<'a>,
) -> Result<(), BenchFault>
    ensures value { GivesOrKey (λ _. table_view site.entry.table.now) result
        (known_to among.now (table_view site.entry.table.now)) }
{
    if is_known(site.table, among) {
        return Ok(());
    }
    note_unknown(site, among, level, notes);
    Err(BenchFault::Key)
}

/// Notes that a value is wrong, and returns the fault `Key`.
fn wrong_value<'a>(placed: LocatedValue<'a>, notes: &mut Notes<'a>) -> BenchFault
    ensures { result ≡ BenchFault.Key }
{
    notes.key(placed.place, "", placed.place.fault(placed.key))
}

/// The value, if there is one. Otherwise notes a fault `Key`, and returns it.
fn or_note<'a, T: Drop>(
    read: Option<T>,
    placed: LocatedValue<'a>,
    notes: &mut Notes<'a>,
) -> Result<T, BenchFault>
    ensures { GivesOrKey (λ x. x) result read }
{
    match read {
        Some(found) => Ok(found),
        None => Err(wrong_value(placed, notes)),
    }
}

/// The table that a value is, an item of a key's array.
pub fn table_in<'a>(
    placed: LocatedValue<'a>,
    notes: &mut Notes<'a>,
) -> Result<LocatedTable<'a>, BenchFault>
    ensures value { GivesOrKey (λ s. table_view s.table.now) result
        (as_table (view placed.entry.value.now)) }
{
    match placed.value.as_table() {
        Some(table) => Ok(LocatedTable {
            alloc: placed.alloc,
            table,
            place: placed.place.of_table(),
        }),
        None => Err(wrong_value(placed, notes)),
    }
}

/// The value of the key of this name.
fn member<'a>(table: &'a Table, key: &str) -> Option<&'a Value>
    ensures { option_map (λ v. view v.now) result ≡ get_member key.now (table_view table.now) }
{
    table.get(key)
}

/// The value of a key, if it is there.
pub fn value_of<'a>(table: &'a Table, key: Key) -> Option<&'a Value>
    ensures { option_map (λ v. view v.now) result ≡ value_of key (table_view table.now) }
{
    member(table, key.name())
}

/// A type that is read from the value of a key, or from an item of its array.
pub trait FromData<'a>: Sized + Drop {
    /// The result of reading a value of this key.
    ghost reads: { AnyKey → Data → Option Self };

    /// The result is in the range of its key.
    ghost IsAllowed: { AnyKey → Self → Type 0 };

    /// Reads a value. A fault `Key` if it is of another kind, or out of range.
    fn from_value(placed: LocatedValue<'a>, notes: &mut Notes<'a>) -> Result<Self, BenchFault>
        ensures value { GivesOrKey (λ x. x) result
            (reads placed.entry.key (view placed.entry.value.now)) }
        ensures range { IfOk result (IsAllowed placed.entry.key) };
}

/// A type that is read from a table, an item of a key's array. The table may have no keys but
/// these.
pub trait FromTable<'a>: Sized + Drop {
    /// The keys that it may have, by the key of its array.
    ghost keys: { AnyKey → List AnyKey };

    /// The result of reading such a table.
    ghost fields: { AnyKey → Members → Option Self };

    /// These keys, and the level that they have.
    fn keys_and_level(key: Key) -> (&'a [Key], Level)
        ensures { result.0.now ≡ keys key };

    /// Reads a table. A fault `Key` if it isn't of this type.
    fn from_table(
        site: LocatedTable<'a>,
        key: Key,
        notes: &mut Notes<'a>,
    ) -> Result<Self, BenchFault>
        ensures { GivesOrKey (λ x. x) result (fields key (table_view site.entry.table.now)) };
}

impl<'a, T: FromTable<'a>> FromData<'a> for T {
    ghost reads = { λ k. table_with (T.keys k) (T.fields k) };

    ghost IsAllowed = { λ k x. Unit {0} };

    fn from_value(placed: LocatedValue<'a>, notes: &mut Notes<'a>) -> Result<T, BenchFault> {
        let site = table_in(placed, notes)?;
        let (keys, level) = T::keys_and_level(placed.key);
        let check_keys = has_only(site, keys, level, notes);
        check_keys.and(T::from_table(site, placed.key, notes))
    }
}

/// An integer in the range of a key.
fn number_in(value: &Value, key: Key) -> Option<u64>
    ensures value { result ≡ number_of key (view value.now) }
    ensures range { IfSome result (IsBetween (least key) (most key)) }
{
    let (low, high) = key.bounds();
    match value.as_integer() {
        Some(number) if 0 <= number => {
            let number = number as u64;
            if low <= number && number <= high {
                Some(number)
            } else {
                None
            }
        }
        _ => None,
    }
}

impl<'a> FromData<'a> for u64 {
    ghost reads = { number_of };

    ghost IsAllowed = { λ k n. IsBetween (least k) (most k) n };

    fn from_value(placed: LocatedValue<'a>, notes: &mut Notes<'a>) -> Result<u64, BenchFault> {
        or_note(number_in(placed.value, placed.key), placed, notes)
    }
}

impl<'a> FromData<'a> for bool {
    ghost reads = { flag_of };

    ghost IsAllowed = { λ k b. Unit {0} };

    fn from_value(placed: LocatedValue<'a>, notes: &mut Notes<'a>) -> Result<bool, BenchFault> {
        or_note(placed.value.as_bool(), placed, notes)
    }
}

impl<'a> FromData<'a> for Text<'a> {
    ghost reads = { text_of };

    ghost IsAllowed = { λ k t. Unit {0} };

    fn from_value(placed: LocatedValue<'a>, notes: &mut Notes<'a>) -> Result<Text<'a>, BenchFault> {
        match placed.value.as_str() {
            Some(text) => {
                notes.look_at(placed.place, text, placed.key);
                Ok(Text::new(text))
            }
            None => Err(wrong_value(placed, notes)),
        }
    }
}

/// The single text that a value is, if its key may have one.
fn one_in<'a>(value: &'a Value, key: Key) -> Option<&'a str>
    ensures { option_map (λ s. s.now) result ≡ one_in (kind_of key) (view value.now) }
{
    match key.kind() {
        Kind::OneOrMore(_form, _low, _high) => value.as_str(),
        _ => None,
    }
}

/// A list of this text, if its key may have a single text.
fn single_text<'a>(
    text: &'a str,
    placed: LocatedValue<'a>,
    notes: &mut Notes<'a>,
) -> Result<Vec<Text<'a>>, BenchFault>
    ensures value { GivesOrKey (λ v. v.items) result
        (in_bounds placed.entry.key (text.entry.now ∷ [])) }
    ensures few { IfOk result (λ v.
        IsBetween (least placed.entry.key) (most placed.entry.key) (length v.items)) }
{
    notes.look_at(placed.place, text, placed.key);
    let single_text = TextList::of(placed.alloc, text)?;
    in_bounds(single_text.texts, placed, notes)
}

impl<'a> FromData<'a> for TextList<'a> {
    ghost reads = { texts_of };

    ghost IsAllowed = { λ k ts. IsBetween (least k) (most k) (length ts) };

    fn from_value(
        placed: LocatedValue<'a>,
        notes: &mut Notes<'a>,
    ) -> Result<TextList<'a>, BenchFault> {
        let texts = match one_in(placed.value, placed.key) {
            Some(text) => single_text(text, placed, notes)?,
            None => items_of(placed, notes)?,
        };
        Ok(TextList { texts })
    }
}

/// Reads the items of an array after the first that is wrong, to note their faults.
fn note_others<'a, T: FromData<'a>>(
    values: &'a [Value],
    first: usize,
    array: LocatedValue<'a>,
    notes: &mut Notes<'a>,
) {
    for (k, value) in values.iter().enumerate() {
        if first < k {
            let _item: Result<T, BenchFault> = T::from_value(array.with_item(value, k), notes);
        }
    }
}

fn items_in_order<'a, T: FromData<'a>>(
    values: &'a [Value],
    array: LocatedValue<'a>,
    notes: &mut Notes<'a>,
) -> Result<Vec<T>, BenchFault>
    ensures value { GivesOrKey (λ v. v.items) result
        (each (T.reads array.entry.key) (items_view values.now)) }
{
    let mut items = Vec::new(array.alloc);
    for (k, value) in values.iter().enumerate() {
        match T::from_value(array.with_item(value, k), notes) {
            Ok(item) => items.push(item)?,
            Err(fault) => {
                note_others::<T>(values, k, array, notes);
                return Err(fault);
            }
        }
    }
    Ok(items)
}

/// The items, if the row of their key allows this many.
fn in_bounds<'a, T: Drop>(
    items: Vec<T>,
    placed: LocatedValue<'a>,
    notes: &mut Notes<'a>,
) -> Result<Vec<T>, BenchFault>
    ensures value { GivesOrKey (λ v. v.items) result (in_bounds placed.entry.key items.items) }
    ensures few { IfOk result (λ v.
        IsBetween (least placed.entry.key) (most placed.entry.key) (length v.items)) }
{
    let (low, high) = placed.key.bounds();
    let count = items.len() as u64;
    if count < low || high < count {
        return Err(wrong_value(placed, notes));
    }
    Ok(items)
}

/// The items of an array, as many as the row of its key allows.
pub fn items_of<'a, T: FromData<'a>>(
    placed: LocatedValue<'a>,
    notes: &mut Notes<'a>,
) -> Result<Vec<T>, BenchFault>
    ensures value { GivesOrKey (λ v. v.items) result
        (items_of (T.reads placed.entry.key) placed.entry.key (view placed.entry.value.now)) }
    ensures few { IfOk result (λ v.
        IsBetween (least placed.entry.key) (most placed.entry.key) (length v.items)) }
{
    match placed.value.as_array() {
        None => Err(wrong_value(placed, notes)),
        Some(values) => {
            let items = items_in_order(values.as_slice(), placed, notes)?;
            in_bounds(items, placed, notes)
        }
    }
}

/// The items of the array of a key, none if the key is missing.
pub fn items_or_none<'a, T: FromData<'a>>(
    site: LocatedTable<'a>,
    key: Key,
    notes: &mut Notes<'a>,
) -> Result<Vec<T>, BenchFault>
    requires { least key ≡ 0 }
    ensures value { GivesOrKey (λ v. v.items) result
        (read_or [] (λ k. items_of (T.reads k) k) key (table_view site.entry.table.now)) }
    ensures few { IfOk result (λ v. IsBetween (least key) (most key) (length v.items)) }
{
    match value_of(site.table, key) {
        None => Ok(Vec::new(site.alloc)),
        Some(value) => items_of(site.with_value(value, key), notes),
    }
}

/// Reads a required key.
pub fn read_at<'a, T: FromData<'a>>(
    site: LocatedTable<'a>,
    key: Key,
    notes: &mut Notes<'a>,
) -> Result<T, BenchFault>
    requires { is_required key ≡ true }
    ensures value { GivesOrKey (λ x. x) result
        (read_at T.reads key (table_view site.entry.table.now)) }
    ensures range { IfOk result (T.IsAllowed key) }
{
    match value_of(site.table, key) {
        Some(value) => T::from_value(site.with_value(value, key), notes),
        None => Err(notes.key(site.place, "", KeyFault::Missing(key))),
    }
}

/// Reads a key, if it is there.
pub fn read_if<'a, T: FromData<'a>>(
    site: LocatedTable<'a>,
    key: Key,
    notes: &mut Notes<'a>,
) -> Result<Option<T>, BenchFault>
    ensures value { GivesOrKey (λ o. o) result
        (read_if T.reads key (table_view site.entry.table.now)) }
    ensures range { IfOk result (λ o. IfSome o (T.IsAllowed key)) }
{
    match value_of(site.table, key) {
        Some(value) => {
            let read = T::from_value(site.with_value(value, key), notes)?;
            Ok(Some(read))
        }
        None => Ok(None),
    }
}

/// Reads a key, with a default in case it is missing.
pub fn read_or<'a, T: FromData<'a>>(
    site: LocatedTable<'a>,
    key: Key,
    missing: T,
    notes: &mut Notes<'a>,
) -> Result<T, BenchFault>
    requires { T.IsAllowed key missing }
    ensures value { GivesOrKey (λ x. x) result
        (read_or missing T.reads key (table_view site.entry.table.now)) }
    ensures range { IfOk result (T.IsAllowed key) }
{
    match value_of(site.table, key) {
        Some(value) => T::from_value(site.with_value(value, key), notes),
        None => Ok(missing),
    }
}
