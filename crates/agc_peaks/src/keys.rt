//! The keys of two documents whose values differ.
use crate::comparing::{Part, end_key};
use agc_document::table_of;
use agc_table::{Column, Table, TableForm, right};
use agc_text::Field::{Json, Number, Text};
use agc_text::{Buffer, Field};
use std::alloc::{AllocError, Global};
use toml::value::Array;
use toml::{Table as Document, Value};

/// The keys that differ: the table for them, and the part that they are.
#[derive(Drop)]
struct Keys<'a> {
    alloc: Global,
    table: &'a mut Table,
    part: Part<'static>,
}

/// The path of a key: its name and, if it is a key of a table in a list, the list's name and the
/// table's name or number before it.
#[derive(Clone, Copy)]
struct PathToKey<'a> {
    list: Option<(&'a str, Field<'a>)>,
    key: &'a str,
}

/// The name of a table in a list, or its address, if it has one.
fn name_of(item: &Document) -> Option<&str> {
    match item.get("name").or(item.get("at")) {
        Some(Value::String(name)) => Some(name.as_str()),
        _ => None,
    }
}

/// The table of a list that is called like one at this place of another list: at the same place, or
/// the first. Tables without names are called by their places.
fn called_as<'a>(list: &'a [Value], place: usize, item: &Document) -> Option<&'a Document> {
    let name = name_of(item);
    let here = list.get(place).and_then(Value::as_table);
    if here.is_some_and(|here| name_of(here) == name) {
        return here;
    }
    name?;
    let mut tables = list.iter().filter_map(Value::as_table);
    tables.find(|other| name_of(other) == name)
}

/// A table's name in a list, or else its number.
fn label_of(item: &Document, place: usize) -> Field<'_> {
    let number = (place as u64).saturating_add(1);
    name_of(item).map_or(Number(number), Text)
}

/// Whether a value is a list of tables, of at least one.
fn is_list(value: &Value) -> bool {
    match value {
        Value::Array(items) => !items.is_empty() && items.iter().all(Value::is_table),
        _ => false,
    }
}

/// The items of a list; none of what is no list.
fn items_of(value: Option<&Value>) -> &[Value] {
    match value {
        Some(Value::Array(items)) => items.as_slice(),
        _ => &[],
    }
}

/// Adds a value as JSON. A document has neither negative numbers nor fractions nor dates.
#[cycle(put_json)]
fn put_json(value: &Value, buffer: &mut Buffer) {
    match value {
        Value::String(text) => buffer.put("\"{}\"", &[Json(text.as_str())]),
        Value::Integer(number) => buffer.add(Number(number.unsigned_abs())),
        Value::Boolean(is_true) => buffer.text(if *is_true { "true" } else { "false" }),
        Value::Array(items) => put_items(items, buffer),
        Value::Table(table) => put_members(table, buffer),
        Value::Float(_) | Value::Datetime(_) => buffer.text("null"),
    }
}

/// Adds an array as JSON.
#[cycle(put_json)]
fn put_items(items: &Array, buffer: &mut Buffer) {
    let mut is_first = true;
    buffer.text("[");
    for item in items {
        buffer.text(if is_first { "" } else { "," });
        put_json(item, buffer);
        is_first = false;
    }
    buffer.text("]");
}

/// Adds a table as JSON.
#[cycle(put_json)]
fn put_members(table: &Document, buffer: &mut Buffer) {
    let mut is_first = true;
    buffer.text("{");
    for (key, member) in table.iter() {
        buffer.text(if is_first { "" } else { "," });
        buffer.put("\"{}\":", &[Json(key.as_str())]);
        put_json(member, buffer);
        is_first = false;
    }
    buffer.text("}");
}

impl Keys<'_> {
    /// Adds a value; one that is neither a number nor a text as TOML or JSON has it.
    fn fill_value(&mut self, column: Column<'_>, value: Option<&Value>) -> Result<(), AllocError> {
        let is_json = self.table.form == TableForm::JsonLines;
        let row = &mut self.table.row;
        match value {
            None => row.option(column, None),
            Some(Value::Integer(number)) if *number >= 0 => {
                row.cell(column, Number(number.unsigned_abs()));
            }
            Some(Value::String(text)) => row.cell(column, Text(text.as_str())),
            Some(other) if is_json => {
                put_json(other, &mut row.text);
                row.end_plain(column);
            }
            Some(other) => {
                let text = format!(in self.alloc; "{other}")?;
                row.cell(column, Text(text.as_str()));
            }
        }
        Ok(())
    }

    /// Adds the row of a key, if its values differ.
    fn put(
        &mut self,
        path: PathToKey<'_>,
        [before, after]: [Option<&Value>; 2],
    ) -> Result<(), AllocError> {
        if before == after {
            return Ok(());
        }
        self.part.begin_row(self.table);
        let indent = if self.table.is_text() { "  " } else { "" };
        let text = &mut self.table.row.text;
        text.text(indent);
        if let Some((list, item)) = path.list {
            text.put("{}.{}.", &[Text(list), item]);
        }
        text.text(path.key);
        end_key(self.table);
        self.fill_value(right("before", "before", 10), before)?;
        self.fill_value(right("after", "after", 10), after)?;
        self.table.end_row();
        Ok(())
    }

    /// Adds the keys that differ of two tables that are called the same in a list, or of one alone.
    fn put_tables(
        &mut self,
        item: (&str, Field<'_>),
        before: Option<&Document>,
        after: Option<&Document>,
    ) -> Result<(), AllocError> {
        let list = Some(item);
        for (key, value) in before.into_iter().flat_map(Document::iter) {
            let key = key.as_str();
            let other = after.and_then(|after| after.get(key));
            self.put(PathToKey { list, key }, [Some(value), other])?;
        }
        for (key, value) in after.into_iter().flat_map(Document::iter) {
            let key = key.as_str();
            if before.is_none_or(|before| before.get(key).is_none()) {
                self.put(PathToKey { list, key }, [None, Some(value)])?;
            }
        }
        Ok(())
    }

    /// Adds the keys that differ in two lists of tables.
    fn put_lists(
        &mut self,
        list: &str,
        before: &[Value],
        after: &[Value],
    ) -> Result<(), AllocError> {
        for (place, value) in before.iter().enumerate() {
            if let Value::Table(item) = value {
                let other = called_as(after, place, item);
                self.put_tables((list, label_of(item, place)), Some(item), other)?;
            }
        }
        for (place, value) in after.iter().enumerate() {
            if let Value::Table(item) = value
                && called_as(before, place, item).is_none()
            {
                self.put_tables((list, label_of(item, place)), None, Some(item))?;
            }
        }
        Ok(())
    }

    /// Adds a key of the documents, if its values differ; if they are lists of tables, the keys of
    /// these tables instead.
    fn put_value(
        &mut self,
        key: &str,
        before: Option<&Value>,
        after: Option<&Value>,
    ) -> Result<(), AllocError> {
        if before.is_none_or(is_list) && after.is_none_or(is_list) {
            self.put_lists(key, items_of(before), items_of(after))
        } else {
            self.put(PathToKey { list: None, key }, [before, after])
        }
    }
}

/// Adds the keys of two documents whose values differ, with both values.
pub(crate) fn put_keys(
    alloc: Global,
    table: &mut Table,
    before: &str,
    after: &str,
) -> Result<(), AllocError> {
    let (Ok(before), Ok(after)) = (table_of(alloc, before)?, table_of(alloc, after)?) else {
        return Ok(());
    };
    let part = Part::new("document", Text(""));
    let mut keys = Keys { alloc, table, part };
    for (key, value) in before.iter() {
        keys.put_value(key.as_str(), Some(value), after.get(key.as_str()))?;
    }
    for (key, value) in after.iter() {
        if before.get(key.as_str()).is_none() {
            keys.put_value(key.as_str(), None, Some(value))?;
        }
    }
    Ok(())
}
