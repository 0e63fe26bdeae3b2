//! Places in a bench.
use crate::key::Key;
use crate::key_fault::KeyFault;

/// A place in a bench. Numbers are from 1, in the order of the document.
#[derive(Clone, Copy)]
pub enum Location {
    /// The document.
    Whole,
    /// The value of a key.
    Value(Key),
    /// An item of a key's array.
    Item(Key, u64),
    /// A table of a key's array.
    Table(Key, u64),
    /// The value of that table's key.
    Field(Key, u64, Key),
    /// An item of that value.
    FieldItem(Key, u64, Key, u64),
    /// The value of a key of a table that is itself the value of a key of a table.
    Subfield(Key, u64, Key, Key),
}

impl Location {
    /// The place of a key's value in the table at this place.
    pub fn of_value(self, key: Key) -> Location {
        match self {
            Location::Table(tables, number) => Location::Field(tables, number, key),
            Location::Field(tables, number, field) => Location::Subfield(
                tables, number, field, key,
            ),
            _ => Location::Value(key),
        }
    }

    /// The place of an item of the array at this place.
    pub fn of_item(self, item: u64) -> Location {
        match self {
            Location::Value(key) => Location::Item(key, item),
            Location::Field(tables, number, key) => Location::FieldItem(tables, number, key, item),
            _ => self,
        }
    }

    /// The place of the table that the item at this place is.
    pub fn of_table(self) -> Location {
        match self {
            Location::Item(key, number) => Location::Table(key, number),
            _ => self,
        }
    }

    /// The fault of a key whose value, or an item of it, is wrong at this place.
    pub fn fault(self, key: Key) -> KeyFault {
        match self {
            Location::Item(_key, _item) => KeyFault::Item(key),
            Location::FieldItem(_tables, _table, _field, _item) => KeyFault::Item(key),
            _ => KeyFault::Value(key),
        }
    }
}
