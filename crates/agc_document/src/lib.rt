//! A bench as a document: the machine and its callers, as a TOML document describes them, and the
//! faults for which it is refused.
#![tactic(auto)]

mod bench;
mod fault;
mod key;
mod key_fault;
mod keys;
mod laws;
mod location;
mod notes;
pub mod rows;
mod tables;
mod texts;
mod twice;
mod values;
mod writing;

pub use agc_plan::Line;
pub use bench::{Bench, bench_from, bench_of, or_line, read_bench};
pub use fault::BenchFault;
pub use key::{ANY, Key, KeyName, Kind, TextForm, TimeName};
pub use key_fault::{KeyFault, Level};
pub use keys::{settings_in, texts_by};
pub use laws::keys_are_those_listed;
pub use location::Location;
pub use notes::{KeyNote, Notes, TextNote};
pub use tables::{
    FromData, FromTable, LocatedTable, LocatedValue, has_only, items_of, items_or_none, read_at,
    read_if, read_or, table_in, table_of, value_of,
};
pub use texts::{EntryTexts, Lists, RowTexts, Settings, Text, TextList, Texts};
pub use values::{FromText, all_spelled, is_name};
pub use writing::{put_bench, put_script_line, put_settings, put_tables};
