//! Tables: columns, the cells of a row, and one writer of them as text, CSV and JSON Lines.
#![tactic(auto)]

mod row;
mod table;

pub use row::{Column, Row, left, right};
pub use table::{Table, TableForm, width_of};
