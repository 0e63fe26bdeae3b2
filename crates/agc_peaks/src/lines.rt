//! The lines of a table, where a run may end with a fault.
use agc_session::RunFault;
use agc_table::Table;
use std::io::Write;

/// Writes the lines of a table.
pub(crate) fn send_table<W: Write>(table: &mut Table, writer: &mut W) -> Result<(), RunFault> {
    Ok(table.send(writer)?)
}
