//! String tables: the texts of a project under their ids, read from CSV and written as CSV.
#![tactic(auto)]

mod fault;
mod gathered;
mod header;
mod laws;
mod read;
mod records;
mod table;
mod write;

pub use fault::TableFault;
pub use laws::{bad_is_first, records_are_all, tables_fit, written_is_read};
pub use read::read_table;
pub use table::StringTable;
pub use write::write_table;

#[cfg(test)]
mod tests;
