//! The five tables from their CSV files, and the first fault where the files are no case.
#![tactic(auto)]

mod columns;
mod faults;
mod fields;
pub mod laws;
mod read;
mod records;
mod rows;

pub use faults::{RowFault, Table, TableEnd, TableFault};
pub use read::{add_tables, read_table, read_tables, read_tables_within};
