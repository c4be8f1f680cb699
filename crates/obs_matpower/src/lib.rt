//! Cases in the MATPOWER format, of which the numbers and types of buses and the ends and the status
//! of branches are read.
#![tactic(auto)]

mod add;
mod cut;
mod fault;
mod fields;
mod find;
pub mod laws;
mod part;
mod read;
mod row_iter;
mod row_start;
mod search;
mod stop;
mod value_iter;
mod value_start;

pub use fault::{MatEnd, MatFault};
pub use part::{MatPart, MatTable};
pub use read::{read_matpower, read_matpower_within};
pub use row_iter::{MatRow, Rows};
pub use row_start::rows;
pub use search::table;
pub use value_iter::Values;
pub use value_start::values;
