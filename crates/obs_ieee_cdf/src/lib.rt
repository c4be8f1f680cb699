//! Cases in the IEEE Common Data Format, of which the numbers and types of buses and the ends of
//! branches are read.
#![tactic(auto)]

mod fault;
mod fields;
mod find;
pub mod laws;
mod parts;
mod read;
mod rows;
mod section;
mod stop;
mod values;

pub use fault::{CdfEnd, CdfFault};
pub use fields::{BranchFields, BusFields, branch_fields, bus_fields};
pub use parts::Sections;
pub use read::{read_cdf, read_cdf_within};
pub use section::sections;
