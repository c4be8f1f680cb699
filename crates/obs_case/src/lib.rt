//! A network's five tables: nodes, switches, branches, meters and candidates, with their names.
#![tactic(auto)]

mod case;
mod limits;
mod name;
mod rows;
mod table;

pub use case::Case;
pub use limits::{MOST_PRICE, MOST_ROWS, USUAL_ROWS};
pub use name::Name;
pub use rows::{Branch, Candidate, Kind, Meter, Node, Switch};
pub use table::AddFault;
