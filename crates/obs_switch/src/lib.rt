//! Buses: the classes of nodes that closed switches join.
#![tactic(auto)]

mod buses;
pub mod group;
pub mod laws;
mod link;
mod number;
mod rebuild;
pub mod regroup;
mod sweep;

pub use buses::{Buses, NoMemory};
pub use link::Link;
