//! What becomes of a case where one branch goes out of service.
#![tactic(auto)]

mod at_vertices;
mod basis;
mod bridges;
mod costly;
mod dead;
mod entry;
mod feeds;
pub mod laws;
mod listing;
mod long_way;
mod memory;
mod outages;
mod rowless;
mod short_way;
mod spared;

pub use memory::NoMemory;
pub use outages::{Outage, Outages};
