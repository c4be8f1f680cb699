//! Branches between vertices, and which vertices a list of branches joins.
#![tactic(auto)]

/// The two ends of a branch.
#[derive(Clone, Copy)]
pub struct Ends {
    pub a: u32,
    pub b: u32,
}

mod graph;
pub mod laws;
mod memory;
pub mod parts;
mod rank;
pub mod search;
mod setting;

pub use graph::Graph;
pub use memory::NoMemory;
pub use rank::GraphWork;
