//! Generated cases: a square grid of nodes whose meters are drawn from a seed.
#![tactic(auto)]

mod draws;
mod grid;
pub mod laws;
mod memory;
mod names;
mod rows;
mod trial;

pub use memory::NoMemory;
pub use trial::make;
