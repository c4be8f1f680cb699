//! The kept pairs of meters and branches: an assignment that grows, shrinks and is carried over to another network.
#![tactic(auto)]

/// A meter takes a branch.
#[derive(Clone, Copy)]
pub struct Move {
    pub meter: u32,
    pub branch: u32,
}

mod assignment;
mod hold;
mod kept;
pub mod laws;
mod lose;
mod memory;
mod path;
mod places;
mod retain;
mod spare;
mod steps;

pub use assignment::Assignment;
pub use memory::NoMemory;
pub use steps::Steps;
