//! The network of a case, and a longest assignment of its meters.
#![tactic(auto)]

mod kept;
mod memory;

pub use kept::Kept;
pub use memory::NoMemory;
