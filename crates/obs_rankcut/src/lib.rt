//! Bounds: a list of meters that shows how long an assignment can be at most.
#![tactic(auto)]

mod bounds;
mod listing;
mod memory;
mod scoped;
mod work;

pub use bounds::Bound;
pub use memory::NoMemory;
pub use scoped::bound;
pub use work::{CutWork, Measured, measure};
