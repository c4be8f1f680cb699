//! What the items of a graph touch, and assignments of branches to items.
#![tactic(auto)]

/// What an item touches: nothing, one branch, by its position, all branches at one vertex, or the first so many of
/// these, by position.
#[derive(Clone, Copy, PartialEq, Eq)]
pub enum Touch {
    Nothing,
    Edge(u32),
    Star(u32),
    Front { at: u32, count: u32 },
}

/// The first so many branches at a vertex.
#[derive(Clone, Copy)]
pub struct Hub {
    pub vertex: u32,
    pub count: usize,
}

pub mod laws;
mod memory;
mod meters;

pub use memory::NoMemory;
pub use meters::Meters;
