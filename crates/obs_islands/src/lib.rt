//! Islands: the largest sets of vertices that the meters lying inside them span.
#![tactic(auto)]

mod discard;
mod follow;
pub mod laws;
mod left;
mod memory;
mod pairing;
mod pieces;
mod room;
mod settle;
mod work;

pub use memory::NoMemory;
pub use room::{IslandRoom, find_islands_of};
pub use work::{IslandWork, find_islands, islands};
