//! Placement: the candidates that complete the meters at the least cost, with the layers of prices that prove it, or
//! the bound which shows that all candidates together fall short.
#![tactic(auto)]

mod choosing;
mod counting;
mod holding;
mod known;
pub mod laws;
mod layering;
mod laying;
mod measuring;
mod memory;
mod offer;
mod order;
mod placing;
mod plans;
mod taking;
mod work;

pub use memory::NoMemory;
pub use plans::{Layer, Placement, Plan};
pub use work::{PlaceWork, find_placement, place};
