//! Stations, and the loss of all meters of one.
#![tactic(auto)]

mod draw;
mod grouping;
pub mod laws;
mod losses;
mod membership;
mod memory;
mod reach;
mod room;
mod rounds;
mod settle;
mod shown;
mod stations;
mod without;

pub use losses::{Loss, StationWork};
pub use memory::NoMemory;
