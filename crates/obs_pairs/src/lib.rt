//! Meters that are critical together, and the classes into which they fall.
#![tactic(auto)]

mod lacking;
pub mod laws;
mod lost;
mod memory;
mod name;
mod reach;
mod renew;
mod room;
mod rounds;
mod settle;
mod shared;
mod split;
mod work;

pub use memory::NoMemory;
pub use work::{PairWork, classes, find_classes};
