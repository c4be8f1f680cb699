//! Critical meters: those without which the greatest length of an assignment falls.
#![tactic(auto)]

mod critical_meters;
mod memory;

pub use critical_meters::{CriticalWork, critical, find_critical};
pub use memory::NoMemory;
