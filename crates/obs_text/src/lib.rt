//! Names, numbers and lines in bytes. Nothing here takes memory.
#![tactic(auto)]

mod digits;
mod faults;
pub mod laws;
mod limits;
mod line_iter;
mod names;
mod numbers;
mod parts;
mod split;

pub use digits::Digits;
pub use faults::InputFault;
pub use limits::{MOST_FILE_BYTES, USUAL_FILE_BYTES};
pub use line_iter::Lines;
pub use names::name_of;
pub use numbers::whole;
pub use parts::{bare, columns};
pub use split::lines;
