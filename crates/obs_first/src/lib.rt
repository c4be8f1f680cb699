//! The first assignment: the least of the longest ones, compared meter by meter.
#![tactic(auto)]

mod decide;
pub mod laws;
mod least;
mod trying;

pub use least::first;
