//! The words of a program, what is said on standard error of a run, and files that note which of them could not be read.
#![tactic(auto)]

mod noted;
mod notice;
mod numbers;
mod summary;
mod words;

pub use noted::Noted;
pub use notice::say;
pub use summary::Summary;
pub use words::{or_status, words_of};
