//! The claims that are printed of a case: they are read back as they were meant, and they hold.
#![tactic(auto)]

pub mod laws;
