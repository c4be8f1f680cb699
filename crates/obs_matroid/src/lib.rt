//! Assignments, bounds and closed sets over any matroid: definitions and laws, with no code.
#![tactic(auto)]

pub mod laws;
