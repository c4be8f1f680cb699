//! Definitions evaluated on small cases that were worked out by hand.
#![tactic(auto)]

pub mod after_losses;
pub mod answers;
pub mod certificates;
pub mod faults;
pub mod networks;
pub mod reports;
pub mod runs;
pub mod sessions;
