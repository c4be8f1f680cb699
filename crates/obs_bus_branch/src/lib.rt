//! What a case of numbered buses and named branches is.
#![tactic(auto)]

mod names;

pub use names::{NAME_ROOM, branch_name};
