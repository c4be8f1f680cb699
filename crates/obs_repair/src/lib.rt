//! The pairs after an edit: what a line means for a case, the one flag that it sets, and the kept pairs made longest again.
#![tactic(auto)]

mod bounds;
mod components;
mod counted;
mod edit;
mod grow;
mod held;
mod hole;
mod limit;
mod meaning;
mod memory;
mod parts;
mod repairing;

pub use bounds::{Measured, find_bound, find_critical};
pub use counted::has_enough;
pub use edit::{Edit, Meant, Refusal};
pub use held::{Held, fill, make_held};
pub use meaning::meant;
pub use memory::NoMemory;
pub use parts::Parts;
pub use repairing::{is_set, repair, set_flag};
