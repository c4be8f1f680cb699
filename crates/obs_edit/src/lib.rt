//! Sessions: a case, its network, a longest assignment of its live meters, and the answers to it.
#![tactic(auto)]

mod answer_room;
mod applied;
mod asks;
mod finding;
mod hand;
pub mod laws;
mod pairing;
mod placing;
mod seen;
mod session;

pub use applied::{Applied, Done};
pub use obs_repair::{Edit, NoMemory, Refusal};
pub use seen::{Placed, Seen};
pub use session::{Session, State};
