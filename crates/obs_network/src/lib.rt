//! The network of a case.
#![tactic(auto)]

mod alone;
mod angles;
mod bridges;
mod components;
mod descent;
mod following;
pub mod laws;
mod live;
mod live_meters;
mod located;
mod marks;
mod memory;
mod network;
mod present;
mod rebuild;
mod refreshing;
mod room;
mod sides;
mod stretches;
mod switched;
mod touching;

pub use bridges::{Below, Bridges};
pub use memory::NoMemory;
pub use network::Network;
pub use present::Present;
pub use room::{position_count, vertex_room};
pub use sides::Sides;
pub use switched::buses_of_case;
