// What classes are searched for with.
ghost use Rattle.std.specs.Prelude.{◌≡◌, ◌+◌, IfOk, length};

use crate::memory::NoMemory;
use obs_exchange::Work;
use obs_meter::Meters;
use std::alloc::Global;

/// The meters, where some may be lost, what finds pairs, and an order of the meters with the place in it at which each is
/// reached behind it.
pub(crate) struct Room {
    pub(crate) left: Meters,
    pub(crate) exchange: Work,
    pub(crate) reach: Vec<u32>,
}

// Written out: so a caller's proof sees one call, and not the drop of each field.
impl Drop for Room {
    fn drop(self) {
        let Room {
            left: _,
            exchange: _,
            reach: _,
        } = self;
    }
}

impl Room {
    /// Room for so many meters, branches and vertices.
    pub(crate) fn make(
        alloc: Global,
        meters: u32,
        branches: u32,
        vertices: u32,
    ) -> Result<Room, NoMemory>
        ensures left { IfOk result (λ r. r.left.most ≡ meters) }
        ensures sizes { IfOk result (λ r. r.exchange.sizes
            ≡ record { meters = meters; branches = branches; vertices = vertices }) }
        ensures reach { IfOk result (λ r. length r.reach.items ≡ meters + meters) }
    {
        let places = meters as usize;
        Ok(Room {
            left: Meters::make(alloc, meters)?,
            exchange: Work::make(alloc, meters, branches, vertices)?,
            reach: vec![in alloc; 0; places + places]?,
        })
    }
}
