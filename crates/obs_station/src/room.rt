// What pairs are grown with when some meters are lost.
ghost use Rattle.std.specs.Prelude.{◌≡◌, IfOk};

use crate::memory::NoMemory;
use obs_exchange::Work;
use obs_meter::Meters;
use std::alloc::Global;

/// The meters, where some may be lost, and what finds pairs.
pub(crate) struct Room {
    pub(crate) left: Meters,
    pub(crate) exchange: Work,
}

// Written out: so a caller's proof sees one call, and not the drop of each field.
impl Drop for Room {
    fn drop(self) {
        let Room {
            left: _,
            exchange: _,
        } = self;
    }
}

impl Room {
    /// Room for so many meters, branches and vertices.
    pub(crate) fn make(
        alloc: Global,
        meters: u32,
        branches: u32,
        vertices: u32,
    ) -> Result<Room, NoMemory>
        ensures left { IfOk result (λ r. r.left.most ≡ meters) }
        ensures sizes { IfOk result (λ r. r.exchange.sizes
            ≡ record { meters = meters; branches = branches; vertices = vertices }) }
    {
        Ok(Room {
            left: Meters::make(alloc, meters)?,
            exchange: Work::make(alloc, meters, branches, vertices)?,
        })
    }
}
