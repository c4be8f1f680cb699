// The kept pairs, the arrays of their searches, and the parts that bound them.
ghost use Rattle.std.specs.Prelude.{◌≡◌, IfOk, false};
ghost use Rattle.obs_repair.specs.inner.Parts.{HasRoomForParts};
ghost use Rattle.obs_kept.specs.inner.Kept.{AreLongest};
ghost use Rattle.obs_repair.specs.inner.Kept.{HasRoom};

use crate::memory::NoMemory;
use crate::parts::Parts;
use obs_assign::{Assignment, Steps};
use obs_case::Case;
use obs_exchange::{Work, lengthen};
use obs_network::{Present, position_count, vertex_room};
use std::alloc::Global;
use std::sync::ledger::Ledger;

/// The kept pairs, the arrays of their searches, and the parts that bound how many there can be.
pub struct Held {
    pub pairs: Assignment,
    pub work: Work,
    pub parts: Parts,
}

// Written out: so a caller's proof sees one call, and not the drop of each field.
impl Drop for Held {
    fn drop(self) {
        let Held {
            pairs: _,
            work: _,
            parts: _,
        } = self;
    }
}

/// No pair and no parts, with room for every case with as many rows as this one.
pub fn make_held(alloc: Global, case: &Case) -> Result<Held, NoMemory>
    ensures room { IfOk result (λ held. HasRoom case.now held.pairs held.work) }
    ensures parts_room { IfOk result (λ held. HasRoomForParts case.now held.parts) }
    ensures unknown { IfOk result (λ held. held.parts.known ≡ false) }
{
    let meters = case.meters().len() as u32;
    let positions = position_count(case);
    let vertices = vertex_room(case);
    let Ok(pairs) = Assignment::make(alloc, meters, positions, vertices) else {
        return Err(NoMemory);
    };
    let Ok(work) = Work::make(alloc, meters, positions, vertices) else {
        return Err(NoMemory);
    };
    let Ok(parts) = Parts::make(alloc, case) else {
        return Err(NoMemory);
    };
    Ok(Held { pairs, work, parts })
}

/// Makes the pairs a longest assignment of the case's meters.
pub fn fill<L: Ledger>(
    present: &Present<'_>,
    pairs: &mut Assignment,
    work: &mut Work,
    steps: &mut Steps<L>,
)
    requires room { HasRoom present.now pairs.old work.old }
    ensures longest { AreLongest present.now pairs.new }
    ensures room { HasRoom present.now pairs.new work.new }
{
    let g = present.graph();
    let ms = present.meters();
    pairs.clear(g, ms);
    let _ = lengthen(g, ms, pairs, present.network().needed(), work, steps);
}
