// The kept pairs of a case.
ghost use Rattle.std.specs.Prelude.{◌≡◌, IfOk};
ghost use Rattle.obs_case.specs.Tables.{IsValid};
ghost use Rattle.obs_network.specs.Network.{network_of};
ghost use Rattle.obs_kept.specs.inner.Kept.{AreLongest, HasRoomOver};

use crate::memory::NoMemory;
use obs_assign::{Assignment, Steps};
use obs_case::Case;
use obs_exchange::{Work, fill};
use obs_network::{Network, position_count, vertex_room};
use std::alloc::Global;
use std::sync::ledger::Ledger;

/// The network of a case, a longest assignment of its meters, and the arrays of its searches.
pub struct Kept {
    pub network: Network,
    pub pairs: Assignment,
    pub work: Work,
}

// Written out: so a caller's proof sees one call, and not the drop of each field.
impl Drop for Kept {
    fn drop(self) {
        let Kept {
            network: _,
            pairs: _,
            work: _,
        } = self;
    }
}

impl Kept {
    /// No pair, with room for the pairs of a case and their searches.
    fn with_room(alloc: Global, case: &Case) -> Result<Kept, NoMemory>
        ensures network { IfOk result (λ k. k.network ≡ network_of case.now) }
        ensures room { IfOk result (λ k. HasRoomOver k.network k.pairs k.work) }
        ensures valid { IfOk result (λ _. IsValid case.now) }
    {
        let network = Network::make(alloc, case)?;
        let meters = case.meters().len() as u32;
        let positions = position_count(case);
        let vertices = vertex_room(case);
        let pairs = Assignment::make(alloc, meters, positions, vertices)?;
        let work = Work::make(alloc, meters, positions, vertices)?;
        Ok(Kept {
            network,
            pairs,
            work,
        })
    }

    /// The network of a case, with a longest assignment of its meters and room to find others.
    pub fn make<L: Ledger>(
        alloc: Global,
        case: &Case,
        steps: &mut Steps<L>,
    ) -> Result<Kept, NoMemory>
        ensures network { IfOk result (λ k. k.network ≡ network_of case.now) }
        ensures longest { IfOk result (λ k. AreLongest case.now k.pairs) }
        ensures room { IfOk result (λ k. HasRoomOver k.network k.pairs k.work) }
    {
        let mut kept = Kept::with_room(alloc, case)?;
        fill(
            kept.network.graph(),
            kept.network.meters(),
            &mut kept.pairs,
            kept.network.needed(),
            &mut kept.work,
            steps,
        );
        Ok(kept)
    }
}
