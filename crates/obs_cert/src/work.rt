// What claims are checked in.
ghost use Rattle.std.specs.Prelude.{IfOk};
ghost use Rattle.obs_network.specs.Network.{rows_of};
ghost use Rattle.obs_cert.specs.inner.Ready.{HasRoomForRows, IsReadyFor};

use crate::hubs::Hubs;
use crate::joins::begin;
use crate::links::sort_links;
use crate::memory::NoMemory;
use obs_case::Case;
use obs_network::{Present, vertex_room};
use std::alloc::Global;

/// Marks of items and branches, the ways up of vertices, and ranks that are known.
pub(crate) struct Work {
    // the stamp of the claim that last chose the item, had it in a pair, or listed it
    pub(crate) chosen: Vec<u32>,
    pub(crate) paired: Vec<u32>,
    pub(crate) listed: Vec<u32>,
    // the stamp of the claim that last had the branch in a pair
    pub(crate) taken: Vec<u32>,
    // where the vertex leads to, towards the first one that is joined with it, and the vertices that lead on
    pub(crate) ups: Vec<u32>,
    pub(crate) moved: Vec<u32>,
    // one more than the rank of the branches at the vertex, or 0 where it wasn't measured yet
    pub(crate) stars: Vec<u32>,
    // the vertices whose rows were joined already, while a rank is taken
    pub(crate) hubs: Hubs,
    // the numbers of the rows of the branch table, sorted
    pub(crate) links: Vec<u64>,
}

// Written out: so a caller's proof sees one call, and not the drop of each field.
impl Drop for Work {
    fn drop(self) {
        let Work {
            chosen: _,
            paired: _,
            listed: _,
            taken: _,
            ups: _,
            moved: _,
            stars: _,
            hubs: _,
            links: _,
        } = self;
    }
}

impl Work {
    /// Room for the claims on a case.
    pub(crate) fn make(alloc: Global, case: &Case) -> Result<Work, NoMemory>
        ensures room { IfOk result (HasRoomForRows (rows_of case.now)) }
    {
        let vertices = vertex_room(case) as usize;
        let items = case.meters().len() + case.candidates().len() + 1;
        let branches = case.branches().len() + items;
        let Ok(chosen) = vec![in alloc; 0; items] else {
            return Err(NoMemory);
        };
        let Ok(paired) = vec![in alloc; 0; items] else {
            return Err(NoMemory);
        };
        let Ok(listed) = vec![in alloc; 0; items] else {
            return Err(NoMemory);
        };
        let Ok(taken) = vec![in alloc; 0; branches] else {
            return Err(NoMemory);
        };
        let Ok(ups) = vec![in alloc; 0; vertices] else {
            return Err(NoMemory);
        };
        let Ok(moved) = vec![in alloc; 0; vertices] else {
            return Err(NoMemory);
        };
        let Ok(stars) = vec![in alloc; 0; vertices] else {
            return Err(NoMemory);
        };
        let Ok(hubs) = Hubs::make(alloc, vertex_room(case)) else {
            return Err(NoMemory);
        };
        let Ok(links) = vec![in alloc; 0; case.branches().len()] else {
            return Err(NoMemory);
        };
        Ok(Work {
            chosen,
            paired,
            listed,
            taken,
            ups,
            moved,
            stars,
            hubs,
            links,
        })
    }

    /// Nothing is marked or joined, no rank is known, and the rows are those of the case.
    pub(crate) fn begin(&mut self, present: &Present<'_>)
        requires room { HasRoomForRows (rows_of present.now) self.old }
        ensures ready { IsReadyFor present.now 1 self.new }
    {
        self.chosen.fill(0);
        self.paired.fill(0);
        self.listed.fill(0);
        self.taken.fill(0);
        begin(&mut self.ups);
        self.stars.fill(0);
        sort_links(present, &mut self.links);
    }
}
