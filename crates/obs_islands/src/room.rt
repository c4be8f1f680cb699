// Islands from the pairs at hand.
ghost use Rattle.std.specs.Prelude.{◌≡◌, [], IfOk};
ghost use Rattle.obs_meter.specs.inner.Sizes.{HasRoomFor};
ghost use Rattle.obs_meter.specs.inner.Touches.{AreInRange};
ghost use Rattle.obs_exchange.specs.inner.Longest.{IsLongest};
ghost use Rattle.obs_islands.specs.Firsts.{islands_of};

use crate::memory::NoMemory;
use crate::pairing::Pairing;
use crate::settle::find_firsts;
use obs_assign::Assignment;
use obs_graph::search::Search;
use obs_graph::{Ends, Graph};
use obs_meter::Meters;
use std::alloc::Global;
use std::marker::Model;

/// Room for finding islands where a longest assignment is at hand, and those that were found last.
pub struct IslandRoom {
    // how many vertices there were last
    vertices: usize,
    // the first vertex of the island of each vertex
    firsts: Vec<u32>,
    // the lowest branch at the vertex that is lost, and the vertices at which one is
    lowest: Vec<u32>,
    queue: Vec<u32>,
    // the meters, as long as they are used: those that are discarded touch nothing
    used: Meters,
    // the branches of the pairs of these meters, and their pieces
    held: Vec<Option<Ends>>,
    search: Search,
}

impl Model for IslandRoom {
    ghost use Rattle.std.specs.Prelude.{◌≡◌, ◌≤◌, length, take};
    ghost use Rattle.obs_graph.specs.inner.Search.{room_of};
    ghost use Rattle.obs_islands.specs.inner.IslandWork.{IslandWork};

    ghost Value = { IslandWork };

    ghost view = { λ w. record {
      firsts = take w.vertices w.firsts.items;
      sizes = record { meters = w.used.most; branches = length w.held.items; vertices = length w.firsts.items };
    } };

    ghost invariant = { λ w. record {
      found : w.vertices ≤ length w.firsts.items;
      lowest : length w.lowest.items ≡ length w.firsts.items;
      queue : length w.queue.items ≡ length w.firsts.items;
      search : room_of w.search ≡ length w.firsts.items;
    } };
}

// Written out: so a caller's proof sees one call, and not the drop of each field.
impl Drop for IslandRoom {
    fn drop(self) {
        let IslandRoom {
            vertices: _,
            firsts: _,
            lowest: _,
            queue: _,
            used: _,
            held: _,
            search: _,
        } = self;
    }
}

impl IslandRoom {
    /// Room for so many meters, branches and vertices.
    pub fn make(
        alloc: Global,
        most_meters: u32,
        most_branches: u32,
        most_vertices: u32,
    ) -> Result<IslandRoom, NoMemory>
        ensures empty { IfOk result (λ w. w ≡ record {
          firsts = [];
          sizes = record { meters = most_meters; branches = most_branches; vertices = most_vertices };
        }) }
    {
        Ok(IslandRoom {
            vertices: 0,
            firsts: vec![in alloc; 0; most_vertices as usize]?,
            lowest: vec![in alloc; 0; most_vertices as usize]?,
            queue: vec![in alloc; 0; most_vertices as usize]?,
            used: Meters::make(alloc, most_meters)?,
            held: vec![in alloc; None; most_branches as usize]?,
            search: Search::make(alloc, most_vertices)?,
        })
    }

    /// Of each vertex the first vertex of its island, as `find_islands_of` found them last.
    pub fn firsts(&self) -> &[u32]
        ensures firsts { result.now ≡ self.now.firsts }
    {
        &self.firsts[..self.vertices]
    }
}

/// Finds the islands, where the pairs are a longest assignment of the meters. No search for pairs is made.
/// `IslandRoom::firsts` then has for each vertex the first vertex of its island.
pub fn find_islands_of(g: &Graph, ms: &Meters, a: &Assignment, room: &mut IslandRoom)
    requires longest { IsLongest g.now ms.now.touches a.now }
    requires in_range { AreInRange g.now ms.now.touches }
    requires room { HasRoomFor room.old.sizes g.now ms.now.touches }
    ensures islands { room.new.firsts ≡ islands_of g.now.vertices g.now.ends ms.now.touches }
    ensures same_sizes { room.new.sizes ≡ room.old.sizes }
{
    room.used.refill(ms.touches());
    find_firsts(
        &Pairing { graph: g, pairs: a },
        &mut room.used,
        &mut room.held,
        &mut room.search,
        &mut room.firsts,
        &mut room.lowest,
        &mut room.queue,
    );
    room.vertices = g.vertices() as usize;
}
