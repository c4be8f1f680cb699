// Islands, and what they are found in.
ghost use Rattle.std.specs.Prelude.{◌≡◌, [], IfOk, length};
ghost use Rattle.obs_meter.specs.inner.Sizes.{HasRoomFor};
ghost use Rattle.obs_meter.specs.inner.Touches.{AreInRange};
ghost use Rattle.obs_assign.specs.inner.Assignment.{Fits, HasRoomOf, StandsOver};
ghost use Rattle.obs_exchange.specs.inner.Laws.{IsThawed};
ghost use Rattle.obs_islands.specs.Firsts.{islands_of};

use crate::memory::NoMemory;
use crate::room::{IslandRoom, find_islands_of};
use obs_assign::{Assignment, Steps};
use obs_exchange::{Work, regrow};
use obs_graph::Graph;
use obs_meter::Meters;
use std::alloc::Global;
use std::marker::Model;
use std::sync::ledger::Ledger;

/// Room for finding islands, and those that were found last.
pub struct IslandWork {
    // how many meters and positions there were last
    meters: u32,
    positions: u32,
    // the pairs of the meters, and what finds them
    pairs: Assignment,
    exchange: Work,
    // what finds the islands from them
    room: IslandRoom,
}

impl Model for IslandWork {
    ghost use Rattle.std.specs.Prelude.{◌≡◌, length};
    ghost use Rattle.obs_islands.specs.inner.IslandWork.{IslandWork};

    ghost Value = { IslandWork };

    ghost view = { λ w. w.room };

    ghost invariant = { λ w. record {
      meters : w.meters ≡ length w.pairs.slots;
      positions : w.positions ≡ length w.pairs.forest.held;
      pair_meters : w.pairs.most_meters ≡ w.room.sizes.meters;
      pair_branches : w.pairs.forest.most_branches ≡ w.room.sizes.branches;
      pair_vertices : w.pairs.forest.most_vertices ≡ w.room.sizes.vertices;
      exchange : w.exchange.sizes ≡ w.room.sizes;
    } };
}

// Written out: so a caller's proof sees one call, and not the drop of each field.
impl Drop for IslandWork {
    fn drop(self) {
        let IslandWork {
            meters: _,
            positions: _,
            pairs: _,
            exchange: _,
            room: _,
        } = self;
    }
}

impl IslandWork {
    /// Room for so many meters, branches and vertices.
    pub fn make(
        alloc: Global,
        most_meters: u32,
        most_branches: u32,
        most_vertices: u32,
    ) -> Result<IslandWork, NoMemory>
        ensures empty { IfOk result (λ w. w ≡ record {
          firsts = [];
          sizes = record { meters = most_meters; branches = most_branches; vertices = most_vertices };
        }) }
    {
        Ok(IslandWork {
            meters: 0,
            positions: 0,
            pairs: Assignment::make(alloc, most_meters, most_branches, most_vertices)?,
            exchange: Work::make(alloc, most_meters, most_branches, most_vertices)?,
            room: IslandRoom::make(alloc, most_meters, most_branches, most_vertices)?,
        })
    }

    /// Of each vertex the first vertex of its island, as `find_islands` found them last.
    pub fn firsts(&self) -> &[u32]
        ensures firsts { result.now ≡ self.now.firsts }
    {
        self.room.firsts()
    }
}

/// Carries the pairs over where there are as many meters and positions as before,
/// and leaves no pair where there are not.
fn carry_over(g: &Graph, ms: &Meters, pairs: &mut Assignment, meters: u32, positions: u32)
    requires meters { meters ≡ length pairs.old.slots }
    requires positions { positions ≡ length pairs.old.forest.held }
    requires fits { Fits pairs.old g.now ms.now.touches }
    ensures stands { StandsOver pairs.new g.now ms.now.touches }
    ensures thawed { IsThawed pairs.new }
    ensures same_room { HasRoomOf pairs.old pairs.new }
{
    if ms.count() == meters && g.positions() == positions {
        pairs.retain_touching(g, ms);
    } else {
        pairs.clear(g, ms);
    }
}

/// Finds the islands. `IslandWork::firsts` then has for each vertex the first vertex of its island.
pub fn find_islands<L: Ledger>(g: &Graph, ms: &Meters, work: &mut IslandWork, steps: &mut Steps<L>)
    requires in_range { AreInRange g.now ms.now.touches }
    requires room { HasRoomFor work.old.sizes g.now ms.now.touches }
    ensures islands { work.new.firsts ≡ islands_of g.now.vertices g.now.ends ms.now.touches }
    ensures same_sizes { work.new.sizes ≡ work.old.sizes }
{
    carry_over(g, ms, &mut work.pairs, work.meters, work.positions);
    let _ = regrow(
        g,
        ms,
        &mut work.pairs,
        ms.count(),
        &mut work.exchange,
        steps,
    );
    find_islands_of(g, ms, &work.pairs, &mut work.room);
    work.meters = ms.count();
    work.positions = g.positions();
}

/// For each vertex the first vertex of its island. A vertex without a branch is an island of its own.
pub fn islands<'a, L: Ledger>(
    g: &Graph,
    ms: &Meters,
    work: &'a mut IslandWork,
    steps: &mut Steps<L>,
) -> &'a [u32]
    requires in_range { AreInRange g.now ms.now.touches }
    requires room { HasRoomFor work.old.sizes g.now ms.now.touches }
    ensures islands { result.now ≡ islands_of g.now.vertices g.now.ends ms.now.touches }
{
    find_islands(g, ms, work, steps);
    work.firsts()
}
