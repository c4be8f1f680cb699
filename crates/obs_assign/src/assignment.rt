// The kept assignment.
ghost use Rattle.std.specs.Prelude.{◌≡◌, ◌≢◌, ◌+◌, ◌<◌, ◌≤◌, ℕ, Some, None, List, [], length, replicate, false, IfOk, IfSome, IfNone, slice_set};
ghost use Rattle.obs_matroid.specs.inner.Slots.{pairs_of};
ghost use Rattle.obs_meter.specs.declared.Touch.{Touch};
ghost use Rattle.obs_meter.specs.Assignments.{IsAssignmentAt};
ghost use Rattle.obs_meter.specs.Touches.{every_item};
ghost use Rattle.obs_forest.specs.inner.Forest.{StandsOver as ForestStandsOver};
ghost use Rattle.obs_assign.specs.inner.Assignment.{Fits, HasRoomOf, IsWhole, StandsOver, branch_at, is_frozen, pairs};
ghost use Rattle.obs_assign.specs.inner.Moves.{ArePath, moved, turned};
ghost use Rattle.obs_assign.specs.inner.Still.{AreRetained};

mod pins;

use crate::Move;
use crate::hold::clear_flags;
use crate::kept::Kept;
use crate::memory::NoMemory;
use crate::path::take_path;
use crate::steps::{Steps, turn};
use obs_forest::Forest;
use obs_graph::search::Search;
use obs_graph::{Ends, Graph};
use obs_meter::Meters;
use std::alloc::Global;
use std::marker::Model;
use std::sync::ledger::Ledger;

/// Pairs of a meter and a branch that it touches, with different meters, whose branches are a forest. Some pairs are
/// frozen: their meters keep them until they are thawed. It means something only beside a graph and meters over which
/// it stands.
pub struct Assignment {
    // how many turns were taken
    turns: u64,
    // whether the meter keeps its pair
    frozen: Vec<bool>,
    // the branches between the ends of the one that is pinned
    path: Vec<u32>,
    // the branches of the pairs that remain, while pairs are retained, and their pieces
    remaining: Vec<Option<Ends>>,
    search: Search,
    // the pairs
    kept: Kept,
}

impl Model for Assignment {
    ghost use Rattle.std.specs.Prelude.{length};
    ghost use Rattle.obs_graph.specs.inner.Search.{room_of};
    ghost use Rattle.obs_assign.specs.Assignment.{Assignment};
    ghost use Rattle.obs_assign.specs.inner.Kept.{seen, HasArrays};

    ghost Value = { Assignment };

    ghost view = { λ a. seen a.kept a.frozen.items a.turns };

    ghost invariant = { λ a. HasArrays (seen a.kept a.frozen.items a.turns)
        (length a.frozen.items) (length a.path.items) (length a.remaining.items) (room_of a.search) };
}

// Written out: so a caller's proof sees one call, and not the drop of each field.
impl Drop for Assignment {
    fn drop(self) {
        let Assignment {
            turns: _,
            frozen: _,
            path: _,
            remaining: _,
            search: _,
            kept: _,
        } = self;
    }
}

impl Assignment {
    /// No pair over no meter, with room for so many.
    pub fn make(
        alloc: Global,
        most_meters: u32,
        most_branches: u32,
        most_vertices: u32,
    ) -> Result<Assignment, NoMemory>
        ensures empty { IfOk result (λ a. a ≡ record {
          slots = [];
          frozen = [];
          turns = 0;
          forest = record { vertices = 0; held = []; most_vertices = most_vertices; most_branches = most_branches };
          most_meters = most_meters;
        }) }
    {
        let frozen = vec![in alloc; false; most_meters as usize]?;
        let path = vec![in alloc; 0; most_vertices as usize]?;
        let remaining = vec![in alloc; None; most_branches as usize]?;
        let search = Search::make(alloc, most_vertices)?;
        let kept = Kept::make(alloc, most_meters, most_branches, most_vertices)?;
        Ok(Assignment {
            turns: 0,
            frozen,
            path,
            remaining,
            search,
            kept,
        })
    }

    /// Leaves no pair, over this graph and these meters.
    pub fn clear(&mut self, g: &Graph, ms: &Meters)
        requires room { Fits self.old g.now ms.now.touches }
        ensures no_pair { pairs self.new ≡ [] }
        ensures turns { self.new.turns ≡ self.old.turns }
        ensures stands { StandsOver self.new g.now ms.now.touches }
        ensures whole { IsWhole self.new }
        ensures same_room { HasRoomOf self.old self.new }
    {
        clear_flags(&mut self.frozen);
        self.kept.clear(g, ms.count());
    }

    /// The number of pairs.
    pub fn length(&self) -> u32
        ensures length { result ≡ length (pairs self.now) }
        ensures whole { IsWhole self.now }
    {
        self.kept.count()
    }

    /// The branch of the meter, or None where it has no pair.
    pub fn branch_of(&self, m: u32) -> Option<u32>
        requires m { m < length self.now.slots }
        ensures branch { result ≡ branch_at self.now m }
    {
        self.kept.slots()[m as usize]
    }

    /// The meter that has the branch, or None where none has it.
    pub fn meter_of(&self, e: u32) -> Option<u32>
        requires e { e < length self.now.forest.held }
        ensures meter { IfSome result (λ m. branch_at self.now m ≡ Some e) }
        ensures none { IfNone result ((m : ℕ) → branch_at self.now m ≢ Some e) }
        ensures low { IfSome result (λ m. m < length self.now.slots) }
    {
        self.kept.owners()[e as usize]
    }

    /// The branches of the pairs as a forest.
    pub fn forest(&self) -> &Forest
        ensures forest { result.now ≡ self.now.forest }
        ensures whole { IsWhole self.now }
    {
        self.kept.forest()
    }

    /// Whether the meter is frozen.
    pub fn frozen(&self, m: u32) -> bool
        requires m { m < length self.now.slots }
        ensures frozen { result ≡ is_frozen self.now m }
    {
        self.frozen[m as usize]
    }

    /// How many paths were put in and pins made. It stands at the last value of a u64 rather than begin anew.
    pub fn turns(&self) -> u64
        ensures turns { result ≡ self.now.turns }
    {
        self.turns
    }

    /// Thaws all meters, and keeps the pairs.
    pub fn unpin_all(&mut self)
        ensures thawed { self.new ≡ record self.old { frozen = replicate (length self.old.frozen) false } }
    {
        clear_flags(&mut self.frozen);
    }

    /// Puts the moves of a path in, and ticks once.
    pub fn augment<L: Ledger>(
        &mut self,
        g: &Graph,
        ms: &Meters,
        path: &[Move],
        steps: &mut Steps<L>,
    )
        requires stands { StandsOver self.old g.now ms.now.touches }
        requires path { ArePath self.old path.now }
        requires assignment { IsAssignmentAt g.now.ends ms.now.touches (every_item ms.now.touches)
            (pairs_of (moved path.now self.old.slots)) }
        ensures moved { self.new.slots ≡ moved path.now self.old.slots }
        ensures frozen { self.new.frozen ≡ self.old.frozen }
        ensures longer { length (pairs self.new) ≡ length (pairs self.old) + 1 }
        ensures turns { self.new.turns ≡ turned self.old.turns }
        ensures tick { steps.new ≡ steps.old + 1 }
        ensures stands { StandsOver self.new g.now ms.now.touches }
        ensures whole { IsWhole self.new }
        ensures same_room { HasRoomOf self.old self.new }
    {
        let _ = ms;
        take_path(g, &mut self.kept, path);
        self.turns = turn(self.turns, steps);
    }

    /// Takes the pair of the meter away, where it has one, and thaws it.
    pub fn drop_pair(&mut self, g: &Graph, m: u32)
        requires stands { ForestStandsOver self.old.forest g.now }
        requires m { m < length self.old.slots }
        ensures dropped { self.new.slots ≡ slice_set self.old.slots m None }
        ensures thawed { self.new.frozen ≡ slice_set self.old.frozen m false }
        ensures turns { self.new.turns ≡ self.old.turns }
        ensures forest { ForestStandsOver self.new.forest g.now }
        ensures stands { (touches : List Touch) → StandsOver self.old g.now touches
            → StandsOver self.new g.now touches }
        ensures whole { IsWhole self.new }
        ensures same_room { HasRoomOf self.old self.new }
    {
        self.frozen[m as usize] = false;
        self.kept.lose(g, m);
    }

    /// Carries the pairs over to a new network, of as many meters and positions, and thaws all. Gives up each pair
    /// whose meter doesn't touch its branch any more, and of the others only such whose branch closes a cycle with
    /// those that are kept. Says how many are kept.
    pub fn retain_touching(&mut self, g: &Graph, ms: &Meters) -> u32
        requires meters { length ms.now.touches ≡ length self.old.slots }
        requires positions { length g.now.ends ≡ length self.old.forest.held }
        requires vertices { g.now.vertices ≤ self.old.forest.most_vertices }
        ensures count { result ≡ length (pairs self.new) }
        ensures retained { AreRetained g.now.ends ms.now.touches (pairs self.old) (pairs self.new) }
        ensures thawed { (m : ℕ) → is_frozen self.new m ≡ false }
        ensures turns { self.new.turns ≡ self.old.turns }
        ensures stands { StandsOver self.new g.now ms.now.touches }
        ensures whole { IsWhole self.new }
        ensures same_room { HasRoomOf self.old self.new }
    {
        clear_flags(&mut self.frozen);
        self.kept
            .retain(g, ms, &mut self.remaining, &mut self.search);
        self.kept.count()
    }
}
