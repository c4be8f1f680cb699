// What a search is over.
ghost use Rattle.std.specs.Prelude.{◌≡◌, ◌↔◌, ◌≢◌, ◌<◌, ◌≤◌, ℕ, not, IfNone, IfSome, IsSome, IsTrue, None, Some, length, slice_index, slice_index_or, take};
ghost use Rattle.obs_graph.specs.Positions.{branches_at};
ghost use Rattle.obs_meter.specs.declared.Touch.{Touch};
ghost use Rattle.obs_meter.specs.inner.Touches.{AreInRange, hub_of};
ghost use Rattle.obs_assign.specs.inner.Assignment.{StandsOver, branch_at, is_frozen};
ghost use Rattle.obs_exchange.specs.inner.Setting.{IsOver, IsSourceIn, end_of, first_of, is_joined_in, shut_by, touched_in};

use crate::Sources;
use obs_assign::Assignment;
use obs_forest::Ways;
use obs_graph::search::Up;
use obs_graph::{Ends, Graph};
use obs_meter::{Hub, Meters};
use std::marker::Model;

/// A graph, its meters, an assignment and the meters from which a search begins: what stays as it is while the search
/// runs.
#[derive(Drop)]
pub struct Setting<'a> {
    graph: &'a Graph,
    meters: &'a Meters,
    assignment: &'a Assignment,
    sources: Sources,
    // the ways up in the forest of the assignment
    ways: Ways<'a>,
    // for how many vertices a search has room
    room: usize,
    // meters that are passed over like frozen ones, where they have a pair
    shut: &'a [bool],
}

impl<'a> Model for Setting<'a> {
    ghost use Rattle.obs_exchange.specs.inner.Setting.{IsSound, Setting, shut_by};

    ghost Value = { Setting };

    ghost view = { λ s. record {
      graph = s.graph.now;
      touches = s.meters.now.touches;
      assignment = shut_by s.shut.now s.assignment.now;
      sources = s.sources;
      ups = s.ways.ups.now;
      depths = s.ways.depths.now;
      room = s.room;
    } };

    ghost invariant = { λ s. IsSound (record {
      graph = s.graph.now;
      touches = s.meters.now.touches;
      assignment = shut_by s.shut.now s.assignment.now;
      sources = s.sources;
      ups = s.ways.ups.now;
      depths = s.ways.depths.now;
      room = s.room;
    }) };
}

impl<'a> Setting<'a> {
    /// A search from these sources over an assignment that stands, with room for so many vertices.
    pub fn new(
        graph: &'a Graph,
        meters: &'a Meters,
        assignment: &'a Assignment,
        sources: Sources,
        room: usize,
    ) -> Setting<'a>
        requires stands { StandsOver assignment.now graph.now meters.now.touches }
        requires in_range { AreInRange graph.now meters.now.touches }
        requires low { end_of sources (length meters.now.touches) ≤ length meters.now.touches }
        ensures over { IsOver result graph.now meters.now.touches assignment.now sources room }
    {
        Setting::shut(graph, meters, assignment, sources, room, &[])
    }

    /// The same, where the flagged meters that have pairs are passed over like frozen ones.
    pub fn shut(
        graph: &'a Graph,
        meters: &'a Meters,
        assignment: &'a Assignment,
        sources: Sources,
        room: usize,
        shut: &'a [bool],
    ) -> Setting<'a>
        requires stands { StandsOver assignment.now graph.now meters.now.touches }
        requires in_range { AreInRange graph.now meters.now.touches }
        requires low { end_of sources (length meters.now.touches) ≤ length meters.now.touches }
        ensures over { IsOver result graph.now meters.now.touches (shut_by shut.now assignment.now) sources room }
    {
        let _ = graph.vertices();
        let ways = assignment.forest().ways();
        Setting {
            graph,
            meters,
            assignment,
            sources,
            ways,
            room,
            shut,
        }
    }

    /// How many meters there are.
    pub fn meters(&self) -> u32
        ensures meters { result ≡ length self.now.touches }
    {
        self.meters.count()
    }

    /// How many vertices there are.
    pub fn vertices(&self) -> u32
        ensures vertices { result ≡ self.now.graph.vertices }
    {
        self.graph.vertices()
    }

    /// The first meter that may be a source.
    pub fn first(&self) -> u32
        ensures first { result ≡ first_of self.now.sources }
    {
        match self.sources {
            Sources::All => 0,
            Sources::One(m) => m,
        }
    }

    /// The meter after the last one that may be a source.
    pub fn end(&self) -> u32
        ensures end { result ≡ end_of self.now.sources (length self.now.touches) }
        ensures low { result ≤ length self.now.touches }
    {
        let meters = self.meters();
        match self.sources {
            Sources::All => meters,
            Sources::One(m) => m + 1,
        }
    }

    /// Whether the meter is a live source.
    pub fn is_source(&self, m: u32) -> bool
        requires first { first_of self.now.sources ≤ m }
        requires end { m < end_of self.now.sources (length self.now.touches) }
        ensures source { IsTrue result ↔ IsSourceIn self.now m }
    {
        self.assignment.branch_of(m).is_none() && self.meters.live(self.graph, m)
    }

    /// Whether the meter is frozen.
    pub fn is_frozen(&self, m: u32) -> bool
        requires m { m < length self.now.touches }
        ensures frozen { result ≡ is_frozen self.now.assignment m }
    {
        if self.assignment.frozen(m) {
            return true;
        }
        if (m as usize) >= self.shut.len() {
            return false;
        }
        self.shut[m as usize] && self.assignment.branch_of(m).is_some()
    }

    /// Whether the search begins at one meter alone.
    pub fn is_single(&self) -> bool {
        match self.sources {
            Sources::All => false,
            Sources::One(_) => true,
        }
    }

    /// Whether the meter is flagged as one to pass over.
    pub fn is_shut(&self, m: u32) -> bool {
        match self.shut.get(m as usize) {
            Some(shut) => *shut,
            None => false,
        }
    }

    /// The branches that the meter touches.
    pub fn touched(&self, m: u32) -> &[u32]
        requires m { m < length self.now.touches }
        ensures touched { result.now ≡ touched_in self.now m }
    {
        self.meters.touch(self.graph, m)
    }

    /// The vertex at which the meter touches the first so many branches, and how many; None where there is none.
    pub fn hub(&self, m: u32) -> Option<Hub>
        requires m { m < length self.now.touches }
        ensures hub { result ≡ hub_of self.now.graph.ends (slice_index_or self.now.touches m Touch.Nothing) }
        ensures low { IfSome result (λ h. h.vertex < self.now.graph.vertices) }
        ensures front { IfSome result
            (λ h. touched_in self.now m ≡ take h.count (branches_at self.now.graph.ends h.vertex)) }
    {
        self.meters.hub(self.graph, m)
    }

    /// The ends of a present branch.
    pub fn ends(&self, e: u32) -> Ends
        requires present { IsSome (slice_index_or self.now.graph.ends e None) }
        ensures ends { slice_index_or self.now.graph.ends e None ≡ Some result }
        ensures low { (result.a < self.now.graph.vertices) × (result.b < self.now.graph.vertices) }
    {
        self.graph.ends(e).unwrap()
    }

    /// Whether the ends of a present branch lie in two pieces of the held ones.
    pub fn is_free(&self, e: u32) -> bool
        requires present { IsSome (slice_index_or self.now.graph.ends e None) }
        ensures free { is_joined_in self.now e ≡ not result }
    {
        let ends = self.ends(e);
        let forest = self.assignment.forest();
        forest.piece(ends.a) != forest.piece(ends.b)
    }

    /// The meter that has the branch, or None where none has it.
    pub fn meter_of(&self, e: u32) -> Option<u32>
        requires e { e < length self.now.graph.ends }
        ensures meter { IfSome result (λ m. branch_at self.now.assignment m ≡ Some e) }
        ensures none { IfNone result ((m : ℕ) → branch_at self.now.assignment m ≢ Some e) }
        ensures low { IfSome result (λ m. m < length self.now.touches) }
    {
        self.assignment.meter_of(e)
    }

    /// The branch and the vertex above one that isn't the top of its tree.
    pub fn up(&self, v: u32) -> Up
        requires up { IsSome (slice_index_or self.now.ups v None) }
        ensures up { slice_index_or self.now.ups v None ≡ Some result }
    {
        self.ways.ups[v as usize].unwrap()
    }

    /// How many branches lead up from the vertex.
    pub fn depth(&self, v: u32) -> u32
        requires v { v < self.now.graph.vertices }
        ensures depth { result ≡ slice_index self.now.depths v }
    {
        self.ways.depths[v as usize]
    }
}
