// Parts of the vertices, which bound how many pairs there can be. They are made where a search from all sources ended closed:
// the branches of the meters that it reached join the vertices of each part.
ghost use Rattle.std.specs.Prelude.{◌≡◌, ◌<◌, ◌≤◌, ◌^◌, ℕ, true, false, None, Some, IfOk, length, slice_index_or};
ghost use Rattle.obs_graph.specs.Positions.{AreBranches};
ghost use Rattle.obs_meter.specs.inner.Touches.{IsInRange};
ghost use Rattle.obs_meter.specs.declared.Touch.TheVariants.{Nothing};
ghost use Rattle.obs_assign.specs.inner.Assignment.{branch_at, pairs};
ghost use Rattle.obs_exchange.specs.declared.Sources.TheVariants.{All};
ghost use Rattle.obs_exchange.specs.inner.Found.{HasClosed};
ghost use Rattle.obs_exchange.specs.inner.Longest.{IsLongest};
ghost use Rattle.obs_repair.specs.inner.Parts.{AreBounding, HasRoomForParts, HoldsOwn, is_inside, is_within};

use crate::memory::NoMemory;
use obs_assign::Assignment;
use obs_case::Case;
use obs_graph::search::{Search, reach_all};
use obs_graph::{Ends, Graph};
use obs_meter::Meters;
use obs_network::{Network, position_count, vertex_room};
use std::alloc::Global;
use std::marker::Model;

// Leaves no branch.
fn empty(held: &mut [Option<Ends>])
    ensures none { (e : ℕ) → slice_index_or held.new e None ≡ None }
    ensures one_each { length held.new ≡ length held.old }
{
    held.fill(None);
}

// Holds just the branches of the pairs of flagged meters, each with its ends.
fn hold_own(g: &Graph, ms: &Meters, a: &Assignment, flags: &[bool], held: &mut [Option<Ends>])
    requires meters { length ms.now.touches ≡ length a.now.slots }
    requires flags { length flags.now ≡ length ms.now.touches }
    requires low { (m e : ℕ) → branch_at a.now m ≡ Some e → e < length g.now.ends }
    requires one_each { length held.old ≡ length g.now.ends }
    ensures held { HoldsOwn g.now.ends a.now flags.now held.new }
    ensures one_each { length held.new ≡ length held.old }
{
    empty(held);
    for m in 0..ms.count() {
        if flags[m as usize] {
            match a.branch_of(m) {
                Some(e) => held[e as usize] = g.ends(e),
                None => {}
            }
        }
    }
}

/// Parts of the vertices.
pub struct Parts {
    // whether they bound the pairs
    known: bool,
    // of each vertex the first of its part
    search: Search,
    // the branches that join the vertices of each part
    held: Vec<Option<Ends>>,
}

impl Model for Parts {
    ghost use Rattle.std.specs.Prelude.{length};
    ghost use Rattle.obs_repair.specs.inner.Parts.{Parts};

    ghost Value = { Parts };

    ghost view = { λ p. record { known = p.known; first = p.search.piece; positions = length p.held.items } };
}

// Written out: so a caller's proof sees one call, and not the drop of each field.
impl Drop for Parts {
    fn drop(self) {
        let Parts {
            known: _,
            search: _,
            held: _,
        } = self;
    }
}

impl Parts {
    /// Room for the parts of every case with as many rows as this one. They aren't known.
    pub(crate) fn make(alloc: Global, case: &Case) -> Result<Parts, NoMemory>
        ensures room { IfOk result (λ p. HasRoomForParts case.now p) }
        ensures unknown { IfOk result (λ p. p.known ≡ false) }
    {
        let positions = position_count(case);
        let vertices = vertex_room(case);
        let Ok(search) = Search::make(alloc, vertices) else {
            return Err(NoMemory);
        };
        let Ok(held) = vec![in alloc; None; positions as usize] else {
            return Err(NoMemory);
        };
        Ok(Parts {
            known: false,
            search,
            held,
        })
    }

    /// Whether they bound the pairs.
    pub(crate) fn are_known(&self) -> bool
        ensures known { result ≡ self.now.known }
    {
        self.known
    }

    /// From here on they aren't known.
    pub(crate) fn forget(&mut self)
        ensures forgotten { self.new ≡ record self.old { known = false } }
    {
        self.known = false;
    }

    /// Whether the ends of a branch lie in one part.
    pub(crate) fn is_inside(&self, g: &Graph, e: u32) -> bool
        requires branch { e < length g.now.ends }
        requires room { g.now.vertices ≤ length self.now.first }
        ensures inside { result ≡ is_inside self.now.first g.now.ends e }
    {
        match g.ends(e) {
            Some(x) => self.search.piece_of(x.a) == self.search.piece_of(x.b),
            None => true,
        }
    }

    /// Whether a meter touches branches inside of parts alone.
    pub(crate) fn is_within(&self, g: &Graph, ms: &Meters, m: u32) -> bool
        requires item { m < length ms.now.touches }
        requires in_range { IsInRange g.now (slice_index_or ms.now.touches m Nothing) }
        requires room { g.now.vertices ≤ length self.now.first }
        ensures within { result ≡ is_within self.now.first g.now.ends ms.now.touches m }
    {
        for e in ms.touch(g, m) {
            if !self.is_inside(g, *e) {
                return false;
            }
        }
        true
    }

    /// Makes the parts anew, of what a search from all sources reached that found none: then no assignment has more
    /// pairs than there are.
    pub(crate) fn renew(&mut self, g: &Graph, ms: &Meters, a: &Assignment, reached: &[bool])
        requires branches { AreBranches g.now.vertices g.now.ends }
        requires few { g.now.vertices < 2 ^ 32 }
        requires longest { IsLongest g.now ms.now.touches a.now }
        requires closed { HasClosed g.now.ends ms.now.touches All a.now a.now reached.now }
        requires room { g.now.vertices ≤ length self.old.first }
        requires positions { length g.now.ends ≡ self.old.positions }
        ensures known { self.new.known ≡ true }
        ensures bound { AreBounding g.now.vertices g.now.ends ms.now.touches self.new.first (length (pairs a.now)) }
        ensures vertices { length self.new.first ≡ length self.old.first }
        ensures same_positions { self.new.positions ≡ self.old.positions }
    {
        hold_own(g, ms, a, reached, &mut self.held);
        reach_all(g, &self.held, &mut self.search);
        self.known = true;
    }
}
