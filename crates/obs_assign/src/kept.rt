// The pairs, found by their branch, listed by their branches and held in a forest.
ghost use Rattle.std.specs.Prelude.{◌≡◌, ◌<◌, ◌≤◌, ℕ, Some, None, [], length, replicate, IfOk, slice_index_or, slice_set};
ghost use Rattle.obs_graph.specs.Graph.{Graph};
ghost use Rattle.obs_graph.specs.Positions.{IsForestAt};
ghost use Rattle.obs_graph.specs.inner.Search.{room_of};
ghost use Rattle.obs_matroid.specs.Assignments.{branches};
ghost use Rattle.obs_matroid.specs.inner.Slots.{pairs_of};
ghost use Rattle.obs_assign.specs.inner.Kept.{IsInverse, IsOver, with_slots};
ghost use Rattle.obs_assign.specs.inner.Pins.{pinned_slots};
ghost use Rattle.obs_assign.specs.inner.Still.{AreRetained};

use crate::Move;
use crate::hold::empty;
use crate::lose::unlist;
use crate::memory::NoMemory;
use crate::places::Places;
use crate::retain::retain_pairs;
use obs_forest::Forest;
use obs_graph::search::Search;
use obs_graph::{Ends, Graph};
use obs_meter::Meters;
use std::alloc::Global;
use std::marker::Model;

/// Pairs of a meter and a branch, with different meters, whose branches are a forest. They mean something only beside a
/// graph whose branches are held.
pub struct Kept {
    // how many meters and pairs there are
    meters: usize,
    count: u32,
    // the branch of each meter that has a pair
    slots: Vec<Option<u32>>,
    // the meter of each branch that has one
    owners: Vec<Option<u32>>,
    // the branches of the pairs, at the front
    list: Vec<u32>,
    // where each of them stands there: a hint
    places: Places,
    // the branches of the pairs, held
    forest: Forest,
}

impl Model for Kept {
    ghost use Rattle.std.specs.Prelude.{length, take};
    ghost use Rattle.obs_assign.specs.inner.Kept.{Kept, IsKept};

    ghost Value = { Kept };

    ghost view = { λ k. record {
      slots = take k.meters k.slots.items;
      forest = k.forest;
      most_meters = length k.slots.items;
    } };

    ghost invariant = { λ k. IsKept
        (record { slots = take k.meters k.slots.items; forest = k.forest; most_meters = length k.slots.items })
        k.meters k.count k.owners.items k.list.items };
}

// Written out: so a caller's proof sees one call, and not the drop of each field.
impl Drop for Kept {
    fn drop(self) {
        let Kept {
            meters: _,
            count: _,
            slots: _,
            owners: _,
            list: _,
            places: _,
            forest: _,
        } = self;
    }
}

impl Kept {
    /// No pair over no meter, with room for so many.
    pub fn make(
        alloc: Global,
        most_meters: u32,
        most_branches: u32,
        most_vertices: u32,
    ) -> Result<Kept, NoMemory>
        ensures empty { IfOk result (λ k. k ≡ record {
          slots = [];
          forest = record { vertices = 0; held = []; most_vertices = most_vertices; most_branches = most_branches };
          most_meters = most_meters;
        }) }
    {
        let slots = vec![in alloc; None; most_meters as usize]?;
        let mut owners = vec![in alloc; None; most_branches as usize]?;
        empty(&mut owners);
        let list = vec![in alloc; 0; most_meters as usize]?;
        let forest = Forest::make(alloc, most_vertices, most_branches)?;
        let places = Places::make(alloc, most_branches)?;
        Ok(Kept {
            meters: 0,
            count: 0,
            slots,
            owners,
            list,
            places,
            forest,
        })
    }

    /// The number of pairs.
    pub fn count(&self) -> u32
        ensures count { result ≡ length (pairs_of self.now.slots) }
    {
        self.count
    }

    /// By meter its branch.
    pub fn slots(&self) -> &[Option<u32>]
        ensures slots { result.now ≡ self.now.slots }
    {
        &self.slots[..self.meters]
    }

    /// By branch its meter.
    pub fn owners(&self) -> &[Option<u32>]
        ensures inverse { IsInverse self.now.slots result.now }
        ensures room { length self.now.forest.held ≤ length result.now }
    {
        &self.owners
    }

    /// The branches as a forest.
    pub fn forest(&self) -> &Forest
        ensures forest { result.now ≡ self.now.forest }
    {
        &self.forest
    }

    /// Leaves no pair, over so many meters.
    pub fn clear(&mut self, g: &Graph, meters: u32)
        requires meters { meters ≤ self.old.most_meters }
        requires vertices { g.now.vertices ≤ self.old.forest.most_vertices }
        requires branches { length g.now.ends ≤ self.old.forest.most_branches }
        ensures cleared { self.new ≡ with_slots self.old g.now (replicate meters None) }
    {
        self.meters = meters as usize;
        self.count = 0;
        empty(&mut self.slots);
        empty(&mut self.owners);
        self.forest.refill(g, &self.list[..0]);
    }

    /// Puts a pair in for a meter that has none, whose branch goes to the end of the list.
    pub fn add(&mut self, g: &Graph, x: Move)
        requires over { IsOver self.old g.now }
        requires meter { x.meter < length self.old.slots }
        requires bare { slice_index_or self.old.slots x.meter None ≡ None }
        requires forest { IsForestAt g.now.ends
            (branches (pairs_of (slice_set self.old.slots x.meter (Some x.branch)))) }
        ensures added { self.new ≡ with_slots self.old g.now (slice_set self.old.slots x.meter (Some x.branch)) }
    {
        let known = self.count as usize;
        self.slots[x.meter as usize] = Some(x.branch);
        self.owners[x.branch as usize] = Some(x.meter);
        self.list[known] = x.branch;
        self.count += 1;
        self.forest.refill_from(g, &self.list[..known + 1], known);
        self.places.note(x.branch, known as u32);
    }

    /// Takes away the pair of a meter and its branch e.
    fn lose_branch(&mut self, g: &Graph, m: u32, e: u32)
        requires over { IsOver self.old g.now }
        requires e { slice_index_or self.old.slots m None ≡ Some e }
        ensures lost { self.new ≡ with_slots self.old g.now (slice_set self.old.slots m None) }
    {
        self.slots[m as usize] = None;
        self.owners[e as usize] = None;
        unlist(&mut self.list, self.count as usize, e, &mut self.places);
        self.count -= 1;
        self.forest
            .refill_without(g, &self.list[..self.count as usize], e);
    }

    /// Takes the pair of a meter away, where it has one.
    pub fn lose(&mut self, g: &Graph, m: u32)
        requires over { IsOver self.old g.now }
        requires m { m < length self.old.slots }
        ensures lost { self.new ≡ with_slots self.old g.now (slice_set self.old.slots m None) }
    {
        if let Some(e) = self.slots()[m as usize] {
            self.lose_branch(g, m, e);
        }
    }

    /// The next meter hands its branch on to that of the move, which has no other one.
    pub fn hand(&mut self, x: Move, next: u32)
        requires meter { x.meter < length self.old.slots }
        requires next { slice_index_or self.old.slots next None ≡ Some x.branch }
        requires bare { (f : ℕ) → slice_index_or self.old.slots x.meter None ≡ Some f → f ≡ x.branch }
        ensures handed { (g : Graph) → IsOver self.old g
            → self.new ≡ with_slots self.old g (pinned_slots self.old.slots x.meter x.branch next) }
    {
        self.slots[next as usize] = None;
        self.slots[x.meter as usize] = Some(x.branch);
        self.owners[x.branch as usize] = Some(x.meter);
    }

    /// Keeps of the pairs those whose meter touches their branch, as far as these are a forest, and holds them.
    pub fn retain(
        &mut self,
        g: &Graph,
        ms: &Meters,
        remaining: &mut [Option<Ends>],
        search: &mut Search,
    )
        requires meters { length ms.now.touches ≡ length self.old.slots }
        requires positions { length g.now.ends ≡ length self.old.forest.held }
        requires vertices { g.now.vertices ≤ self.old.forest.most_vertices }
        requires remaining { length g.now.ends ≤ length remaining.old }
        requires room { room_of search.old ≡ self.old.forest.most_vertices }
        ensures retained { AreRetained g.now.ends ms.now.touches (pairs_of self.old.slots) (pairs_of self.new.slots) }
        ensures forest { IsForestAt g.now.ends (branches (pairs_of self.new.slots)) }
        ensures meters { length self.new.slots ≡ length self.old.slots }
        ensures held { self.new ≡ with_slots self.old g.now self.new.slots }
        ensures room { room_of search.new ≡ room_of search.old }
    {
        self.count = retain_pairs(
            g,
            ms,
            &mut self.slots,
            &mut self.owners,
            &mut self.list,
            remaining,
            search,
            &mut self.forest,
        );
    }
}
