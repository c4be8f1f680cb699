// The branches of a network that a longest assignment can miss, found once for all of them.
ghost use Rattle.std.specs.Prelude.{◌≡◌, ◌<◌, ◌≤◌, ℕ, All, IfOk, None, false, length, slice_index_or, take, true};
ghost use Rattle.obs_graph.specs.Positions.{branches_at};
ghost use Rattle.obs_meter.specs.declared.Touch.TheVariants.{Nothing};
ghost use Rattle.obs_meter.specs.Touches.{touch_at};
ghost use Rattle.obs_meter.specs.inner.Touches.{AreInRange, IsInRange};
ghost use Rattle.obs_assign.specs.inner.Assignment.{has_flag};
ghost use Rattle.obs_network.specs.Network.{network_of};
ghost use Rattle.obs_kept.specs.inner.Kept.{AreLongest, HasRoomOver};
ghost use Rattle.obs_outage.specs.inner.Sparing.{AreMissed, AreNeeded, ArePaired, ArePut, AreTouchedBy, CanBeMissed, HasFlags, HasFronts, HasPut, HasTouched, IsNeeded};
ghost use Rattle.obs_outage.specs.inner.Told.{AreTold};

use crate::costly::flag_costly;
use crate::memory::NoMemory;
use obs_assign::{Assignment, Steps};
use obs_case::Case;
use obs_exchange::close;
use obs_graph::{Ends, Graph};
use obs_kept::Kept;
use obs_meter::{Hub, Meters};
use obs_network::{Sides, position_count, vertex_room};
use std::alloc::Global;
use std::marker::Model;
use std::sync::ledger::Ledger;

// Puts the listed branches of a graph into a part of it.
fn put_all(g: &Graph, positions: &[u32], part: &mut [Option<Ends>])
    requires low { All (λ e. e < length g.now.ends) positions.now }
    requires one_each { length part.old ≡ length g.now.ends }
    ensures put { ArePut g.now.ends part.old positions.now part.new }
    ensures whole { HasPut g.now.ends part.old positions.now part.new }
{
    for e in positions {
        part[*e as usize] = g.ends(*e);
    }
}

// Puts the first so many branches at a vertex into a part. Those that were put in before are passed over.
fn put_hub(g: &Graph, hub: Hub, fronts: &mut [usize], part: &mut [Option<Ends>])
    requires vertex { hub.vertex < g.now.vertices }
    requires count { hub.count ≤ length (branches_at g.now.ends hub.vertex) }
    requires fronts { g.now.vertices ≤ length fronts.old }
    requires one_each { length part.old ≡ length g.now.ends }
    requires known { HasFronts g.now.ends fronts.old part.old }
    ensures put { ArePut g.now.ends part.old (take hub.count (branches_at g.now.ends hub.vertex)) part.new }
    ensures whole { HasPut g.now.ends part.old (take hub.count (branches_at g.now.ends hub.vertex)) part.new }
    ensures known { HasFronts g.now.ends fronts.new part.new }
{
    let known = fronts[hub.vertex as usize];
    if known < hub.count {
        fronts[hub.vertex as usize] = hub.count;
        let front = &g.branches_at(hub.vertex)[..hub.count];
        put_all(g, &front[known..], part);
    }
}

// Puts the branches that a meter touches into a part.
fn put_touched(g: &Graph, ms: &Meters, m: u32, fronts: &mut [usize], part: &mut [Option<Ends>])
    requires item { m < length ms.now.touches }
    requires in_range { IsInRange g.now (slice_index_or ms.now.touches m Nothing) }
    requires fronts { g.now.vertices ≤ length fronts.old }
    requires one_each { length part.old ≡ length g.now.ends }
    requires known { HasFronts g.now.ends fronts.old part.old }
    ensures put { ArePut g.now.ends part.old (touch_at g.now.ends ms.now.touches m) part.new }
    ensures whole { HasPut g.now.ends part.old (touch_at g.now.ends ms.now.touches m) part.new }
    ensures known { HasFronts g.now.ends fronts.new part.new }
{
    match ms.hub(g, m) {
        Some(hub) => put_hub(g, hub, fronts, part),
        None => put_all(g, ms.touch(g, m), part),
    }
}

// Leaves no branch in a part.
fn empty(part: &mut [Option<Ends>])
    ensures none { (e : ℕ) → slice_index_or part.new e None ≡ None }
{
    part.fill(None);
}

// Notes that no branch at any vertex is put in.
fn forget(fronts: &mut [usize])
    ensures none { (v : ℕ) → slice_index_or fronts.new v 0 ≡ 0 }
{
    fronts.fill(0);
}

// Makes a part have the branches that the marked meters touch.
fn put_marked(
    g: &Graph,
    ms: &Meters,
    marks: &[bool],
    fronts: &mut [usize],
    part: &mut [Option<Ends>],
)
    requires in_range { AreInRange g.now ms.now.touches }
    requires marks { length marks.now ≡ length ms.now.touches }
    requires fronts { g.now.vertices ≤ length fronts.old }
    requires one_each { length part.old ≡ length g.now.ends }
    ensures touched { AreTouchedBy g.now.ends ms.now.touches (has_flag marks.now) part.new }
    ensures whole { HasTouched g.now.ends ms.now.touches (has_flag marks.now) part.new }
{
    forget(fronts);
    empty(part);
    for m in 0..ms.count() {
        if marks[m as usize] {
            put_touched(g, ms, m, fronts, part);
        }
    }
}

// Makes the graph of the branches that the marked meters touch, each at its position.
fn refill_touched(
    g: &Graph,
    ms: &Meters,
    marks: &[bool],
    fronts: &mut [usize],
    part: &mut [Option<Ends>],
    touched: &mut Graph,
)
    requires in_range { AreInRange g.now ms.now.touches }
    requires marks { length marks.now ≡ length ms.now.touches }
    requires fronts { g.now.vertices ≤ length fronts.old }
    requires one_each { length part.old ≡ length g.now.ends }
    requires vertices { g.now.vertices ≤ touched.old.most_vertices }
    requires branches { length g.now.ends ≤ touched.old.most_branches }
    ensures touched { AreTouchedBy g.now.ends ms.now.touches (has_flag marks.now) touched.new.ends }
    ensures whole { HasTouched g.now.ends ms.now.touches (has_flag marks.now) touched.new.ends }
    ensures one_each { length touched.new.ends ≡ length g.now.ends }
    ensures vertices { touched.new.vertices ≡ g.now.vertices }
    ensures most_vertices { touched.new.most_vertices ≡ touched.old.most_vertices }
    ensures most_branches { touched.new.most_branches ≡ touched.old.most_branches }
{
    put_marked(g, ms, marks, fronts, part);
    touched.refill(g.vertices(), part);
}

// Whether a part has a branch that no pair has. Where it has none its branches are a forest, and no walk finds any joined.
fn has_unpaired(pairs: &Assignment, part: &Graph) -> bool
    requires one_each { length part.now.ends ≡ length pairs.now.forest.held }
    ensures paired { result ≡ false → ArePaired pairs.now part.now.ends }
{
    for e in 0..part.positions() {
        if part.ends(e).is_some() && pairs.meter_of(e).is_none() {
            return true;
        }
    }
    false
}

// Whether no pair has a branch, or other branches of the part join its ends. It walks only where it is told to.
fn can_be_missed(pairs: &Assignment, part: &Graph, walks: bool, sides: &mut Sides, e: u32) -> bool
    requires branch { e < length part.now.ends }
    requires one_each { length part.now.ends ≡ length pairs.now.forest.held }
    requires room { part.now.vertices ≤ sides.old.most_vertices }
    requires paired { walks ≡ false → ArePaired pairs.now part.now.ends }
    ensures missed { result ≡ true → CanBeMissed pairs.now part.now.ends e }
    ensures needed { result ≡ false → IsNeeded pairs.now part.now.ends e }
    ensures room { sides.new.most_vertices ≡ sides.old.most_vertices }
{
    if pairs.meter_of(e).is_none() {
        return true;
    }
    walks && part.ends(e).is_some() && sides.walk(part, part.positions(), e)
}

// Flags the rows that can be missed.
fn flag_rows(pairs: &Assignment, part: &Graph, rows: u32, sides: &mut Sides, flags: &mut [bool])
    requires rows { rows ≤ length part.now.ends }
    requires one_each { length part.now.ends ≡ length pairs.now.forest.held }
    requires flags { length flags.old ≡ length part.now.ends }
    requires room { part.now.vertices ≤ sides.old.most_vertices }
    ensures missed { AreMissed pairs.now part.now.ends flags.new }
    ensures needed { AreNeeded pairs.now part.now.ends rows flags.new }
    ensures room { sides.new.most_vertices ≡ sides.old.most_vertices }
{
    flags.fill(false);
    let walks = has_unpaired(pairs, part);
    for e in 0..rows {
        flags[e as usize] = can_be_missed(pairs, part, walks, sides, e);
    }
}

/// Which branches of a network are spared.
pub(crate) struct Spared {
    // of each branch whether it is spared, and whether it is costly
    flags: Vec<bool>,
    costly: Vec<bool>,
    // how many of the first branches at a vertex are put into the part
    fronts: Vec<usize>,
    // the ends of the branches that redundant meters touch
    part: Vec<Option<Ends>>,
    // their graph
    touched: Graph,
}

impl Model for Spared {
    ghost use Rattle.std.specs.Prelude.{◌≡◌, length};
    ghost use Rattle.obs_outage.specs.inner.Sparing.{Spared};

    ghost Value = { Spared };

    ghost view = { λ s. record { flags = s.flags.items; costly = s.costly.items; most_vertices = length s.fronts.items } };

    ghost invariant = { λ s. record {
      part : length s.part.items ≡ length s.flags.items;
      branches : s.touched.most_branches ≡ length s.flags.items;
      vertices : s.touched.most_vertices ≡ length s.fronts.items;
    } };
}

// Written out: so a caller's proof sees one call, and not the drop of each field.
impl Drop for Spared {
    fn drop(self) {
        let Spared {
            flags: _,
            costly: _,
            fronts: _,
            part: _,
            touched: _,
        } = self;
    }
}

impl Spared {
    /// Room for the branches of a case's network, of which none is flagged.
    pub(crate) fn make(alloc: Global, case: &Case) -> Result<Spared, NoMemory>
        ensures room { IfOk result (λ s. HasFlags (network_of case.now) s) }
    {
        let branches = position_count(case);
        let vertices = vertex_room(case);
        Ok(Spared {
            flags: vec![in alloc; false; branches as usize]?,
            costly: vec![in alloc; false; branches as usize]?,
            fronts: vec![in alloc; 0; vertices as usize]?,
            part: vec![in alloc; None; branches as usize]?,
            touched: Graph::make(alloc, vertices, branches)?,
        })
    }

    /// Finds which rows are spared: those that no pair has, and those whose ends are joined by other branches that
    /// redundant meters touch; and which are costly: those of critical flows, and the others that redundant meters touch. The
    /// pairs are longest, and stay.
    pub(crate) fn find<L: Ledger>(
        &mut self,
        case: &Case,
        kept: &mut Kept,
        sides: &mut Sides,
        steps: &mut Steps<L>,
    )
        requires network { kept.old.network ≡ network_of case.now }
        requires longest { AreLongest case.now kept.old.pairs }
        requires room { HasRoomOver kept.old.network kept.old.pairs kept.old.work }
        requires flags { HasFlags kept.old.network self.old }
        requires sides { sides.old.most_vertices ≡ kept.old.network.graph.most_vertices }
        ensures told { AreTold kept.new.network self.new }
        ensures network { kept.new.network ≡ kept.old.network }
        ensures longest { AreLongest case.now kept.new.pairs }
        ensures room { HasRoomOver kept.new.network kept.new.pairs kept.new.work }
        ensures sides { sides.new.most_vertices ≡ sides.old.most_vertices }
    {
        let rows = case.branches().len() as u32;
        let g = kept.network.graph();
        let ms = kept.network.meters();
        close(g, ms, &mut kept.pairs, &mut kept.work, steps);
        refill_touched(
            g,
            ms,
            kept.work.reached(),
            &mut self.fronts,
            &mut self.part,
            &mut self.touched,
        );
        flag_rows(&kept.pairs, &self.touched, rows, sides, &mut self.flags);
        let reached = kept.work.reached();
        flag_costly(
            g,
            ms,
            &kept.pairs,
            reached,
            &self.touched,
            &self.flags,
            rows,
            &mut self.costly,
        );
    }

    /// Of each branch whether it is spared.
    pub(crate) fn flags(&self) -> &[bool]
        ensures flags { result.now ≡ self.now.flags }
    {
        &self.flags
    }

    /// Of each branch whether it is costly.
    pub(crate) fn costly(&self) -> &[bool]
        ensures costly { result.now ≡ self.now.costly }
    {
        &self.costly
    }
}
