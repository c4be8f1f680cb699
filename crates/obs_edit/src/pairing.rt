// The pairs of a placement.
ghost use Rattle.std.specs.Prelude.{◌≡◌, ◌+◌, ◌<◌, ◌≤◌, All, IfOk, length};
ghost use Rattle.obs_meter.specs.inner.Sizes.{HasRoomFor};
ghost use Rattle.obs_meter.specs.inner.Touches.{AreInRange};
ghost use Rattle.obs_assign.specs.inner.Assignment.{Fits, HasRoomOf, StandsOver, pairs as pairs_at};
ghost use Rattle.obs_exchange.specs.inner.Laws.{IsThawed};
ghost use Rattle.obs_first.specs.First.{first_pairs};
ghost use Rattle.obs_edit.specs.Planned.{listed_touches, pairs_in, planned_items};
ghost use Rattle.obs_edit.specs.inner.Planned.{new_paired};

use obs_assign::{Assignment, Steps};
use obs_exchange::{Work, lengthen};
use obs_first::first;
use obs_graph::Graph;
use obs_meter::{Meters, Touch};
use obs_placement::{PlaceWork, Placement};
use obs_repair::NoMemory;
use std::alloc::Global;
use std::marker::Model;
use std::sync::ledger::Ledger;

/// Room for the pairs of a placement, and those that were found last.
pub(crate) struct Pairing {
    // the items, where those that aren't in the plan touch nothing
    items: Meters,
    // the pairs of the items of the plan, and what finds them
    pairs: Assignment,
    exchange: Work,
}

impl Model for Pairing {
    ghost use Rattle.std.specs.Prelude.{◌≡◌, length};
    ghost use Rattle.obs_edit.specs.inner.Planned.{Paired};

    ghost Value = { Paired };

    ghost view = { λ p. record { pairs = p.pairs; sizes = p.exchange.sizes } };

    ghost invariant = { λ p. record {
      items : p.items.most ≡ p.exchange.sizes.meters;
      pair_meters : p.pairs.most_meters ≡ p.exchange.sizes.meters;
      pair_branches : p.pairs.forest.most_branches ≡ p.exchange.sizes.branches;
      pair_vertices : p.pairs.forest.most_vertices ≡ p.exchange.sizes.vertices;
    } };
}

// Written out: so a caller's proof sees one call, and not the drop of each field.
impl Drop for Pairing {
    fn drop(self) {
        let Pairing {
            items: _,
            pairs: _,
            exchange: _,
        } = self;
    }
}

/// Makes the items those of a plan, each with its number among all that is offered. The others touch nothing.
fn list_plan(offered: &Meters, meters: u32, chosen: &[u32], items: &mut Meters)
    requires most { length offered.now.touches ≤ items.old.most }
    requires chosen { All (λ k. meters + k < length offered.now.touches) chosen.now }
    ensures planned { items.new.touches ≡ listed_touches offered.now.touches (planned_items meters chosen.now) }
    ensures same_most { items.new.most ≡ items.old.most }
{
    items.refill(offered.touches());
    for m in meters..offered.count() {
        items.set(m, Touch::Nothing);
    }
    for k in chosen {
        let m = meters + *k;
        items.set(m, offered.kind(m));
    }
}

/// Whether each live item has a pair in the placement.
fn are_paired(g: &Graph, items: &Meters, placed: &Assignment) -> bool
    requires in_range { AreInRange g.now items.now.touches }
    requires one_each { length placed.now.slots ≡ length items.now.touches }
{
    for m in 0..items.count() {
        if items.live(g, m) && placed.branch_of(m).is_none() {
            return false;
        }
    }
    true
}

/// Pins the pair that the item has in the placement, where it may be pinned.
fn pin_placed<L: Ledger>(
    g: &Graph,
    items: &Meters,
    placed: &Assignment,
    m: u32,
    pairs: &mut Assignment,
    steps: &mut Steps<L>,
)
    requires m { m < length items.now.touches }
    requires one_each { length placed.now.slots ≡ length items.now.touches }
    requires stands { StandsOver pairs.old g.now items.now.touches }
    ensures stands { StandsOver pairs.new g.now items.now.touches }
    ensures same_room { HasRoomOf pairs.old pairs.new }
{
    let Some(e) = placed.branch_of(m) else {
        return;
    };
    if e >= g.positions() {
        return;
    }
    if !items.is_touched(g, m, e) {
        return;
    }
    if pairs.may_pin(g, m, e) {
        pairs.pin(g, items, m, e, steps);
    }
}

/// Pins the pairs of the placement, where each live item has one there. Nothing rests on it: they are nearer to the first
/// ones than pairs that are grown anew, except where items are redundant.
fn pin_all<L: Ledger>(
    g: &Graph,
    items: &Meters,
    placed: &Assignment,
    pairs: &mut Assignment,
    steps: &mut Steps<L>,
)
    requires in_range { AreInRange g.now items.now.touches }
    requires one_each { length placed.now.slots ≡ length items.now.touches }
    requires stands { StandsOver pairs.old g.now items.now.touches }
    ensures stands { StandsOver pairs.new g.now items.now.touches }
    ensures same_room { HasRoomOf pairs.old pairs.new }
{
    if !are_paired(g, items, placed) {
        return;
    }
    for m in 0..items.count() {
        pin_placed(g, items, placed, m, pairs, steps);
    }
}

/// Makes the pairs those with which the search for longest ones begins, with nothing frozen.
fn begin_pairs<L: Ledger>(
    g: &Graph,
    items: &Meters,
    placed: &Assignment,
    pairs: &mut Assignment,
    steps: &mut Steps<L>,
)
    requires in_range { AreInRange g.now items.now.touches }
    requires one_each { length placed.now.slots ≡ length items.now.touches }
    requires fits { Fits pairs.old g.now items.now.touches }
    ensures thawed { IsThawed pairs.new }
    ensures stands { StandsOver pairs.new g.now items.now.touches }
    ensures same_room { HasRoomOf pairs.old pairs.new }
{
    pairs.clear(g, items);
    pin_all(g, items, placed, pairs, steps);
    pairs.unpin_all();
}

/// Makes the pairs the first assignment of the items.
fn pair_first<L: Ledger>(
    g: &Graph,
    items: &Meters,
    placed: &Assignment,
    pairs: &mut Assignment,
    exchange: &mut Work,
    steps: &mut Steps<L>,
)
    requires in_range { AreInRange g.now items.now.touches }
    requires one_each { length placed.now.slots ≡ length items.now.touches }
    requires room { HasRoomFor exchange.old.sizes g.now items.now.touches }
    requires fits { Fits pairs.old g.now items.now.touches }
    ensures first { pairs_at pairs.new ≡ first_pairs g.now.vertices g.now.ends items.now.touches }
    ensures stands { StandsOver pairs.new g.now items.now.touches }
    ensures same_room { HasRoomOf pairs.old pairs.new }
    ensures same_sizes { exchange.new.sizes ≡ exchange.old.sizes }
{
    let _ = g.vertices();
    begin_pairs(g, items, placed, pairs, steps);
    let _ = lengthen(g, items, pairs, u32::MAX, exchange, steps);
    first(g, items, pairs, exchange, steps);
}

/// Makes the pairs those of the placement that was found last, over what its items touch.
fn pair_placed<L: Ledger>(
    g: &Graph,
    items: &Meters,
    work: &PlaceWork,
    pairs: &mut Assignment,
    exchange: &mut Work,
    steps: &mut Steps<L>,
)
    requires in_range { AreInRange g.now items.now.touches }
    requires one_each { length work.now.pairs.slots ≡ length items.now.touches }
    requires room { HasRoomFor exchange.old.sizes g.now items.now.touches }
    requires fits { Fits pairs.old g.now items.now.touches }
    ensures pairs { pairs_at pairs.new ≡ pairs_in g.now.vertices g.now.ends items.now.touches work.now.placed }
    ensures stands { StandsOver pairs.new g.now items.now.touches }
    ensures same_room { HasRoomOf pairs.old pairs.new }
    ensures same_sizes { exchange.new.sizes ≡ exchange.old.sizes }
{
    match work.found() {
        Placement::Cheapest(_) => pair_first(g, items, work.pairs(), pairs, exchange, steps),
        Placement::Shortfall(_) => pairs.clear(g, items),
    }
}

/// Makes the pairs those of the placement that was found last of so many meters and then the candidates.
fn pair_plan<L: Ledger>(
    g: &Graph,
    offered: &Meters,
    meters: u32,
    work: &PlaceWork,
    items: &mut Meters,
    pairs: &mut Assignment,
    exchange: &mut Work,
    steps: &mut Steps<L>,
)
    requires in_range { AreInRange g.now offered.now.touches }
    requires chosen { All (λ k. meters + k < length offered.now.touches) work.now.chosen }
    requires one_each { length work.now.pairs.slots ≡ length offered.now.touches }
    requires items { items.old.most ≡ exchange.old.sizes.meters }
    requires room { HasRoomFor exchange.old.sizes g.now offered.now.touches }
    requires fits { Fits pairs.old g.now offered.now.touches }
    ensures pairs { pairs_at pairs.new ≡ pairs_in g.now.vertices g.now.ends
        (listed_touches offered.now.touches (planned_items meters work.now.chosen)) work.now.placed }
    ensures stands { StandsOver pairs.new g.now offered.now.touches }
    ensures same_most { items.new.most ≡ items.old.most }
    ensures same_room { HasRoomOf pairs.old pairs.new }
    ensures same_sizes { exchange.new.sizes ≡ exchange.old.sizes }
{
    list_plan(offered, meters, work.chosen(), items);
    pair_placed(g, items, work, pairs, exchange, steps);
}

impl Pairing {
    /// No pair, with room for so many meters and candidates together, and so many branches and vertices.
    pub(crate) fn make(
        alloc: Global,
        most_offered: u32,
        most_branches: u32,
        most_vertices: u32,
    ) -> Result<Pairing, NoMemory>
        ensures empty { IfOk result (λ p. p ≡
            new_paired (record { meters = most_offered; branches = most_branches; vertices = most_vertices })) }
    {
        let Ok(items) = Meters::make(alloc, most_offered) else {
            return Err(NoMemory);
        };
        let Ok(pairs) = Assignment::make(alloc, most_offered, most_branches, most_vertices) else {
            return Err(NoMemory);
        };
        let Ok(exchange) = Work::make(alloc, most_offered, most_branches, most_vertices) else {
            return Err(NoMemory);
        };
        Ok(Pairing {
            items,
            pairs,
            exchange,
        })
    }

    /// Finds the pairs of the placement that was found last of so many meters and then the candidates.
    pub(crate) fn pair<L: Ledger>(
        &mut self,
        g: &Graph,
        offered: &Meters,
        meters: u32,
        work: &PlaceWork,
        steps: &mut Steps<L>,
    )
        requires in_range { AreInRange g.now offered.now.touches }
        requires chosen { All (λ k. meters + k < length offered.now.touches) work.now.chosen }
        requires one_each { length work.now.pairs.slots ≡ length offered.now.touches }
        requires room { HasRoomFor self.old.sizes g.now offered.now.touches }
        ensures pairs { pairs_at self.new.pairs ≡ pairs_in g.now.vertices g.now.ends
            (listed_touches offered.now.touches (planned_items meters work.now.chosen)) work.now.placed }
        ensures stands { StandsOver self.new.pairs g.now offered.now.touches }
        ensures same_sizes { self.new.sizes ≡ self.old.sizes }
    {
        pair_plan(
            g,
            offered,
            meters,
            work,
            &mut self.items,
            &mut self.pairs,
            &mut self.exchange,
            steps,
        );
    }

    /// The pairs that were found last.
    pub(crate) fn found(&self) -> &Assignment
        ensures pairs { result.now ≡ self.now.pairs }
    {
        &self.pairs
    }
}
