// Searches from one meter after another, in an order that is handed in.
ghost use Rattle.std.specs.Prelude.{◌≡◌, ◌+◌, ◌<◌, ◌≤◌, if◌then◌else◌, ℕ, drop, length, slice_index};
ghost use Rattle.obs_meter.specs.Lost.{is_listed};
ghost use Rattle.obs_meter.specs.inner.Sizes.{HasRoomFor};
ghost use Rattle.obs_meter.specs.inner.Touches.{AreInRange};
ghost use Rattle.obs_exchange.specs.declared.Sources.{Sources};
ghost use Rattle.obs_exchange.specs.inner.Longest.{IsLongest};
ghost use Rattle.obs_exchange.specs.inner.Ordered.{AreReachedInOrder, IsOrder, IsPlacing};
ghost use Rattle.obs_exchange.specs.inner.Searching.{HasRoomIn, IsAsLarge, RunsOn};
ghost use Rattle.obs_exchange.specs.inner.Setting.{IsSound};

use crate::Work;
use crate::begin::spread_source;
use crate::find::start_anew;
use crate::progress::Progress;
use crate::setting::Setting;
use obs_assign::{Assignment, Steps};
use obs_graph::Graph;
use obs_meter::Meters;
use std::sync::ledger::Ledger;

/// Writes a place for each of these meters from one on.
fn write_place(reached: &[u32], first: usize, place: u32, places: &mut [u32])
    requires first { first ≤ length reached.now }
    requires low { (k : ℕ) → k < length reached.now → slice_index reached.now k < length places.old }
    ensures written { (m : ℕ) → slice_index places.new m
        ≡ (if is_listed (drop first reached.now) m then place else slice_index places.old m) }
    ensures same_length { length places.new ≡ length places.old }
{
    for k in first..reached.len() {
        places[reached[k] as usize] = place;
    }
}

/// Writes for all meters the place behind so many.
fn begin_places(count: u32, places: &mut [u32])
    ensures behind { (m : ℕ) → m < length places.new → slice_index places.new m ≡ count }
    ensures same_length { length places.new ≡ length places.old }
{
    for m in 0..places.len() {
        places[m] = count;
    }
}

/// Goes on from the meter at a place of the order, and writes this place for what is reached now and wasn't before.
fn spread_at(over: &Setting<'_>, order: &[u32], k: usize, search: &mut Progress, places: &mut [u32])
    requires longest { IsLongest over.now.graph over.now.touches over.now.assignment }
    requires sources { over.now.sources ≡ Sources.All }
    requires order { IsOrder (length over.now.touches) order.now }
    requires k { k < length order.now }
    requires placing { IsPlacing over.now order.now search.old places.old k }
    ensures placing { IsPlacing over.now order.now search.new places.new (k + 1) }
    ensures runs_on { RunsOn over.now search.old search.new }
{
    let _ = over.meters();
    let before = search.trail.tail();
    let _ = spread_source(over, order[k], search);
    let after = search.trail.tail();
    write_place(search.trail.queued(after), before, k as u32, places);
}

/// Visits what is reached from the meters of an order, one after the other, where no branch is free. Writes for each meter
/// at which place of the order it was first reached.
pub fn spread_in_order(over: &Setting<'_>, order: &[u32], search: &mut Progress, places: &mut [u32])
    requires sound { IsSound over.now }
    requires longest { IsLongest over.now.graph over.now.touches over.now.assignment }
    requires sources { over.now.sources ≡ Sources.All }
    requires room { HasRoomIn over.now search.old }
    requires order { IsOrder (length over.now.touches) order.now }
    requires places { length places.old ≡ length over.now.touches }
    ensures reached { AreReachedInOrder over.now.graph.ends over.now.touches over.now.assignment order.now places.new }
    ensures as_large { IsAsLarge search.old search.new }
{
    let _ = over.meters();
    start_anew(over, search);
    begin_places(order.len() as u32, places);
    for k in 0..order.len() {
        spread_at(over, order, k, search, places);
    }
}

/// Searches from the meters of an order, one after the other, as far as they are live and have no pair, and ticks once.
/// The pairs are as many as they can be, so none is added. Writes for each meter at which place of the order it was first
/// reached, and for one that wasn't how many places there are.
pub fn close_in_order<L: Ledger>(
    g: &Graph,
    ms: &Meters,
    a: &Assignment,
    order: &[u32],
    places: &mut [u32],
    work: &mut Work,
    steps: &mut Steps<L>,
)
    requires longest { IsLongest g.now ms.now.touches a.now }
    requires in_range { AreInRange g.now ms.now.touches }
    requires room { HasRoomFor work.old.sizes g.now ms.now.touches }
    requires order { IsOrder (length ms.now.touches) order.now }
    requires places { length places.old ≡ length ms.now.touches }
    ensures reached { AreReachedInOrder g.now.ends ms.now.touches a.now order.now places.new }
    ensures tick { steps.new ≡ steps.old + 1 }
    ensures same_sizes { work.new.sizes ≡ work.old.sizes }
{
    work.run_in_order(g, ms, a, order, places);
    steps.tick();
}
