// Flags of the branches that items touch which are known not to be critical, and by vertex how many of the first branches
// they touch. An item raises nothing where such items touch all that it touches. The pairs of known items are frozen.
ghost use Rattle.std.specs.Prelude.{◌≡◌, ◌⊎◌, ◌<◌, ℕ, All, IsTrue, false, length, slice_set, true};
ghost use Rattle.obs_matroid.specs.Lists.{In};
ghost use Rattle.obs_meter.specs.Touches.{touch_at};
ghost use Rattle.obs_assign.specs.inner.Assignment.{HasRoomOf, IsWhole, StandsOver, is_frozen};
ghost use Rattle.obs_placement.specs.inner.Holding.{AreFlagged, IsTouchedByKnown, StandsBeside};
ghost use Rattle.obs_placement.specs.inner.Offer.{IsOffer};
ghost use Rattle.obs_placement.specs.inner.Taking.{AreKept, is_known, never, since_at};

use crate::known::{Known, NEVER};
use crate::offer::Offer;
use obs_assign::{Assignment, Steps};
use obs_meter::Touch;
use std::sync::ledger::Ledger;

/// Whether the flags and counts say that known items touch all that the item touches.
pub fn touches_known(offer: &Offer<'_>, known: &Known, m: u32) -> bool
    requires offer { IsOffer offer.now }
    requires m { m < length offer.now.items.now.touches }
    requires flags { AreFlagged offer.now known.now }
    ensures known { IsTrue result → (e : ℕ) → In e (touch_at offer.now.graph.now.ends offer.now.items.now.touches m)
        → IsTouchedByKnown offer.now.graph.now.ends offer.now.items.now.touches known.now.since e }
{
    if let Some(h) = offer.items.hub(offer.graph, m) {
        return h.count <= known.fronts()[h.vertex as usize];
    }
    match offer.items.kind(m) {
        Touch::Edge(e) => known.touched()[e as usize],
        _ => false,
    }
}

/// Notes how many of the first branches at a vertex the known item touches, and says whether as many were noted before.
fn mark_front(offer: &Offer<'_>, known: &mut Known, m: u32) -> bool
    requires offer { IsOffer offer.now }
    requires m { m < length offer.now.items.now.touches }
    requires is_known { is_known known.old.since m ≡ true }
    requires flags { AreFlagged offer.now known.old }
    ensures flags { AreFlagged offer.now known.new }
    ensures only_fronts { known.new ≡ record known.old { fronts = known.new.fronts } }
{
    let Some(h) = offer.items.hub(offer.graph, m) else {
        return false;
    };
    if h.count <= known.fronts()[h.vertex as usize] {
        return true;
    }
    known.put_front(h.vertex, h.count);
    false
}

/// Sets the flags of the branches that the known item touches.
fn mark_touched(offer: &Offer<'_>, known: &mut Known, m: u32)
    requires offer { IsOffer offer.now }
    requires m { m < length offer.now.items.now.touches }
    requires is_known { is_known known.old.since m ≡ true }
    requires flags { AreFlagged offer.now known.old }
    ensures flags { AreFlagged offer.now known.new }
    ensures only_touched { known.new ≡ record known.old { touched = known.new.touched } }
{
    for e in offer.items.touch(offer.graph, m) {
        known.touch(*e);
    }
}

/// Freezes the pair of the item, where it has one.
fn freeze<L: Ledger>(offer: &Offer<'_>, pairs: &mut Assignment, m: u32, steps: &mut Steps<L>)
    requires offer { IsOffer offer.now }
    requires m { m < length offer.now.items.now.touches }
    requires stands { StandsOver pairs.old offer.now.graph.now offer.now.items.now.touches }
    requires whole { IsWhole pairs.old }
    requires thawed { is_frozen pairs.old m ≡ false }
    ensures slots { pairs.new.slots ≡ pairs.old.slots }
    ensures frozen { (x : ℕ) → is_frozen pairs.new x ≡ true → (x ≡ m) ⊎ (is_frozen pairs.old x ≡ true) }
    ensures stands { StandsOver pairs.new offer.now.graph.now offer.now.items.now.touches }
    ensures whole { IsWhole pairs.new }
    ensures same_room { HasRoomOf pairs.old pairs.new }
{
    if let Some(e) = pairs.branch_of(m) {
        pairs.pin(offer.graph, offer.items, m, e, steps);
    }
}

/// Keeps the price for an item that has none yet: sets the flags of what it touches, and freezes its pair.
fn keep_item<L: Ledger>(
    offer: &Offer<'_>,
    pairs: &mut Assignment,
    known: &mut Known,
    m: u32,
    price: u64,
    steps: &mut Steps<L>,
)
    requires offer { IsOffer offer.now }
    requires m { m < length offer.now.items.now.touches }
    requires price { price < never }
    requires unknown { since_at known.old.since m ≡ never }
    requires beside { StandsBeside offer.now pairs.old known.old }
    ensures since { known.new.since ≡ slice_set known.old.since m price }
    ensures slots { pairs.new.slots ≡ pairs.old.slots }
    ensures beside { StandsBeside offer.now pairs.new known.new }
    ensures same_room { HasRoomOf pairs.old pairs.new }
    ensures same_sizes { known.new.sizes ≡ known.old.sizes }
{
    known.set(m, price);
    if !mark_front(offer, known, m) {
        mark_touched(offer, known, m);
    }
    freeze(offer, pairs, m, steps);
}

/// Keeps the price for the reached items that have none yet.
pub fn keep<L: Ledger>(
    offer: &Offer<'_>,
    pairs: &mut Assignment,
    known: &mut Known,
    reached: &[u32],
    price: u64,
    steps: &mut Steps<L>,
)
    requires offer { IsOffer offer.now }
    requires low { All (λ m. m < length offer.now.items.now.touches) reached.now }
    requires price { price < never }
    requires beside { StandsBeside offer.now pairs.old known.old }
    ensures marked { AreKept reached.now price known.old.since known.new.since }
    ensures slots { pairs.new.slots ≡ pairs.old.slots }
    ensures beside { StandsBeside offer.now pairs.new known.new }
    ensures same_room { HasRoomOf pairs.old pairs.new }
    ensures same_sizes { known.new.sizes ≡ known.old.sizes }
{
    for m in reached {
        if known.since()[*m as usize] == NEVER {
            keep_item(offer, pairs, known, *m, price, steps);
        }
    }
}
