// The pairs whose item is still used, and the pieces of their branches.
ghost use Rattle.std.specs.Prelude.{◌≡◌, ◌<◌, ◌≤◌, ◌^◌, ℕ, length, slice_index, slice_index_or};
ghost use Rattle.obs_graph.specs.inner.Search.{room_of};
ghost use Rattle.obs_meter.specs.declared.Touch.TheVariants.{Nothing};
ghost use Rattle.obs_assign.specs.inner.Assignment.{IsWhole};
ghost use Rattle.obs_islands.specs.inner.Left.{AreLeft, AreOver, HasPlaces, IsLeftAt, IsNumbered, is_nothing};
ghost use Rattle.obs_islands.specs.inner.Rounds.{AreFirsts};

use crate::pairing::Pairing;
use obs_graph::Ends;
use obs_graph::search::{Search, reach_all};
use obs_meter::{Meters, Touch};

/// Whether the item touches nothing, as a discarded one does.
fn is_discarded(used: &Meters, m: u32) -> bool
    requires item { m < length used.now.touches }
    ensures value { result ≡ is_nothing (slice_index_or used.now.touches m Nothing) }
{
    match used.kind(m) {
        Touch::Nothing => true,
        _ => false,
    }
}

/// The ends of the branch, where a pair has it whose item is still used.
fn left_branch(over: &Pairing<'_>, used: &Meters, e: u32) -> Option<Ends>
    requires position { e < length over.now.graph.now.ends }
    requires over { AreOver over.now used.now.touches }
    requires whole { IsWhole over.now.pairs.now }
    ensures left { IsLeftAt over.now.graph.now.ends used.now.touches over.now.pairs.now e result }
{
    let m = over.pairs.meter_of(e)?;
    if is_discarded(used, m) {
        None
    } else {
        over.graph.ends(e)
    }
}

/// Writes the branches of the pairs whose item is still used.
fn hold_left(over: &Pairing<'_>, used: &Meters, held: &mut [Option<Ends>])
    requires one_each { length held.old ≡ length over.now.graph.now.ends }
    requires few { length over.now.graph.now.ends < 2 ^ 32 }
    requires over { AreOver over.now used.now.touches }
    requires whole { IsWhole over.now.pairs.now }
    ensures left { AreLeft over.now.graph.now.ends used.now.touches over.now.pairs.now held.new }
{
    for e in 0..held.len() {
        held[e] = left_branch(over, used, e as u32);
    }
}

/// Writes for each vertex the first one of its piece, as a search found it.
fn copy_pieces(search: &Search, firsts: &mut [u32])
    requires room { length firsts.old ≤ room_of search.now }
    requires few { length firsts.old < 2 ^ 32 }
    ensures one_each { length firsts.new ≡ length firsts.old }
    ensures pieces { (v : ℕ) → v < length firsts.new → slice_index firsts.new v ≡ slice_index search.now.piece v }
{
    for v in 0..firsts.len() {
        firsts[v] = search.piece_of(v as u32);
    }
}

/// Writes for each vertex the first vertex of its piece of the pairs whose item is still used.
pub(crate) fn name_left(
    over: &Pairing<'_>,
    used: &Meters,
    held: &mut [Option<Ends>],
    search: &mut Search,
    firsts: &mut [u32],
)
    requires numbered { IsNumbered over.now.graph.now }
    requires places { HasPlaces over.now.graph.now held.old search.old firsts.old }
    requires over { AreOver over.now used.now.touches }
    requires whole { IsWhole over.now.pairs.now }
    ensures left { AreLeft over.now.graph.now.ends used.now.touches over.now.pairs.now held.new }
    ensures firsts { AreFirsts over.now.graph.now.vertices held.new firsts.new }
    ensures room { room_of search.new ≡ room_of search.old }
{
    hold_left(over, used, held);
    reach_all(over.graph, held, search);
    copy_pieces(search, firsts);
}
