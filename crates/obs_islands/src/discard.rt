// The items that stay used.
ghost use Rattle.std.specs.Prelude.{◌≡◌, ◌<◌, ◌^◌, length, slice_index_or};
ghost use Rattle.std.specs.List.{list_any};
ghost use Rattle.obs_meter.specs.declared.Touch.TheVariants.{Nothing};
ghost use Rattle.obs_meter.specs.inner.Touches.{AreInRange, IsInRange, touches_branch};
ghost use Rattle.obs_islands.specs.inner.GivenUp.{GivesUp};
ghost use Rattle.obs_islands.specs.inner.Left.{AreOver};
ghost use Rattle.obs_islands.specs.inner.Rounds.{is_crossing, noted, remaining, straddles};

use crate::follow::follow;
use crate::pairing::Pairing;
use crate::pieces::{limit, mark_crossed};
use obs_graph::Graph;
use obs_meter::{Meters, Touch};

/// Whether the item touches the branch. What is no position isn't touched.
fn touches(g: &Graph, used: &Meters, m: u32, e: u32) -> bool
    requires item { m < length used.now.touches }
    ensures value { result ≡ touches_branch g.now.ends used.now.touches m e }
{
    if e < g.positions() {
        used.is_touched(g, m, e)
    } else {
        false
    }
}

/// Whether the item touches the branch that is noted at its hub.
fn is_straddling(g: &Graph, used: &Meters, m: u32, lowest: &[u32]) -> bool
    requires item { m < length used.now.touches }
    requires in_range { IsInRange g.now (slice_index_or used.now.touches m Nothing) }
    requires lowest { length lowest.now ≡ g.now.vertices }
    ensures value { result ≡
        straddles g.now.ends (noted lowest.now) (slice_index_or used.now.touches m Nothing) }
{
    match used.hub(g, m) {
        Some(hub) => touches(g, used, m, lowest[hub.vertex as usize]),
        None => false,
    }
}

/// Discards the items that touch the branch that is noted at their hub: they touch nothing then. Says whether there is
/// one.
fn keep_others(g: &Graph, used: &mut Meters, lowest: &[u32]) -> bool
    requires in_range { AreInRange g.now used.old.touches }
    requires lowest { length lowest.now ≡ g.now.vertices }
    ensures remaining { used.new ≡ record used.old {
      touches = remaining g.now.ends (noted lowest.now) used.old.touches;
    } }
    ensures some { result ≡ list_any (straddles g.now.ends (noted lowest.now)) used.old.touches }
{
    let mut some = false;
    for m in 0..used.count() {
        if !is_straddling(g, used, m, lowest) {
            continue;
        }
        used.set(m, Touch::Nothing);
        some = true;
    }
    some
}

/// Notes at each vertex the lowest branch that lies between two pieces, and what is lost after those. Discards the items
/// that touch what is noted at their hub, and says whether there is one.
pub(crate) fn discard(
    over: &Pairing<'_>,
    used: &mut Meters,
    firsts: &[u32],
    lowest: &mut [u32],
    queue: &mut [u32],
) -> bool
    requires few { over.now.graph.now.vertices < 2 ^ 32 }
    requires over { AreOver over.now used.old.touches }
    requires in_range { AreInRange over.now.graph.now used.old.touches }
    requires firsts { length firsts.now ≡ over.now.graph.now.vertices }
    requires lowest { length lowest.old ≡ over.now.graph.now.vertices }
    requires queue { length queue.old ≡ over.now.graph.now.vertices }
    ensures gives_up { GivesUp over.now.graph.now.ends used.old.touches over.now.pairs.now
        (is_crossing over.now.graph.now.ends firsts.now) (noted lowest.new) }
    ensures remaining { used.new ≡ record used.old {
      touches = remaining over.now.graph.now.ends (noted lowest.new) used.old.touches;
    } }
    ensures some { result ≡ list_any (straddles over.now.graph.now.ends (noted lowest.new)) used.old.touches }
{
    mark_crossed(over.graph, firsts, limit(over.graph, used), lowest);
    follow(over, used, lowest, queue);
    keep_others(over.graph, used, lowest)
}
