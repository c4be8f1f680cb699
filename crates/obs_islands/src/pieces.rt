// The pieces of a forest, and the branches between two of them, which are noted at their ends.
ghost use Rattle.std.specs.Prelude.{◌≡◌, ◌<◌, ◌≤◌, ◌^◌, ◌==◌, ◌&&◌, ℕ, IfSome, Some, length, slice_index_or};
ghost use Rattle.obs_graph.specs.Positions.{has_end};
ghost use Rattle.obs_matroid.specs.Lists.{In};
ghost use Rattle.obs_meter.specs.declared.Hub.{Hub};
ghost use Rattle.obs_meter.specs.declared.Touch.TheVariants.{Nothing};
ghost use Rattle.obs_meter.specs.Touches.{touch_at};
ghost use Rattle.obs_meter.specs.inner.Touches.{AreInRange, hub_of};
ghost use Rattle.obs_islands.specs.inner.Rounds.{AreFirsts, AreLowest, IsNotedAt, is_between, is_crossing};

use obs_forest::Forest;
use obs_graph::{Ends, Graph};
use obs_meter::Meters;

/// Writes for each vertex the first vertex of its piece.
pub(crate) fn name_pieces(forest: &Forest, firsts: &mut [u32])
    requires one_each { length firsts.old ≡ forest.now.vertices }
    requires few { length firsts.old < 2 ^ 32 }
    ensures firsts { AreFirsts forest.now.vertices forest.now.held firsts.new }
{
    for v in 0..firsts.len() {
        firsts[v] = forest.piece(v as u32);
    }
}

/// Notes a branch at a vertex, where it is lower than the one that is noted there.
pub(crate) fn lower(v: u32, e: u32, lowest: &mut [u32])
    requires v { v < length lowest.old }
    ensures noted { IsNotedAt (λ u. v == u) e lowest.old lowest.new }
{
    if e < lowest[v as usize] {
        lowest[v as usize] = e;
    }
}

/// Notes the branch at both its ends, where it lies between two pieces.
fn cross(e: u32, ends: Option<Ends>, firsts: &[u32], lowest: &mut [u32])
    requires low { IfSome ends (λ x. (x.a < length firsts.now) × (x.b < length firsts.now)) }
    requires one_each { length lowest.old ≡ length firsts.now }
    ensures crossed { IsNotedAt (λ v. has_end v ends && is_between firsts.now ends) e lowest.old lowest.new }
{
    if let Some(x) = ends {
        if firsts[x.a as usize] != firsts[x.b as usize] {
            lower(x.a, e, lowest);
            lower(x.b, e, lowest);
        }
    }
}

/// Notes at each vertex the lowest branch that lies between two pieces, of those below the limit.
pub(crate) fn mark_crossed(g: &Graph, firsts: &[u32], limit: u32, lowest: &mut [u32])
    requires firsts { length firsts.now ≡ g.now.vertices }
    requires lowest { length lowest.old ≡ g.now.vertices }
    requires limit { limit ≤ length g.now.ends }
    ensures lowest { AreLowest g.now.ends (is_crossing g.now.ends firsts.now) limit lowest.new }
{
    lowest.fill(g.positions());
    for e in 0..limit {
        cross(e, g.ends(e), firsts, lowest);
    }
}

/// One more than the last branch that the item touches at its hub, and 0 where there is none.
fn end_at_hub(g: &Graph, used: &Meters, m: u32) -> u32
    requires item { m < length used.now.touches }
    requires in_range { AreInRange g.now used.now.touches }
    ensures above { (e : ℕ) (h : Hub) → hub_of g.now.ends (slice_index_or used.now.touches m Nothing) ≡ Some h →
        In e (touch_at g.now.ends used.now.touches m) → e < result }
    ensures low { result ≤ length g.now.ends }
{
    let _ = g.positions();
    if used.hub(g, m).is_none() {
        return 0;
    }
    let branches = used.touch(g, m);
    let count = branches.len();
    if count == 0 {
        return 0;
    }
    branches[count - 1] + 1
}

/// A position above all branches that items touch at their hubs. What lies behind it, no item can lose.
pub(crate) fn limit(g: &Graph, used: &Meters) -> u32
    requires in_range { AreInRange g.now used.now.touches }
    ensures above { (m e : ℕ) (h : Hub) → hub_of g.now.ends (slice_index_or used.now.touches m Nothing) ≡ Some h →
        In e (touch_at g.now.ends used.now.touches m) → e < result }
    ensures low { result ≤ length g.now.ends }
{
    let mut limit = 0;
    for m in 0..used.count() {
        let end = end_at_hub(g, used, m);
        if limit < end {
            limit = end;
        }
    }
    limit
}
