// The rank of branches that come one after the other: each vertex has a way up to the first one that they join with it.
ghost use Rattle.std.specs.Prelude.{◌≡◌, ◌↔◌, ◌<◌, ◌≤◌, ◌^◌, ◌+◌, ◌⊎◌, ◌∷◌, [], ℕ, List, None, IfSome, length, slice_index, slice_index_or, slice_set, take};
ghost use Rattle.obs_graph.specs.declared.Ends.{Ends};
ghost use Rattle.obs_graph.specs.Joined.{first_joined};
ghost use Rattle.obs_cert.specs.inner.Contractions.{FitsIn, contracted_ends};
ghost use Rattle.obs_cert.specs.inner.Joins.{AreFirsts, AreJoined, AreLow, AreWays, onto};

use crate::contraction::{Contraction, contracted_ends};
use obs_graph::{Ends, Graph};

// The first vertex that is joined with v. The ways on the way become shorter.
fn first(ups: &mut [u32], v: u32) -> u32
    requires low { AreLow ups.old }
    requires v { v < length ups.old }
    ensures low { AreLow ups.new }
    ensures same_tops { (u : ℕ) → (slice_index ups.new u ≡ u) ↔ (slice_index ups.old u ≡ u) }
    ensures top { slice_index ups.new result ≡ result }
    ensures below { result ≤ v }
    ensures first { (es : List Ends) → AreFirsts es ups.old → AreFirsts es ups.new }
    ensures joined { (es : List Ends) → AreFirsts es ups.old → first_joined es result ≡ first_joined es v }
{
    let mut v = v;
    while ups[v as usize] != v {
        let up = ups[ups[v as usize] as usize];
        ups[v as usize] = up;
        v = up;
    }
    v
}

// Leads the way of the higher vertex to the lower one, and notes it.
fn lead(ups: &mut [u32], moved: &mut [u32], count: usize, low: u32, high: u32)
    requires room { count < length moved.old }
    requires high { high < length ups.old }
    ensures led { ups.new ≡ slice_set ups.old high low }
    ensures noted { moved.new ≡ slice_set moved.old count high }
{
    ups[high as usize] = low;
    moved[count] = high;
}

/// Joins the ends of one more branch, and says how many vertices are noted then: the rank of the branches.
pub(crate) fn join(ups: &mut [u32], moved: &mut [u32], count: usize, ends: Ends) -> usize
    requires ways { AreWays ups.old moved.old count }
    requires a { ends.a < length ups.old }
    requires b { ends.b < length ups.old }
    ensures joined { (es : List Ends) → AreJoined es ups.old (take count moved.old) →
        AreJoined (ends ∷ es) ups.new (take result moved.new) }
    ensures count { result ≤ length moved.new }
    ensures one { (result ≡ count) ⊎ (result ≡ count + 1) }
{
    let x = first(ups, ends.a);
    let y = first(ups, ends.b);
    if x == y {
        return count;
    }
    lead(ups, moved, count, x.min(y), x.max(y));
    count + 1
}

/// The two ends of the branch at a position, if it is present.
pub(crate) fn ends_of(g: &Graph, e: u32) -> Option<Ends>
    ensures ends { result ≡ slice_index_or g.now.ends e None }
    ensures in_range { IfSome result (λ x. (x.a < g.now.vertices) × (x.b < g.now.vertices)) }
{
    if e < g.positions() { g.ends(e) } else { None }
}

/// Joins what became of the ends of the branches at these positions, where they are present.
pub(crate) fn join_all(
    g: &Graph,
    positions: &[u32],
    contraction: Contraction<'_>,
    ups: &mut [u32],
    moved: &mut [u32],
    count: usize,
) -> usize
    requires ways { AreWays ups.old moved.old count }
    requires vertices { g.now.vertices ≤ length ups.old }
    requires fits { FitsIn g.now.vertices contraction }
    ensures joined { (es : List Ends) → AreJoined es ups.old (take count moved.old) →
        AreJoined (onto (contracted_ends contraction.entry g.now.ends) positions.now es) ups.new (take result moved.new) }
    ensures count { result ≤ length moved.new }
{
    let mut count = count;
    for e in positions {
        if let Some(ends) = contracted_ends(g, contraction, *e) {
            count = join(ups, moved, count, ends);
        }
    }
    count
}

/// Lets each vertex stand for itself again, in the time of what was noted.
pub(crate) fn clear(ups: &mut [u32], moved: &[u32])
    requires joined { (es : List Ends) × AreJoined es ups.old moved.now }
    ensures clear { AreJoined [] ups.new [] }
{
    for v in moved {
        ups[*v as usize] = *v;
    }
}

/// Lets each vertex stand for itself.
pub(crate) fn begin(ups: &mut [u32])
    requires few { length ups.old < 2 ^ 32 }
    ensures clear { AreJoined [] ups.new [] }
{
    for v in 0..ups.len() {
        ups[v] = v as u32;
    }
}
