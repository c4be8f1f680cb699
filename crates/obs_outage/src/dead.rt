// What the outage of a row takes where a side of it has no source: the pairs whose branch has an end there.
ghost use Rattle.std.specs.Prelude.{◌≡◌, ◌<◌, ◌^◌, All, IsTrue, length, count_by, sum_by};
ghost use Rattle.obs_graph.specs.Positions.{branches_at};
ghost use Rattle.obs_matroid.specs.Lists.{In};
ghost use Rattle.obs_assign.specs.inner.Assignment.{IsWhole};
ghost use Rattle.obs_outage.specs.inner.Lost.{IsConfined, counts_at, has_first};

use obs_assign::Assignment;
use obs_graph::{Ends, Graph};
use obs_network::Network;

// Whether a bus is the first end of a branch.
fn is_first_end(ends: Option<Ends>, v: u32) -> bool
    ensures first { result ≡ has_first v ends }
{
    match ends {
        Some(x) => x.a == v,
        None => false,
    }
}

// Whether a branch counts at a bus: a row within the side counts at its first end alone.
fn counts(g: &Graph, pairs: &Assignment, e: u32, v: u32, k: u32) -> bool
    requires branch { k < length g.now.ends }
    requires one_each { length pairs.now.forest.held ≡ length g.now.ends }
    ensures counts { result ≡ counts_at g.now.ends pairs.now.forest.held e v k }
{
    pairs.forest().holds(k) && (k == e || is_first_end(g.ends(k), v))
}

// How many of some branches count at a bus.
fn count_at(g: &Graph, pairs: &Assignment, e: u32, v: u32, branches: &[u32]) -> u32
    requires few { length branches.now < 2 ^ 32 }
    requires low { All (λ k. k < length g.now.ends) branches.now }
    requires one_each { length pairs.now.forest.held ≡ length g.now.ends }
    ensures count { result ≡ count_by (counts_at g.now.ends pairs.now.forest.held e v) branches.now }
{
    let mut count = 0;
    for k in branches {
        if counts(g, pairs, e, v, *k) {
            count += 1;
        }
    }
    count
}

/// How many pairs a side loses: at each of its buses the branches are counted that count there.
pub(crate) fn count_lost(g: &Graph, pairs: &Assignment, e: u32, side: &[u32]) -> u64
    requires few { length side.now < 2 ^ 32 }
    requires few_branches { length g.now.ends < 2 ^ 32 }
    requires buses { All (λ v. v < g.now.vertices) side.now }
    requires one_each { length pairs.now.forest.held ≡ length g.now.ends }
    ensures sum { result ≡ sum_by (λ v.
        count_by (counts_at g.now.ends pairs.now.forest.held e v) (branches_at g.now.ends v)) side.now }
{
    let mut sum = 0;
    for v in side {
        sum += u64::from(count_at(g, pairs, e, *v, g.branches_at(*v)));
    }
    sum
}

// Whether a bus is one of some buses.
fn is_one_of(buses: &[u32], v: u32) -> bool
    ensures one { IsTrue result → In v buses.now }
{
    for b in buses {
        if *b == v {
            return true;
        }
    }
    false
}

/// Whether the meter that has the row, if one has it, touches no other branch or those at a bus of the side.
pub(crate) fn is_confined(network: &Network, pairs: &Assignment, e: u32, side: &[u32]) -> bool
    requires branch { e < length pairs.now.forest.held }
    requires whole { IsWhole pairs.now }
    requires meters { length pairs.now.slots ≡ length network.now.meters.touches }
    requires one_each { length pairs.now.forest.held ≡ length network.now.graph.ends }
    ensures confined { IsTrue result → IsConfined network.now pairs.now e side.now }
{
    match pairs.meter_of(e) {
        Some(m) => match network.meters().hub(network.graph(), m) {
            Some(hub) => is_one_of(side, hub.vertex),
            None => true,
        },
        None => true,
    }
}
