// How one meter is decided: it takes the lowest branch with which the pairs can be as many as before.
ghost use Rattle.std.specs.Prelude.{◌≡◌, ◌+◌, ◌<◌, ℕ, Some, length, slice_index_or};
ghost use Rattle.obs_meter.specs.declared.Touch.TheVariants.{Nothing};
ghost use Rattle.obs_first.specs.inner.Deciding.{GoesOn, IsDecided, IsPassed, IsReady, frozen_pairs};

use crate::trying::take_branch;
use obs_assign::{Assignment, Steps};
use obs_exchange::{Over, Work};
use obs_meter::Meters;
use std::sync::ledger::Ledger;

/// A meter before m that touches the same, where the last one that was noted does.
fn same_before(ms: &Meters, m: u32, work: &Work) -> Option<u32>
    requires m { m < length ms.now.touches }
    ensures before { (k : ℕ) → result ≡ Some k → k < m }
    ensures same { (k : ℕ) → result ≡ Some k →
        slice_index_or ms.now.touches k Nothing ≡ slice_index_or ms.now.touches m Nothing }
{
    let kind = ms.kind(m);
    let k = work.like(kind)?;
    if k < m && ms.kind(k) == kind {
        Some(k)
    } else {
        None
    }
}

/// A bound below which the meter can have no branch: where one before it touches the same, this one can have none that
/// would have been lower there.
fn lowest_for(ms: &Meters, a: &Assignment, m: u32, work: &Work) -> u32
    requires m { m < length ms.now.touches }
    requires meters { length ms.now.touches ≡ length a.now.slots }
    ensures passed { (y : ℕ) → y < result → IsPassed ms.now.touches a.now m y }
{
    let Some(k) = same_before(ms, m, work) else {
        return 0;
    };
    match a.branch_of(k) {
        Some(e) => e,
        None => u32::MAX,
    }
}

/// Decides the meter, where those before it are decided, and so many of these have a pair: it takes the lowest branch
/// with which the pairs can be as many as before, or none where there is no such branch. Says how many have a pair
/// then. Once all pairs are those of decided meters, the further ones have none.
pub fn decide<L: Ledger>(
    over: &Over<'_>,
    a: &mut Assignment,
    m: u32,
    rank: u32,
    taken: u32,
    work: &mut Work,
    steps: &mut Steps<L>,
) -> u32
    requires ready { IsReady over.now.graph.now over.now.meters.now.touches a.old work.old rank }
    requires m { m < length over.now.meters.now.touches }
    requires decided { IsDecided over.now.graph.now.ends over.now.meters.now.touches a.old m rank }
    requires taken { taken ≡ length (frozen_pairs a.old) }
    ensures decided { IsDecided over.now.graph.now.ends over.now.meters.now.touches a.new (m + 1) rank }
    ensures taken { result ≡ length (frozen_pairs a.new) }
    ensures goes_on { GoesOn over.now.graph.now over.now.meters.now.touches a.old a.new work.old work.new rank }
{
    if taken >= rank {
        return taken;
    }
    let low = lowest_for(over.meters, a, m, work);
    work.note_like(over.meters.kind(m), m);
    for e in over.meters.touch(over.graph, m) {
        if *e < low {
            continue;
        }
        if take_branch(over, a, m, *e, rank, work, steps) {
            return taken + 1;
        }
    }
    taken
}
