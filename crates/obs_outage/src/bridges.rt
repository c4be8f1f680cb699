// The entry of a row that parts the buses of its component, where this isn't absolute.
ghost use Rattle.std.specs.Prelude.{◌≡◌, ◌<◌, IfSome, IsTrue, false, slice_index, sum_by, true};
ghost use Rattle.obs_case.specs.Tables.{IsValid};
ghost use Rattle.obs_matroid.specs.Lists.{In};
ghost use Rattle.obs_kept.specs.inner.Kept.{AreLongest};
ghost use Rattle.obs_network.specs.Network.{case_needed, case_rows, network_of};
ghost use Rattle.obs_network.specs.Parted.{outage_case};
ghost use Rattle.obs_network.specs.inner.Parted.{IsSide};
ghost use Rattle.obs_outage.specs.inner.Feeds.{AreFeeds, IsFall, TakesAlone};
ghost use Rattle.obs_outage.specs.inner.Lost.{IsUnfed};
ghost use Rattle.obs_outage.specs.Outages.{outage_of, outage_rows};
ghost use Rattle.obs_outage.specs.inner.Outages.{AllStand};
ghost use Rattle.obs_outage.specs.inner.Ready.{IsBasisOf, IsReady};
ghost use Rattle.obs_outage.specs.inner.Settled.{IsFreed, IsMissed};

use crate::Outage;
use crate::basis::Basis;
use crate::dead::{count_lost, is_confined};
use crate::feeds::Feeds;
use crate::rowless::Without;
use crate::short_way::{miss, rank_without, settle};
use crate::spared::Spared;
use obs_assign::{Assignment, Steps};
use obs_case::Case;
use obs_kept::Kept;
use obs_network::Network;
use std::sync::ledger::Ledger;

/// What an outage takes from the needed number, and whether the listed side has no source.
#[derive(Clone, Copy)]
struct Loss {
    less: u32,
    unfed: bool,
}

/// By how much the needed number falls without a row that parts its component, where this isn't absolute, and the other side than
/// the listed one has a source. So many sources are on the listed side.
fn fall_without(
    case: &Case,
    e: u32,
    network: &Network,
    feeds: &Feeds,
    side: &[u32],
    here: u64,
) -> Option<Loss>
    requires valid { IsValid case.now }
    requires network { network.now ≡ network_of case.now }
    requires feeds { AreFeeds case.now feeds.now }
    requires row { In e (outage_rows case.now) }
    requires side { IsSide (case_rows case.now) e side.now }
    requires here { here ≡ sum_by (slice_index feeds.now.of_buses) side.now }
    ensures fall { IfSome result (λ r. IsFall case.now e r.less) }
    ensures listed { IfSome result (λ r. r.unfed ≡ true → IsUnfed case.now e side.now) }
    ensures both { IfSome result (λ r. r.unfed ≡ false → TakesAlone case.now e) }
{
    let c = network.component_of_branch(e)?;
    if network.absolute(c) {
        return None;
    }
    if here == 0 {
        let buses = side.len() as u32;
        return Some(Loss {
            less: buses,
            unfed: true,
        });
    }
    if here == u64::from(feeds.of_component(c)) {
        return None;
    }
    Some(Loss {
        less: 1,
        unfed: false,
    })
}

/// The entry of a row where the listed side has no source: the pairs that it loses are gone.
fn unfed_entry(
    case: &Case,
    e: u32,
    network: &Network,
    pairs: &Assignment,
    side: &[u32],
    needed: u32,
) -> Outage
    requires valid { IsValid case.now }
    requires network { network.now ≡ network_of case.now }
    requires longest { AreLongest case.now pairs.now }
    requires unfed { IsUnfed case.now e side.now }
    requires freed { IsFreed network.now pairs.now e side.now }
    requires needed { needed ≡ case_needed (outage_case case.now e) }
    ensures entry { result ≡ outage_of case.now e }
{
    let lost = count_lost(network.graph(), pairs, e, side) as u32;
    Outage {
        branch: e,
        rank: pairs.length() - lost,
        needed,
    }
}

/// Makes the pairs miss the row, where it is had by a meter that touches branches on the side that stays, and it isn't costly.
/// Says whether they do then, or the row is costly.
fn frees<L: Ledger>(
    e: u32,
    side: &[u32],
    kept: &mut Kept,
    without: &mut Without,
    spared: &Spared,
    steps: &mut Steps<L>,
) -> bool
    requires ready { IsReady kept.old without.old spared.now }
    requires row { e < kept.old.network.rows.branches }
    ensures freed { IsTrue result → IsFreed kept.old.network kept.new.pairs e side.now }
    ensures ready { IsReady kept.new without.new spared.now }
    ensures network { kept.new.network ≡ kept.old.network }
    ensures quiet { IsMissed kept.old.pairs e → (steps.new ≡ steps.old) × (kept.new.pairs ≡ kept.old.pairs) }
{
    if is_confined(&kept.network, &kept.pairs, e, side) {
        return true;
    }
    if spared.flags()[e as usize] {
        return miss(e, kept, without, spared, steps);
    }
    settle(e, kept, without, spared, steps);
    true
}

/// The entry of a row that parts its component, where this isn't absolute, and it is known what stands below it.
pub(crate) fn parted_entry<L: Ledger>(
    case: &Case,
    e: u32,
    basis: &mut Basis,
    steps: &mut Steps<L>,
) -> Option<Outage>
    requires valid { IsValid case.now }
    requires basis { IsBasisOf case.now basis.old }
    requires row { In e (outage_rows case.now) }
    ensures entry { IfSome result (λ o. o ≡ outage_of case.now e) }
    ensures basis { IsBasisOf case.now basis.new }
    ensures quiet { AllStand case.now basis.old.kept.pairs e →
        (steps.new ≡ steps.old) × (basis.new.kept.pairs ≡ basis.old.kept.pairs) }
{
    let below = basis.bridges.below(e)?;
    let network = &basis.kept.network;
    let fall = fall_without(case, e, network, &basis.feeds, below.side, below.sum)?;
    let before = basis.kept.network.needed();
    let needed = before - fall.less;
    if basis.kept.pairs.length() == before {
        return Some(Outage {
            branch: e,
            rank: needed,
            needed,
        });
    }
    if fall.unfed {
        if frees(
            e,
            below.side,
            &mut basis.kept,
            &mut basis.without,
            &basis.spared,
            steps,
        ) {
            let kept = &basis.kept;
            let entry = unfed_entry(case, e, &kept.network, &kept.pairs, below.side, needed);
            return Some(entry);
        }
        return None;
    }
    let rank = rank_without(e, &mut basis.kept, &mut basis.without, &basis.spared, steps);
    Some(Outage {
        branch: e,
        rank,
        needed,
    })
}
