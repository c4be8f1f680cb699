// One outage by the long way: the network of the outage case is made, and the pairs are made longest there and back.
ghost use Rattle.std.specs.Prelude.{◌≡◌, ◌≤◌, length};
ghost use Rattle.obs_graph.specs.Positions.{IsForestAt};
ghost use Rattle.obs_case.specs.Tables.{IsValid};
ghost use Rattle.obs_matroid.specs.Assignments.{branches};
ghost use Rattle.obs_matroid.specs.Lists.{In};
ghost use Rattle.obs_assign.specs.inner.Assignment.{pairs as pairs_at};
ghost use Rattle.obs_assign.specs.inner.Still.{still};
ghost use Rattle.obs_exchange.specs.inner.Longest.{IsMost};
ghost use Rattle.obs_network.specs.Network.{network_of};
ghost use Rattle.obs_kept.specs.inner.Kept.{AreLongest, HasRoomOver};
ghost use Rattle.obs_outage.specs.Outages.{outage_of, outage_rows};
ghost use Rattle.obs_outage.specs.inner.Outages.{AllStand};
ghost use Rattle.obs_outage.specs.inner.Ready.{IsKeptOf};

use crate::Outage;
use obs_assign::{Assignment, Steps};
use obs_case::Case;
use obs_exchange::{Work, regrow};
use obs_kept::Kept;
use obs_network::Network;
use std::sync::ledger::Ledger;

/// Carries the pairs over to the network of a case, of which no assignment has more than `most` pairs, and makes them
/// longest there. Where the pairs that stand there are so many and a forest, nothing is searched.
fn carry<L: Ledger>(
    case: &Case,
    network: &Network,
    most: u32,
    pairs: &mut Assignment,
    work: &mut Work,
    steps: &mut Steps<L>,
)
    requires valid { IsValid case.now }
    requires network { network.now ≡ network_of case.now }
    requires room { HasRoomOver network.now pairs.old work.old }
    requires meters { length network.now.meters.touches ≡ length pairs.old.slots }
    requires positions { length network.now.graph.ends ≡ length pairs.old.forest.held }
    requires most { IsMost network.now.graph.ends network.now.meters.touches most }
    ensures longest { AreLongest case.now pairs.new }
    ensures room { HasRoomOver network.now pairs.new work.new }
    ensures quiet { IsForestAt network.now.graph.ends
        (branches (still network.now.graph.ends network.now.meters.touches (pairs_at pairs.old))) →
        most ≤ length (still network.now.graph.ends network.now.meters.touches (pairs_at pairs.old)) →
        (steps.new ≡ steps.old) × (pairs.new.turns ≡ pairs.old.turns) }
{
    let g = network.graph();
    let ms = network.meters();
    let _ = pairs.retain_touching(g, ms);
    let _ = regrow(g, ms, pairs, most, work, steps);
}

/// The entry of one row. The pairs are longest before and after; between, they are longest in the outage case.
pub(crate) fn outage_at<L: Ledger>(
    case: &mut Case,
    e: u32,
    kept: &mut Kept,
    steps: &mut Steps<L>,
) -> Outage
    requires valid { IsValid case.old }
    requires kept { IsKeptOf case.old kept.old }
    requires row { In e (outage_rows case.old) }
    ensures entry { result ≡ outage_of case.old e }
    ensures quiet { AllStand case.old kept.old.pairs e →
        (steps.new ≡ steps.old) × (kept.new.pairs.turns ≡ kept.old.pairs.turns) }
    ensures case { case.new ≡ case.old }
    ensures kept { IsKeptOf case.old kept.new }
{
    let most = kept.pairs.length();
    case.set_branch(e, false);
    let _ = kept.network.refresh_branch(case, e);
    carry(
        case,
        &kept.network,
        most,
        &mut kept.pairs,
        &mut kept.work,
        steps,
    );
    let entry = Outage {
        branch: e,
        rank: kept.pairs.length(),
        needed: kept.network.needed(),
    };
    case.set_branch(e, true);
    let _ = kept.network.refresh_branch(case, e);
    carry(
        case,
        &kept.network,
        most,
        &mut kept.pairs,
        &mut kept.work,
        steps,
    );
    entry
}
