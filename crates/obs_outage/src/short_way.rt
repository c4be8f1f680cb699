// The short way of one outage: one search, from the critical meter that has the row, over the network without it; or from all sources,
// where longest pairs can miss the row.
ghost use Rattle.std.specs.Prelude.{◌≡◌, ◌<◌, ℕ, IsTrue, Some, false, length};
ghost use Rattle.obs_graph.specs.Positions.{AreBranches};
ghost use Rattle.obs_meter.specs.inner.Sizes.{HasRoomFor};
ghost use Rattle.obs_meter.specs.Touches.{live_items};
ghost use Rattle.obs_assign.specs.Assignment.{Assignment};
ghost use Rattle.obs_assign.specs.inner.Assignment.{HasRoomOf, StandsOver, branch_at, has_flag};
ghost use Rattle.obs_exchange.specs.Critical.{IsCriticalAt};
ghost use Rattle.obs_kept.specs.inner.Kept.{AreLongestOver};
ghost use Rattle.obs_outage.specs.inner.Alone.{HasLost};
ghost use Rattle.obs_outage.specs.inner.Ready.{IsReady};
ghost use Rattle.obs_outage.specs.inner.Settled.{IsMissed, IsRankWithout, IsSettled};
ghost use Rattle.obs_outage.specs.inner.Without.{IsWithout};

use crate::rowless::Without;
use crate::spared::Spared;
use obs_assign::{Assignment, Steps};
use obs_exchange::{Found, Sources, Work, search};
use obs_kept::Kept;
use obs_network::Network;
use std::sync::ledger::Ledger;

/// Gives a meter the pair back that it lost: over the network it can have one, since it had.
fn give_back<L: Ledger>(
    network: &Network,
    m: u32,
    pairs: &mut Assignment,
    work: &mut Work,
    steps: &mut Steps<L>,
)
    requires lost { (a : Assignment) × (e : ℕ) × HasLost network.now a m e pairs.old }
    requires stands { StandsOver pairs.old network.now.graph network.now.meters.touches }
    requires room { HasRoomFor work.old.sizes network.now.graph network.now.meters.touches }
    ensures longest { AreLongestOver network.now pairs.new }
    ensures same_room { HasRoomOf pairs.old pairs.new }
    ensures same_sizes { work.new.sizes ≡ work.old.sizes }
{
    let g = network.graph();
    let ms = network.meters();
    let _ = search(g, ms, pairs, Sources::One(m), work, steps);
}

/// Takes a row from the critical meter m, and looks for another branch for it over the network without the row. No other meter can
/// make up for the pair of a critical one, so this search tells whether the row is costly; the meter then gets it back.
fn look_for_other<L: Ledger>(
    e: u32,
    m: u32,
    network: &Network,
    without: &Without,
    pairs: &mut Assignment,
    work: &mut Work,
    steps: &mut Steps<L>,
)
    requires without { IsWithout network.now e without.now }
    requires branches { AreBranches network.now.graph.vertices network.now.graph.ends }
    requires longest { AreLongestOver network.now pairs.old }
    requires owner { branch_at pairs.old m ≡ Some e }
    requires critical { IsCriticalAt network.now.graph.ends network.now.meters.touches
        (live_items network.now.graph.ends network.now.meters.touches) m }
    requires room { HasRoomFor work.old.sizes network.now.graph network.now.meters.touches }
    ensures settled { IsSettled network.now pairs.new e }
    ensures longest { AreLongestOver network.now pairs.new }
    ensures same_room { HasRoomOf pairs.old pairs.new }
    ensures same_sizes { work.new.sizes ≡ work.old.sizes }
{
    pairs.drop_pair(network.graph(), m);
    let _ = network.meters();
    match search(
        &without.graph,
        &without.meters,
        pairs,
        Sources::One(m),
        work,
        steps,
    ) {
        Found::Grown(_) => {}
        Found::Closed => give_back(network, m, pairs, work, steps),
    }
}

/// Takes a row from the meter m, and looks for one pair more over the network without the row, from all sources. Where there is none,
/// the meter gets the row back. Says whether the pairs miss it.
fn find_another<L: Ledger>(
    e: u32,
    m: u32,
    network: &Network,
    without: &Without,
    pairs: &mut Assignment,
    work: &mut Work,
    steps: &mut Steps<L>,
) -> bool
    requires without { IsWithout network.now e without.now }
    requires longest { AreLongestOver network.now pairs.old }
    requires owner { branch_at pairs.old m ≡ Some e }
    requires room { HasRoomFor work.old.sizes network.now.graph network.now.meters.touches }
    ensures missed { IsTrue result → IsMissed pairs.new e }
    ensures longest { AreLongestOver network.now pairs.new }
    ensures same_room { HasRoomOf pairs.old pairs.new }
    ensures same_sizes { work.new.sizes ≡ work.old.sizes }
{
    pairs.drop_pair(network.graph(), m);
    let _ = network.meters();
    let g = &without.graph;
    let ms = &without.meters;
    match search(g, ms, pairs, Sources::All, work, steps) {
        Found::Grown(_) => true,
        Found::Closed => {
            give_back(network, m, pairs, work, steps);
            false
        }
    }
}

/// Makes the pairs miss a row that longest pairs can miss. Says whether they do.
pub(crate) fn miss<L: Ledger>(
    e: u32,
    kept: &mut Kept,
    without: &mut Without,
    spared: &Spared,
    steps: &mut Steps<L>,
) -> bool
    requires ready { IsReady kept.old without.old spared.now }
    requires row { e < kept.old.network.rows.branches }
    ensures missed { IsTrue result → IsMissed kept.new.pairs e }
    ensures ready { IsReady kept.new without.new spared.now }
    ensures network { kept.new.network ≡ kept.old.network }
    ensures quiet { IsMissed kept.old.pairs e → (steps.new ≡ steps.old) × (kept.new.pairs ≡ kept.old.pairs) }
{
    let _ = spared;
    let Some(m) = kept.pairs.meter_of(e) else {
        return true;
    };
    without.leave_out(&kept.network, e);
    let missed = find_another(
        e,
        m,
        &kept.network,
        without,
        &mut kept.pairs,
        &mut kept.work,
        steps,
    );
    without.put_back(&kept.network, e);
    missed
}

/// Makes the pairs miss a row, where longest pairs can.
pub(crate) fn settle<L: Ledger>(
    e: u32,
    kept: &mut Kept,
    without: &mut Without,
    spared: &Spared,
    steps: &mut Steps<L>,
)
    requires ready { IsReady kept.old without.old spared.now }
    requires row { e < kept.old.network.rows.branches }
    requires unspared { has_flag spared.now.flags e ≡ false }
    ensures settled { IsSettled kept.old.network kept.new.pairs e }
    ensures ready { IsReady kept.new without.new spared.now }
    ensures network { kept.new.network ≡ kept.old.network }
    ensures quiet { IsMissed kept.old.pairs e → (steps.new ≡ steps.old) × (kept.new.pairs ≡ kept.old.pairs) }
{
    let Some(m) = kept.pairs.meter_of(e) else {
        return;
    };
    if spared.costly()[e as usize] {
        return;
    }
    without.leave_out(&kept.network, e);
    look_for_other(
        e,
        m,
        &kept.network,
        without,
        &mut kept.pairs,
        &mut kept.work,
        steps,
    );
    without.put_back(&kept.network, e);
}

/// How many pairs there can be without a row.
pub(crate) fn rank_without<L: Ledger>(
    e: u32,
    kept: &mut Kept,
    without: &mut Without,
    spared: &Spared,
    steps: &mut Steps<L>,
) -> u32
    requires ready { IsReady kept.old without.old spared.now }
    requires row { e < kept.old.network.rows.branches }
    ensures rank { IsRankWithout kept.old.network kept.new.pairs e result }
    ensures ready { IsReady kept.new without.new spared.now }
    ensures network { kept.new.network ≡ kept.old.network }
    ensures quiet { IsMissed kept.old.pairs e → (steps.new ≡ steps.old) × (kept.new.pairs ≡ kept.old.pairs) }
{
    if spared.flags()[e as usize] {
        return kept.pairs.length();
    }
    settle(e, kept, without, spared, steps);
    let most = kept.pairs.length();
    match kept.pairs.meter_of(e) {
        Some(_) => most.saturating_sub(1),
        None => most,
    }
}
