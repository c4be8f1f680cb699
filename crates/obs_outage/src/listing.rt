// The outage list.
ghost use Rattle.std.specs.Prelude.{◌≡◌, ◌<◌, ◌≤◌, None, is_some, length, slice_index_or, take};
ghost use Rattle.obs_outage.specs.Outages.{outages_of};
ghost use Rattle.obs_outage.specs.inner.Ready.{IsBasisOf};

use crate::Outage;
use crate::basis::Basis;
use crate::entry::entry_of;
use obs_assign::Steps;
use obs_case::Case;
use obs_network::Network;
use std::sync::ledger::Ledger;

/// Whether a branch is present.
fn is_present(network: &Network, e: u32) -> bool
    requires e { e < length network.now.graph.ends }
    ensures present { result ≡ is_some (slice_index_or network.now.graph.ends e None) }
{
    network.graph().ends(e).is_some()
}

/// Lists the entries of the rows, in order. Says how many they are.
pub(crate) fn list_outages<L: Ledger>(
    case: &mut Case,
    basis: &mut Basis,
    entries: &mut [Outage],
    steps: &mut Steps<L>,
) -> usize
    requires basis { IsBasisOf case.old basis.old }
    requires entries { length case.old.branches ≤ length entries.old }
    ensures listed { take result entries.new ≡ outages_of case.old }
    ensures bound { result ≤ length entries.new }
    ensures case { case.new ≡ case.old }
    ensures basis { IsBasisOf case.old basis.new }
{
    let rows = case.branches().len() as u32;
    let mut count = 0;
    for e in 0..rows {
        if is_present(&basis.kept.network, e) {
            entries[count] = entry_of(case, e, basis, steps);
            count += 1;
        }
    }
    count
}
