// Calls of the studies that a caller from outside makes, and no code here: each list lent, twice.
ghost use Rattle.std.specs.Prelude.{◌≡◌, ◌<◌};
ghost use Rattle.obs_kept.specs.inner.Kept.{AreLongest};
ghost use Rattle.obs_network.specs.Network.{network_of, rows_of};

use crate::caller_tests::nth_case;
use obs_assign::Steps;
use obs_case::Case;
use obs_kept::Kept;
use obs_outage::{Outage, Outages};
use obs_pairs::{PairWork, classes};
use obs_station::{Loss, StationWork};
use std::alloc::Global;
use std::marker::Brand;
use std::sync::ledger::{Blank, Ledger};

// Without a branch of the ring beside Quay a pair is missing. Without one of the tail what lies behind it goes dead.
const OUTAGES: [Outage; 5] = [
    Outage {
        branch: 0,
        rank: 3,
        needed: 4,
    },
    Outage {
        branch: 1,
        rank: 3,
        needed: 3,
    },
    Outage {
        branch: 2,
        rank: 2,
        needed: 2,
    },
    Outage {
        branch: 3,
        rank: 3,
        needed: 4,
    },
    Outage {
        branch: 4,
        rank: 4,
        needed: 4,
    },
];

// The outage list twice, and its first entry twice.
fn lends_outages<L: Ledger>(case: &mut Case, outages: &mut Outages, steps: &mut Steps<L>) -> bool
    requires network { outages.old.network ≡ network_of case.old }
{
    let listed = outages.list(case, steps);
    if listed.len() != 5 || listed != OUTAGES.as_slice() {
        return false;
    }
    let first = listed[0].branch;
    let again = outages.list(case, steps) == OUTAGES.as_slice();
    let one = outages.one(case, first, steps);
    let two = outages.one(case, first, steps);
    again && one == OUTAGES[0] && two == one
}

fn outages_of_a_tail<L: Ledger>(alloc: Global, steps: &mut Steps<L>) -> bool {
    let Some(mut case) = nth_case(alloc, 2) else {
        return false;
    };
    let Ok(mut outages) = Outages::make(alloc, &case, steps) else {
        return false;
    };
    lends_outages(&mut case, &mut outages, steps)
}

// Without Quay's meter all pairs stay; without those of Mill, or of Lake, one is missing.
const LOSSES: [Loss; 3] = [
    Loss {
        node: 0,
        lost: 1,
        rank: 4,
    },
    Loss {
        node: 1,
        lost: 3,
        rank: 3,
    },
    Loss {
        node: 4,
        lost: 2,
        rank: 3,
    },
];

// The loss list twice.
fn lends_losses<L: Ledger>(
    case: &Case,
    kept: &mut Kept,
    work: &mut StationWork,
    steps: &mut Steps<L>,
) -> bool
    requires network { kept.old.network ≡ network_of case.now }
    requires longest { AreLongest case.now kept.old.pairs }
    requires rows { work.old.rows ≡ rows_of case.now }
{
    let first = work.losses(case, &kept.network, &mut kept.pairs, steps) == LOSSES.as_slice();
    let second = work.losses(case, &kept.network, &mut kept.pairs, steps) == LOSSES.as_slice();
    first && second
}

fn losses_of_a_tail<L: Ledger>(alloc: Global, steps: &mut Steps<L>) -> bool {
    let Some(case) = nth_case(alloc, 2) else {
        return false;
    };
    let Ok(mut kept) = Kept::make(alloc, &case, steps) else {
        return false;
    };
    let Ok(mut work) = StationWork::make(alloc, &case) else {
        return false;
    };
    lends_losses(&case, &mut kept, &mut work, steps)
}

// The classes of the meters: those of Quay and the ring's other flow, those of the tail's end, and the critical one.
fn lends_classes<L: Ledger>(
    alloc: Global,
    case: &Case,
    kept: &mut Kept,
    steps: &mut Steps<L>,
) -> bool
    requires network { kept.old.network ≡ network_of case.now }
    requires longest { AreLongest case.now kept.old.pairs }
    ensures network { kept.new.network ≡ network_of case.now }
    ensures longest { AreLongest case.now kept.new.pairs }
{
    let graph = kept.network.graph();
    let meters = kept.network.meters();
    let Ok(mut work) = PairWork::make(alloc, meters.count(), graph.positions(), graph.vertices())
    else {
        return false;
    };
    classes(graph, meters, &mut kept.pairs, &mut work, steps) == [0, 0, 2, 2, 4, 0].as_slice()
}

fn classes_of_a_tail<L: Ledger>(alloc: Global, steps: &mut Steps<L>) -> bool {
    let Some(case) = nth_case(alloc, 2) else {
        return false;
    };
    let Ok(mut kept) = Kept::make(alloc, &case, steps) else {
        return false;
    };
    lends_classes(alloc, &case, &mut kept, steps) && lends_classes(alloc, &case, &mut kept, steps)
}

fn studies_of_a_tail<L: Ledger>(alloc: Global, blank: Blank) -> bool
    requires name { blank.name ≡ L.name }
    requires parts { blank.parts ≡ L.parts }
    requires some { 0 < L.parts }
{
    let mut steps = Steps::<L>::begin(blank);
    outages_of_a_tail(alloc, &mut steps)
        && losses_of_a_tail(alloc, &mut steps)
        && classes_of_a_tail(alloc, &mut steps)
}

#[test]
fn studies_are_lent(rt: HostRuntime) {
    assert!(rt; studies_of_a_tail::<Brand>(rt.alloc(), Blank::new(1)));
}
