// The entry of one row.
ghost use Rattle.std.specs.Prelude.{◌≡◌};
ghost use Rattle.obs_matroid.specs.Lists.{In};
ghost use Rattle.obs_outage.specs.Outages.{outage_of, outage_rows};
ghost use Rattle.obs_outage.specs.inner.Outages.{AllStand};
ghost use Rattle.obs_outage.specs.inner.Ready.{IsBasisOf};

use crate::Outage;
use crate::basis::Basis;
use crate::bridges::parted_entry;
use crate::long_way::outage_at;
use crate::short_way::rank_without;
use obs_assign::Steps;
use obs_case::Case;
use std::sync::ledger::Ledger;

/// The entry of one row. Where it parts its component, what goes is known from what stands below it. Where the other rows join its ends,
/// nothing but the row goes. Where neither is known, the long way is gone.
pub(crate) fn entry_of<L: Ledger>(
    case: &mut Case,
    e: u32,
    basis: &mut Basis,
    steps: &mut Steps<L>,
) -> Outage
    requires basis { IsBasisOf case.old basis.old }
    requires row { In e (outage_rows case.old) }
    ensures entry { result ≡ outage_of case.old e }
    ensures quiet { AllStand case.old basis.old.kept.pairs e →
        (steps.new ≡ steps.old) × (basis.new.kept.pairs.turns ≡ basis.old.kept.pairs.turns) }
    ensures case { case.new ≡ case.old }
    ensures basis { IsBasisOf case.old basis.new }
{
    let rows = case.branches().len() as u32;
    if let Some(entry) = parted_entry(case, e, basis, steps) {
        return entry;
    }
    if basis.sides.walk(basis.kept.network.graph(), rows, e) {
        let rank = rank_without(e, &mut basis.kept, &mut basis.without, &basis.spared, steps);
        let needed = basis.kept.network.needed();
        return Outage {
            branch: e,
            rank,
            needed,
        };
    }
    outage_at(case, e, &mut basis.kept, steps)
}
