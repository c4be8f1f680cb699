// The laws of outages.
ghost use Rattle.std.specs.Prelude.{◌≡◌, ◌≤◌, ℕ};
ghost use Rattle.obs_case.specs.Tables.{IsValid, Tables};
ghost use Rattle.obs_matroid.specs.Lists.{In};
ghost use Rattle.obs_network.specs.Network.{case_needed, network_of};
ghost use Rattle.obs_network.specs.Observable.{IsRankOf, case_rank};
ghost use Rattle.obs_outage.specs.declared.outages.Outage.{Outage};
ghost use Rattle.obs_network.specs.Parted.{outage_case};
ghost use Rattle.obs_outage.specs.Outages.{outage_rows, outages_of};

/// The numbers of an entry are those that a report counts in its outage case: the greatest number of pairs of that
/// case's live meters, and its needed number. Its branch is one of the rows.
pub fn entries_are_of_reports()
    ensures row { (t : Tables) (o : Outage) → In o (outages_of t) → In o.branch (outage_rows t) }
    ensures rank { (t : Tables) → IsValid t → (o : Outage) → In o (outages_of t) →
        (o.rank ≡ case_rank (outage_case t o.branch)) × IsRankOf (outage_case t o.branch) o.rank }
    ensures needed { (t : Tables) (o : Outage) → In o (outages_of t) →
        (o.needed ≡ case_needed (outage_case t o.branch)) × (o.needed ≡ (network_of (outage_case t o.branch)).needed) }
{}

/// No outage raises the rank.
pub fn no_outage_raises_the_rank()
    ensures rank { (t : Tables) → IsValid t → (e : ℕ) → case_rank (outage_case t e) ≤ case_rank t }
{}
