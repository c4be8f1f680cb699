// The outages of a case.
ghost use Rattle.std.specs.Prelude.{◌≡◌, IfOk, []};
ghost use Rattle.std.specs.Borrow.{sem};
ghost use Rattle.obs_matroid.specs.Lists.{In};
ghost use Rattle.obs_network.specs.Network.{network_of};
ghost use Rattle.obs_kept.specs.inner.Kept.{AreLongest, AreLongestOver};
ghost use Rattle.obs_outage.specs.Outages.{outage_of, outage_rows, outages_of};
ghost use Rattle.obs_outage.specs.inner.Outages.{AllStand};

use crate::basis::Basis;
use crate::entry::entry_of;
use crate::feeds::Feeds;
use crate::listing::list_outages;
use crate::memory::NoMemory;
use crate::rowless::Without;
use crate::spared::Spared;
use obs_assign::{Assignment, Steps};
use obs_case::Case;
use obs_kept::Kept;
use obs_network::{Bridges, Network, Sides, vertex_room};
use std::alloc::Global;
use std::marker::Model;
use std::sync::ledger::Ledger;

/// The rank and the needed number of a case where one branch goes out of service.
#[derive(Clone, Copy, Debug, PartialEq, Eq)]
pub struct Outage {
    pub branch: u32,
    pub rank: u32,
    pub needed: u32,
}

/// The network of a case and a longest assignment of its meters, kept for its outages, and the list that was found last.
pub struct Outages {
    basis: Basis,
    // the first `count` of these are listed
    entries: Vec<Outage>,
    count: usize,
}

impl Model for Outages {
    ghost use Rattle.std.specs.Prelude.{◌≡◌, ◌≤◌, length, take};
    ghost use Rattle.obs_outage.specs.inner.Feeds.{HasFeedRoom};
    ghost use Rattle.obs_outage.specs.inner.Outages.{Outages};
    ghost use Rattle.obs_outage.specs.inner.Ready.{IsBasis};

    ghost Value = { Outages };

    ghost view = { λ o. record { network = o.basis.kept.network; pairs = o.basis.kept.pairs; found = take o.count o.entries.items } };

    ghost invariant = { λ o. record {
      basis : IsBasis o.basis;
      feeds : HasFeedRoom o.basis.kept.network.rows.nodes o.basis.feeds;
      entries : length o.entries.items ≡ o.basis.kept.network.rows.branches;
      listed : o.count ≤ length o.entries.items;
    } };
}

// Written out: so a caller's proof sees one call, and not the drop of each field.
impl Drop for Outages {
    fn drop(self) {
        let Outages {
            basis: _,
            entries: _,
            count: _,
        } = self;
    }
}

impl Outages {
    ghost use Rattle.obs_outage.specs.inner.Lending.{OutagesGivenBack};

    /// The network of a case and a longest assignment of its meters. All memory is taken here.
    pub fn make<L: Ledger>(
        alloc: Global,
        case: &Case,
        steps: &mut Steps<L>,
    ) -> Result<Outages, NoMemory>
        ensures network { IfOk result (λ o. o.network ≡ network_of case.now) }
        ensures longest { IfOk result (λ o. AreLongest case.now o.pairs) }
        ensures none_found { IfOk result (λ o. o.found ≡ []) }
    {
        let none = Outage {
            branch: 0,
            rank: 0,
            needed: 0,
        };
        let mut sides = Sides::make(alloc, vertex_room(case))?;
        let rows = case.branches().len() as u32;
        let bridges = Bridges::make(alloc, vertex_room(case), rows)?;
        let mut spared = Spared::make(alloc, case)?;
        let feeds = Feeds::make(alloc, case)?;
        let entries = vec![in alloc; none; rows as usize]?;
        let mut kept = Kept::make(alloc, case, steps)?;
        spared.find(case, &mut kept, &mut sides, steps);
        let without = Without::make(alloc, &kept.network)?;
        let basis = Basis {
            kept,
            without,
            sides,
            spared,
            feeds,
            bridges,
        };
        Ok(Outages {
            basis,
            entries,
            count: 0,
        })
    }

    /// The network that is kept.
    pub fn network(&self) -> &Network
        ensures network { result.now ≡ self.now.network }
    {
        &self.basis.kept.network
    }

    /// The kept pairs: a longest assignment over the kept network, with nothing frozen.
    pub fn pairs(&self) -> &Assignment
        ensures pairs { result.now ≡ self.now.pairs }
        ensures longest { AreLongestOver self.now.network self.now.pairs }
    {
        &self.basis.kept.pairs
    }

    /// The entry of one row: the rank and the needed number of the case where this branch is out of service. The
    /// handed case determines the kept network; it is left as it was. Where every kept pair stands in the outage
    /// case, nothing is searched and the turns are as they were.
    pub fn one<L: Ledger>(&mut self, case: &mut Case, e: u32, steps: &mut Steps<L>) -> Outage
        requires network { self.old.network ≡ network_of case.old }
        requires row { In e (outage_rows case.old) }
        ensures entry { result ≡ outage_of case.old e }
        ensures quiet { AllStand case.old self.old.pairs e →
            (steps.new ≡ steps.old) × (self.new.pairs.turns ≡ self.old.pairs.turns) }
        ensures case { case.new ≡ case.old }
        ensures network { self.new.network ≡ self.old.network }
        ensures longest { AreLongest case.old self.new.pairs }
        ensures found { self.new.found ≡ self.old.found }
    {
        self.basis.find_bridges(case);
        entry_of(case, e, &mut self.basis, steps)
    }

    /// Finds the outage list: an entry for each live row of an energised component, in order. `found` then has it.
    pub fn find_list<L: Ledger>(&mut self, case: &mut Case, steps: &mut Steps<L>)
        requires network { self.old.network ≡ network_of case.old }
        ensures list { self.new.found ≡ outages_of case.old }
        ensures case { case.new ≡ case.old }
        ensures network { self.new.network ≡ self.old.network }
        ensures longest { AreLongest case.old self.new.pairs }
    {
        self.basis.find_bridges(case);
        self.count = list_outages(case, &mut self.basis, &mut self.entries, steps);
    }

    /// The outage list that was found last.
    pub fn found(&self) -> &[Outage]
        ensures found { result.now ≡ self.now.found }
    {
        &self.entries[..self.count]
    }

    /// Finds the outage list and lends it. When it is given back, all is as after `find_list`.
    pub fn list<L: Ledger>(&mut self, case: &mut Case, steps: &mut Steps<L>) -> &[Outage]
        requires network { self.old.network ≡ network_of case.old }
        ensures list { result.now ≡ outages_of case.old }
        ensures case { case.new ≡ case.old }
        ensures* given_back { sem 𝓛 (OutagesGivenBack self.entry (λ o. (o.found ≡ outages_of case.old)
            × (o.network ≡ self.old.network) × AreLongest case.old o.pairs)) }
    {
        self.find_list(case, steps);
        self.found()
    }
}
