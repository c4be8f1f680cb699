// What the outages of a case are found from.
ghost use Rattle.std.specs.Prelude.{◌≡◌};
ghost use Rattle.obs_network.specs.Network.{network_of};
ghost use Rattle.obs_outage.specs.inner.Feeds.{HasFeedRoom};
ghost use Rattle.obs_outage.specs.inner.Ready.{IsBasis, IsBasisOf};

use crate::feeds::Feeds;
use crate::rowless::Without;
use crate::spared::Spared;
use obs_case::Case;
use obs_kept::Kept;
use obs_network::{Bridges, Sides};

/// The network of a case with longest pairs, that network to leave a row out of, room for walks, what is told of the branches,
/// the sources of the case, and what stands below its bridges.
pub(crate) struct Basis {
    pub(crate) kept: Kept,
    pub(crate) without: Without,
    pub(crate) sides: Sides,
    pub(crate) spared: Spared,
    pub(crate) feeds: Feeds,
    pub(crate) bridges: Bridges,
}

// Written out: so a caller's proof sees one call, and not the drop of each field.
impl Drop for Basis {
    fn drop(self) {
        let Basis {
            kept: _,
            without: _,
            sides: _,
            spared: _,
            feeds: _,
            bridges: _,
        } = self;
    }
}

impl Basis {
    /// Counts the sources of a case, and finds what stands below its bridges. Takes no memory.
    pub(crate) fn find_bridges(&mut self, case: &Case)
        requires basis { IsBasis self.old }
        requires network { self.old.kept.network ≡ network_of case.now }
        requires feeds { HasFeedRoom self.old.kept.network.rows.nodes self.old.feeds }
        ensures basis { IsBasisOf case.now self.new }
        ensures kept { self.new.kept ≡ self.old.kept }
    {
        self.feeds.count(case, &self.kept.network);
        let rows = case.branches().len() as u32;
        let graph = self.kept.network.graph();
        self.bridges.find(graph, rows, self.feeds.of_buses());
    }
}
