// Rounds of discarding.
ghost use Rattle.std.specs.Prelude.{◌≡◌, ◌≤◌, length, take};
ghost use Rattle.obs_graph.specs.inner.Search.{room_of};
ghost use Rattle.obs_meter.specs.inner.Touches.{AreInRange};
ghost use Rattle.obs_exchange.specs.inner.Longest.{IsLongest};
ghost use Rattle.obs_islands.specs.Firsts.{islands_of};
ghost use Rattle.obs_islands.specs.inner.Left.{HasPlaces, IsNumbered};

use crate::discard::discard;
use crate::left::name_left;
use crate::pairing::Pairing;
use crate::pieces::name_pieces;
use obs_graph::Ends;
use obs_graph::search::Search;
use obs_meter::Meters;

/// Discards items, round by round, until none of those that are used touches a branch between two pieces of the pairs
/// of these. The pieces then are the islands.
fn settle(
    over: &Pairing<'_>,
    used: &mut Meters,
    held: &mut [Option<Ends>],
    search: &mut Search,
    firsts: &mut [u32],
    lowest: &mut [u32],
    queue: &mut [u32],
)
    requires numbered { IsNumbered over.now.graph.now }
    requires longest { IsLongest over.now.graph.now used.old.touches over.now.pairs.now }
    requires in_range { AreInRange over.now.graph.now used.old.touches }
    requires places { HasPlaces over.now.graph.now held.old search.old firsts.old }
    requires lowest { length lowest.old ≡ over.now.graph.now.vertices }
    requires queue { length queue.old ≡ over.now.graph.now.vertices }
    ensures firsts { firsts.new ≡ islands_of over.now.graph.now.vertices over.now.graph.now.ends used.old.touches }
    ensures same_most { used.new.most ≡ used.old.most }
    ensures room { room_of search.new ≡ room_of search.old }
{
    name_pieces(over.pairs.forest(), firsts);
    while discard(over, used, firsts, lowest, queue) {
        name_left(over, used, held, search, firsts);
    }
}

/// Writes for each vertex the first vertex of its island.
pub(crate) fn find_firsts(
    over: &Pairing<'_>,
    used: &mut Meters,
    held: &mut [Option<Ends>],
    search: &mut Search,
    firsts: &mut [u32],
    lowest: &mut [u32],
    queue: &mut [u32],
)
    requires longest { IsLongest over.now.graph.now used.old.touches over.now.pairs.now }
    requires in_range { AreInRange over.now.graph.now used.old.touches }
    requires held { length over.now.graph.now.ends ≤ length held.old }
    requires search { over.now.graph.now.vertices ≤ room_of search.old }
    requires firsts { over.now.graph.now.vertices ≤ length firsts.old }
    requires lowest { over.now.graph.now.vertices ≤ length lowest.old }
    requires queue { over.now.graph.now.vertices ≤ length queue.old }
    ensures firsts { take over.now.graph.now.vertices firsts.new ≡
        islands_of over.now.graph.now.vertices over.now.graph.now.ends used.old.touches }
    ensures same_most { used.new.most ≡ used.old.most }
    ensures room { room_of search.new ≡ room_of search.old }
{
    let n = over.graph.vertices() as usize;
    let positions = over.graph.positions() as usize;
    settle(
        over,
        used,
        &mut held[..positions],
        search,
        &mut firsts[..n],
        &mut lowest[..n],
        &mut queue[..n],
    );
}
