// Lists with an item that touches many rows of the branch table at a vertex. Their rank is kept there from the first such list
// on, and that of the other items is taken over the graph in which these rows are contracted.
ghost use Rattle.std.specs.Prelude.{◌≡◌, ◌<◌, ◌≤◌, [], ℕ, List, IfSome, length};
ghost use Rattle.obs_case.specs.Tables.{IsValid, Tables};
ghost use Rattle.obs_graph.specs.Positions.{branches_at};
ghost use Rattle.obs_matroid.specs.Lists.{In};
ghost use Rattle.obs_network.specs.Network.{case_offered, case_rows, case_vertex_room, network_of};
ghost use Rattle.obs_cert.specs.Flaws.{rank_of_items};
ghost use Rattle.obs_cert.specs.inner.Joins.{AreFree, AreJoined};
ghost use Rattle.obs_cert.specs.inner.Links.{AreLinks};
ghost use Rattle.obs_cert.specs.Numbered.{items_of};
ghost use Rattle.obs_cert.specs.Scopes.{item_touches};
ghost use Rattle.obs_cert.specs.inner.Stars.{AreStarRanks, IsInjection, star_rank};
ghost use Rattle.obs_cert.specs.inner.Walked.{parts_in};

use crate::contraction::Contraction;
use crate::hubs::Hubs;
use crate::joins::{clear, join_all};
use crate::lists::measure_items;
use crate::numbers::item_of;
use crate::walk::{Items, Sort, walk_items};
use obs_meter::Hub;
use obs_network::Present;

// Rows are many beside some items, if they are so many for each of them.
const MANY: usize = 8;

/// The hub of an item: it touches the rows of the branch table there.
pub(crate) fn star_of(present: &Present<'_>, m: u32) -> Option<Hub>
    ensures star { IfSome result (λ h. item_touches present.now m ≡ branches_at (case_rows present.now) h.vertex) }
    ensures vertex { IfSome result (λ h. h.vertex < (network_of present.now).graph.vertices) }
    ensures item { IfSome result (λ h. m < length (case_offered present.now)) }
{
    let network = present.network();
    let items = network.offered();
    if m >= items.count() {
        return None;
    }
    items.hub(network.graph(), m)
}

/// An item that touches the rows of the branch table at a bus, and how many these are.
#[derive(Clone, Copy)]
pub(crate) struct Injection {
    pub item: u32,
    pub bus: u32,
    pub rows: usize,
}

// Of another item and this one that which touches more rows.
fn wider(present: &Present<'_>, m: u32, other: Option<Injection>) -> Option<Injection>
    ensures injection { IfSome other (IsInjection present.now) → IfSome result (IsInjection present.now) }
    ensures listed { (list : List ℕ) → In m list → IfSome other (λ i. In i.item list) →
        IfSome result (λ i. In i.item list) }
{
    let Some(hub) = star_of(present, m) else {
        return other;
    };
    if let Some(i) = other {
        if i.rows >= hub.count {
            return other;
        }
    }
    Some(Injection {
        item: m,
        bus: hub.vertex,
        rows: hub.count,
    })
}

// Of these items that which touches the most rows at a bus, where these are many beside the items.
fn widest(present: &Present<'_>, items: Items<'_>) -> Option<Injection>
    ensures injection { IfSome result (IsInjection present.now) }
    ensures listed { IfSome result (λ i. In i.item (items_of present.now items.entry)) }
    ensures valid { IsValid present.now }
{
    let case = present.case();
    let mut widest = None;
    let mut many = 0usize;
    for item in items {
        widest = wider(present, item_of(case, item), widest);
        many = many.saturating_add(MANY);
        if many > case.branches().len() {
            return None;
        }
    }
    let Some(i) = widest else {
        return None;
    };
    if i.rows < many {
        return None;
    }
    Some(i)
}

// Keeps the rank of the rows at a vertex, where one more is a number.
fn keep(stars: &mut [u32], v: u32, rank: u32)
    requires v { v < length stars.old }
    ensures kept { (t : Tables) → rank ≡ star_rank t v → AreStarRanks t stars.old → AreStarRanks t stars.new }
{
    if rank == u32::MAX {
        return;
    }
    stars[v as usize] = rank + 1;
}

// The rank of the rows that an injection touches.
fn measure_star(
    present: &Present<'_>,
    i: Injection,
    stars: &mut [u32],
    ups: &mut [u32],
    moved: &mut [u32],
) -> u32
    requires injection { IsInjection present.now i }
    requires free { AreFree (case_vertex_room present.now) ups.old moved.old }
    requires stars { length ups.old ≤ length stars.old }
    requires kept { AreStarRanks present.now stars.old }
    ensures rank { result ≡ star_rank present.now i.bus }
    ensures clear { AreJoined [] ups.new [] }
    ensures kept { AreStarRanks present.now stars.new }
{
    let network = present.network();
    let known = stars[i.bus as usize];
    if known > 0 {
        return known - 1;
    }
    let graph = network.graph();
    let touched = network.offered().touch(graph, i.item);
    let count = join_all(graph, touched, Contraction::Nothing, ups, moved, 0);
    clear(ups, &moved[..count]);
    keep(stars, i.bus, count as u32);
    count as u32
}

/// The rank of the branches that the listed items of a claim touch.
pub(crate) fn measure_listed(
    present: &Present<'_>,
    rest: &[u8],
    links: &[u64],
    stars: &mut [u32],
    hubs: &mut Hubs,
    ups: &mut [u32],
    moved: &mut [u32],
) -> u32
    requires links { AreLinks present.now links.now }
    requires free { AreFree (case_vertex_room present.now) ups.old moved.old }
    requires stars { length ups.old ≤ length stars.old }
    requires kept { AreStarRanks present.now stars.old }
    requires hubs { length ups.old ≤ hubs.old.room }
    ensures rank { result ≡ rank_of_items present.now (items_of present.now (parts_in rest.now).inside) }
    ensures clear { AreJoined [] ups.new [] }
    ensures kept { AreStarRanks present.now stars.new }
    ensures hubs { hubs.new.room ≡ hubs.old.room }
{
    match widest(present, walk_items(Sort::Inside, rest)) {
        Some(i) => {
            let rank = measure_star(present, i, stars, ups, moved);
            let star = Contraction::Star(i.bus, links);
            rank + measure_items(
                present,
                walk_items(Sort::Inside, rest),
                star,
                hubs,
                ups,
                moved,
            )
        }
        None => {
            let items = walk_items(Sort::Inside, rest);
            measure_items(present, items, Contraction::Nothing, hubs, ups, moved)
        }
    }
}
