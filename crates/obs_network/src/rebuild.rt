// The parts of the network of a case, made anew one after another.
ghost use Rattle.std.specs.Prelude.{◌≡◌, ◌<◌, ◌≤◌, ◌+◌, IsTrue, length, slice_index_or, slice_set, take};
ghost use Rattle.obs_case.specs.Tables.{IsValid};
ghost use Rattle.obs_graph.specs.Positions.{AreBranches};
ghost use Rattle.obs_graph.specs.inner.Search.{room_of};
ghost use Rattle.obs_network.specs.declared.rebuild.Known.TheVariants.{TheBuses, ByCount};
ghost use Rattle.obs_network.specs.Switched.{case_bus_count, case_buses, closed_links};
ghost use Rattle.obs_network.specs.Network.{case_branches, case_live, case_meters, case_offered, case_vertex_count};
ghost use Rattle.obs_network.specs.inner.Network.{AreBusesOf, AreComponentsOf, AreFoundOf, HasRoomAs, IsGraphOf, IsLiveGraphOf};

use crate::angles::write_angles;
use crate::components::Components;
use crate::live::write_live;
use crate::marks::write_energised;
use crate::touching::{touch_of_meter, write_candidates, write_meters};
use obs_case::{Case, Switch};
use obs_graph::search::{Search, reach_all};
use obs_graph::{Ends, Graph};
use obs_meter::{Meters, Touch};
use obs_switch::{Buses, Link};

// Writes the closed switches as links, and says how many there are.
fn write_links(switches: &[Switch], links: &mut [Link]) -> usize
    requires room { length switches.now ≤ length links.old }
    ensures links { take result links.new ≡ closed_links switches.now }
    ensures few { result ≤ length switches.now }
{
    let mut count = 0;
    for switch in switches {
        if switch.closed {
            links[count] = Link {
                from: switch.from,
                to: switch.to,
            };
            count += 1;
        }
    }
    count
}

/// Makes the buses those of the case.
pub(crate) fn relabel(case: &Case, links: &mut [Link], buses: &mut Buses)
    requires links { length case.now.switches ≤ length links.old }
    requires room { length case.now.nodes ≤ buses.old.most_nodes }
    ensures buses { buses.new.buses ≡ case_buses case.now }
    ensures count { buses.new.count ≡ case_bus_count case.now }
    ensures room { buses.new.most_nodes ≡ buses.old.most_nodes }
{
    let count = write_links(case.switches(), links);
    buses.relabel(case.nodes().len() as u32, &links[..count]);
}

/// What is known of a network before it is made that of a case.
#[derive(Clone, Copy)]
pub(crate) enum Known {
    /// Nothing.
    Nothing,
    /// Its buses are those of the case.
    TheBuses,
    /// It is the network of the case, where this has as many buses.
    ByCount,
}

/// Makes the buses those of the case, but where it is known that they are. Answers true only where as many buses as before tell
/// that the network is that of the case already.
pub(crate) fn relabel_unless(
    case: &Case,
    known: Known,
    links: &mut [Link],
    buses: &mut Buses,
) -> bool
    requires links { length case.now.switches ≤ length links.old }
    requires room { length case.now.nodes ≤ buses.old.most_nodes }
    requires kept { known ≡ TheBuses →
        (buses.old.buses ≡ case_buses case.now) × (buses.old.count ≡ case_bus_count case.now) }
    ensures buses { buses.new.buses ≡ case_buses case.now }
    ensures count { buses.new.count ≡ case_bus_count case.now }
    ensures room { buses.new.most_nodes ≡ buses.old.most_nodes }
    ensures stay { IsTrue result → (known ≡ ByCount) × (case_bus_count case.now ≡ buses.old.count) }
{
    match known {
        Known::Nothing => {
            relabel(case, links, buses);
            false
        }
        Known::TheBuses => false,
        Known::ByCount => {
            let before = buses.count();
            relabel(case, links, buses);
            buses.count() == before
        }
    }
}

/// Writes the live branches of the case.
pub(crate) fn find_live(case: &Case, buses: &Buses, live: &mut [Option<Ends>])
    requires buses { buses.now.buses ≡ case_buses case.now }
    requires room { length live.old ≡ length case.now.branches }
    ensures live { live.new ≡ case_live case.now }
    ensures valid { IsValid case.now }
{
    write_live(case.branches(), buses, live);
}

/// Makes the components those of the case, by one search along its live branches.
pub(crate) fn find_components(
    case: &Case,
    buses: &Buses,
    live: &[Option<Ends>],
    graph: &mut Graph,
    search: &mut Search,
    components: &mut Components,
)
    requires buses { AreBusesOf case.now buses.now }
    requires live { live.now ≡ case_live case.now }
    requires vertices { case_bus_count case.now ≤ graph.old.most_vertices }
    requires branches { length live.now ≤ graph.old.most_branches }
    requires room { case_bus_count case.now ≤ components.old.most_buses }
    requires search_room { case_bus_count case.now ≤ room_of search.old }
    ensures components { AreComponentsOf case.now components.new }
    ensures room { components.new.most_buses ≡ components.old.most_buses }
    ensures graph { graph.new ≡ record graph.old { vertices = case_bus_count case.now; ends = live.now } }
    ensures search_room { room_of search.new ≡ room_of search.old }
{
    let nodes = case.nodes();
    let count = buses.count();
    graph.refill(count, live);
    reach_all(graph, live, search);
    components.refill(&search.pieces()[..count as usize], live, nodes, buses);
}

// What was written of the branches of the case.
#[derive(Clone, Copy)]
struct Written {
    // how many positions there are: the rows of the branch table, and behind them the angle branches
    positions: usize,
    // whether they are known to be the live ones, at the rows alone
    whole: bool,
}

// Whether all that is live is kept, and no angle branch stands behind it.
fn are_live(all: bool, angles: usize) -> bool
    ensures live { IsTrue result → IsTrue all × (angles ≡ 0) }
{
    all && angles == 0
}

// Writes the branches of the case by position.
fn write_branches(
    case: &Case,
    buses: &Buses,
    components: &Components,
    live: &[Option<Ends>],
    kept: &mut [Option<Ends>],
) -> Written
    requires found { AreFoundOf case.now buses.now components.now }
    requires live { live.now ≡ case_live case.now }
    requires kept { length kept.old
        ≡ length live.now + (length case.now.meters + length case.now.candidates) }
    ensures branches { take result.positions kept.new ≡ case_branches case.now }
    ensures whole { IsTrue result.whole → live.now ≡ case_branches case.now }
    ensures few { result.positions ≤ length kept.new }
    ensures kept { length kept.new ≡ length kept.old }
    ensures valid { IsValid case.now }
{
    let (rows, items) = kept.split_at_mut(live.len());
    let angles = write_angles(case, buses, components, items);
    let all = write_energised(live, components.numbers(), components.marks(), rows);
    let whole = are_live(all, angles);
    Written {
        positions: live.len() + angles,
        whole,
    }
}

// Makes the graph exactly this list of branches. Where it has them already, and no more vertices, only vertices come.
fn fill_graph(has_them: bool, vertices: u32, branches: &[Option<Ends>], graph: &mut Graph)
    requires has_them { IsTrue has_them → graph.old.ends ≡ branches.now }
    requires more { IsTrue has_them → graph.old.vertices ≤ vertices }
    requires vertices { vertices ≤ graph.old.most_vertices }
    requires few { length branches.now ≤ graph.old.most_branches }
    requires branches { AreBranches vertices branches.now }
    ensures whole { graph.new ≡ record graph.old { vertices = vertices; ends = branches.now } }
{
    if has_them {
        graph.widen(vertices);
    } else {
        graph.refill(vertices, branches);
    }
}

/// Makes the graph that of the case: over its buses and reference vertices, with the live branches of energised components and
/// the angle branches. Before it has all live branches, over the buses.
pub(crate) fn refill_graph(
    case: &Case,
    buses: &Buses,
    components: &Components,
    live: &[Option<Ends>],
    kept: &mut [Option<Ends>],
    graph: &mut Graph,
)
    requires found { AreFoundOf case.now buses.now components.now }
    requires live { live.now ≡ case_live case.now }
    requires kept { length kept.old
        ≡ length live.now + (length case.now.meters + length case.now.candidates) }
    requires before { IsLiveGraphOf case.now live.now graph.old }
    requires vertices { case_vertex_count case.now ≤ graph.old.most_vertices }
    requires branches { length kept.old ≤ graph.old.most_branches }
    ensures graph { IsGraphOf case.now graph.new }
    ensures room { HasRoomAs graph.old graph.new }
    ensures kept { length kept.new ≡ length kept.old }
    ensures kept_ends { take (length graph.new.ends) kept.new ≡ graph.new.ends }
{
    let written = write_branches(case, buses, components, live, kept);
    let vertices = buses.count() + components.count();
    fill_graph(written.whole, vertices, &kept[..written.positions], graph);
}

/// Makes the items those of the case: its meters, and these with the candidates behind them. The graph is that of the
/// case already.
pub(crate) fn refill_items(
    case: &Case,
    buses: &Buses,
    graph: &Graph,
    touches: &mut [Touch],
    meters: &mut Meters,
    offered: &mut Meters,
)
    requires buses { AreBusesOf case.now buses.now }
    requires graph { IsGraphOf case.now graph.now }
    requires touches { length touches.old ≡ length case.now.meters + length case.now.candidates }
    requires meters { length case.now.meters ≤ meters.old.most }
    requires offered { length case.now.meters + length case.now.candidates ≤ offered.old.most }
    ensures meters { meters.new.touches ≡ case_meters case.now }
    ensures offered { offered.new.touches ≡ case_offered case.now }
    ensures most_meters { meters.new.most ≡ meters.old.most }
    ensures most_offered { offered.new.most ≡ offered.old.most }
    ensures same_room { length touches.new ≡ length touches.old }
{
    let rows = case.branches().len() as u32;
    let first = case.meters().len();
    let (of_meters, of_candidates) = touches.split_at_mut(first);
    write_meters(case.meters(), buses, graph, rows, of_meters);
    meters.refill(of_meters);
    write_candidates(
        case.candidates(),
        first as u32,
        buses,
        graph,
        rows,
        of_candidates,
    );
    offered.refill(touches);
}

/// Makes one meter that of the case: among the meters, and among these with the candidates behind them.
pub(crate) fn change_item(
    case: &Case,
    buses: &Buses,
    graph: &Graph,
    m: u32,
    meters: &mut Meters,
    offered: &mut Meters,
)
    requires buses { buses.now.buses ≡ case_buses case.now }
    requires count { buses.now.count ≡ case_bus_count case.now }
    requires vertices { graph.now.vertices ≡ case_vertex_count case.now }
    requires ends { graph.now.ends ≡ case_branches case.now }
    requires meter { m < length case.now.meters }
    requires meters { m < length meters.old.touches }
    requires offered { m < length offered.old.touches }
    ensures meters { meters.new ≡ record meters.old {
      touches = slice_set meters.old.touches m (slice_index_or (case_meters case.now) m Touch.Nothing);
    } }
    ensures offered { offered.new ≡ record offered.old {
      touches = slice_set offered.old.touches m (slice_index_or (case_meters case.now) m Touch.Nothing);
    } }
    ensures valid { IsValid case.now }
{
    let rows = case.branches().len() as u32;
    let touch = touch_of_meter(&case.meters()[m as usize], m, buses, graph, rows);
    meters.set(m, touch);
    offered.set(m, touch);
}
