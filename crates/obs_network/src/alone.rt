// A branch that comes or goes alone: nothing else of the network changes but what its items touch.
ghost use Rattle.std.specs.Prelude.{◌≡◌, ◌≢◌, ◌<◌, ◌≤◌, IfSome, IsTrue, None, false, length, slice_index, slice_index_or, slice_set, take, true};
ghost use Rattle.obs_network.specs.Switched.{case_buses};
ghost use Rattle.obs_network.specs.Network.{case_live};
ghost use Rattle.obs_network.specs.inner.Edited.{ChangesAlone};

use crate::components::Components;
use crate::live::ends_of;
use crate::sides::Sides;
use obs_case::Case;
use obs_graph::{Ends, Graph};
use obs_switch::Buses;

/// The two buses that a branch of the case joins, where it is live.
pub(crate) fn live_ends_at(case: &Case, at: u32, buses: &Buses) -> Option<Ends>
    requires branch { at < length case.now.branches }
    requires buses { buses.now.buses ≡ case_buses case.now }
    ensures ends { result ≡ slice_index_or (case_live case.now) at None }
{
    ends_of(&case.branches()[at as usize], buses)
}

// Whether two buses lie in one energised component.
fn joins_one_component(components: &Components, ends: Ends) -> bool
    requires a { ends.a < length components.now.of_buses }
    requires b { ends.b < length components.now.of_buses }
    ensures joined { IsTrue result →
        (slice_index components.now.of_buses ends.a ≡ slice_index components.now.of_buses ends.b)
        × (slice_index_or components.now.energised (slice_index components.now.of_buses ends.a) false ≡ true) }
{
    let c = components.component(ends.a);
    c == components.component(ends.b) && components.energised(c)
}

/// Whether a branch that joins these buses now comes alone, or one that is out of service goes alone.
pub(crate) fn changes_alone(
    components: &Components,
    graph: &Graph,
    rows: u32,
    at: u32,
    ends: Option<Ends>,
    sides: &mut Sides,
) -> bool
    requires room { graph.now.vertices ≤ sides.old.most_vertices }
    requires rows { rows ≤ length graph.now.ends }
    requires row { at < rows }
    requires ends { IfSome ends (λ x. (x.a < length components.now.of_buses) × (x.b < length components.now.of_buses)) }
    ensures alone { IsTrue result → ChangesAlone components.now (take rows graph.now.ends) at ends }
    ensures room { sides.new.most_vertices ≡ sides.old.most_vertices }
{
    match ends {
        Some(ends) => joins_one_component(components, ends),
        None => graph.ends(at).is_some() && sides.walk(graph, rows, at),
    }
}

/// Puts a row of the graph to these ends.
pub(crate) fn change_row(at: u32, ends: Option<Ends>, kept: &mut [Option<Ends>], graph: &mut Graph)
    requires row { at < length graph.old.ends }
    requires kept { take (length graph.old.ends) kept.old ≡ graph.old.ends }
    requires few { length graph.old.ends ≤ length kept.old }
    requires ends { IfSome ends (λ x. (x.a < graph.old.vertices) × (x.b < graph.old.vertices) × (x.a ≢ x.b)) }
    ensures graph { graph.new ≡ record graph.old { ends = slice_set graph.old.ends at ends } }
    ensures kept { take (length graph.new.ends) kept.new ≡ graph.new.ends }
{
    kept[at as usize] = ends;
    graph.set(at, ends);
}
