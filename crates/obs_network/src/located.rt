// The component of a branch, and of what an item touches.
ghost use Rattle.std.specs.Prelude.{◌≡◌, ◌+◌, ◌<◌, IfSome, None, Some, if◌then◌else◌, length, nat_lt, slice_index_or};
ghost use Rattle.obs_meter.specs.inner.Touches.{IsInRange};
ghost use Rattle.obs_network.specs.Components.{vertex_component};
ghost use Rattle.obs_network.specs.Located.{touch_component};
ghost use Rattle.obs_network.specs.inner.Located.{ends_component};

use crate::components::Components;
use obs_graph::{Ends, Graph};
use obs_meter::Touch;

// The component of the branch with these ends, and None of an absent one.
fn component_of_ends(components: &Components, ends: Option<Ends>) -> Option<u32>
    requires end { IfSome ends (λ e. e.a < length components.now.of_buses + length components.now.first_buses) }
    ensures component { result ≡ ends_component components.now.of_buses ends }
    ensures below { IfSome result (λ c. c < length components.now.first_buses) }
{
    match ends {
        Some(ends) => Some(components.of_vertex(ends.a)),
        None => None,
    }
}

/// The component of the branch at a position, and None where it is absent.
pub(crate) fn component_of_branch(components: &Components, graph: &Graph, e: u32) -> Option<u32>
    requires vertices { graph.now.vertices
        ≡ length components.now.of_buses + length components.now.first_buses }
    requires branch { e < length graph.now.ends }
    ensures component { result ≡ ends_component components.now.of_buses (slice_index_or graph.now.ends e None) }
    ensures below { IfSome result (λ c. c < length components.now.first_buses) }
{
    component_of_ends(components, graph.ends(e))
}

// The component of so many branches at a vertex, and None where there are none.
fn component_at(components: &Components, v: u32, count: usize) -> Option<u32>
    requires vertex { v < length components.now.of_buses + length components.now.first_buses }
    ensures component { result
        ≡ (if nat_lt 0 count then Some (vertex_component components.now.of_buses v) else None) }
    ensures below { IfSome result (λ c. c < length components.now.first_buses) }
{
    if count > 0 {
        Some(components.of_vertex(v))
    } else {
        None
    }
}

/// The component of what is touched so, and None where that is nothing.
pub(crate) fn component_of_touch(
    components: &Components,
    graph: &Graph,
    touch: Touch,
) -> Option<u32>
    requires vertices { graph.now.vertices
        ≡ length components.now.of_buses + length components.now.first_buses }
    requires in_range { IsInRange graph.now touch }
    ensures component { result ≡ touch_component components.now.of_buses graph.now.ends touch }
    ensures below { IfSome result (λ c. c < length components.now.first_buses) }
{
    match touch {
        Touch::Nothing => None,
        Touch::Edge(e) => component_of_branch(components, graph, e),
        Touch::Star(v) => component_at(components, v, graph.branches_at(v).len()),
        Touch::Front { at, count } => component_at(components, at, count as usize),
    }
}
