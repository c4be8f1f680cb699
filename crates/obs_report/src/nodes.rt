// The lines of nodes.
ghost use Rattle.std.specs.Prelude.{◌≡◌, ◌<◌, length};
ghost use Rattle.obs_network.specs.Switched.{case_buses, case_first_node};
ghost use Rattle.obs_report.specs.Nodes.{node_line, node_lines};
ghost use Rattle.obs_report.specs.inner.Printed.{Appends, Prints};

use crate::line_buffer::LineBuffer;
use crate::names::{first_of, node_name};
use obs_case::{Case, Node};
use obs_io::{Failed, Sink};
use obs_switch::Buses;

// The first node of a node's bus.
fn first_node(case: &Case, buses: &Buses, node: u32) -> u32
    requires buses { buses.now.buses ≡ case_buses case.now }
    requires node { node < length case.now.nodes }
    ensures first { result ≡ case_first_node case.now node }
    ensures within { result < length case.now.nodes }
{
    first_of(buses.members(buses.bus(node)))
}

// Prints a node's line.
fn print_node<W: Sink>(
    lines: &mut LineBuffer,
    output: &mut W,
    case: &Case,
    buses: &Buses,
    node: u32,
)
    requires buses { buses.now.buses ≡ case_buses case.now }
    requires node { node < length case.now.nodes }
    ensures printed { Prints W.written W.faults W.has_room output.old output.new lines.old lines.new
        (node_line case.now node) }
{
    let first = first_node(case, buses, node);
    lines.line(
        output,
        &[b"node", node_name(case, node), node_name(case, first)],
    );
}

/// Appends a line for each node, in the order of the table: the word `node`, the node's name and the
/// name of its bus, which is that of the bus's first node.
pub fn print_nodes<W: Sink>(output: &mut W, case: &Case, buses: &Buses) -> Result<(), Failed>
    requires buses { buses.now.buses ≡ case_buses case.now }
    ensures appends { Appends W.written W.faults W.has_room output.old output.new result (node_lines case.now) }
{
    let mut lines = LineBuffer::new();
    for node in 0..case.nodes().len() {
        print_node(&mut lines, output, case, buses, node as u32);
    }
    lines.finish(output)
}
