// The lines on islands.
ghost use Rattle.std.specs.Prelude.{◌≡◌, ◌<◌, ◌≤◌, ℕ, [], ◌∷◌, length, slice_index};
ghost use Rattle.obs_network.specs.Network.{network_of};
ghost use Rattle.obs_network.specs.Switched.{case_bus_count};
ghost use Rattle.obs_report.specs.Islands.{island_line, island_lines, islands_text};
ghost use Rattle.obs_report.specs.inner.Printed.{Appends, Prints};

use crate::line_buffer::LineBuffer;
use crate::names::bus_name;
use obs_case::Case;
use obs_io::{Failed, Sink};
use obs_network::{Network, Present};

// Prints the line of a bus and the first bus of its island.
fn print_island<W: Sink>(
    lines: &mut LineBuffer,
    output: &mut W,
    present: &Present<'_>,
    first: u32,
    bus: u32,
)
    requires first { first < case_bus_count present.now }
    requires bus { bus < case_bus_count present.now }
    ensures printed { Prints W.written W.faults W.has_room output.old output.new lines.old lines.new
        (island_line present.now first bus) }
{
    let words: [&[u8]; 3] = [b"island", bus_name(present, first), bus_name(present, bus)];
    lines.line(output, &words);
}

// Prints the line of a bus, where it is energised.
fn print_bus<W: Sink>(
    lines: &mut LineBuffer,
    output: &mut W,
    present: &Present<'_>,
    islands: &[u32],
    bus: u32,
)
    requires bus { bus < case_bus_count present.now }
    requires place { bus < length islands.now }
    requires low { slice_index islands.now bus ≤ bus }
    ensures printed { Prints W.written W.faults W.has_room output.old output.new lines.old lines.new
        (island_lines present.now islands.now (bus ∷ [])) }
{
    let network = present.network();
    if network.energised(network.component(bus)) {
        print_island(lines, output, present, islands[bus as usize], bus);
    }
}

/// Appends a line for each bus of an energised component, in the order of the buses: the word `island`, the name of the
/// first bus of its island, which `islands` has for each vertex, and the name of the bus.
pub fn print_islands<W: Sink>(
    output: &mut W,
    case: &Case,
    network: &Network,
    islands: &[u32],
) -> Result<(), Failed>
    requires network { network.now ≡ network_of case.now }
    requires one_each { length islands.now ≡ network.now.graph.vertices }
    requires low { (bus : ℕ) → bus < length islands.now → slice_index islands.now bus ≤ bus }
    ensures appends { Appends W.written W.faults W.has_room output.old output.new result
        (islands_text case.now islands.now) }
{
    let present = Present::of(case, network);
    let mut lines = LineBuffer::new();
    for bus in 0..network.buses().count() {
        print_bus(&mut lines, output, &present, islands, bus);
    }
    lines.finish(output)
}
