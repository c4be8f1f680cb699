// The lines on trees: components and their pairs.
ghost use Rattle.std.specs.Prelude.{◌≡◌, ◌<◌, All, [], ◌∷◌, length};
ghost use Rattle.std.specs.List.{flat_map};
ghost use Rattle.obs_case.specs.Tables.{IsValid};
ghost use Rattle.obs_matroid.specs.inner.Slots.{pairs_from, pairs_of};
ghost use Rattle.obs_assign.specs.inner.Assignment.{StandsOver, branch_at};
ghost use Rattle.obs_network.specs.Network.{case_meters, network_of};
ghost use Rattle.obs_report.specs.Items.{pair_line};
ghost use Rattle.obs_report.specs.inner.Printed.{Appends, Prints};
ghost use Rattle.obs_report.specs.Trees.{tree_text};

use crate::items::print_pair;
use crate::line_buffer::LineBuffer;
use crate::names::component_name;
use obs_assign::Assignment;
use obs_case::Case;
use obs_io::{Failed, Sink};
use obs_network::{Network, Present};

// Prints a line for each of these meters that has a branch.
fn print_pairs<W: Sink>(
    lines: &mut LineBuffer,
    output: &mut W,
    case: &Case,
    meters: &[u32],
    pairs: &Assignment,
)
    requires valid { IsValid case.now }
    requires meters { All (λ m. m < length case.now.meters) meters.now }
    requires pairs { StandsOver pairs.now (network_of case.now).graph (case_meters case.now) }
    ensures printed { Prints W.written W.faults W.has_room output.old output.new lines.old lines.new
        (flat_map (λ m. flat_map (pair_line case.now) (pairs_from m (branch_at pairs.now m ∷ []))) meters.now) }
{
    for m in meters {
        print_pair(lines, output, case, *m, pairs.branch_of(*m));
    }
}

/// Appends the tree of a component: its name, and a line for each of these pairs whose branch lies in it, in the order
/// of the meters. All components together take one pass over the meters.
pub fn print_tree<W: Sink>(
    output: &mut W,
    case: &Case,
    network: &Network,
    c: u32,
    pairs: &Assignment,
) -> Result<(), Failed>
    requires network { network.now ≡ network_of case.now }
    requires component { c < length network.now.components.first_buses }
    requires pairs { StandsOver pairs.now network.now.graph network.now.meters.touches }
    ensures appends { Appends W.written W.faults W.has_room output.old output.new result
        (tree_text case.now c (pairs_of pairs.now.slots)) }
{
    let name = component_name(&Present::of(case, network), c);
    let mut lines = LineBuffer::new();
    lines.line(output, &[b"tree", name]);
    print_pairs(&mut lines, output, case, network.live_meters(c), pairs);
    lines.finish(output)
}
