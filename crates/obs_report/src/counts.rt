// The counts of a network, and the verdict.
ghost use Rattle.std.specs.Prelude.{◌≡◌, length};
ghost use Rattle.obs_meter.specs.Touches.{live_items};
ghost use Rattle.obs_meter.specs.inner.Touches.{AreInRange};
ghost use Rattle.obs_report.specs.Counts.{counts_text, energised_buses, verdict_line, verdict_word};
ghost use Rattle.obs_report.specs.inner.Printed.{Appends, Prints};

use crate::line_buffer::LineBuffer;
use crate::lines::print_count_line;
use obs_graph::Graph;
use obs_io::{Failed, Sink};
use obs_meter::Meters;
use obs_network::Network;

/// How many buses energised components have.
pub fn count_energised(network: &Network) -> u32
    ensures energised { result ≡ energised_buses network.now }
{
    let mut energised = 0;
    for bus in 0..network.buses().count() {
        if network.energised(network.component(bus)) {
            energised += 1;
        }
    }
    energised
}

// How many items touch a branch.
#[tactic(auto, using(crate::proofs::Counted::range_more_yes, crate::proofs::Counted::range_more_no))]
fn count_live(graph: &Graph, meters: &Meters) -> u32
    requires in_range { AreInRange graph.now meters.now.touches }
    ensures live { result ≡ length (live_items graph.now.ends meters.now.touches) }
{
    let mut live = 0;
    for m in 0..meters.count() {
        if meters.live(graph, m) {
            live += 1;
        }
    }
    live
}

/// The word of the verdict on a rank and a needed number.
pub fn verdict_word(rank: u32, needed: u32) -> &'static [u8]
    ensures verdict { result.now ≡ verdict_word rank needed }
{
    if rank == needed {
        b"observable"
    } else {
        b"short"
    }
}

// Prints the verdict.
fn print_verdict<W: Sink>(lines: &mut LineBuffer, output: &mut W, rank: u32, needed: u32)
    ensures printed { Prints W.written W.faults W.has_room output.old output.new lines.old lines.new
        (verdict_line rank needed) }
{
    lines.line(output, &[b"verdict", verdict_word(rank, needed)]);
}

/// Appends the counts of the network's buses, energised buses, live branches, live meters and needed pairs, this rank,
/// and the verdict on it.
pub fn print_counts<W: Sink>(output: &mut W, network: &Network, rank: u32) -> Result<(), Failed>
    ensures appends { Appends W.written W.faults W.has_room output.old output.new result
        (counts_text network.now rank) }
{
    let graph = network.graph();
    let buses = network.buses().count();
    let energised = count_energised(network);
    let branches = network.live_branches();
    let meters = count_live(graph, network.meters());
    let needed = network.needed();
    let mut lines = LineBuffer::new();
    print_count_line(&mut lines, output, b"buses", buses as u64);
    print_count_line(&mut lines, output, b"energised", energised as u64);
    print_count_line(&mut lines, output, b"branches", branches as u64);
    print_count_line(&mut lines, output, b"meters", meters as u64);
    print_count_line(&mut lines, output, b"needed", needed as u64);
    print_count_line(&mut lines, output, b"rank", rank as u64);
    print_verdict(&mut lines, output, rank, needed);
    lines.finish(output)
}
