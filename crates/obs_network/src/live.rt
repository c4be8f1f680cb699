// The live branches of a case.
ghost use Rattle.std.specs.Prelude.{◌≡◌, ◌<◌, All, length, take};
ghost use Rattle.obs_graph.specs.Positions.{present};
ghost use Rattle.obs_network.specs.Live.{live_branches, live_ends};

use obs_case::Branch;
use obs_graph::{Ends, Graph};
use obs_switch::Buses;

/// The two buses that a branch joins, where it is live.
pub(crate) fn ends_of(row: &Branch, buses: &Buses) -> Option<Ends>
    requires from { row.now.from < length buses.now.buses }
    requires to { row.now.to < length buses.now.buses }
    ensures ends { result ≡ live_ends buses.now.buses row.now }
{
    let a = buses.bus(row.from);
    let b = buses.bus(row.to);
    if row.inservice && a != b {
        Some(Ends { a, b })
    } else {
        None
    }
}

/// Writes the live branches, each at its position.
pub(crate) fn write_live(branches: &[Branch], buses: &Buses, live: &mut [Option<Ends>])
    requires room { length branches.now ≡ length live.old }
    requires ends { All (λ row. (row.from < length buses.now.buses) × (row.to < length buses.now.buses)) branches.now }
    ensures live { live.new ≡ live_branches buses.now.buses branches.now }
{
    for i in 0..branches.len() {
        live[i] = ends_of(&branches[i], buses);
    }
}

/// How many of the first so many branches of a graph are present.
pub(crate) fn count_present(graph: &Graph, rows: usize) -> u32
    ensures count { result ≡ length (present (take rows graph.now.ends)) }
{
    let mut count = 0;
    for e in 0..rows.min(graph.positions() as usize) {
        if graph.ends(e as u32).is_some() {
            count += 1;
        }
    }
    count
}
