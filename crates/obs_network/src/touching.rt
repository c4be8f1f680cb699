// What the items of a case touch. The first `rows` branches of the graph are the rows of the branch table.
ghost use Rattle.std.specs.Prelude.{◌≡◌, ◌+◌, ◌<◌, ◌≤◌, ◌^◌, ◌≢◌, All, AllPairs, false, length, nat_lt, take, true};
ghost use Rattle.std.specs.List.Sorted.{IsPartitionPoint};
ghost use Rattle.obs_network.specs.Touching.{candidate_touches, meter_touch, meter_touches, rows_at, touch_of};

use obs_case::{Candidate, Kind, Meter};
use obs_graph::Graph;
use obs_meter::Touch;
use obs_switch::Buses;

// How many entries of a rising list stand below a bound.
fn count_below(rising: &[u32], bound: u32) -> usize
    requires rising { AllPairs ◌<◌ rising.now }
    ensures point { IsPartitionPoint (λ e. nat_lt e bound ≡ true) (λ e. nat_lt e bound ≡ false) rising.now result }
    ensures few { result ≤ length rising.now }
{
    rising.partition_point(|e| *e < bound)
}

/// The rows at a bus: all branches there, where there are only rows, else those that stand below the others.
pub(crate) fn rows_at(bus: u32, graph: &Graph, rows: u32) -> Touch
    requires bus { bus < graph.now.vertices }
    requires rows { rows ≤ length graph.now.ends }
    ensures touch { result ≡ rows_at (take rows graph.now.ends) bus }
{
    let at = graph.branches_at(bus);
    let count = if graph.positions() == rows {
        at.len()
    } else {
        count_below(at, rows)
    };
    Touch::Front {
        at: bus,
        count: count as u32,
    }
}

// What the item m touches, where it is of this kind.
fn touch_of(kind: Kind, at: u32, m: u32, buses: &Buses, graph: &Graph, rows: u32) -> Touch
    requires node { kind ≢ Kind.Flow → at < length buses.now.buses }
    requires buses { buses.now.count ≤ graph.now.vertices }
    requires rows { rows ≤ length graph.now.ends }
    requires small { rows + m < 2 ^ 32 }
    ensures touch { result ≡ touch_of (take rows graph.now.ends) buses.now.buses m kind at }
{
    match kind {
        Kind::Flow => Touch::Edge(at),
        Kind::Injection | Kind::Zero => rows_at(buses.bus(at), graph, rows),
        Kind::Angle => Touch::Edge(rows + m),
    }
}

/// What the meter m touches: nothing, where it is out of service.
pub(crate) fn touch_of_meter(row: &Meter, m: u32, buses: &Buses, graph: &Graph, rows: u32) -> Touch
    requires node { row.now.kind ≢ Kind.Flow → row.now.at < length buses.now.buses }
    requires buses { buses.now.count ≤ graph.now.vertices }
    requires rows { rows ≤ length graph.now.ends }
    requires small { rows + m < 2 ^ 32 }
    ensures touch { result ≡ meter_touch (take rows graph.now.ends) buses.now.buses m row.now }
{
    if row.inservice {
        touch_of(row.kind, row.at, m, buses, graph, rows)
    } else {
        Touch::Nothing
    }
}

/// Writes what each meter touches.
pub(crate) fn write_meters(
    meters: &[Meter],
    buses: &Buses,
    graph: &Graph,
    rows: u32,
    touches: &mut [Touch],
)
    requires room { length meters.now ≡ length touches.old }
    requires places { All (λ row. row.kind ≢ Kind.Flow → row.at < length buses.now.buses) meters.now }
    requires buses { buses.now.count ≤ graph.now.vertices }
    requires rows { rows ≤ length graph.now.ends }
    requires small { rows + length meters.now < 2 ^ 32 }
    ensures touches { touches.new ≡ meter_touches (take rows graph.now.ends) buses.now.buses 0 meters.now }
{
    for i in 0..meters.len() {
        touches[i] = touch_of_meter(&meters[i], i as u32, buses, graph, rows);
    }
}

/// Writes what each candidate touches, where the first of them is the item of this number.
pub(crate) fn write_candidates(
    candidates: &[Candidate],
    first: u32,
    buses: &Buses,
    graph: &Graph,
    rows: u32,
    touches: &mut [Touch],
)
    requires room { length candidates.now ≡ length touches.old }
    requires places { All (λ row. row.kind ≢ Kind.Flow → row.at < length buses.now.buses) candidates.now }
    requires buses { buses.now.count ≤ graph.now.vertices }
    requires rows { rows ≤ length graph.now.ends }
    requires small { rows + (first + length candidates.now) < 2 ^ 32 }
    ensures touches { touches.new
        ≡ candidate_touches (take rows graph.now.ends) buses.now.buses first candidates.now }
{
    for i in 0..candidates.len() {
        let row = &candidates[i];
        touches[i] = touch_of(row.kind, row.at, first + i as u32, buses, graph, rows);
    }
}
