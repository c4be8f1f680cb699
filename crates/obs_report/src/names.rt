// The names of rows, buses and components.
ghost use Rattle.std.specs.Prelude.{◌≡◌, ◌<◌, length, slice_index};
ghost use Rattle.obs_network.specs.Network.{case_first_buses};
ghost use Rattle.obs_network.specs.Switched.{case_bus_count};
ghost use Rattle.obs_report.specs.Items.{branch_name, candidate_name, meter_name};
ghost use Rattle.obs_report.specs.Meters.{bus_name, component_name};
ghost use Rattle.obs_report.specs.Nodes.{node_name};

use obs_case::{Branch, Candidate, Case, Meter, Node};
use obs_network::Present;

/// The name of the node at a position.
pub fn node_name(case: &Case, node: u32) -> &[u8]
    requires node { node < length case.now.nodes }
    ensures name { result.now ≡ node_name case.now node }
{
    case.nodes()[node as usize].name.bytes()
}

/// The name of the branch at a position.
pub fn branch_name(case: &Case, e: u32) -> &[u8]
    requires branch { e < length case.now.branches }
    ensures name { result.now ≡ branch_name case.now e }
{
    case.branches()[e as usize].name.bytes()
}

/// The name of the meter at a position.
pub fn meter_name(case: &Case, m: u32) -> &[u8]
    requires meter { m < length case.now.meters }
    ensures name { result.now ≡ meter_name case.now m }
{
    case.meters()[m as usize].name.bytes()
}

/// The name of the candidate at a position.
pub(crate) fn candidate_name(case: &Case, k: u32) -> &[u8]
    requires candidate { k < length case.now.candidates }
    ensures name { result.now ≡ candidate_name case.now k }
{
    case.candidates()[k as usize].name.bytes()
}

/// The first of some nodes.
pub(crate) fn first_of(members: &[u32]) -> u32
    requires some { 0 < length members.now }
    ensures first { result ≡ slice_index members.now 0 }
{
    members[0]
}

/// The name of a bus.
pub(crate) fn bus_name<'a>(present: &Present<'a>, bus: u32) -> &'a [u8]
    requires bus { bus < case_bus_count present.now }
    ensures name { result.now ≡ bus_name present.now bus }
{
    let first = first_of(present.network().buses().members(bus));
    node_name(present.case(), first)
}

/// The name of a component.
pub(crate) fn component_name<'a>(present: &Present<'a>, c: u32) -> &'a [u8]
    requires component { c < length (case_first_buses present.now) }
    ensures name { result.now ≡ component_name present.now c }
{
    bus_name(present, present.network().first_bus(c))
}
