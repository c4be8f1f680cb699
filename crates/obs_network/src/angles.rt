// The angle branches of a case.
ghost use Rattle.std.specs.Prelude.{◌≡◌, ◌+◌, ◌≢◌, ◌<◌, ◌≤◌, All, length, map, take};
ghost use Rattle.std.specs.List.{list_any};
ghost use Rattle.obs_case.specs.Items.{is_angle_kind};
ghost use Rattle.obs_case.specs.Tables.{IsValid, most_rows};
ghost use Rattle.obs_network.specs.Angles.{bus_angle, has_angle, item_angle};
ghost use Rattle.obs_network.specs.Network.{case_angles};
ghost use Rattle.obs_network.specs.inner.Network.{AreFoundOf};

use crate::components::Components;
use obs_case::{Candidate, Case, Kind, Meter};
use obs_graph::Ends;
use obs_switch::Buses;

// Whether this is the kind of angle items.
fn is_angle_kind(kind: Kind) -> bool
    ensures angle { result ≡ is_angle_kind kind }
{
    matches!(kind, Kind::Angle)
}

// Whether one of the meters is an angle meter.
fn any_meter(meters: &[Meter]) -> bool
    ensures any { result ≡ list_any (λ b. b) (map (λ row. is_angle_kind row.kind) meters.now) }
{
    for row in meters {
        if is_angle_kind(row.kind) {
            return true;
        }
    }
    false
}

// Whether one of the candidates is an angle candidate.
fn any_candidate(candidates: &[Candidate]) -> bool
    ensures any { result ≡ list_any (λ b. b) (map (λ row. is_angle_kind row.kind) candidates.now) }
{
    for row in candidates {
        if is_angle_kind(row.kind) {
            return true;
        }
    }
    false
}

// Whether one of the items is an angle item: one look at each kind.
pub(crate) fn has_angle(case: &Case) -> bool
    ensures angle { result ≡ has_angle case.now }
    ensures valid { IsValid case.now }
{
    any_meter(case.meters()) || any_candidate(case.candidates())
}

// The ends of an angle branch at a bus.
fn bus_angle(components: &Components, bus: u32) -> Option<Ends>
    requires few { components.now.most_buses ≤ most_rows }
    requires bus { bus < length components.now.of_buses }
    ensures ends { result
        ≡ bus_angle components.now.of_buses components.now.energised components.now.absolute bus }
{
    let c = components.component(bus);
    if components.energised(c) && components.absolute(c) {
        Some(Ends {
            a: bus,
            b: components.reference(c),
        })
    } else {
        None
    }
}

// The ends of the angle branch of an item of this kind at a place.
fn item_angle(kind: Kind, at: u32, buses: &Buses, components: &Components) -> Option<Ends>
    requires few { components.now.most_buses ≤ most_rows }
    requires node { kind ≢ Kind.Flow → at < length buses.now.buses }
    requires buses { buses.now.count ≤ length components.now.of_buses }
    ensures ends { result ≡ item_angle buses.now.buses components.now.of_buses components.now.energised
        components.now.absolute kind at }
{
    match kind {
        Kind::Angle => bus_angle(components, buses.bus(at)),
        _ => None,
    }
}

// Writes the angle branch of each meter.
fn write_meters(
    meters: &[Meter],
    buses: &Buses,
    components: &Components,
    places: &mut [Option<Ends>],
)
    requires few { components.now.most_buses ≤ most_rows }
    requires room { length meters.now ≡ length places.old }
    requires nodes { All (λ row. row.kind ≢ Kind.Flow → row.at < length buses.now.buses) meters.now }
    requires buses { buses.now.count ≤ length components.now.of_buses }
    ensures ends { places.new ≡ map (λ row. item_angle buses.now.buses components.now.of_buses
        components.now.energised components.now.absolute row.kind row.at) meters.now }
{
    for i in 0..meters.len() {
        let row = &meters[i];
        places[i] = item_angle(row.kind, row.at, buses, components);
    }
}

// Writes the angle branch of each candidate.
fn write_candidates(
    candidates: &[Candidate],
    buses: &Buses,
    components: &Components,
    places: &mut [Option<Ends>],
)
    requires few { components.now.most_buses ≤ most_rows }
    requires room { length candidates.now ≡ length places.old }
    requires nodes { All (λ row. row.kind ≢ Kind.Flow → row.at < length buses.now.buses) candidates.now }
    requires buses { buses.now.count ≤ length components.now.of_buses }
    ensures ends { places.new ≡ map (λ row. item_angle buses.now.buses components.now.of_buses
        components.now.energised components.now.absolute row.kind row.at) candidates.now }
{
    for i in 0..candidates.len() {
        let row = &candidates[i];
        places[i] = item_angle(row.kind, row.at, buses, components);
    }
}

/// Writes the angle branches of the case, by item, and says how many places they take: none, where no
/// item is an angle item.
pub(crate) fn write_angles(
    case: &Case,
    buses: &Buses,
    components: &Components,
    places: &mut [Option<Ends>],
) -> usize
    requires found { AreFoundOf case.now buses.now components.now }
    requires room { length places.old ≡ length case.now.meters + length case.now.candidates }
    ensures angles { take result places.new ≡ case_angles case.now }
    ensures room { length places.new ≡ length places.old }
    ensures few { result ≤ length places.new }
    ensures valid { IsValid case.now }
{
    if has_angle(case) {
        let (of_meters, of_candidates) = places.split_at_mut(case.meters().len());
        write_meters(case.meters(), buses, components, of_meters);
        write_candidates(case.candidates(), buses, components, of_candidates);
        places.len()
    } else {
        0
    }
}
