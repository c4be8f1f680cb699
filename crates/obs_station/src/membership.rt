// To which station each meter belongs.
ghost use Rattle.std.specs.Prelude.{◌≡◌, ◌+◌, ◌<◌, ◌≤◌, ◌^◌, ℕ, suc, length, slice_index};
ghost use Rattle.obs_case.specs.Tables.{places};
ghost use Rattle.obs_switch.specs.inner.Groups.{AreGroups};
ghost use Rattle.obs_station.specs.inner.Held.{station_key};
ghost use Rattle.obs_station.specs.Stations.{all_links, case_station_count, case_stations, meter_stations, place_node};

use obs_case::{Case, Kind, Switch};
use obs_network::Present;
use obs_switch::group::group;
use obs_switch::{Buses, Link};

// The link of a switch, open or closed.
fn link_of(row: &Switch) -> Link
    ensures link { result ≡ record { from = row.now.from; to = row.now.to } }
{
    Link {
        from: row.from,
        to: row.to,
    }
}

/// Writes all switches as links, the open ones too.
pub(crate) fn write_links(switches: &[Switch], links: &mut [Link])
    requires room { length switches.now ≡ length links.old }
    ensures links { links.new ≡ all_links switches.now }
{
    for i in 0..switches.len() {
        links[i] = link_of(&switches[i]);
    }
}

// The node of a meter of this kind at a place.
fn place_node(case: &Case, kind: Kind, at: u32) -> u32
    requires place { at < places case.now kind }
    ensures node { result ≡ place_node case.now kind at }
    ensures below { result < length case.now.nodes }
{
    match kind {
        Kind::Flow => case.branches()[at as usize].from,
        Kind::Injection | Kind::Zero | Kind::Angle => at,
    }
}

// The station to which a meter belongs.
fn station_of(case: &Case, stations: &Buses, m: u32) -> u32
    requires stations { stations.now.buses ≡ case_stations case.now }
    requires meter { m < length case.now.meters }
    ensures station { result ≡ slice_index (meter_stations case.now) m }
    ensures below { result < stations.now.count }
{
    let row = &case.meters()[m as usize];
    stations.bus(place_node(case, row.kind, row.at))
}

// The key of a meter: its station where it is live, else the number of stations.
fn station_key(present: &Present<'_>, stations: &Buses, m: u32) -> u32
    requires stations { stations.now.buses ≡ case_stations present.now }
    requires count { stations.now.count ≡ case_station_count present.now }
    requires meter { m < length present.now.meters }
    ensures key { result ≡ station_key present.now m }
    ensures below { result ≤ stations.now.count }
{
    if present.meters().live(present.graph(), m) {
        station_of(present.case(), stations, m)
    } else {
        stations.count()
    }
}

// Writes the key of each meter.
fn write_keys(present: &Present<'_>, stations: &Buses, keys: &mut [u32])
    requires stations { stations.now.buses ≡ case_stations present.now }
    requires count { stations.now.count ≡ case_station_count present.now }
    requires one_each { length keys.old ≡ length present.now.meters }
    ensures keys { (m : ℕ) → m < length keys.new → slice_index keys.new m ≡ station_key present.now m }
    ensures below { (m : ℕ) → m < length keys.new → slice_index keys.new m ≤ stations.now.count }
    ensures few { length keys.new < 2 ^ 32 }
{
    for m in 0..present.case().meters().len() {
        keys[m] = station_key(present, stations, m as u32);
    }
}

/// Writes the key of each meter, and the meters one station after another, and behind them the idle ones.
pub(crate) fn write_members(
    present: &Present<'_>,
    stations: &Buses,
    keys: &mut [u32],
    members: &mut [u32],
    starts: &mut [usize],
)
    requires stations { stations.now.buses ≡ case_stations present.now }
    requires count { stations.now.count ≡ case_station_count present.now }
    requires one_each { length keys.old ≡ length present.now.meters }
    requires members { length members.old ≡ length keys.old }
    requires starts { stations.now.count < length starts.old }
    ensures keys { (m : ℕ) → m < length keys.new → slice_index keys.new m ≡ station_key present.now m }
    ensures groups { AreGroups keys.new members.new starts.new (suc stations.now.count) }
{
    write_keys(present, stations, keys);
    group(keys, members, &mut starts[..stations.count() as usize + 1]);
}
