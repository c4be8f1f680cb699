// The stations of a case, and the live meters of each.
ghost use Rattle.std.specs.Prelude.{◌≡◌, ◌<◌, ◌≤◌, ◌^◌, [], All, IfOk, length, slice_index};
ghost use Rattle.obs_switch.specs.Buses.{members_of};
ghost use Rattle.obs_switch.specs.Groups.{items_with};
ghost use Rattle.obs_switch.specs.inner.Groups.{group_start};
ghost use Rattle.obs_station.specs.inner.Held.{has_any, station_keys};
ghost use Rattle.obs_station.specs.inner.Rounds.{IsByStation};
ghost use Rattle.obs_station.specs.Stations.{case_station_count, case_stations};

use crate::membership::{write_links, write_members};
use crate::memory::NoMemory;
use obs_network::Present;
use obs_switch::group::group_of;
use obs_switch::{Buses, Link};
use std::alloc::Global;
use std::marker::Model;

/// The stations of a case, and the live meters of each, one station after another, and behind them the idle meters.
pub(crate) struct Stations {
    // how many meters there are
    meters: usize,
    // all switches, while stations are made
    links: Vec<Link>,
    // the station of each node
    buses: Buses,
    // of each meter its station, or the number of stations where it is idle
    keys: Vec<u32>,
    // the meters with each key, one key after another
    members: Vec<u32>,
    // where each key begins there
    starts: Vec<usize>,
}

impl Model for Stations {
    ghost use Rattle.std.specs.Prelude.{length, take};
    ghost use Rattle.obs_station.specs.inner.Held.{AreListed, Stations};

    ghost Value = { Stations };

    ghost view = { λ s. record {
      buses = s.buses;
      keys = take s.meters s.keys.items;
      switches = length s.links.items;
      most_meters = length s.keys.items;
    } };

    ghost invariant = { λ s.
        AreListed s.meters s.buses s.keys.items s.members.items s.starts.items };
}

// Written out: so a caller's proof sees one call, and not the drop of each field.
impl Drop for Stations {
    fn drop(self) {
        let Stations {
            meters: _,
            links: _,
            buses: _,
            keys: _,
            members: _,
            starts: _,
        } = self;
    }
}

impl Stations {
    /// Room for so many nodes, switches and meters, without any.
    pub(crate) fn make(
        alloc: Global,
        nodes: u32,
        switches: usize,
        meters: u32,
    ) -> Result<Stations, NoMemory>
        ensures empty { IfOk result (λ s. s ≡ record {
          buses = record { buses = []; count = 0; most_nodes = nodes };
          keys = [];
          switches = switches;
          most_meters = meters;
        }) }
    {
        Ok(Stations {
            meters: 0,
            links: vec![in alloc; Link { from: 0, to: 0 }; switches]?,
            buses: Buses::make(alloc, nodes, 0)?,
            keys: vec![in alloc; 0; meters as usize]?,
            members: vec![in alloc; 0; meters as usize]?,
            starts: vec![in alloc; 0; nodes as usize + 1]?,
        })
    }

    /// Makes the stations those of a case.
    pub(crate) fn refill(&mut self, present: &Present<'_>)
        requires switches { self.old.switches ≡ length present.now.switches }
        requires nodes { self.old.buses.most_nodes ≡ length present.now.nodes }
        requires meters { self.old.most_meters ≡ length present.now.meters }
        ensures stations { self.new.buses.buses ≡ case_stations present.now }
        ensures count { self.new.buses.count ≡ case_station_count present.now }
        ensures nodes { self.new.buses.most_nodes ≡ self.old.buses.most_nodes }
        ensures keys { self.new.keys ≡ station_keys present.now }
        ensures switches { self.new.switches ≡ self.old.switches }
        ensures meters { self.new.most_meters ≡ self.old.most_meters }
    {
        let case = present.case();
        write_links(case.switches(), &mut self.links);
        self.buses.relabel(case.nodes().len() as u32, &self.links);
        write_members(
            present,
            &self.buses,
            &mut self.keys,
            &mut self.members,
            &mut self.starts,
        );
        self.meters = case.meters().len();
    }

    /// How many stations there are.
    pub(crate) fn count(&self) -> u32
        ensures count { result ≡ self.now.buses.count }
        ensures few { result ≤ self.now.buses.most_nodes }
    {
        self.buses.count()
    }

    /// The first node of a station, which names it.
    pub(crate) fn node(&self, c: u32) -> u32
        requires station { c < self.now.buses.count }
        requires some { 0 < length (members_of self.now.buses.buses c) }
        ensures node { result ≡ slice_index (members_of self.now.buses.buses c) 0 }
    {
        self.buses.members(c)[0]
    }

    /// The live meters of a station, rising.
    pub(crate) fn meters(&self, c: u32) -> &[u32]
        requires station { c < self.now.buses.count }
        ensures meters { result.now ≡ items_with self.now.keys c }
        ensures low { All (λ m. m < length self.now.keys) result.now }
        ensures few { length result.now ≤ length self.now.keys }
        ensures small { length result.now < 2 ^ 32 }
    {
        group_of(&self.keys[..self.meters], &self.members, &self.starts, c)
    }

    /// Where the live meters of a station begin among those of all, or where these end.
    pub(crate) fn start(&self, c: u32) -> usize
        requires station { c ≤ self.now.buses.count }
        ensures start { result ≡ group_start self.now.keys c }
    {
        self.starts[c as usize]
    }

    /// How many live meters there are.
    pub(crate) fn live(&self) -> usize
        ensures live { result ≡ group_start self.now.keys self.now.buses.count }
    {
        self.start(self.count())
    }

    /// The live meters, one station after another.
    pub(crate) fn members(&self) -> &[u32]
        ensures by_station { IsByStation self.now.keys self.now.buses.count result.now }
        ensures few { length result.now ≤ length self.now.keys }
    {
        &self.members[..self.live()]
    }

    /// The station to which a live meter belongs.
    pub(crate) fn station(&self, m: u32) -> u32
        requires meter { m < length self.now.keys }
        ensures station { result ≡ slice_index self.now.keys m }
    {
        self.keys[m as usize]
    }

    /// Whether a station has a live meter.
    pub(crate) fn has_any(&self, c: u32) -> bool
        requires station { c < self.now.buses.count }
        ensures any { result ≡ has_any self.now c }
    {
        !self.meters(c).is_empty()
    }
}
