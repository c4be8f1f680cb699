// The losses of stations.
ghost use Rattle.std.specs.Borrow.{sem};
ghost use Rattle.std.specs.Prelude.{◌≡◌, ◌+◌, ◌≤◌, [], IfOk, length};
ghost use Rattle.obs_network.specs.Network.{network_of, rows_of};
ghost use Rattle.obs_network.specs.Observable.{case_live_meters};
ghost use Rattle.obs_assign.specs.inner.Assignment.{HasRoomOf};
ghost use Rattle.obs_kept.specs.inner.Kept.{AreLongest};
ghost use Rattle.obs_station.specs.Stations.{losses_of};

use crate::grouping::Grouping;
use crate::memory::NoMemory;
use crate::room::Room;
use crate::rounds::Rounds;
use crate::stations::Stations;
use crate::without::write_losses;
use obs_assign::{Assignment, Steps};
use obs_case::Case;
use obs_network::{Network, Present};
use std::alloc::Global;
use std::marker::Model;
use std::sync::ledger::Ledger;

/// What the loss of a station's meters does: the station's first node, how many live meters it has, and the rank
/// without them.
#[derive(Clone, Copy, Debug, PartialEq, Eq)]
pub struct Loss {
    pub node: u32,
    pub lost: u32,
    pub rank: u32,
}

/// How many rows each table has.
#[derive(Clone, Copy)]
struct RowCounts {
    nodes: u32,
    switches: usize,
    branches: u32,
    meters: u32,
    candidates: u32,
}

/// Room for the losses of the stations of cases with the same numbers of rows.
pub struct StationWork {
    rows: RowCounts,
    stations: Stations,
    room: Room,
    // what is known while stations are settled
    rounds: Rounds,
    // the first `count` of these are found
    entries: Vec<Loss>,
    count: usize,
}

impl Model for StationWork {
    ghost use Rattle.std.specs.Prelude.{◌≡◌, ◌≤◌, ◌+◌, ◌*◌, length, take};
    ghost use Rattle.obs_station.specs.inner.Stations.{StationWork};

    ghost Value = { StationWork };

    ghost view = { λ w. record {
      rows = record {
        nodes = w.rows.nodes;
        switches = w.rows.switches;
        branches = w.rows.branches;
        meters = w.rows.meters;
        candidates = w.rows.candidates;
      };
      found = take w.count w.entries.items;
    } };

    ghost invariant = { λ w. record {
      nodes : w.stations.buses.most_nodes ≡ w.rows.nodes;
      switches : w.stations.switches ≡ w.rows.switches;
      meters : w.stations.most_meters ≡ w.rows.meters;
      left : w.room.left.most ≡ w.rows.meters;
      sizes : w.room.exchange.sizes ≡ record {
        meters = w.rows.meters;
        branches = w.rows.branches + (w.rows.meters + w.rows.candidates);
        vertices = 2 * w.rows.nodes;
      };
      places : length w.rounds.firsts ≡ w.rows.meters;
      ranks : length w.rounds.ranks ≡ w.rows.nodes;
      entries : length w.entries.items ≡ w.rows.nodes;
      found : w.count ≤ length w.entries.items;
    } };
}

// Written out: so a caller's proof sees one call, and not the drop of each field.
impl Drop for StationWork {
    fn drop(self) {
        let StationWork {
            rows: _,
            stations: _,
            room: _,
            rounds: _,
            entries: _,
            count: _,
        } = self;
    }
}

impl StationWork {
    ghost use Rattle.obs_station.specs.inner.Lending.{WorkGivenBack};

    /// Room for the losses of a case's stations, and of any case with as many rows in each table.
    pub fn make(alloc: Global, case: &Case) -> Result<StationWork, NoMemory>
        ensures rows { IfOk result (λ w. w.rows ≡ rows_of case.now) }
        ensures none_found { IfOk result (λ w. w.found ≡ []) }
    {
        let rows = RowCounts {
            nodes: case.nodes().len() as u32,
            switches: case.switches().len(),
            branches: case.branches().len() as u32,
            meters: case.meters().len() as u32,
            candidates: case.candidates().len() as u32,
        };
        let positions = rows.branches + (rows.meters + rows.candidates);
        let nothing = Loss {
            node: 0,
            lost: 0,
            rank: 0,
        };
        Ok(StationWork {
            rows,
            stations: Stations::make(alloc, rows.nodes, rows.switches, rows.meters)?,
            room: Room::make(alloc, rows.meters, positions, 2 * rows.nodes)?,
            rounds: Rounds::make(alloc, rows.nodes, rows.meters)?,
            entries: vec![in alloc; nothing; rows.nodes as usize]?,
            count: 0,
        })
    }

    /// Finds the loss list: an entry for each station with a live meter, in the order of their first nodes. The pairs
    /// are a longest assignment, and are one again. There are at most as many searches as live meters and entries
    /// together. Takes no memory.
    pub fn find_losses<L: Ledger>(
        &mut self,
        present: &Present<'_>,
        a: &mut Assignment,
        steps: &mut Steps<L>,
    )
        requires rows { self.old.rows ≡ rows_of present.now }
        requires longest { AreLongest present.now a.old }
        ensures losses { self.new.found ≡ losses_of present.now }
        ensures longest { AreLongest present.now a.new }
        ensures ticks { steps.new ≤ steps.old + (length (case_live_meters present.now) + length (losses_of present.now)) }
        ensures turns_rise { a.old.turns ≤ a.new.turns }
        ensures turns_most { a.new.turns
            ≤ a.old.turns + (length (case_live_meters present.now) + length (losses_of present.now)) }
        ensures same_room { HasRoomOf a.old a.new }
        ensures rows { self.new.rows ≡ self.old.rows }
    {
        let meters = present.meters();
        self.stations.refill(present);
        self.room.left.refill(meters.touches());
        let over = Grouping {
            graph: present.graph(),
            meters,
            stations: &self.stations,
        };
        self.count = write_losses(
            &over,
            a,
            &mut self.room,
            &mut self.rounds,
            &mut self.entries,
            steps,
        );
    }

    /// The list that was found last.
    pub fn list(&self) -> &[Loss]
        ensures list { result.now ≡ self.now.found }
    {
        &self.entries[..self.count]
    }

    /// Finds the loss list and lends it.
    pub fn losses<L: Ledger>(
        &mut self,
        case: &Case,
        network: &Network,
        a: &mut Assignment,
        steps: &mut Steps<L>,
    ) -> &[Loss]
        requires rows { self.old.rows ≡ rows_of case.now }
        requires network { network.now ≡ network_of case.now }
        requires longest { AreLongest case.now a.old }
        ensures losses { result.now ≡ losses_of case.now }
        ensures longest { AreLongest case.now a.new }
        ensures ticks { steps.new ≤ steps.old + (length (case_live_meters case.now) + length (losses_of case.now)) }
        ensures turns_rise { a.old.turns ≤ a.new.turns }
        ensures turns_most { a.new.turns
            ≤ a.old.turns + (length (case_live_meters case.now) + length (losses_of case.now)) }
        ensures same_room { HasRoomOf a.old a.new }
        ensures* given_back { sem 𝓛 (WorkGivenBack self.entry (λ w. (w.rows ≡ self.old.rows) × (w.found ≡ losses_of case.now))) }
    {
        self.find_losses(&Present::of(case, network), a, steps);
        self.list()
    }
}
