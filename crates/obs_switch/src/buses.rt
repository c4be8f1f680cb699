// Buses.
ghost use Rattle.std.specs.Prelude.{◌≡◌, ◌<◌, ◌≤◌, [], length, slice_index, IfOk};
ghost use Rattle.obs_switch.specs.Buses.{buses_of, bus_count, members_of};
ghost use Rattle.obs_switch.specs.inner.Buses.{LinksBelow};

use crate::group::group_of;
use crate::link::Link;
use crate::rebuild::rebuild;
use std::alloc::{AllocError, Global};
use std::marker::Model;

/// There is no memory.
#[derive(Clone, Copy, Debug, PartialEq, Eq)]
pub struct NoMemory;

impl From<AllocError> for NoMemory {
    ghost from_gives = { λ _ e. e ≡ e };

    fn from(_: AllocError) -> Self {
        NoMemory
    }
}

/// The bus of each node.
pub struct Buses {
    // how many nodes and buses there are
    nodes: usize,
    count: u32,
    // the first node of the bus of each node
    firsts: Vec<u32>,
    // the number of the bus of each node
    numbers: Vec<u32>,
    // the nodes of each bus, one bus after another
    members: Vec<u32>,
    // where each bus begins there
    starts: Vec<usize>,
}

impl Model for Buses {
    ghost use Rattle.std.specs.Prelude.{take, vec_len};
    ghost use Rattle.obs_switch.specs.Held.{Buses};
    ghost use Rattle.obs_switch.specs.inner.Held.{AreHeld};

    ghost Value = { Buses };

    ghost view = { λ b. record {
      buses = take b.nodes b.numbers.items;
      count = b.count;
      most_nodes = vec_len b.numbers;
    } };

    ghost invariant = { λ b. AreHeld b.nodes b.count b.firsts.items b.numbers.items b.members.items b.starts.items };
}

// Written out: so a caller's proof sees one call, and not the drop of each field.
impl Drop for Buses {
    fn drop(self) {
        let Buses {
            nodes: _,
            count: _,
            firsts: _,
            numbers: _,
            members: _,
            starts: _,
        } = self;
    }
}

impl Buses {
    /// Room for the buses of so many nodes, without a node. Switches need no room.
    pub fn make(alloc: Global, most_nodes: u32, _most_switches: u32) -> Result<Buses, NoMemory>
        ensures empty { IfOk result (λ b. b ≡ record { buses = []; count = 0; most_nodes = most_nodes }) }
    {
        let room = most_nodes as usize;
        Ok(Buses {
            nodes: 0,
            count: 0,
            firsts: vec![in alloc; 0; room]?,
            numbers: vec![in alloc; 0; room]?,
            members: vec![in alloc; 0; room]?,
            starts: vec![in alloc; 0; room + 1]?,
        })
    }

    /// Makes the buses those of so many nodes under these closed switches. Nothing of the former
    /// buses is left.
    pub fn relabel(&mut self, nodes: u32, closed: &[Link])
        requires room { nodes ≤ self.old.most_nodes }
        requires ends { LinksBelow nodes closed.now }
        ensures buses { self.new.buses ≡ buses_of nodes closed.now }
        ensures count { self.new.count ≡ bus_count nodes closed.now }
        ensures room { self.new.most_nodes ≡ self.old.most_nodes }
    {
        let nodes = nodes as usize;
        self.count = rebuild(
            closed,
            nodes,
            &mut self.firsts,
            &mut self.numbers,
            &mut self.members,
            &mut self.starts,
        );
        self.nodes = nodes;
    }

    /// The number of a node's bus.
    pub fn bus(&self, node: u32) -> u32
        requires node { node < length self.now.buses }
        ensures bus { result ≡ slice_index self.now.buses node }
        ensures below { result < self.now.count }
    {
        self.numbers[node as usize]
    }

    /// How many buses there are.
    pub fn count(&self) -> u32
        ensures count { result ≡ self.now.count }
    {
        self.count
    }

    /// The nodes of a bus, rising. The first of them names the bus.
    pub fn members(&self, bus: u32) -> &[u32]
        requires bus { bus < self.now.count }
        ensures members { result.now ≡ members_of self.now.buses bus }
    {
        group_of(
            &self.numbers[..self.nodes],
            &self.members,
            &self.starts,
            bus,
        )
    }
}
