// How many sources each bus and each component has.
ghost use Rattle.std.specs.Prelude.{◌≡◌, ◌<◌, ◌≤◌, ◌^◌, ℕ, IfOk, length, slice_index};
ghost use Rattle.obs_network.specs.inner.Components.{source_nodes};
ghost use Rattle.obs_network.specs.Network.{network_of};
ghost use Rattle.obs_outage.specs.inner.Feeds.{AreFeeds, HasFeedRoom, sources_at};

use crate::memory::NoMemory;
use obs_case::{Case, Node};
use obs_network::Network;
use std::alloc::Global;
use std::marker::Model;

// Counts the sources of each bus.
fn count_by_bus(nodes: &[Node], network: &Network, counts: &mut [u32])
    requires few { length nodes.now < 2 ^ 32 }
    requires nodes { length nodes.now ≡ length network.now.buses.buses }
    requires room { network.now.buses.count ≤ length counts.old }
    ensures counts { (b : ℕ) → b < length counts.old → slice_index counts.new b
        ≡ sources_at (λ u. slice_index network.now.buses.buses u) (source_nodes nodes.now) b }
{
    counts.fill(0);
    for u in 0..nodes.len() {
        if nodes[u].source {
            counts[network.buses().bus(u as u32) as usize] += 1;
        }
    }
}

// Counts the sources of each component.
fn count_by_component(nodes: &[Node], network: &Network, counts: &mut [u32])
    requires few { length nodes.now < 2 ^ 32 }
    requires nodes { length nodes.now ≡ length network.now.buses.buses }
    requires room { length network.now.components.first_buses ≤ length counts.old }
    ensures counts { (c : ℕ) → c < length counts.old → slice_index counts.new c
        ≡ sources_at (λ u. slice_index network.now.components.of_buses (slice_index network.now.buses.buses u))
        (source_nodes nodes.now) c }
{
    counts.fill(0);
    for u in 0..nodes.len() {
        if nodes[u].source {
            let bus = network.buses().bus(u as u32);
            counts[network.component(bus) as usize] += 1;
        }
    }
}

/// How many sources each bus and each component of a case has. There is room for one of each for each node.
pub(crate) struct Feeds {
    of_buses: Vec<u32>,
    of_components: Vec<u32>,
}

impl Model for Feeds {
    ghost use Rattle.obs_outage.specs.inner.Feeds.{Feeds};

    ghost Value = { Feeds };

    ghost view = { λ f. record { of_buses = f.of_buses.items; of_components = f.of_components.items } };
}

// Written out: so a caller's proof sees one call, and not the drop of each field.
impl Drop for Feeds {
    fn drop(self) {
        let Feeds {
            of_buses: _,
            of_components: _,
        } = self;
    }
}

impl Feeds {
    /// Room for the numbers of sources of a case.
    pub(crate) fn make(alloc: Global, case: &Case) -> Result<Feeds, NoMemory>
        ensures room { IfOk result (λ f. HasFeedRoom (length case.now.nodes) f) }
    {
        let room = case.nodes().len();
        Ok(Feeds {
            of_buses: vec![in alloc; 0; room]?,
            of_components: vec![in alloc; 0; room]?,
        })
    }

    /// Counts the sources of a case. Takes no memory.
    pub(crate) fn count(&mut self, case: &Case, network: &Network)
        requires network { network.now ≡ network_of case.now }
        requires room { HasFeedRoom (length case.now.nodes) self.old }
        ensures counted { AreFeeds case.now self.new }
    {
        let nodes = case.nodes();
        count_by_bus(nodes, network, &mut self.of_buses);
        count_by_component(nodes, network, &mut self.of_components);
    }

    /// How many sources each bus has.
    pub(crate) fn of_buses(&self) -> &[u32]
        ensures counts { result.now ≡ self.now.of_buses }
    {
        &self.of_buses
    }

    /// How many sources a component has.
    pub(crate) fn of_component(&self, c: u32) -> u32
        requires component { c < length self.now.of_components }
        ensures count { result ≡ slice_index self.now.of_components c }
    {
        self.of_components[c as usize]
    }
}
