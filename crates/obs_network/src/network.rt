// The network of a case.
ghost use Rattle.std.specs.Prelude.{◌≡◌, ◌+◌, ◌-◌, ◌<◌, All, IfOk, IfSome, IsTrue, None, length, slice_index, slice_index_or, false};
ghost use Rattle.obs_meter.specs.inner.Touches.{AreInRange};
ghost use Rattle.obs_network.specs.Components.{need_of};
ghost use Rattle.obs_network.specs.inner.Edited.{IsKnown};
ghost use Rattle.obs_network.specs.Located.{component_of_item};
ghost use Rattle.obs_network.specs.inner.Located.{component_of_branch, live_meters_of};
ghost use Rattle.obs_network.specs.Network.{live_branch_count, network_of, rows_of};

mod one_flag;

use crate::components::Components;
use crate::live::count_present;
use crate::live_meters::LiveMeters;
use crate::located::{component_of_branch, component_of_touch};
use crate::memory::NoMemory;
use crate::rebuild::{
    Known, find_components, find_live, refill_graph, refill_items, relabel_unless,
};
use crate::sides::Sides;
use obs_case::Case;
use obs_graph::search::Search;
use obs_graph::{Ends, Graph};
use obs_meter::{Meters, Touch};
use obs_switch::{Buses, Link};
use std::alloc::Global;
use std::marker::Model;

/// The network of a case: its buses, its components, the graph of the live branches of energised components and of the angle
/// branches, and what its items touch there. It keeps the numbers of rows of the case that it was made for.
pub struct Network {
    buses: Buses,
    components: Components,
    graph: Graph,
    meters: Meters,
    offered: Meters,
    // how many pairs an observable case has
    needed: u32,
    // the closed switches, while buses are made
    links: Vec<Link>,
    // the ends of each live branch
    live: Vec<Option<Ends>>,
    // the ends of each live branch of an energised component, and behind them those of the angle branches
    kept: Vec<Option<Ends>>,
    // what the meters touch, and the candidates behind them, while items are made
    touches: Vec<Touch>,
    // the pieces that live branches join
    search: Search,
    // the live meters of each component
    live_meters: LiveMeters,
    // what the rows join without one of them
    sides: Sides,
}

impl Model for Network {
    ghost use Rattle.std.specs.Prelude.{◌-◌, length};
    ghost use Rattle.obs_network.specs.Network.{Network};
    ghost use Rattle.obs_network.specs.inner.Kept.{AreParts};

    ghost Value = { Network };

    ghost view = { λ n. record {
      rows = record {
        nodes = n.components.most_buses;
        switches = length n.links.items;
        branches = length n.live.items;
        meters = n.meters.most;
        candidates = n.offered.most - n.meters.most;
      };
      buses = n.buses;
      components = n.components;
      graph = n.graph;
      meters = n.meters;
      offered = n.offered;
      needed = n.needed;
    } };

    ghost invariant = { λ n.
        AreParts n.links.items n.live.items n.kept.items n.touches.items n.search
        n.buses n.components n.graph n.meters n.offered n.live_meters n.sides };
}

// Written out: so a caller's proof sees one call, and not the drop of each field.
impl Drop for Network {
    fn drop(self) {
        let Network {
            buses: _,
            components: _,
            graph: _,
            meters: _,
            offered: _,
            needed: _,
            links: _,
            live: _,
            kept: _,
            touches: _,
            search: _,
            live_meters: _,
            sides: _,
        } = self;
    }
}

// Makes the arrays of a network as long as the tables of the case need.
fn lengthen(
    case: &Case,
    links: &mut Vec<Link>,
    live: &mut Vec<Option<Ends>>,
    kept: &mut Vec<Option<Ends>>,
    touches: &mut Vec<Touch>,
) -> Result<(), NoMemory>
    ensures links { IfOk result (λ _. length links.new.items ≡ length case.now.switches) }
    ensures live { IfOk result (λ _. length live.new.items ≡ length case.now.branches) }
    ensures kept { IfOk result (λ _. length kept.new.items
        ≡ length case.now.branches + (length case.now.meters + length case.now.candidates)) }
    ensures touches { IfOk result (λ _. length touches.new.items
        ≡ length case.now.meters + length case.now.candidates) }
{
    let branches = case.branches().len();
    let items = case.meters().len() + case.candidates().len();
    let Ok(()) = links.resize(case.switches().len(), Link { from: 0, to: 0 }) else {
        return Err(NoMemory);
    };
    let Ok(()) = live.resize(branches, None) else {
        return Err(NoMemory);
    };
    let Ok(()) = kept.resize(branches + items, None) else {
        return Err(NoMemory);
    };
    let Ok(()) = touches.resize(items, Touch::Nothing) else {
        return Err(NoMemory);
    };
    Ok(())
}

impl Network {
    // Room for the network of a case, without a bus.
    fn with_room(alloc: Global, case: &Case) -> Result<Network, NoMemory>
        ensures rows { IfOk result (λ n. n.rows ≡ rows_of case.now) }
    {
        let nodes = case.nodes().len() as u32;
        let branches = case.branches().len() as u32;
        let meters = case.meters().len() as u32;
        let offered = meters + case.candidates().len() as u32;
        let switches = case.switches().len() as u32;
        let buses = Buses::make(alloc, nodes, switches)?;
        let components = Components::make(alloc, nodes)?;
        let graph = Graph::make(alloc, 2 * nodes, branches + offered)?;
        let search = Search::make(alloc, nodes)?;
        let live_meters = LiveMeters::make(alloc, meters, nodes)?;
        let sides = Sides::make(alloc, 2 * nodes)?;
        let Ok(live_items) = Meters::make(alloc, meters) else {
            return Err(NoMemory);
        };
        let Ok(items) = Meters::make(alloc, offered) else {
            return Err(NoMemory);
        };
        let mut links = Vec::new(alloc);
        let mut live = Vec::new(alloc);
        let mut kept = Vec::new(alloc);
        let mut touches = Vec::new(alloc);
        let Ok(()) = lengthen(case, &mut links, &mut live, &mut kept, &mut touches) else {
            return Err(NoMemory);
        };
        Ok(Network {
            buses,
            components,
            graph,
            meters: live_items,
            offered: items,
            needed: 0,
            links,
            live,
            kept,
            touches,
            search,
            live_meters,
            sides,
        })
    }

    /// The network of a case.
    pub fn make(alloc: Global, case: &Case) -> Result<Network, NoMemory>
        ensures whole { IfOk result (λ n. n ≡ network_of case.now) }
    {
        let mut network = Network::with_room(alloc, case)?;
        network.refresh(case);
        Ok(network)
    }

    /// Makes the network that of the case. Answers true only where it was that already.
    pub(crate) fn remake(&mut self, case: &Case, known: Known) -> bool
        requires rows { self.old.rows ≡ rows_of case.now }
        requires known { IsKnown known self.old case.now }
        ensures whole { self.new ≡ network_of case.now }
        ensures same { IsTrue result → self.new ≡ self.old }
    {
        if relabel_unless(case, known, &mut self.links, &mut self.buses) {
            return true;
        }
        find_live(case, &self.buses, &mut self.live);
        find_components(
            case,
            &self.buses,
            &self.live,
            &mut self.graph,
            &mut self.search,
            &mut self.components,
        );
        refill_graph(
            case,
            &self.buses,
            &self.components,
            &self.live,
            &mut self.kept,
            &mut self.graph,
        );
        refill_items(
            case,
            &self.buses,
            &self.graph,
            &mut self.touches,
            &mut self.meters,
            &mut self.offered,
        );
        self.live_meters
            .refill(&self.components, &self.graph, &self.meters);
        self.needed = self.components.needed();
        false
    }

    /// The buses of the case.
    pub fn buses(&self) -> &Buses
        ensures buses { result.now ≡ self.now.buses }
        ensures components { length self.now.components.of_buses ≡ result.now.count }
    {
        &self.buses
    }

    /// The graph over all buses and, behind them, a reference vertex for each component. Its branches are the live ones of
    /// energised components, each at its position in the table of branches, and behind them, where there are angle items,
    /// the angle branch of each item.
    pub fn graph(&self) -> &Graph
        ensures graph { result.now ≡ self.now.graph }
        ensures vertices { result.now.vertices ≡ self.now.buses.count + length self.now.components.first_buses }
    {
        &self.graph
    }

    /// What each meter touches. A meter out of service touches nothing.
    pub fn meters(&self) -> &Meters
        ensures meters { result.now ≡ self.now.meters }
        ensures in_range { AreInRange self.now.graph result.now.touches }
    {
        &self.meters
    }

    /// What each meter and then each candidate touches.
    pub fn offered(&self) -> &Meters
        ensures offered { result.now ≡ self.now.offered }
        ensures in_range { AreInRange self.now.graph result.now.touches }
    {
        &self.offered
    }

    /// How many components there are.
    pub fn components(&self) -> u32
        ensures count { result ≡ length self.now.components.first_buses }
    {
        self.components.count()
    }

    /// The component of a bus.
    pub fn component(&self, bus: u32) -> u32
        requires bus { bus < self.now.buses.count }
        ensures component { result ≡ slice_index self.now.components.of_buses bus }
        ensures below { result < length self.now.components.first_buses }
    {
        self.components.component(bus)
    }

    /// The component of the branch at a position, and None where the graph has none there.
    pub fn component_of_branch(&self, e: u32) -> Option<u32>
        requires branch { e < length self.now.graph.ends }
        ensures component { result ≡ component_of_branch self.now e }
        ensures below { IfSome result (λ c. c < length self.now.components.first_buses) }
    {
        component_of_branch(&self.components, &self.graph, e)
    }

    /// The component in which all lies that an item touches, and None where it touches nothing. A meter is the item of its number.
    pub fn component_of_item(&self, m: u32) -> Option<u32>
        requires item { m < length self.now.offered.touches }
        ensures component { result ≡ component_of_item self.now m }
        ensures below { IfSome result (λ c. c < length self.now.components.first_buses) }
    {
        component_of_touch(&self.components, &self.graph, self.offered.kind(m))
    }

    /// The live meters of a component, rising. All components together take time linear in them and in the meters.
    pub fn live_meters(&self, c: u32) -> &[u32]
        requires component { c < length self.now.components.first_buses }
        ensures meters { result.now ≡ live_meters_of self.now c }
        ensures below { All (λ m. m < length self.now.meters.touches) result.now }
    {
        self.live_meters.list(c)
    }

    /// The first bus of a component, which names it.
    pub fn first_bus(&self, c: u32) -> u32
        requires component { c < length self.now.components.first_buses }
        ensures bus { result ≡ slice_index self.now.components.first_buses c }
        ensures below { result < self.now.buses.count }
    {
        self.components.first_bus(c)
    }

    /// How many buses a component has.
    pub fn size(&self, c: u32) -> u32
        requires component { c < length self.now.components.first_buses }
        ensures size { result ≡ slice_index self.now.components.sizes c }
        ensures some { 0 < result }
    {
        self.components.size(c)
    }

    /// Whether a component has a source.
    pub fn energised(&self, c: u32) -> bool
        requires component { c < length self.now.components.first_buses }
        ensures energised { result ≡ slice_index_or self.now.components.energised c false }
    {
        self.components.energised(c)
    }

    /// Whether a component is absolute: one of its nodes is marked so.
    pub fn absolute(&self, c: u32) -> bool
        requires component { c < length self.now.components.first_buses }
        ensures absolute { result ≡ slice_index_or self.now.components.absolute c false }
    {
        self.components.absolute(c)
    }

    /// How many pairs a component needs to be observable: as many as it has buses where it is absolute, else one fewer.
    pub fn need(&self, c: u32) -> u32
        requires component { c < length self.now.components.first_buses }
        ensures need { result ≡ need_of self.now.components.sizes self.now.components.absolute c }
    {
        self.components.need(c)
    }

    /// How many live rows of the branch table energised components have.
    pub fn live_branches(&self) -> u32
        ensures count { result ≡ live_branch_count self.now }
    {
        count_present(&self.graph, self.live.len())
    }

    /// How many pairs the energised components need together.
    pub fn needed(&self) -> u32
        ensures needed { result ≡ self.now.needed }
    {
        self.needed
    }
}
