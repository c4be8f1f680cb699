// The components of a network.
ghost use Rattle.std.specs.Prelude.{◌≡◌, ◌+◌, ◌<◌, ◌≤◌, ◌^◌, [], ℕ, All, IfOk, length, slice_index, slice_index_or, take, false};
ghost use Rattle.obs_case.specs.Tables.{most_rows};
ghost use Rattle.obs_graph.specs.Joined.{first_joined};
ghost use Rattle.obs_graph.specs.Positions.{present};
ghost use Rattle.obs_network.specs.Components.{absolute_of, component_count, components_of, energised_of, first_buses_of, need_of, needed_of, sizes_of, vertex_component};
ghost use Rattle.obs_network.specs.Angles.{reference_of};

use crate::marks::{Flag, add_needs, count_sizes, mark_components, need_by, number};
use crate::memory::NoMemory;
use obs_case::Node;
use obs_graph::Ends;
use obs_switch::Buses;
use std::alloc::Global;
use std::marker::Model;

/// The component of each bus, and of each component its first bus, its size, whether it is energised
/// and whether it is absolute.
pub(crate) struct Components {
    // how many buses and components there are
    buses: usize,
    count: usize,
    // the component of each bus
    numbers: Vec<u32>,
    // the first bus of each component
    first_buses: Vec<u32>,
    // how many buses the component has
    sizes: Vec<u32>,
    // whether it is energised
    energised: Vec<bool>,
    // whether it is absolute
    absolute: Vec<bool>,
}

impl Model for Components {
    ghost use Rattle.std.specs.Prelude.{length, take};
    ghost use Rattle.obs_network.specs.Network.{Components};
    ghost use Rattle.obs_network.specs.inner.Kept.{AreGrouped};

    ghost Value = { Components };

    ghost view = { λ c. record {
      of_buses = take c.buses c.numbers.items;
      first_buses = take c.count c.first_buses.items;
      sizes = take c.count c.sizes.items;
      energised = take c.count c.energised.items;
      absolute = take c.count c.absolute.items;
      most_buses = length c.numbers.items;
    } };

    ghost invariant = { λ c.
        AreGrouped c.buses c.count c.numbers.items c.first_buses.items c.sizes.items c.energised.items
        c.absolute.items };
}

// Written out: so a caller's proof sees one call, and not the drop of each field.
impl Drop for Components {
    fn drop(self) {
        let Components {
            buses: _,
            count: _,
            numbers: _,
            first_buses: _,
            sizes: _,
            energised: _,
            absolute: _,
        } = self;
    }
}

// Finds the components of some buses, of each of which the first bus of its component is given.
fn group(
    firsts: &[u32],
    live: &[Option<Ends>],
    numbers: &mut [u32],
    first_buses: &mut [u32],
    sizes: &mut [u32],
) -> usize
    requires small { length firsts.now < 2 ^ 32 }
    requires numbers { length firsts.now ≤ length numbers.old }
    requires first_buses { length firsts.now ≤ length first_buses.old }
    requires sizes { length firsts.now ≤ length sizes.old }
    requires firsts { (b : ℕ) → b < length firsts.now → slice_index firsts.now b ≡ first_joined (present live.now) b }
    ensures numbers { take (length firsts.now) numbers.new ≡ components_of (length firsts.now) (present live.now) }
    ensures count { result ≡ component_count (length firsts.now) (present live.now) }
    ensures first_buses { take result first_buses.new ≡ first_buses_of (length firsts.now) (present live.now) }
    ensures sizes { take result sizes.new ≡ sizes_of result (take (length firsts.now) numbers.new) }
    ensures few { result ≤ length firsts.now }
    ensures below { All (λ c. c < result) (take (length firsts.now) numbers.new) }
    ensures firsts { All (λ b. b < length firsts.now) (take result first_buses.new) }
{
    let numbers = &mut numbers[..firsts.len()];
    let count = number(firsts, live, numbers, first_buses);
    count_sizes(numbers, &mut sizes[..count]);
    count
}

// Marks the energised ones and the absolute ones of so many components.
fn mark(
    nodes: &[Node],
    buses: &Buses,
    numbers: &[u32],
    count: usize,
    energised: &mut [bool],
    absolute: &mut [bool],
)
    requires few { length nodes.now < 2 ^ 32 }
    requires nodes { length nodes.now ≡ length buses.now.buses }
    requires numbers { buses.now.count ≤ length numbers.now }
    requires below { All (λ c. c < count) (take buses.now.count numbers.now) }
    requires energised { count ≤ length energised.old }
    requires absolute { count ≤ length absolute.old }
    ensures energised { take count energised.new
        ≡ energised_of count (take buses.now.count numbers.now) buses.now.buses nodes.now }
    ensures absolute { take count absolute.new
        ≡ absolute_of count (take buses.now.count numbers.now) buses.now.buses nodes.now }
{
    let numbers = &numbers[..buses.count() as usize];
    mark_components(Flag::Source, nodes, buses, numbers, &mut energised[..count]);
    mark_components(
        Flag::Absolute,
        nodes,
        buses,
        numbers,
        &mut absolute[..count],
    );
}

impl Components {
    /// Room for the components of so many buses, without a bus.
    pub(crate) fn make(alloc: Global, most_buses: u32) -> Result<Components, NoMemory>
        ensures empty { IfOk result (λ c. c ≡ record {
          of_buses = [];
          first_buses = [];
          sizes = [];
          energised = [];
          absolute = [];
          most_buses = most_buses;
        }) }
    {
        let room = most_buses as usize;
        let Ok(numbers) = vec![in alloc; 0; room] else {
            return Err(NoMemory);
        };
        let Ok(first_buses) = vec![in alloc; 0; room] else {
            return Err(NoMemory);
        };
        let Ok(sizes) = vec![in alloc; 0; room] else {
            return Err(NoMemory);
        };
        let Ok(energised) = vec![in alloc; false; room] else {
            return Err(NoMemory);
        };
        let Ok(absolute) = vec![in alloc; false; room] else {
            return Err(NoMemory);
        };
        Ok(Components {
            buses: 0,
            count: 0,
            numbers,
            first_buses,
            sizes,
            energised,
            absolute,
        })
    }

    /// Makes the components those of these buses. Of each bus the first that the live branches join
    /// with it is given.
    pub(crate) fn refill(
        &mut self,
        firsts: &[u32],
        live: &[Option<Ends>],
        nodes: &[Node],
        buses: &Buses,
    )
        requires nodes { length nodes.now < 2 ^ 32 }
        requires room { length firsts.now ≤ self.old.most_buses }
        requires buses { buses.now.count ≡ length firsts.now }
        requires nodes_are { length nodes.now ≡ length buses.now.buses }
        requires firsts { (b : ℕ) → b < length firsts.now →
            slice_index firsts.now b ≡ first_joined (present live.now) b }
        ensures of_buses { self.new.of_buses ≡ components_of (length firsts.now) (present live.now) }
        ensures first_buses { self.new.first_buses ≡ first_buses_of (length firsts.now) (present live.now) }
        ensures sizes { self.new.sizes
            ≡ sizes_of (component_count (length firsts.now) (present live.now)) self.new.of_buses }
        ensures energised { self.new.energised
            ≡ energised_of (component_count (length firsts.now) (present live.now))
            self.new.of_buses buses.now.buses nodes.now }
        ensures absolute { self.new.absolute
            ≡ absolute_of (component_count (length firsts.now) (present live.now))
            self.new.of_buses buses.now.buses nodes.now }
        ensures room { self.new.most_buses ≡ self.old.most_buses }
    {
        let count = group(
            firsts,
            live,
            &mut self.numbers,
            &mut self.first_buses,
            &mut self.sizes,
        );
        mark(
            nodes,
            buses,
            &self.numbers,
            count,
            &mut self.energised,
            &mut self.absolute,
        );
        self.count = count;
        self.buses = firsts.len();
    }

    pub(crate) fn count(&self) -> u32
        ensures count { result ≡ length self.now.first_buses }
    {
        self.count as u32
    }

    pub(crate) fn component(&self, bus: u32) -> u32
        requires bus { bus < length self.now.of_buses }
        ensures component { result ≡ slice_index self.now.of_buses bus }
        ensures below { result < length self.now.first_buses }
    {
        self.numbers[bus as usize]
    }

    pub(crate) fn first_bus(&self, c: u32) -> u32
        requires component { c < length self.now.first_buses }
        ensures bus { result ≡ slice_index self.now.first_buses c }
        ensures below { result < length self.now.of_buses }
    {
        self.first_buses[c as usize]
    }

    pub(crate) fn size(&self, c: u32) -> u32
        requires component { c < length self.now.first_buses }
        ensures size { result ≡ slice_index self.now.sizes c }
        ensures some { 0 < result }
    {
        self.sizes[c as usize]
    }

    pub(crate) fn energised(&self, c: u32) -> bool
        requires component { c < length self.now.first_buses }
        ensures energised { result ≡ slice_index_or self.now.energised c false }
    {
        self.energised[c as usize]
    }

    pub(crate) fn absolute(&self, c: u32) -> bool
        requires component { c < length self.now.first_buses }
        ensures absolute { result ≡ slice_index_or self.now.absolute c false }
    {
        self.absolute[c as usize]
    }

    /// How many pairs a component needs.
    pub(crate) fn need(&self, c: u32) -> u32
        requires component { c < length self.now.first_buses }
        ensures need { result ≡ need_of self.now.sizes self.now.absolute c }
    {
        need_by(self.size(c), self.absolute(c))
    }

    /// The component of a vertex: a bus, or a reference vertex, which stands behind all buses at the
    /// number of its component.
    pub(crate) fn of_vertex(&self, v: u32) -> u32
        requires vertex { v < length self.now.of_buses + length self.now.first_buses }
        ensures component { result ≡ vertex_component self.now.of_buses v }
        ensures below { result < length self.now.first_buses }
    {
        let buses = self.buses as u32;
        if v < buses {
            self.component(v)
        } else {
            v - buses
        }
    }

    /// The reference vertex of a component.
    pub(crate) fn reference(&self, c: u32) -> u32
        requires few { self.now.most_buses ≤ most_rows }
        requires component { c < length self.now.first_buses }
        ensures vertex { result ≡ reference_of self.now.of_buses c }
    {
        self.buses as u32 + c
    }

    /// The component of each bus.
    pub(crate) fn numbers(&self) -> &[u32]
        ensures numbers { result.now ≡ self.now.of_buses }
        ensures below { All (λ c. c < length self.now.energised) result.now }
    {
        &self.numbers[..self.buses]
    }

    /// Which components are energised.
    pub(crate) fn marks(&self) -> &[bool]
        ensures marks { result.now ≡ self.now.energised }
    {
        &self.energised[..self.count]
    }

    /// What the energised components need together.
    pub(crate) fn needed(&self) -> u32
        requires few { self.now.most_buses ≤ most_rows }
        ensures needed { result ≡ needed_of self.now.sizes self.now.energised self.now.absolute
            (length self.now.first_buses) }
    {
        add_needs(
            &self.sizes[..self.count],
            &self.energised[..self.count],
            &self.absolute[..self.count],
        )
    }
}
