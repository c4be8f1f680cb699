// The live meters of each component.
ghost use Rattle.std.specs.Prelude.{◌≡◌, ◌+◌, ◌<◌, ◌≤◌, ◌^◌, [], ℕ, IfOk, suc, length, slice_index, slice_set, take};
ghost use Rattle.obs_meter.specs.inner.Touches.{AreInRange, IsInRange};
ghost use Rattle.obs_switch.specs.Groups.{items_with};
ghost use Rattle.obs_switch.specs.inner.Groups.{AreGroups};
ghost use Rattle.obs_network.specs.Located.{touch_component};
ghost use Rattle.obs_network.specs.inner.Kept.{list_of, lists_of};

use crate::components::Components;
use crate::located::component_of_touch;
use crate::memory::NoMemory;
use obs_graph::Graph;
use obs_meter::{Meters, Touch};
use obs_switch::group::{group, group_of};
use obs_switch::regroup::regroup;
use std::alloc::Global;
use std::marker::Model;

/// The live meters of each component, rising, one list after another, and behind them the idle
/// meters.
pub(crate) struct LiveMeters {
    // how many meters and components there are, and there may be
    meters: usize,
    components: u32,
    most_components: u32,
    // the list of each meter: its component, or the one behind all if it is idle
    lists: Vec<u32>,
    // the meters of each list, one list after another
    members: Vec<u32>,
    // where each list begins there
    starts: Vec<usize>,
}

impl Model for LiveMeters {
    ghost use Rattle.std.specs.Prelude.{length, take};
    ghost use Rattle.obs_network.specs.inner.Kept.{AreListed, Listed};

    ghost Value = { Listed };

    ghost view = { λ l. record {
      lists = take l.meters l.lists.items;
      components = l.components;
      most_meters = length l.lists.items;
      most_components = l.most_components;
    } };

    ghost invariant = { λ l.
        AreListed l.meters l.components l.most_components l.lists.items l.members.items l.starts.items };
}

// Written out: so a caller's proof sees one call, and not the drop of each field.
impl Drop for LiveMeters {
    fn drop(self) {
        let LiveMeters {
            meters: _,
            components: _,
            most_components: _,
            lists: _,
            members: _,
            starts: _,
        } = self;
    }
}

// The list of what is touched so: that of its component, or the last where it is nothing.
fn list_of(components: &Components, graph: &Graph, touch: Touch) -> u32
    requires vertices { graph.now.vertices
        ≡ length components.now.of_buses + length components.now.first_buses }
    requires in_range { IsInRange graph.now touch }
    ensures list { result ≡ list_of (length components.now.first_buses)
        (touch_component components.now.of_buses graph.now.ends touch) }
    ensures below { result ≤ length components.now.first_buses }
{
    match component_of_touch(components, graph, touch) {
        Some(c) => c,
        None => components.count(),
    }
}

// Writes the list of each meter.
fn write_lists(components: &Components, graph: &Graph, meters: &Meters, lists: &mut [u32])
    requires vertices { graph.now.vertices
        ≡ length components.now.of_buses + length components.now.first_buses }
    requires in_range { AreInRange graph.now meters.now.touches }
    requires one_each { length lists.old ≡ length meters.now.touches }
    ensures lists { lists.new ≡ lists_of components.now graph.now meters.now }
    ensures below { (m : ℕ) → m < length lists.new → slice_index lists.new m ≤ length components.now.first_buses }
{
    for m in 0..meters.count() {
        lists[m as usize] = list_of(components, graph, meters.kind(m));
    }
}

// Writes the list of each meter, and the meters one list after another.
fn write_members(
    components: &Components,
    graph: &Graph,
    meters: &Meters,
    lists: &mut [u32],
    members: &mut [u32],
    starts: &mut [usize],
)
    requires vertices { graph.now.vertices
        ≡ length components.now.of_buses + length components.now.first_buses }
    requires in_range { AreInRange graph.now meters.now.touches }
    requires few { length lists.old < 2 ^ 32 }
    requires meters { length meters.now.touches ≤ length lists.old }
    requires members { length members.old ≡ length lists.old }
    requires components { length components.now.first_buses < length starts.old }
    ensures lists { take (length meters.now.touches) lists.new ≡ lists_of components.now graph.now meters.now }
    ensures below { (m : ℕ) → m < length meters.now.touches →
        slice_index lists.new m ≤ length components.now.first_buses }
    ensures groups { AreGroups (take (length meters.now.touches) lists.new) members.new starts.new
        (suc (length components.now.first_buses)) }
{
    let lists = &mut lists[..meters.count() as usize];
    write_lists(components, graph, meters, lists);
    group(
        lists,
        members,
        &mut starts[..components.count() as usize + 1],
    );
}

// Puts one meter into another list, where there are so many meters, and lists up to this one.
fn change_list(
    lists: &mut [u32],
    members: &mut [u32],
    starts: &mut [usize],
    meters: usize,
    last: u32,
    m: u32,
    list: u32,
)
    requires few { length lists.old < 2 ^ 32 }
    requires fits { meters ≤ length lists.old }
    requires members { length members.old ≡ length lists.old }
    requires lists { last < length starts.old }
    requires meter { m < meters }
    requires list { list ≤ last }
    requires below { (k : ℕ) → k < meters → slice_index lists.old k ≤ last }
    requires groups { AreGroups (take meters lists.old) members.old starts.old (suc last) }
    ensures lists { take meters lists.new ≡ slice_set (take meters lists.old) m list }
    ensures below { (k : ℕ) → k < meters → slice_index lists.new k ≤ last }
    ensures groups { AreGroups (take meters lists.new) members.new starts.new (suc last) }
{
    let starts = &mut starts[..last as usize + 1];
    regroup(&mut lists[..meters], members, starts, m, list);
}

impl LiveMeters {
    /// Room for so many meters and components, without any.
    pub(crate) fn make(
        alloc: Global,
        most_meters: u32,
        most_components: u32,
    ) -> Result<LiveMeters, NoMemory>
        ensures empty { IfOk result (λ l. l ≡ record {
          lists = [];
          components = 0;
          most_meters = most_meters;
          most_components = most_components;
        }) }
    {
        let Ok(lists) = vec![in alloc; 0; most_meters as usize] else {
            return Err(NoMemory);
        };
        let Ok(members) = vec![in alloc; 0; most_meters as usize] else {
            return Err(NoMemory);
        };
        let Ok(starts) = vec![in alloc; 0; most_components as usize + 1] else {
            return Err(NoMemory);
        };
        Ok(LiveMeters {
            meters: 0,
            components: 0,
            most_components,
            lists,
            members,
            starts,
        })
    }

    /// Makes the lists those of these meters, which touch branches of this graph.
    pub(crate) fn refill(&mut self, components: &Components, graph: &Graph, meters: &Meters)
        requires vertices { graph.now.vertices
            ≡ length components.now.of_buses + length components.now.first_buses }
        requires in_range { AreInRange graph.now meters.now.touches }
        requires meters { length meters.now.touches ≤ self.old.most_meters }
        requires components { length components.now.first_buses ≤ self.old.most_components }
        ensures lists { self.new.lists ≡ lists_of components.now graph.now meters.now }
        ensures components { self.new.components ≡ length components.now.first_buses }
        ensures most_meters { self.new.most_meters ≡ self.old.most_meters }
        ensures most_components { self.new.most_components ≡ self.old.most_components }
    {
        write_members(
            components,
            graph,
            meters,
            &mut self.lists,
            &mut self.members,
            &mut self.starts,
        );
        self.meters = meters.count() as usize;
        self.components = components.count();
    }

    /// Puts one meter into the list of what it touches now.
    pub(crate) fn set(&mut self, components: &Components, graph: &Graph, m: u32, touch: Touch)
        requires vertices { graph.now.vertices
            ≡ length components.now.of_buses + length components.now.first_buses }
        requires in_range { IsInRange graph.now touch }
        requires components { self.old.components ≡ length components.now.first_buses }
        requires meter { m < length self.old.lists }
        ensures lists { self.new.lists ≡ slice_set self.old.lists m
            (list_of (length components.now.first_buses)
            (touch_component components.now.of_buses graph.now.ends touch)) }
        ensures components { self.new.components ≡ self.old.components }
        ensures most_meters { self.new.most_meters ≡ self.old.most_meters }
        ensures most_components { self.new.most_components ≡ self.old.most_components }
    {
        let list = list_of(components, graph, touch);
        change_list(
            &mut self.lists,
            &mut self.members,
            &mut self.starts,
            self.meters,
            self.components,
            m,
            list,
        );
    }

    /// The meters of a list, rising.
    pub(crate) fn list(&self, c: u32) -> &[u32]
        requires component { c < self.now.components }
        ensures meters { result.now ≡ items_with self.now.lists c }
    {
        group_of(&self.lists[..self.meters], &self.members, &self.starts, c)
    }
}
