// Meters with what each of them touches.
ghost use Rattle.std.specs.Prelude.{◌≡◌, ◌<◌, ◌≤◌, ◌==◌, [], length, All, AllPairs, Contains, IfOk, slice_index_or, slice_set, take};
ghost use Rattle.std.specs.List.{list_any};
ghost use Rattle.obs_graph.specs.Positions.{has_end};
ghost use Rattle.obs_meter.specs.Touches.{is_live, touch_at};
ghost use Rattle.obs_meter.specs.inner.Touches.{IsInRange, hub_of, touches_branch};

use crate::memory::NoMemory;
use crate::{Hub, Touch};
use obs_graph::{Ends, Graph};
use std::alloc::Global;
use std::marker::Model;

/// What each item touches, such as the meters of a network. Meters are numbered from 0.
#[derive(Drop)]
pub struct Meters {
    // how many items there are
    count: usize,
    // what each of them touches
    touches: Vec<Touch>,
}

impl Model for Meters {
    ghost use Rattle.std.specs.Prelude.{◌≤◌, ◌<◌, ◌^◌, length, take};
    ghost use Rattle.obs_meter.specs.Held.{Meters};

    ghost Value = { Meters };

    ghost view = { λ m. record { touches = take m.count m.touches.items; most = length m.touches.items } };

    ghost invariant = { λ m. (m.count ≤ length m.touches.items) × (length m.touches.items < 2 ^ 32) };
}

// Writes the touches over the first places.
fn write_first(touches: &[Touch], places: &mut [Touch])
    requires room { length touches.now ≤ length places.old }
    ensures first { take (length touches.now) places.new ≡ touches.now }
{
    places[..touches.len()].copy_from_slice(touches);
}

// Whether a branch is present and has an end at the vertex.
fn has_end_at(ends: Option<Ends>, v: u32) -> bool
    ensures value { result ≡ has_end v ends }
{
    match ends {
        Some(x) => x.a == v || x.b == v,
        None => false,
    }
}

// Whether an entry of a rising list is among its first so many: it stands before the one behind these.
fn is_among(rising: &[u32], count: u32, e: u32) -> bool
    requires rising { AllPairs ◌<◌ rising.now }
    requires entry { Contains rising.now e }
    ensures among { result ≡ list_any (λ p. p == e) (take count rising.now) }
{
    match rising.get(count as usize) {
        Some(behind) => e < *behind,
        None => true,
    }
}

impl Meters {
    /// Room for so many items, without an item.
    pub fn make(alloc: Global, most: u32) -> Result<Meters, NoMemory>
        ensures empty { IfOk result (λ m. m ≡ record { touches = []; most = most }) }
    {
        Ok(Meters {
            count: 0,
            touches: vec![in alloc; Touch::Nothing; most as usize]?,
        })
    }

    /// Makes the items exactly these. Nothing of the former items is left.
    pub fn refill(&mut self, touches: &[Touch])
        requires room { length touches.now ≤ self.old.most }
        ensures whole { self.new ≡ record self.old { touches = touches.now } }
    {
        write_first(touches, &mut self.touches);
        self.count = touches.len();
    }

    /// Makes one item touch this. The others stay.
    pub fn set(&mut self, m: u32, touch: Touch)
        requires item { m < length self.old.touches }
        ensures set { self.new ≡ record self.old { touches = slice_set self.old.touches m touch } }
    {
        let item = m as usize;
        self.touches[item] = touch;
    }

    /// How many items there are.
    pub fn count(&self) -> u32
        ensures count { result ≡ length self.now.touches }
    {
        self.count as u32
    }

    /// What each item touches, by number.
    pub fn touches(&self) -> &[Touch]
        ensures touches { result.now ≡ self.now.touches }
    {
        &self.touches[..self.count]
    }

    /// What the item touches.
    pub fn kind(&self, m: u32) -> Touch
        requires item { m < length self.now.touches }
        ensures kind { result ≡ slice_index_or self.now.touches m Touch.Nothing }
    {
        self.touches[m as usize]
    }

    /// The branches that the item touches, rising by position: a part of the graph's own list.
    pub fn touch<'a>(&'a self, g: &'a Graph, m: u32) -> &'a [u32]
        requires item { m < length self.now.touches }
        requires in_range { IsInRange g.now (slice_index_or self.now.touches m Touch.Nothing) }
        ensures touched { result.now ≡ touch_at g.now.ends self.now.touches m }
        ensures positions { All (λ e. e < length g.now.ends) result.now }
    {
        match self.kind(m) {
            Touch::Nothing => &[],
            Touch::Edge(e) => g.itself(e),
            Touch::Star(v) => g.branches_at(v),
            Touch::Front { at, count } => &g.branches_at(at)[..count as usize],
        }
    }

    /// The vertex at which the item touches the first so many branches, and how many: at a star all of them. None of an
    /// item that touches nothing, or one branch by its position.
    pub fn hub(&self, g: &Graph, m: u32) -> Option<Hub>
        requires item { m < length self.now.touches }
        requires in_range { IsInRange g.now (slice_index_or self.now.touches m Touch.Nothing) }
        ensures hub { result ≡ hub_of g.now.ends (slice_index_or self.now.touches m Touch.Nothing) }
    {
        match self.kind(m) {
            Touch::Star(vertex) => Some(Hub {
                vertex,
                count: g.branches_at(vertex).len(),
            }),
            Touch::Front { at, count } => Some(Hub {
                vertex: at,
                count: count as usize,
            }),
            _ => None,
        }
    }

    /// Whether the item touches the branch.
    pub fn is_touched(&self, g: &Graph, m: u32, e: u32) -> bool
        requires item { m < length self.now.touches }
        requires branch { e < length g.now.ends }
        ensures touched { result ≡ touches_branch g.now.ends self.now.touches m e }
    {
        match self.kind(m) {
            Touch::Nothing => false,
            Touch::Edge(p) => p == e && g.ends(e).is_some(),
            Touch::Star(v) => has_end_at(g.ends(e), v),
            Touch::Front { at, count } => {
                has_end_at(g.ends(e), at) && is_among(g.branches_at(at), count, e)
            }
        }
    }

    /// Whether the item touches a branch. The others are idle.
    pub fn live(&self, g: &Graph, m: u32) -> bool
        requires item { m < length self.now.touches }
        requires in_range { IsInRange g.now (slice_index_or self.now.touches m Touch.Nothing) }
        ensures live { result ≡ is_live g.now.ends self.now.touches m }
    {
        !self.touch(g, m).is_empty()
    }
}
