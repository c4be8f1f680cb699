// A network without one of its rows: its graph and its meters, of which the row is left out for one search.
ghost use Rattle.std.specs.Prelude.{◌≡◌, ◌⊎◌, ◌<◌, ℕ, All, IfOk, length, map, slice_index_or};
ghost use Rattle.obs_meter.specs.declared.Touch.TheVariants.{Nothing};
ghost use Rattle.obs_outage.specs.inner.AtVertices.{AreVerticesOf};
ghost use Rattle.obs_outage.specs.inner.Without.{AreTouched, IsCopy, IsWithout, left_if, left_out};

use crate::at_vertices::AtVertices;
use crate::memory::NoMemory;
use obs_graph::{Ends, Graph};
use obs_meter::{Meters, Touch};
use obs_network::Network;
use std::alloc::Global;

/// The graph of a network and its meters, and at which vertices these touch branches.
pub(crate) struct Without {
    pub(crate) graph: Graph,
    pub(crate) meters: Meters,
    pub(crate) at_vertices: AtVertices,
}

// Written out: so a caller's proof sees one call, and not the drop of each field.
impl Drop for Without {
    fn drop(self) {
        let Without {
            graph: _,
            meters: _,
            at_vertices: _,
        } = self;
    }
}

// Copies the ends of a graph's branches.
fn copy_ends(g: &Graph, ends: &mut [Option<Ends>])
    requires one_each { length ends.old ≡ length g.now.ends }
    ensures ends { ends.new ≡ g.now.ends }
{
    for e in 0..g.positions() {
        ends[e as usize] = g.ends(e);
    }
}

// What a meter touches where one branch is left out.
fn left_out(g: &Graph, ms: &Meters, m: u32, e: u32) -> Touch
    requires item { m < length ms.now.touches }
    requires branch { e < length g.now.ends }
    ensures touch { result ≡ left_out g.now.ends e (slice_index_or ms.now.touches m Nothing) }
{
    let touch = ms.kind(m);
    match touch {
        Touch::Front { at, count } if ms.is_touched(g, m, e) => Touch::Front {
            at,
            count: count - 1,
        },
        _ => touch,
    }
}

// What a meter touches, where one branch is left out or isn't.
fn left_if(g: &Graph, ms: &Meters, m: u32, out: bool, e: u32) -> Touch
    requires item { m < length ms.now.touches }
    requires branch { e < length g.now.ends }
    ensures touch { result ≡ left_if g.now.ends out e (slice_index_or ms.now.touches m Nothing) }
{
    if out {
        left_out(g, ms, m, e)
    } else {
        ms.kind(m)
    }
}

// Makes the listed meters touch what those of a network do, where one of its branches is left out or isn't.
fn touch_listed(g: &Graph, ms: &Meters, list: &[u32], out: bool, e: u32, less: &mut Meters)
    requires branch { e < length g.now.ends }
    requires low { All (λ m. m < length ms.now.touches) list.now }
    requires one_each { length less.old.touches ≡ length ms.now.touches }
    ensures touched { AreTouched (left_if g.now.ends out e) list.now ms.now.touches less.old.touches less.new.touches }
{
    for m in list {
        less.set(*m, left_if(g, ms, *m, out, e));
    }
}

// Makes meters touch what those of a network do, where one of its branches is left out or isn't. Only meters at its ends can
// touch something else then than now.
fn touch_around(network: &Network, at_vertices: &AtVertices, out: bool, e: u32, less: &mut Meters)
    requires at_vertices { AreVerticesOf network.now at_vertices.now }
    requires branch { e < length network.now.graph.ends }
    requires one_each { length less.old.touches ≡ length network.now.meters.touches }
    requires known { (m : ℕ) →
        (slice_index_or less.old.touches m Nothing ≡ slice_index_or network.now.meters.touches m Nothing)
        ⊎ (slice_index_or less.old.touches m Nothing
        ≡ left_out network.now.graph.ends e (slice_index_or network.now.meters.touches m Nothing)) }
    ensures touches { less.new.touches ≡ map (left_if network.now.graph.ends out e) network.now.meters.touches }
{
    let g = network.graph();
    let ms = network.meters();
    if let Some(ends) = g.ends(e) {
        touch_listed(g, ms, at_vertices.list(ends.a), out, e, less);
        touch_listed(g, ms, at_vertices.list(ends.b), out, e, less);
    }
}

impl Without {
    /// The graph of a network and its meters. All memory is taken here.
    pub(crate) fn make(alloc: Global, network: &Network) -> Result<Without, NoMemory>
        ensures copy { IfOk result (λ w. IsCopy network.now w) }
    {
        let g = network.graph();
        let ms = network.meters();
        let positions = g.positions();
        let mut ends = vec![in alloc; None; positions as usize]?;
        copy_ends(g, &mut ends);
        let mut graph = Graph::make(alloc, g.vertices(), positions)?;
        graph.refill(g.vertices(), &ends);
        let mut meters = Meters::make(alloc, ms.count())?;
        meters.refill(ms.touches());
        let at_vertices = AtVertices::make(alloc, g, ms)?;
        Ok(Without {
            graph,
            meters,
            at_vertices,
        })
    }

    /// Leaves a row of the network out.
    pub(crate) fn leave_out(&mut self, network: &Network, e: u32)
        requires copy { IsCopy network.now self.old }
        requires row { e < length network.now.graph.ends }
        ensures without { IsWithout network.now e self.new }
    {
        self.graph.set(e, None);
        touch_around(network, &self.at_vertices, true, e, &mut self.meters);
    }

    /// Puts the row back.
    pub(crate) fn put_back(&mut self, network: &Network, e: u32)
        requires without { IsWithout network.now e self.old }
        ensures copy { IsCopy network.now self.new }
    {
        self.graph.set(e, network.graph().ends(e));
        touch_around(network, &self.at_vertices, false, e, &mut self.meters);
    }
}
