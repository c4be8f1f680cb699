// The meters that touch the first so many branches at a vertex, by this vertex.
ghost use Rattle.std.specs.Prelude.{◌≡◌, ◌<◌, ◌≤◌, ℕ, IfOk, length, map, slice_index};
ghost use Rattle.obs_meter.specs.inner.Touches.{AreInRange, IsInRange};
ghost use Rattle.obs_switch.specs.Groups.{items_with};
ghost use Rattle.obs_outage.specs.inner.AtVertices.{front_vertex};

use crate::memory::NoMemory;
use obs_graph::Graph;
use obs_meter::{Meters, Touch};
use obs_switch::group::{group, group_of};
use std::alloc::Global;
use std::marker::Model;

/// By vertex the meters that touch the first so many branches there, one list after another, and behind them all others.
pub(crate) struct AtVertices {
    // how many vertices there are
    vertices: u32,
    // the vertex of each meter, or the number of vertices
    at: Vec<u32>,
    // the meters of each vertex, one list after another
    members: Vec<u32>,
    // where each list begins there
    starts: Vec<usize>,
}

impl Model for AtVertices {
    ghost use Rattle.std.specs.Prelude.{length};
    ghost use Rattle.obs_outage.specs.inner.AtVertices.{AreVertexLists, AtVertices};

    ghost Value = { AtVertices };

    ghost view = { λ h. record { at = h.at.items; vertices = h.vertices } };

    ghost invariant = { λ h. AreVertexLists h.vertices h.at.items h.members.items h.starts.items };
}

// Written out: so a caller's proof sees one call, and not the drop of each field.
impl Drop for AtVertices {
    fn drop(self) {
        let AtVertices {
            vertices: _,
            at: _,
            members: _,
            starts: _,
        } = self;
    }
}

// The vertex at which something touches the first so many branches, or the number of vertices.
fn front_vertex(g: &Graph, touch: Touch) -> u32
    requires in_range { IsInRange g.now touch }
    ensures vertex { result ≡ front_vertex g.now.vertices touch }
    ensures low { result ≤ g.now.vertices }
{
    match touch {
        Touch::Front { at, count: _ } => at,
        _ => g.vertices(),
    }
}

// Writes the vertex of each meter.
fn write_vertices(g: &Graph, ms: &Meters, at: &mut [u32])
    requires in_range { AreInRange g.now ms.now.touches }
    requires one_each { length at.old ≡ length ms.now.touches }
    ensures written { at.new ≡ map (front_vertex g.now.vertices) ms.now.touches }
    ensures low { (m : ℕ) → m < length at.new → slice_index at.new m ≤ g.now.vertices }
{
    for m in 0..ms.count() {
        at[m as usize] = front_vertex(g, ms.kind(m));
    }
}

impl AtVertices {
    /// The vertices of so many meters. All memory is taken here.
    pub(crate) fn make(alloc: Global, g: &Graph, ms: &Meters) -> Result<AtVertices, NoMemory>
        requires in_range { AreInRange g.now ms.now.touches }
        ensures at { IfOk result (λ h. h.at ≡ map (front_vertex g.now.vertices) ms.now.touches) }
        ensures vertices { IfOk result (λ h. h.vertices ≡ g.now.vertices) }
    {
        let vertices = g.vertices();
        let meters = ms.count() as usize;
        let mut at = vec![in alloc; 0; meters]?;
        let mut members = vec![in alloc; 0; meters]?;
        let mut starts = vec![in alloc; 0; vertices as usize + 1]?;
        write_vertices(g, ms, &mut at);
        group(&at, &mut members, &mut starts);
        Ok(AtVertices {
            vertices,
            at,
            members,
            starts,
        })
    }

    /// The meters of a vertex, rising.
    pub(crate) fn list(&self, v: u32) -> &[u32]
        requires vertex { v < self.now.vertices }
        ensures meters { result.now ≡ items_with self.now.at v }
    {
        group_of(&self.at, &self.members, &self.starts, v)
    }
}
