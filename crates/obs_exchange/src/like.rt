// The last meter that touched the same: a hint, on which nothing rests.

use crate::memory::NoMemory;
use obs_meter::Touch;
use std::alloc::Global;

/// By branch and by vertex the last meter that was noted as one that touches the branch, or branches at the vertex.
#[derive(Drop)]
pub(crate) struct Like {
    on: Vec<u32>,
    at: Vec<u32>,
}

/// Notes a meter at a place.
fn note(at: &mut [u32], place: u32, m: u32) {
    if let Some(noted) = at.get_mut(place as usize) {
        *noted = m;
    }
}

/// The meter that is noted at a place.
fn noted(at: &[u32], place: u32) -> Option<u32> {
    match at.get(place as usize) {
        Some(m) => Some(*m),
        None => None,
    }
}

impl Like {
    /// Room for so many branches and vertices.
    pub(crate) fn make(
        alloc: Global,
        most_branches: u32,
        most_vertices: u32,
    ) -> Result<Like, NoMemory> {
        Ok(Like {
            on: vec![in alloc; 0; most_branches as usize]?,
            at: vec![in alloc; 0; most_vertices as usize]?,
        })
    }

    /// Notes a meter that touches this.
    pub(crate) fn put(&mut self, touch: Touch, m: u32) {
        match touch {
            Touch::Nothing => {}
            Touch::Edge(e) => note(&mut self.on, e, m),
            Touch::Star(v) => note(&mut self.at, v, m),
            Touch::Front { at: v, count: _ } => note(&mut self.at, v, m),
        }
    }

    /// The last meter that was noted so and may touch this.
    pub(crate) fn find(&self, touch: Touch) -> Option<u32> {
        match touch {
            Touch::Nothing => None,
            Touch::Edge(e) => noted(&self.on, e),
            Touch::Star(v) => noted(&self.at, v),
            Touch::Front { at: v, count: _ } => noted(&self.at, v),
        }
    }
}
