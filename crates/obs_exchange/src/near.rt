// Sources near a branch: a hint, on which nothing rests.
ghost use Rattle.std.specs.Prelude.{◌<◌, length};
ghost use Rattle.obs_meter.specs.inner.Touches.{AreInRange};

use crate::memory::NoMemory;
use obs_graph::Graph;
use obs_meter::Meters;
use std::alloc::Global;

/// How many vertices are looked at around a branch.
const MOST_VERTICES: usize = 1500;

/// How many meters are named.
const MOST_NEAR: usize = 40;

/// By vertex the last meter that was noted there, and what a walk around a branch writes.
#[derive(Drop)]
pub(crate) struct Near {
    at: Vec<Option<u32>>,
    // the last walk that met the vertex, and the number of the last walk
    met: Vec<u64>,
    walk: u64,
    // the vertices that it met, and the meters there
    queue: Vec<u32>,
    found: Vec<u32>,
    // the one to name first, and alone
    first: Option<u32>,
}

impl Near {
    /// Room for so many vertices. No meter is noted.
    pub(crate) fn make(alloc: Global, most_vertices: u32) -> Result<Near, NoMemory> {
        let vertices = most_vertices as usize;
        Ok(Near {
            at: vec![in alloc; None; vertices]?,
            met: vec![in alloc; 0; vertices]?,
            walk: 0,
            queue: vec![in alloc; 0; vertices]?,
            found: vec![in alloc; 0; MOST_NEAR]?,
            first: None,
        })
    }

    fn put_at(&mut self, v: u32, m: u32) {
        if let Some(place) = self.at.get_mut(v as usize) {
            *place = Some(m);
        }
    }

    /// Notes a meter where it touches branches.
    pub(crate) fn put(&mut self, g: &Graph, ms: &Meters, m: u32)
        requires m { m < length ms.now.touches }
        requires in_range { AreInRange g.now ms.now.touches }
    {
        if let Some(h) = ms.hub(g, m) {
            self.put_at(h.vertex, m);
            return;
        }
        for e in ms.touch(g, m) {
            if let Some(ends) = g.ends(*e) {
                self.put_at(ends.a, m);
                self.put_at(ends.b, m);
            }
        }
    }

    /// Meets a vertex, behind so many that were met before. Says how many there are then.
    fn meet(&mut self, v: u32, tail: usize) -> usize {
        let Some(met) = self.met.get_mut(v as usize) else {
            return tail;
        };
        if *met == self.walk {
            return tail;
        }
        *met = self.walk;
        let Some(place) = self.queue.get_mut(tail) else {
            return tail;
        };
        *place = v;
        tail.saturating_add(1)
    }

    /// Is to name this meter alone at the next look, if it is one.
    pub(crate) fn name_alone(&mut self, m: Option<u32>) {
        self.first = m;
    }

    /// Names the meter that is to be named alone, if there is one.
    fn name_first(&mut self) -> bool {
        let Some(m) = self.first else {
            return false;
        };
        self.first = None;
        let Some(place) = self.found.get_mut(0) else {
            return false;
        };
        *place = m;
        true
    }

    /// Looks for noted meters around a branch, nearer ones first. Says how many it found.
    pub(crate) fn find(&mut self, g: &Graph, e: u32) -> usize
        requires e { e < length g.now.ends }
    {
        if self.name_first() {
            return 1;
        }
        let Some(ends) = g.ends(e) else {
            return 0;
        };
        self.walk = self.walk.wrapping_add(1);
        let first = self.meet(ends.a, 0);
        let mut tail = self.meet(ends.b, first);
        let mut count = 0;
        for head in 0..MOST_VERTICES {
            if head >= tail || count >= MOST_NEAR || head >= self.queue.len() {
                return count;
            }
            let v = self.queue[head];
            count = self.name(v, count);
            tail = self.meet_around(g, v, tail);
        }
        count
    }

    /// Names the meter that is noted at a vertex, behind so many others. Says how many there are then.
    fn name(&mut self, v: u32, count: usize) -> usize {
        let Some(Some(m)) = self.at.get(v as usize) else {
            return count;
        };
        let Some(place) = self.found.get_mut(count) else {
            return count;
        };
        *place = *m;
        count.saturating_add(1)
    }

    /// Meets the vertices at the other ends of the branches at one: of so many of these, and until so many are met.
    fn meet_around(&mut self, g: &Graph, v: u32, tail: usize) -> usize {
        if v >= g.vertices() {
            return tail;
        }
        let mut tail = tail;
        let mut looked: usize = 0;
        for e in g.branches_at(v) {
            if looked >= MOST_VERTICES || tail >= MOST_VERTICES {
                return tail;
            }
            looked = looked.saturating_add(1);
            if *e < g.positions() {
                if let Some(ends) = g.ends(*e) {
                    let first = self.meet(ends.a, tail);
                    tail = self.meet(ends.b, first);
                }
            }
        }
        tail
    }

    /// The meter of this number among those that were found.
    pub(crate) fn named(&self, k: usize) -> Option<u32> {
        match self.found.get(k) {
            Some(m) => Some(*m),
            None => None,
        }
    }
}
