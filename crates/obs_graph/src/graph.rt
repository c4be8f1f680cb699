// A graph made whole from the list of its branches.
ghost use Rattle.std.specs.Prelude.{◌≡◌, ◌<◌, ◌≤◌, ◌≢◌, [], length, IfOk, IfSome, slice_index_or, slice_set};
ghost use Rattle.obs_graph.specs.Positions.{AreBranches, branches_at};
ghost use Rattle.obs_graph.specs.Graph.{itself_of};

use crate::Ends;
use crate::memory::NoMemory;
use crate::parts::{number, part, store};
use crate::setting::set_branch;
use std::alloc::Global;
use std::marker::Model;

/// Vertices, and branches at positions, some of which are absent.
pub struct Graph {
    // how many vertices and positions there are
    vertices: u32,
    positions: usize,
    // the ends of the branch at each position
    ends: Vec<Option<Ends>>,
    // each position at its own place
    itself: Vec<u32>,
    // where the part of each vertex begins in `at`
    starts: Vec<usize>,
    // the positions of the branches at each vertex, one part after another
    at: Vec<u32>,
}

impl Model for Graph {
    ghost use Rattle.std.specs.Prelude.{◌-◌, length, take};
    ghost use Rattle.obs_graph.specs.Graph.{Graph};
    ghost use Rattle.obs_graph.specs.inner.Graph.{IsStored};

    ghost Value = { Graph };

    ghost view = { λ g. record {
      vertices = g.vertices;
      ends = take g.positions g.ends.items;
      most_vertices = length g.starts.items - 1;
      most_branches = length g.ends.items;
    } };

    ghost invariant = { λ g.
        IsStored g.vertices g.positions g.ends.items g.itself.items g.starts.items g.at.items };
}

// Written out: so a caller's proof sees one call, and not the drop of each field.
impl Drop for Graph {
    fn drop(self) {
        let Graph {
            vertices: _,
            positions: _,
            ends: _,
            itself: _,
            starts: _,
            at: _,
        } = self;
    }
}

impl Graph {
    /// A graph with no vertex, with room for so many.
    pub fn make(alloc: Global, most_vertices: u32, most_branches: u32) -> Result<Graph, NoMemory>
        ensures empty { IfOk result (λ g. g ≡ record {
          vertices = 0;
          ends = [];
          most_vertices = most_vertices;
          most_branches = most_branches;
        }) }
    {
        let ends = vec![in alloc; None; most_branches as usize]?;
        let mut itself = vec![in alloc; 0; most_branches as usize]?;
        number(&mut itself);
        let starts = vec![in alloc; 0; most_vertices as usize + 1]?;
        let at = vec![in alloc; 0; 2 * most_branches as usize]?;
        Ok(Graph {
            vertices: 0,
            positions: 0,
            ends,
            itself,
            starts,
            at,
        })
    }

    /// Makes the graph exactly this list of branches.
    pub fn refill(&mut self, vertices: u32, ends: &[Option<Ends>])
        requires vertices { vertices ≤ self.old.most_vertices }
        requires few { length ends.now ≤ self.old.most_branches }
        requires branches { AreBranches vertices ends.now }
        ensures whole { self.new ≡ record self.old { vertices = vertices; ends = ends.now } }
    {
        store(ends, &mut self.ends, &mut self.starts, &mut self.at);
        self.vertices = vertices;
        self.positions = ends.len();
    }

    /// Gives one position these ends, or none. The other positions stay as they are.
    pub fn set(&mut self, e: u32, ends: Option<Ends>)
        requires position { e < length self.old.ends }
        requires ends { IfSome ends (λ x. (x.a < self.old.vertices) × (x.b < self.old.vertices) × (x.a ≢ x.b)) }
        ensures whole { self.new ≡ record self.old { ends = slice_set self.old.ends e ends } }
    {
        set_branch(
            self.positions,
            &mut self.ends,
            &mut self.starts,
            &mut self.at,
            e,
            ends,
        );
    }

    /// Has so many vertices. No branch has an end at one that comes.
    pub fn widen(&mut self, vertices: u32)
        requires more { self.old.vertices ≤ vertices }
        requires room { vertices ≤ self.old.most_vertices }
        ensures whole { self.new ≡ record self.old { vertices = vertices } }
    {
        self.vertices = vertices;
    }

    /// The number of vertices. Each present branch has two different ones as its ends.
    pub fn vertices(&self) -> u32
        ensures value { result ≡ self.now.vertices }
        ensures branches { AreBranches self.now.vertices self.now.ends }
    {
        self.vertices
    }

    pub fn positions(&self) -> u32
        ensures count { result ≡ length self.now.ends }
    {
        self.positions as u32
    }

    /// The ends of the branch at the position, or None where it is absent.
    pub fn ends(&self, e: u32) -> Option<Ends>
        requires e { e < length self.now.ends }
        ensures ends { result ≡ slice_index_or self.now.ends e result }
        ensures in_range { IfSome result (λ x. (x.a < self.now.vertices) × (x.b < self.now.vertices) × (x.a ≢ x.b)) }
    {
        self.ends[e as usize]
    }

    /// The positions of the present branches with an end at v, rising.
    pub fn branches_at(&self, v: u32) -> &[u32]
        requires v { v < self.now.vertices }
        ensures branches { result.now ≡ branches_at self.now.ends v }
    {
        part(&self.starts, &self.at, v as usize)
    }

    /// The position alone, or nothing where the branch is absent.
    pub fn itself(&self, e: u32) -> &[u32]
        requires e { e < length self.now.ends }
        ensures position { result.now ≡ itself_of (slice_index_or self.now.ends e None) e }
    {
        let e = e as usize;
        match self.ends[e] {
            Some(_) => &self.itself[e..e + 1],
            None => &[],
        }
    }
}
