// What bounds are measured in.
ghost use Rattle.std.specs.Prelude.{◌≡◌, ◌+◌, [], length, IfOk};
ghost use Rattle.obs_meter.specs.inner.Assignments.{bound_at};
ghost use Rattle.obs_meter.specs.inner.Sizes.{HasRoomFor};
ghost use Rattle.obs_meter.specs.inner.Touches.{AreInRange};
ghost use Rattle.obs_rankcut.specs.Bounds.{in_scope, listed, listed_rank, unlisted};
ghost use Rattle.obs_rankcut.specs.inner.Flags.{marked};

use crate::listing::{Choice, count_in};
use crate::memory::NoMemory;
use obs_graph::{Graph, GraphWork};
use obs_meter::Meters;
use std::alloc::Global;
use std::marker::Model;

/// Room for measuring bounds, and the list that was measured last.
pub struct CutWork {
    // how many meters are listed
    count: usize,
    // the listed meters, at the front
    list: Vec<u32>,
    // whether a listed meter touches the branch
    flags: Vec<bool>,
    // how many of the first branches at the vertex are marked so
    fronts: Vec<usize>,
    // what the rank is found in
    ranks: GraphWork,
}

impl Model for CutWork {
    ghost use Rattle.std.specs.Prelude.{◌≡◌, ◌≤◌, length, take};
    ghost use Rattle.obs_rankcut.specs.inner.Bounds.{CutWork};

    ghost Value = { CutWork };

    ghost view = { λ w. record {
      inside = take w.count w.list.items;
      sizes = record { meters = length w.list.items; branches = length w.flags.items; vertices = length w.fronts.items };
    } };

    ghost invariant = { λ w. record {
      count : w.count ≤ length w.list.items;
      branches : w.ranks.most_branches ≡ length w.flags.items;
      vertices : w.ranks.most_vertices ≡ length w.fronts.items;
    } };
}

// Written out: so a caller's proof sees one call, and not the drop of each field.
impl Drop for CutWork {
    fn drop(self) {
        let CutWork {
            count: _,
            list: _,
            flags: _,
            fronts: _,
            ranks: _,
        } = self;
    }
}

impl CutWork {
    /// Room for so many meters, branches and vertices.
    pub fn make(
        alloc: Global,
        most_meters: u32,
        most_branches: u32,
        most_vertices: u32,
    ) -> Result<CutWork, NoMemory>
        ensures empty { IfOk result (λ w. w ≡ record {
          inside = [];
          sizes = record { meters = most_meters; branches = most_branches; vertices = most_vertices };
        }) }
    {
        Ok(CutWork {
            count: 0,
            list: vec![in alloc; 0; most_meters as usize]?,
            flags: vec![in alloc; false; most_branches as usize]?,
            fronts: vec![in alloc; 0; most_vertices as usize]?,
            ranks: GraphWork::make(alloc, most_vertices, most_branches)?,
        })
    }

    /// The listed meters of the last bound, rising.
    pub fn inside(&self) -> &[u32]
        ensures inside { result.now ≡ self.now.inside }
    {
        &self.list[..self.count]
    }
}

/// The two numbers of a bound.
#[derive(Clone, Copy, Debug, PartialEq, Eq)]
pub struct Measured {
    pub rank: u32,
    pub outside: u32,
}

/// Measures the bound of the marked live meters over the live meters of the scope. `CutWork::inside` then has the list.
pub fn measure(
    g: &Graph,
    ms: &Meters,
    marks: &[bool],
    scope: &[bool],
    work: &mut CutWork,
) -> Measured
    requires in_range { AreInRange g.now ms.now.touches }
    requires marks { length marks.now ≡ length ms.now.touches }
    requires scope { length scope.now ≡ length ms.now.touches }
    requires room { HasRoomFor work.old.sizes g.now ms.now.touches }
    // the list, and the two numbers of its bound
    ensures inside { work.new.inside ≡ listed g.now.ends ms.now.touches (marked marks.now) (marked scope.now) }
    ensures rank { result.rank ≡
        listed_rank g.now.vertices g.now.ends ms.now.touches (marked marks.now) (marked scope.now) }
    ensures outside { result.outside ≡
        length (unlisted g.now.ends ms.now.touches (marked marks.now) (marked scope.now)) }
    ensures bound { result.rank + result.outside ≡ bound_at g.now.vertices g.now.ends ms.now.touches
        (marked marks.now) (in_scope g.now.ends ms.now.touches (marked scope.now)) }
    // the room stays
    ensures same_sizes { work.new.sizes ≡ work.old.sizes }
{
    let counted = count_in(
        g,
        ms,
        &Choice { marks, scope },
        &mut work.list,
        &mut work.flags,
        &mut work.fronts,
        &mut work.ranks,
    );
    work.count = counted.count;
    Measured {
        rank: counted.rank,
        outside: counted.outside,
    }
}
