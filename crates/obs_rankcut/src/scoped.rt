// The bound of marked meters over a scope.
ghost use Rattle.std.specs.Prelude.{◌≡◌, ◌+◌, length};
ghost use Rattle.obs_meter.specs.inner.Assignments.{bound_at};
ghost use Rattle.obs_meter.specs.inner.Sizes.{HasRoomFor};
ghost use Rattle.obs_meter.specs.inner.Touches.{AreInRange};
ghost use Rattle.obs_rankcut.specs.Bounds.{in_scope, listed, listed_rank, unlisted};
ghost use Rattle.obs_rankcut.specs.inner.Flags.{marked};

use crate::bounds::Bound;
use crate::work::{CutWork, measure};
use obs_graph::Graph;
use obs_meter::Meters;

/// The bound of the marked live meters over the live meters of the scope. `needed` is handed on.
pub fn bound<'a>(
    g: &Graph,
    ms: &Meters,
    marks: &[bool],
    scope: &[bool],
    needed: u32,
    work: &'a mut CutWork,
) -> Bound<'a>
    requires in_range { AreInRange g.now ms.now.touches }
    requires marks { length marks.now ≡ length ms.now.touches }
    requires scope { length scope.now ≡ length ms.now.touches }
    requires room { HasRoomFor work.old.sizes g.now ms.now.touches }
    ensures inside { result.inside.now ≡ listed g.now.ends ms.now.touches (marked marks.now) (marked scope.now) }
    ensures rank { result.rank ≡
        listed_rank g.now.vertices g.now.ends ms.now.touches (marked marks.now) (marked scope.now) }
    ensures outside { result.outside ≡
        length (unlisted g.now.ends ms.now.touches (marked marks.now) (marked scope.now)) }
    ensures needed { result.needed ≡ needed }
    ensures bound { result.rank + result.outside ≡ bound_at g.now.vertices g.now.ends ms.now.touches
        (marked marks.now) (in_scope g.now.ends ms.now.touches (marked scope.now)) }
{
    let measured = measure(g, ms, marks, scope, work);
    Bound {
        inside: work.inside(),
        rank: measured.rank,
        outside: measured.outside,
        needed,
    }
}
