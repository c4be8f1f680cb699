// The branches that cost a pair: those of critical flows, and those that redundant meters touch and can't do without.
ghost use Rattle.std.specs.Prelude.{◌≡◌, ◌<◌, ◌≤◌, ℕ, IsSome, IsTrue, None, false, length, slice_index_or, true};
ghost use Rattle.obs_assign.specs.inner.Assignment.{has_flag};
ghost use Rattle.obs_exchange.specs.inner.Laws.{HasClosedSet};
ghost use Rattle.obs_exchange.specs.inner.Longest.{IsLongest};
ghost use Rattle.obs_outage.specs.inner.Costly.{IsCostly};
ghost use Rattle.obs_outage.specs.inner.Sparing.{AreNeeded, AreTouchedBy, HasTouched};

use obs_assign::Assignment;
use obs_graph::Graph;
use obs_meter::{Meters, Touch};

/// Whether a branch is that of a critical meter which touches no other. The marks have the meters that aren't critical.
fn is_critical_flow(g: &Graph, ms: &Meters, a: &Assignment, marks: &[bool], e: u32) -> bool
    requires longest { IsLongest g.now ms.now.touches a.now }
    requires closed { HasClosedSet a.now g.now ms.now.touches (has_flag marks.now) }
    requires marks { length marks.now ≡ length ms.now.touches }
    requires branch { e < length g.now.ends }
    ensures costly { IsTrue result → IsCostly g.now.ends ms.now.touches e }
{
    match a.meter_of(e) {
        Some(m) => match ms.kind(m) {
            Touch::Edge(_) => !marks[m as usize],
            _ => false,
        },
        None => false,
    }
}

/// Whether a branch is one of the part and isn't spared: then redundant meters touch it, and can't all do without it.
fn is_needed(part: &Graph, spared: &[bool], e: u32) -> bool
    requires branch { e < length part.now.ends }
    requires flags { e < length spared.now }
    ensures there { IsTrue result → IsSome (slice_index_or part.now.ends e None) }
    ensures unspared { IsTrue result → has_flag spared.now e ≡ false }
    ensures rest { result ≡ false → has_flag spared.now e ≡ false → slice_index_or part.now.ends e None ≡ None }
{
    part.ends(e).is_some() && !spared[e as usize]
}

/// Flags the branches of critical flows among so many rows, and those that redundant meters touch and that aren't spared.
/// The part has what redundant meters touch.
pub(crate) fn flag_costly(
    g: &Graph,
    ms: &Meters,
    a: &Assignment,
    marks: &[bool],
    part: &Graph,
    spared: &[bool],
    rows: u32,
    flags: &mut [bool],
)
    requires longest { IsLongest g.now ms.now.touches a.now }
    requires closed { HasClosedSet a.now g.now ms.now.touches (has_flag marks.now) }
    requires marks { length marks.now ≡ length ms.now.touches }
    requires touched { AreTouchedBy g.now.ends ms.now.touches (has_flag marks.now) part.now.ends }
    requires whole { HasTouched g.now.ends ms.now.touches (has_flag marks.now) part.now.ends }
    requires needed { AreNeeded a.now part.now.ends rows spared.now }
    requires rows { rows ≤ length g.now.ends }
    requires one_each { length part.now.ends ≡ length g.now.ends }
    requires spared { length spared.now ≡ length g.now.ends }
    requires flags { length flags.old ≡ length g.now.ends }
    ensures costly { (e : ℕ) → has_flag flags.new e ≡ true → IsCostly g.now.ends ms.now.touches e }
    ensures rest { (e : ℕ) → e < rows → has_flag spared.now e ≡ false → has_flag flags.new e ≡ false →
        slice_index_or part.now.ends e None ≡ None }
{
    flags.fill(false);
    for e in 0..rows {
        flags[e as usize] = is_critical_flow(g, ms, a, marks, e) || is_needed(part, spared, e);
    }
}
