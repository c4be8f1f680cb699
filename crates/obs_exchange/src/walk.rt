// The branches that a meter of the queue looks at.
ghost use Rattle.std.specs.Prelude.{◌≡◌, ◌<◌, ℕ, true, false, IsSome, MatchBool, None, Some, slice_index, slice_index_or};
ghost use Rattle.obs_graph.specs.declared.search.Up.{Up};
ghost use Rattle.obs_matroid.specs.Lists.{In};
ghost use Rattle.obs_assign.specs.inner.Assignment.{branch_at, has_flag};
ghost use Rattle.obs_exchange.specs.inner.Classes.{AreClasses, OneMoreMet, Rises};
ghost use Rattle.obs_exchange.specs.inner.Searching.{IsNeededOf, IsVisiting, IsWalked};
ghost use Rattle.obs_exchange.specs.inner.Setting.{is_joined_in, touched_in};
ghost use Rattle.obs_exchange.specs.inner.Trail.{Stays};

use crate::queue::reach_owner;
use crate::setting::Setting;
use crate::tops::{Tops, top_of};
use crate::trail::Trail;
use obs_assign::Move;

/// Meets the branch above a top: reaches the meter that has it, and makes the class of the top one with that of the
/// vertex above. Gives the top of that class.
fn meet(over: &Setting<'_>, by: Move, top: u32, trail: &mut Trail, tops: &mut Tops) -> u32
    requires touched { In by.branch (touched_in over.now by.meter) }
    requires top { top < over.now.graph.vertices }
    requires own { slice_index tops.old top ≡ top }
    requires up { IsSome (slice_index_or over.now.ups top None) }
    requires needed { (up : Up) (x : ℕ) → slice_index_or over.now.ups top None ≡ Some up
        → branch_at over.now.assignment x ≡ Some up.branch
        → IsNeededOf over.now x by.branch }
    requires visiting { IsVisiting over.now trail.old by.meter }
    requires classes { AreClasses over.now trail.old.marks tops.old }
    ensures visiting { IsVisiting over.now trail.new by.meter }
    ensures classes { AreClasses over.now trail.new.marks tops.new }
    ensures met { OneMoreMet over.now tops.old tops.new top }
    ensures low { result < over.now.graph.vertices }
    ensures top { slice_index tops.new result ≡ result }
    ensures rises { Rises over.now tops.new top result }
    ensures lower { slice_index over.now.depths result < slice_index over.now.depths top }
    ensures stays { Stays trail.old trail.new }
{
    let up = over.up(top);
    reach_owner(over, by, up.branch, trail);
    tops.lead(top, up.vertex);
    top_of(over, tops, up.vertex)
}

/// Marks the meters whose pairs a branch needs that isn't free: goes up from both its ends, always from the deeper top,
/// until these are of one class.
fn reach_needed(over: &Setting<'_>, by: Move, trail: &mut Trail, tops: &mut Tops)
    requires touched { In by.branch (touched_in over.now by.meter) }
    requires joined { is_joined_in over.now by.branch ≡ true }
    requires visiting { IsVisiting over.now trail.old by.meter }
    requires classes { AreClasses over.now trail.old.marks tops.old }
    ensures visiting { IsVisiting over.now trail.new by.meter }
    ensures classes { AreClasses over.now trail.new.marks tops.new }
    ensures reached { IsWalked over.now trail.new.marks by.branch }
    ensures stays { Stays trail.old trail.new }
{
    let ends = over.ends(by.branch);
    let mut u = top_of(over, tops, ends.a);
    let mut v = top_of(over, tops, ends.b);
    while u != v {
        if over.depth(u) < over.depth(v) {
            v = meet(over, by, v, trail, tops);
        } else {
            u = meet(over, by, u, trail, tops);
        }
    }
}

/// Walks one branch of the visited meter, where it wasn't walked yet, and says whether it is free.
pub fn walk(over: &Setting<'_>, by: Move, trail: &mut Trail, tops: &mut Tops) -> bool
    requires touched { In by.branch (touched_in over.now by.meter) }
    requires visiting { IsVisiting over.now trail.old by.meter }
    requires classes { AreClasses over.now trail.old.marks tops.old }
    ensures visiting { IsVisiting over.now trail.new by.meter }
    ensures classes { AreClasses over.now trail.new.marks tops.new }
    ensures free { MatchBool result
        (is_joined_in over.now by.branch ≡ false)
        (has_flag trail.new.walked by.branch ≡ true) }
    ensures stays { Stays trail.old trail.new }
{
    if trail.is_walked(by.branch) {
        return false;
    }
    if over.is_free(by.branch) {
        return true;
    }
    reach_needed(over, by, trail, tops);
    trail.set_walked(by.branch);
    false
}
