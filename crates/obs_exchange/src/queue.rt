// Meters that the visited one leads to.
ghost use Rattle.std.specs.Prelude.{◌≡◌, ◌<◌, ℕ, true, false, Some, length};
ghost use Rattle.obs_matroid.specs.Lists.{In};
ghost use Rattle.obs_assign.specs.inner.Assignment.{branch_at, has_flag, is_frozen};
ghost use Rattle.obs_exchange.specs.inner.Searching.{IsNeededOf, IsVisiting};
ghost use Rattle.obs_exchange.specs.inner.Setting.{touched_in};
ghost use Rattle.obs_exchange.specs.inner.Trail.{Stays};

use crate::setting::Setting;
use crate::trail::Trail;
use obs_assign::Move;

/// Marks a meter whose pair a branch of the visited one needs, unless it is marked or frozen.
fn reach(over: &Setting<'_>, by: Move, x: u32, trail: &mut Trail)
    requires x { x < length over.now.touches }
    requires touched { In by.branch (touched_in over.now by.meter) }
    requires needed { IsNeededOf over.now x by.branch }
    requires visiting { IsVisiting over.now trail.old by.meter }
    ensures visiting { IsVisiting over.now trail.new by.meter }
    ensures reached { is_frozen over.now.assignment x ≡ false → has_flag trail.new.marks x ≡ true }
    ensures stays { Stays trail.old trail.new }
{
    if trail.is_marked(x) || over.is_frozen(x) {
        return;
    }
    trail.push(x, Some(by));
}

/// Reaches the meter that has a held branch, which the visited meter's branch needs.
pub fn reach_owner(over: &Setting<'_>, by: Move, e: u32, trail: &mut Trail)
    requires touched { In by.branch (touched_in over.now by.meter) }
    requires e { e < length over.now.graph.ends }
    requires needed { (x : ℕ) → branch_at over.now.assignment x ≡ Some e → IsNeededOf over.now x by.branch }
    requires visiting { IsVisiting over.now trail.old by.meter }
    ensures visiting { IsVisiting over.now trail.new by.meter }
    ensures reached { (x : ℕ) → branch_at over.now.assignment x ≡ Some e
        → is_frozen over.now.assignment x ≡ false → has_flag trail.new.marks x ≡ true }
    ensures stays { Stays trail.old trail.new }
{
    if let Some(x) = over.meter_of(e) {
        reach(over, by, x, trail);
    }
}
