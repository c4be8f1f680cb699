// Meters that are lost, and given back.
ghost use Rattle.std.specs.Prelude.{◌≡◌, ◌<◌, if◌then◌else◌, length, slice_index_or};
ghost use Rattle.obs_meter.specs.Lost.{losing};
ghost use Rattle.obs_assign.specs.inner.Assignment.{has_flag};

use obs_meter::{Meters, Touch};

// What the meter touches, or nothing where it is lost.
fn touch_left(ms: &Meters, m: u32, lost: bool) -> Touch
    requires m { m < length ms.now.touches }
    ensures touch { result ≡ (if lost then Touch.Nothing else slice_index_or ms.now.touches m Touch.Nothing) }
{
    if lost { Touch::Nothing } else { ms.kind(m) }
}

/// Loses the marked meters. All others touch what they do.
pub(crate) fn lose_marked(ms: &Meters, marks: &[bool], left: &mut Meters)
    requires count { length left.old.touches ≡ length ms.now.touches }
    requires marks { length marks.now ≡ length ms.now.touches }
    ensures left { left.new ≡ record left.old { touches = losing (has_flag marks.now) ms.now.touches } }
{
    for m in 0..ms.count() {
        left.set(m, touch_left(ms, m, marks[m as usize]));
    }
}

/// Gives all meters back what they touch.
pub(crate) fn restore(ms: &Meters, left: &mut Meters)
    requires count { length left.old.touches ≡ length ms.now.touches }
    ensures left { left.new ≡ record left.old { touches = ms.now.touches } }
{
    for m in 0..ms.count() {
        left.set(m, ms.kind(m));
    }
}
