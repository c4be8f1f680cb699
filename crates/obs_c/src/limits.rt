// The limits of a call.
ghost use Rattle.std.specs.Prelude.{◌≡◌, ◌≤◌};
ghost use Rattle.obs_c.specs.Calls.{limits_for};
ghost use Rattle.obs_io.specs.inner.Limits.{most_place};

use obs_engine::Limits;

/// The usual limits for 0, else the largest.
pub(crate) fn limits_for(large: u8) -> Limits
    ensures limits { result ≡ limits_for large }
    ensures place { result.bytes ≤ most_place }
{
    if large == 0 {
        Limits::usual()
    } else {
        Limits::large()
    }
}
