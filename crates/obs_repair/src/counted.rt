// The pairs of a component.
ghost use Rattle.std.specs.Prelude.{◌<◌, ◌↔◌, IsTrue};
ghost use Rattle.obs_network.specs.Network.{case_component_count};
ghost use Rattle.obs_network.specs.Observable.{IsObservable};
ghost use Rattle.obs_kept.specs.inner.Kept.{AreLongest};

use crate::components::count_paired;
use obs_assign::Assignment;
use obs_network::Present;

/// Whether a longest assignment has as many pairs in a component as it needs. This goes through the component's own
/// meters alone.
pub fn has_enough(present: &Present<'_>, a: &Assignment, c: u32) -> bool
    requires longest { AreLongest present.now a.now }
    requires component { c < case_component_count present.now }
    ensures observable { IsTrue result ↔ IsObservable present.now c }
{
    let network = present.network();
    count_paired(network.live_meters(c), a) == network.need(c)
}
