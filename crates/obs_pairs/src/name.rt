// Classes, named by their first meters.
ghost use Rattle.std.specs.Prelude.{◌≡◌};
ghost use Rattle.obs_graph.specs.Positions.{AreBranches};
ghost use Rattle.obs_pairs.specs.Partners.{classes_of};
ghost use Rattle.obs_pairs.specs.inner.Settled.{AreKeyed};

use obs_graph::Graph;
use obs_meter::Meters;

/// Turns the key of each class into its first meter, in one pass: what stands at the key of a class is the key until the
/// first meter is passed, and that meter from then on.
pub(crate) fn name_all(g: &Graph, ms: &Meters, list: &mut [u32])
    requires branches { AreBranches g.now.vertices g.now.ends }
    requires keyed { AreKeyed g.now.vertices g.now.ends ms.now.touches list.old }
    ensures classes { list.new ≡ classes_of g.now.vertices g.now.ends ms.now.touches }
{
    for k in 0..ms.count() {
        let key = list[k as usize] as usize;
        let first = list[key].min(k);
        list[key] = first;
        list[k as usize] = first;
    }
}
