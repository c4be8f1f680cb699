// The search for one pair more.
ghost use Rattle.std.specs.Prelude.{◌≡◌, ◌+◌};
ghost use Rattle.obs_meter.specs.inner.Sizes.{HasRoomFor};
ghost use Rattle.obs_meter.specs.inner.Touches.{AreInRange};
ghost use Rattle.obs_assign.specs.inner.Assignment.{HasRoomOf, IsWhole, StandsOver};
ghost use Rattle.obs_exchange.specs.declared.Found.{Found};
ghost use Rattle.obs_exchange.specs.inner.Found.{AreListed, CanBegin, IsFound};

use crate::{Found, Sources, Work};
use obs_assign::{Assignment, Steps};
use obs_graph::Graph;
use obs_meter::Meters;
use std::sync::ledger::Ledger;

/// Looks for one pair more from the sources, and ticks once. Either a source has a pair afterwards, and no meter lost
/// its own; or there is none, and the meters that were reached are the least closed set.
pub fn search<L: Ledger>(
    g: &Graph,
    ms: &Meters,
    a: &mut Assignment,
    from: Sources,
    work: &mut Work,
    steps: &mut Steps<L>,
) -> Found
    requires stands { StandsOver a.old g.now ms.now.touches }
    requires in_range { AreInRange g.now ms.now.touches }
    requires room { HasRoomFor work.old.sizes g.now ms.now.touches }
    requires begins { CanBegin from a.old }
    ensures found { IsFound g.now.ends ms.now.touches from a.old a.new work.new.reached result }
    ensures listed { result ≡ Found.Closed → AreListed work.new.reached work.new.listed }
    ensures tick { steps.new ≡ steps.old + 1 }
    ensures stands { StandsOver a.new g.now ms.now.touches }
    ensures whole { IsWhole a.new }
    ensures same_room { HasRoomOf a.old a.new }
    ensures same_sizes { work.new.sizes ≡ work.old.sizes }
{
    work.note_all();
    work.run(g, ms, a, from, false, steps)
}
