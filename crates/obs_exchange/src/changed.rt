// A search where one meter touches something else.
ghost use Rattle.std.specs.Prelude.{◌≡◌, ◌+◌, ◌<◌, None, length, slice_set};
ghost use Rattle.obs_meter.specs.inner.Sizes.{HasRoomFor};
ghost use Rattle.obs_meter.specs.inner.Touches.{AreInRange, IsInRange};
ghost use Rattle.obs_assign.specs.inner.Assignment.{HasRoomOf, IsWhole, StandsOver, branch_at};
ghost use Rattle.obs_exchange.specs.declared.Found.{Found};
ghost use Rattle.obs_exchange.specs.inner.Found.{AreListed, CanBegin, IsFound};
ghost use Rattle.obs_exchange.specs.inner.Noting.{AreNoted};

use crate::{Found, Sources, Work};
use obs_assign::{Assignment, Steps};
use obs_graph::Graph;
use obs_meter::{Meters, Touch};
use std::sync::ledger::Ledger;

/// As `search`, as if the meter m, which has no pair, touched this. Only noted meters are looked at for sources.
/// The meters are those of the last `note_sources`.
pub fn search_by<L: Ledger>(
    g: &Graph,
    ms: &Meters,
    a: &mut Assignment,
    m: u32,
    touch: Touch,
    from: Sources,
    work: &mut Work,
    steps: &mut Steps<L>,
) -> Found
    requires stands { StandsOver a.old g.now ms.now.touches }
    requires in_range { AreInRange g.now ms.now.touches }
    requires room { HasRoomFor work.old.sizes g.now ms.now.touches }
    requires copied { work.old.touches ≡ ms.now.touches }
    requires m { m < length ms.now.touches }
    requires bare { branch_at a.old m ≡ None }
    requires touch { IsInRange g.now touch }
    requires begins { CanBegin from a.old }
    requires noted { AreNoted g.now.ends (slice_set ms.now.touches m touch) from a.old work.old.noted }
    ensures found { IsFound g.now.ends (slice_set ms.now.touches m touch) from a.old a.new work.new.reached result }
    ensures listed { result ≡ Found.Closed → AreListed work.new.reached work.new.listed }
    ensures noted { work.new.noted ≡ work.old.noted }
    ensures copied { work.new.touches ≡ work.old.touches }
    ensures same_loose { work.new.loose ≡ work.old.loose }
    ensures tick { steps.new ≡ steps.old + 1 }
    ensures stands { StandsOver a.new g.now (slice_set ms.now.touches m touch) }
    ensures whole { IsWhole a.new }
    ensures same_room { HasRoomOf a.old a.new }
    ensures same_sizes { work.new.sizes ≡ work.old.sizes }
{
    work.change(m, touch);
    let found = work.run(g, ms, a, from, true, steps);
    work.change(m, ms.kind(m));
    found
}
