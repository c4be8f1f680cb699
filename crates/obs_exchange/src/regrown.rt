// Pairs of which there are as many as there can be.
ghost use Rattle.std.specs.Prelude.{◌≡◌, ◌+◌, ◌-◌, ◌≤◌, true, length};
ghost use Rattle.obs_meter.specs.inner.Sizes.{HasRoomFor};
ghost use Rattle.obs_meter.specs.inner.Touches.{AreInRange};
ghost use Rattle.obs_assign.specs.inner.Assignment.{Fits, HasRoomOf, StandsOver, pairs};
ghost use Rattle.obs_exchange.specs.declared.Sources.TheVariants.{All};
ghost use Rattle.obs_exchange.specs.inner.Found.{HasClosed};
ghost use Rattle.obs_exchange.specs.inner.Laws.{IsThawed};
ghost use Rattle.obs_exchange.specs.inner.Lengthened.{HasLengthened};
ghost use Rattle.obs_exchange.specs.inner.Longest.{IsLongest, IsMost};

use crate::{Found, Lengthened, Sources, Work, lengthen, search};
use obs_assign::{Assignment, Steps};
use obs_graph::Graph;
use obs_meter::Meters;
use std::sync::ledger::Ledger;

/// As `lengthen`, up to a number of pairs that no assignment exceeds, with nothing frozen: then there are as many pairs
/// as there can be. What the last search reached stays in `work`, where it ended closed.
pub fn regrow<L: Ledger>(
    g: &Graph,
    ms: &Meters,
    a: &mut Assignment,
    most: u32,
    work: &mut Work,
    steps: &mut Steps<L>,
) -> Lengthened
    requires stands { StandsOver a.old g.now ms.now.touches }
    requires thawed { IsThawed a.old }
    requires in_range { AreInRange g.now ms.now.touches }
    requires room { HasRoomFor work.old.sizes g.now ms.now.touches }
    requires most { IsMost g.now.ends ms.now.touches most }
    ensures longest { IsLongest g.now ms.now.touches a.new }
    ensures lengthened { HasLengthened a.old a.new result.searches }
    ensures closed { result.closed ≡ true → HasClosed g.now.ends ms.now.touches All a.new a.new work.new.reached }
    ensures bound { result.searches ≤ most - length (pairs a.old) }
    ensures ticks { steps.new ≡ steps.old + result.searches }
    ensures same_room { HasRoomOf a.old a.new }
    ensures same_sizes { work.new.sizes ≡ work.old.sizes }
{
    let _ = g.vertices();
    lengthen(g, ms, a, most, work, steps)
}

/// Clears the pairs, and grows as many as there can be.
pub fn fill<L: Ledger>(
    g: &Graph,
    ms: &Meters,
    a: &mut Assignment,
    most: u32,
    work: &mut Work,
    steps: &mut Steps<L>,
)
    requires fits { Fits a.old g.now ms.now.touches }
    requires in_range { AreInRange g.now ms.now.touches }
    requires room { HasRoomFor work.old.sizes g.now ms.now.touches }
    requires most { IsMost g.now.ends ms.now.touches most }
    ensures longest { IsLongest g.now ms.now.touches a.new }
    ensures same_room { HasRoomOf a.old a.new }
    ensures same_sizes { work.new.sizes ≡ work.old.sizes }
{
    a.clear(g, ms);
    let _ = regrow(g, ms, a, most, work, steps);
}

/// Searches once more. The pairs are as many as they can be, so there is none more, and what was reached is the closed
/// set that shows it.
pub fn close<L: Ledger>(
    g: &Graph,
    ms: &Meters,
    a: &mut Assignment,
    work: &mut Work,
    steps: &mut Steps<L>,
)
    requires longest { IsLongest g.now ms.now.touches a.old }
    requires in_range { AreInRange g.now ms.now.touches }
    requires room { HasRoomFor work.old.sizes g.now ms.now.touches }
    ensures same { a.new ≡ a.old }
    ensures closed { HasClosed g.now.ends ms.now.touches All a.new a.new work.new.reached }
    ensures tick { steps.new ≡ steps.old + 1 }
    ensures same_sizes { work.new.sizes ≡ work.old.sizes }
{
    match search(g, ms, a, Sources::All, work, steps) {
        Found::Grown(_) => {}
        Found::Closed => {}
    }
}
