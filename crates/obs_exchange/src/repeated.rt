//! Searches, one after the other, until there are pairs enough or a closed set.
ghost use Rattle.std.specs.Prelude.{◌≡◌, ◌+◌, ◌-◌, ◌<◌, ◌≤◌, true, length, MatchBool};
ghost use Rattle.obs_meter.specs.inner.Sizes.{HasRoomFor};
ghost use Rattle.obs_meter.specs.inner.Touches.{AreInRange};
ghost use Rattle.obs_assign.specs.inner.Assignment.{HasRoomOf, IsWhole, StandsOver, pairs};
ghost use Rattle.obs_exchange.specs.declared.Sources.TheVariants.{All};
ghost use Rattle.obs_exchange.specs.inner.Found.{CanRun, HasClosed, IsFound};
ghost use Rattle.obs_exchange.specs.inner.Lengthened.{HasLengthened};
ghost use Rattle.obs_exchange.specs.inner.Noting.{AreNoted};

use crate::{Found, Lengthened, Sources, Work};
use obs_assign::{Assignment, Steps};
use obs_graph::Graph;
use obs_meter::Meters;
use std::sync::ledger::Ledger;

/// Looks for one pair more from the live meters without a pair, where these are noted, and ticks once. A meter that has a
/// pair then is noted no more.
fn search_noted<L: Ledger>(
    g: &Graph,
    ms: &Meters,
    a: &mut Assignment,
    work: &mut Work,
    steps: &mut Steps<L>,
) -> Found
    requires can { CanRun g.now ms.now.touches All a.old work.old }
    ensures found { IsFound g.now.ends ms.now.touches All a.old a.new work.new.reached result }
    ensures noted { AreNoted g.now.ends ms.now.touches All a.new work.new.noted }
    ensures tick { steps.new ≡ steps.old + 1 }
    ensures stands { StandsOver a.new g.now ms.now.touches }
    ensures whole { IsWhole a.new }
    ensures same_room { HasRoomOf a.old a.new }
    ensures same_sizes { work.new.sizes ≡ work.old.sizes }
{
    let _ = ms.count();
    match work.run(g, ms, a, Sources::All, false, steps) {
        Found::Grown(m) => {
            work.note(m, false);
            Found::Grown(m)
        }
        Found::Closed => Found::Closed,
    }
}

/// As `lengthen`, where the live meters without a pair are noted: each search looks for its sources among the noted meters
/// alone.
pub fn lengthen_from<L: Ledger>(
    g: &Graph,
    ms: &Meters,
    a: &mut Assignment,
    most: u32,
    work: &mut Work,
    steps: &mut Steps<L>,
) -> Lengthened
    requires stands { StandsOver a.old g.now ms.now.touches }
    requires in_range { AreInRange g.now ms.now.touches }
    requires room { HasRoomFor work.old.sizes g.now ms.now.touches }
    requires noted { AreNoted g.now.ends ms.now.touches All a.old work.old.noted }
    // What became of the pairs, and how it ended.
    ensures lengthened { HasLengthened a.old a.new result.searches }
    ensures ended { MatchBool result.closed
        (HasClosed g.now.ends ms.now.touches All a.new a.new work.new.reached)
        (most ≤ length (pairs a.new)) }
    ensures short { result.closed ≡ true → length (pairs a.new) < most }
    ensures noted { AreNoted g.now.ends ms.now.touches All a.new work.new.noted }
    ensures stands { StandsOver a.new g.now ms.now.touches }
    ensures whole { IsWhole a.new }
    // What it took: no more searches than pairs are missing, each one a tick, and no memory.
    ensures bound { result.searches ≤ most - length (pairs a.old) }
    ensures ticks { steps.new ≡ steps.old + result.searches }
    ensures same_room { HasRoomOf a.old a.new }
    ensures same_sizes { work.new.sizes ≡ work.old.sizes }
{
    let _ = g.vertices();
    let mut searches = 0;
    while a.length() < most {
        let _ = a.turns();
        searches += 1;
        if let Found::Closed = search_noted(g, ms, a, work, steps) {
            return Lengthened {
                searches,
                closed: true,
            };
        }
    }
    Lengthened {
        searches,
        closed: false,
    }
}

/// Searches from all live meters without a pair, again and again, until there are `most` pairs or a search finds none
/// more. In the second case `Work::reached` marks the least closed set, and the pairs are as many as they can be beside
/// the frozen ones. `u32::MAX` asks for as many as there can be: no network has so many.
pub fn lengthen<L: Ledger>(
    g: &Graph,
    ms: &Meters,
    a: &mut Assignment,
    most: u32,
    work: &mut Work,
    steps: &mut Steps<L>,
) -> Lengthened
    requires stands { StandsOver a.old g.now ms.now.touches }
    requires in_range { AreInRange g.now ms.now.touches }
    requires room { HasRoomFor work.old.sizes g.now ms.now.touches }
    // What became of the pairs, and how it ended.
    ensures lengthened { HasLengthened a.old a.new result.searches }
    ensures ended { MatchBool result.closed
        (HasClosed g.now.ends ms.now.touches All a.new a.new work.new.reached)
        (most ≤ length (pairs a.new)) }
    ensures short { result.closed ≡ true → length (pairs a.new) < most }
    ensures stands { StandsOver a.new g.now ms.now.touches }
    ensures whole { IsWhole a.new }
    // What it took: no more searches than pairs are missing, each one a tick, and no memory.
    ensures bound { result.searches ≤ most - length (pairs a.old) }
    ensures ticks { steps.new ≡ steps.old + result.searches }
    ensures same_room { HasRoomOf a.old a.new }
    ensures same_sizes { work.new.sizes ≡ work.old.sizes }
{
    work.note_all();
    lengthen_from(g, ms, a, most, work, steps)
}
