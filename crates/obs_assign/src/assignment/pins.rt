// Which pairs may be pinned, and pins.
ghost use Rattle.std.specs.Prelude.{◌≡◌, ◌↔◌, ◌+◌, ◌<◌, ◌≤◌, ℕ, None, length, false, true, IfSome, IsSome, IsTrue, slice_index_or, slice_set};
ghost use Rattle.obs_matroid.specs.Lists.{In};
ghost use Rattle.obs_meter.specs.Touches.{touch_at};
ghost use Rattle.obs_forest.specs.inner.Forest.{StandsOver as ForestStandsOver};
ghost use Rattle.obs_assign.specs.inner.Assignment.{HasRoomOf, IsWhole, StandsOver, is_frozen, pairs};
ghost use Rattle.obs_assign.specs.inner.Moves.{turned};
ghost use Rattle.obs_assign.specs.inner.Pins.{IsPinnedAt, MayPin};
ghost use Rattle.obs_assign.specs.inner.Spare.{IsSpare};

use super::Assignment;
use crate::Move;
use crate::spare::{spare_for, take_pin};
use crate::steps::{Steps, turn};
use obs_graph::Graph;
use obs_meter::Meters;
use std::sync::ledger::Ledger;

impl Assignment {
    /// Whether `pin` may be called for m and e, a present branch: whether m isn't frozen, no frozen meter has e, and
    /// the frozen branches don't join the ends of e.
    pub fn may_pin(&mut self, g: &Graph, m: u32, e: u32) -> bool
        requires stands { ForestStandsOver self.old.forest g.now }
        requires m { m < length self.old.slots }
        requires present { IsSome (slice_index_or g.now.ends e None) }
        ensures may { IsTrue result ↔ MayPin self.old g.now.ends m e }
        ensures same { self.new ≡ self.old }
    {
        self.spare(g, m, e).is_some()
    }

    /// The meter that gives up its pair where m is pinned to e, a present branch: m itself, where no other one has to.
    /// None where `pin` may not be called.
    pub fn spare(&mut self, g: &Graph, m: u32, e: u32) -> Option<u32>
        requires stands { ForestStandsOver self.old.forest g.now }
        requires m { m < length self.old.slots }
        requires present { IsSome (slice_index_or g.now.ends e None) }
        ensures spare { IfSome result (λ x. IsSpare g.now.ends self.old.slots self.old.frozen m e x) }
        ensures may { IsSome result ↔ MayPin self.old g.now.ends m e }
        ensures same { self.new ≡ self.old }
    {
        if self.frozen[m as usize] {
            return None;
        }
        let meters = self.kept.slots().len();
        spare_for(g, &self.kept, &self.frozen[..meters], &mut self.path, m, e)
    }

    /// Makes m and e a frozen pair, and ticks once. Any other pair of m or of e is given up, and else at most one,
    /// which isn't frozen.
    pub fn pin<L: Ledger>(&mut self, g: &Graph, ms: &Meters, m: u32, e: u32, steps: &mut Steps<L>)
        requires stands { StandsOver self.old g.now ms.now.touches }
        requires m { m < length self.old.slots }
        requires touched { In e (touch_at g.now.ends ms.now.touches m) }
        requires may { MayPin self.old g.now.ends m e }
        ensures pinned { (x : ℕ) × IsPinnedAt self.old g.now.ends m e self.new.slots x }
        ensures frozen { self.new.frozen ≡ slice_set self.old.frozen m true }
        ensures bound { length (pairs self.new) ≤ length (pairs self.old) + 1 }
        ensures turns { self.new.turns ≡ turned self.old.turns }
        ensures tick { steps.new ≡ steps.old + 1 }
        ensures stands { StandsOver self.new g.now ms.now.touches }
        ensures whole { IsWhole self.new }
        ensures same_room { HasRoomOf self.old self.new }
    {
        let x = self.spare(g, m, e).unwrap();
        self.pin_for(g, ms, m, e, x, steps);
    }

    /// As `pin`, where x is the meter that `spare` found.
    pub fn pin_for<L: Ledger>(
        &mut self,
        g: &Graph,
        ms: &Meters,
        m: u32,
        e: u32,
        x: u32,
        steps: &mut Steps<L>,
    )
        requires stands { StandsOver self.old g.now ms.now.touches }
        requires m { m < length self.old.slots }
        requires touched { In e (touch_at g.now.ends ms.now.touches m) }
        requires thawed { is_frozen self.old m ≡ false }
        requires spare { IsSpare g.now.ends self.old.slots self.old.frozen m e x }
        ensures pinned { IsPinnedAt self.old g.now.ends m e self.new.slots x }
        ensures frozen { self.new.frozen ≡ slice_set self.old.frozen m true }
        ensures bound { length (pairs self.new) ≤ length (pairs self.old) + 1 }
        ensures turns { self.new.turns ≡ turned self.old.turns }
        ensures tick { steps.new ≡ steps.old + 1 }
        ensures stands { StandsOver self.new g.now ms.now.touches }
        ensures whole { IsWhole self.new }
        ensures same_room { HasRoomOf self.old self.new }
    {
        let _ = ms;
        let _ = g.vertices();
        let pin = Move {
            meter: m,
            branch: e,
        };
        take_pin(g, &mut self.kept, pin, x);
        self.frozen[m as usize] = true;
        self.turns = turn(self.turns, steps);
    }
}
