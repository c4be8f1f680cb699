// Meters that are lost for a while.
ghost use Rattle.std.specs.Prelude.{◌≡◌, ◌+◌, ◌<◌, ◌≤◌, ◌==◌, ◌&&◌, if◌then◌else◌, ℕ, Bool, not, None, length, slice_set, All};
ghost use Rattle.obs_meter.specs.Lost.{is_listed, losing};
ghost use Rattle.obs_assign.specs.inner.Assignment.{HasRoomOf, IsWhole, StandsOver, branch_at, pairs};
ghost use Rattle.obs_exchange.specs.inner.Laws.{IsThawed};

use obs_assign::Assignment;
use obs_graph::Graph;
use obs_meter::{Meters, Touch};

// Lets a meter touch nothing, and drops its pair.
fn lose_one(g: &Graph, left: &mut Meters, m: u32, a: &mut Assignment)
    requires stands { StandsOver a.old g.now left.old.touches }
    requires thawed { IsThawed a.old }
    requires low { m < length left.old.touches }
    ensures left { left.new ≡ record left.old { touches = losing (λ k. m == k) left.old.touches } }
    ensures slots { a.new.slots ≡ slice_set a.old.slots m None }
    ensures stands { StandsOver a.new g.now left.new.touches }
    ensures thawed { IsThawed a.new }
    ensures turns { a.new.turns ≡ a.old.turns }
    ensures whole { IsWhole a.new }
    ensures same_room { HasRoomOf a.old a.new }
{
    a.drop_pair(g, m);
    left.set(m, Touch::Nothing);
}

/// Lets the listed meters touch nothing, and drops their pairs.
pub fn lose(g: &Graph, left: &mut Meters, list: &[u32], a: &mut Assignment)
    requires stands { StandsOver a.old g.now left.old.touches }
    requires thawed { IsThawed a.old }
    requires low { All (λ m. m < length left.old.touches) list.now }
    ensures left { left.new ≡ record left.old { touches = losing (is_listed list.now) left.old.touches } }
    ensures slots { (m : ℕ) → branch_at a.new m ≡ (if is_listed list.now m then None else branch_at a.old m) }
    ensures few { length (pairs a.old) ≤ length (pairs a.new) + length list.now }
    ensures stands { StandsOver a.new g.now left.new.touches }
    ensures thawed { IsThawed a.new }
    ensures turns { a.new.turns ≡ a.old.turns }
    ensures whole { IsWhole a.new }
    ensures same_room { HasRoomOf a.old a.new }
{
    // What the assignment knows of itself: its pairs are whole.
    let _ = a.length();
    for m in list {
        lose_one(g, left, *m, a);
    }
}

/// Gives the listed meters back what they touch.
pub fn regain(ms: &Meters, left: &mut Meters, list: &[u32])
    requires count { length left.old.touches ≡ length ms.now.touches }
    requires low { All (λ m. m < length ms.now.touches) list.now }
    ensures left { (lost : ℕ → Bool) → left.old.touches ≡ losing lost ms.now.touches → left.new
        ≡ record left.old { touches = losing (λ m. lost m && not (is_listed list.now m)) ms.now.touches } }
{
    for m in list {
        left.set(*m, ms.kind(*m));
    }
}
