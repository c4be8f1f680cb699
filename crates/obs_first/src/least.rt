// The first assignment.
ghost use Rattle.std.specs.Prelude.{◌≡◌, false, length, replicate};
ghost use Rattle.obs_graph.specs.Positions.{AreBranches};
ghost use Rattle.obs_meter.specs.Assignments.{IsRhoAt};
ghost use Rattle.obs_meter.specs.inner.Sizes.{HasRoomFor};
ghost use Rattle.obs_meter.specs.Touches.{live_items};
ghost use Rattle.obs_meter.specs.inner.Touches.{AreInRange};
ghost use Rattle.obs_assign.specs.inner.Assignment.{HasRoomOf, IsWhole, StandsOver, pairs};
ghost use Rattle.obs_exchange.specs.inner.Laws.{IsThawed};
ghost use Rattle.obs_exchange.specs.inner.Longest.{IsLongest};
ghost use Rattle.obs_first.specs.inner.Deciding.{IsReady};
ghost use Rattle.obs_first.specs.First.{first_pairs};

use crate::decide::decide;
use obs_assign::{Assignment, Steps};
use obs_exchange::{Over, Work, close};
use obs_graph::Graph;
use obs_meter::Meters;
use std::sync::ledger::Ledger;

/// Thaws all meters, and keeps the pairs. Says how many they are.
fn thaw(a: &mut Assignment) -> u32
    ensures thawed { a.new ≡ record a.old { frozen = replicate (length a.old.frozen) false } }
    ensures length { result ≡ length (pairs a.new) }
    ensures whole { IsWhole a.new }
{
    a.unpin_all();
    a.length()
}

/// Notes the meters without a pair where they touch branches.
fn note_near(g: &Graph, ms: &Meters, a: &Assignment, work: &mut Work)
    requires in_range { AreInRange g.now ms.now.touches }
    requires meters { length ms.now.touches ≡ length a.now.slots }
    ensures same { work.new ≡ work.old }
{
    for m in 0..ms.count() {
        if a.branch_of(m).is_none() {
            work.note_near(g, ms, m);
        }
    }
}

/// Tells by a closing search which meters are critical, and notes the live meters without a pair.
fn prepare<L: Ledger>(
    g: &Graph,
    ms: &Meters,
    a: &mut Assignment,
    work: &mut Work,
    steps: &mut Steps<L>,
)
    requires branches { AreBranches g.now.vertices g.now.ends }
    requires longest { IsLongest g.now ms.now.touches a.old }
    requires in_range { AreInRange g.now ms.now.touches }
    requires room { HasRoomFor work.old.sizes g.now ms.now.touches }
    ensures same { a.new ≡ a.old }
    ensures ready { IsReady g.now ms.now.touches a.new work.new (length (pairs a.old)) }
    ensures same_sizes { work.new.sizes ≡ work.old.sizes }
{
    close(g, ms, a, work, steps);
    work.loosen();
    work.narrow();
    work.note_sources(g, ms, a);
    note_near(g, ms, a, work);
    work.list_touching(ms);
}

/// Makes a longest assignment the first one: of the longest assignments the least, compared meter by meter, where a
/// lower branch comes before a higher one, and a branch before none. Thaws all meters. How many steps it
/// takes isn't said.
pub fn first<L: Ledger>(
    g: &Graph,
    ms: &Meters,
    a: &mut Assignment,
    work: &mut Work,
    steps: &mut Steps<L>,
)
    requires stands { StandsOver a.old g.now ms.now.touches }
    requires in_range { AreInRange g.now ms.now.touches }
    requires room { HasRoomFor work.old.sizes g.now ms.now.touches }
    requires longest { IsRhoAt g.now.ends ms.now.touches (live_items g.now.ends ms.now.touches) (length (pairs a.old)) }
    ensures first { pairs a.new ≡ first_pairs g.now.vertices g.now.ends ms.now.touches }
    ensures thawed { IsThawed a.new }
    ensures stands { StandsOver a.new g.now ms.now.touches }
    ensures whole { IsWhole a.new }
    ensures same_room { HasRoomOf a.old a.new }
    ensures same_sizes { work.new.sizes ≡ work.old.sizes }
{
    let _ = g.vertices();
    let rank = thaw(a);
    prepare(g, ms, a, work, steps);
    let over = Over {
        graph: g,
        meters: ms,
    };
    let mut taken = 0;
    for m in 0..ms.count() {
        taken = decide(&over, a, m, rank, taken, work, steps);
    }
    let _ = thaw(a);
}
