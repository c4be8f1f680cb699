// The moves of a path, put into the pairs.
ghost use Rattle.std.specs.Prelude.{◌≡◌, ◌≢◌, ◌<◌, All, AllPairs, IsTrue, None, Some, length, slice_index_or};
ghost use Rattle.obs_graph.specs.Positions.{IsForestAt};
ghost use Rattle.obs_matroid.specs.Assignments.{branches};
ghost use Rattle.obs_matroid.specs.inner.Slots.{pairs_of};
ghost use Rattle.obs_assign.specs.declared.Move.{Move};
ghost use Rattle.obs_assign.specs.inner.Kept.{IsOver, with_slots};
ghost use Rattle.obs_assign.specs.inner.Moves.{HandsOn, moved};

use crate::Move;
use crate::kept::Kept;
use obs_graph::Graph;

/// Whether the first meter of the path has no pair,
/// and each other one has the branch that the move in front of it takes.
fn hands_on(path: &[Move], slots: &[Option<u32>]) -> bool
    requires low { All (λ x. x.meter < length slots.now) path.now }
    ensures hands { IsTrue result → HandsOn slots.now None path.now }
{
    let mut before = None;
    for x in path {
        if slots[x.meter as usize] != before {
            return false;
        }
        before = Some(x.branch);
    }
    true
}

/// Puts in a path whose meters hand their branches on: the pairs get only the branch of the last move, which goes to
/// the end of the list.
fn hand_on(g: &Graph, kept: &mut Kept, path: &[Move])
    requires over { IsOver kept.old g.now }
    requires some { 0 < length path.now }
    requires low { All (λ x. x.meter < length kept.old.slots) path.now }
    requires different { AllPairs (λ (x y : Move). x.meter ≢ y.meter) path.now }
    requires hands { HandsOn kept.old.slots None path.now }
    requires forest { IsForestAt g.now.ends (branches (pairs_of (moved path.now kept.old.slots))) }
    ensures moved { kept.new ≡ with_slots kept.old g.now (moved path.now kept.old.slots) }
{
    let last = path.len() - 1;
    for i in 0..last {
        kept.hand(path[i], path[i + 1].meter);
    }
    kept.add(g, path[last]);
}

/// Takes the pairs of the meters of a path away.
fn lose_pairs(g: &Graph, kept: &mut Kept, path: &[Move])
    requires over { IsOver kept.old g.now }
    requires low { All (λ x. x.meter < length kept.old.slots) path.now }
    ensures bare { All (λ x. slice_index_or kept.new.slots x.meter None ≡ None) path.now }
    ensures moved { moved path.now kept.new.slots ≡ moved path.now kept.old.slots }
    ensures meters { length kept.new.slots ≡ length kept.old.slots }
    ensures held { kept.new ≡ with_slots kept.old g.now kept.new.slots }
{
    for x in path {
        kept.lose(g, x.meter);
    }
}

/// Puts the moves in, one after the other, whose meters have no pairs.
fn add_pairs(g: &Graph, kept: &mut Kept, path: &[Move])
    requires over { IsOver kept.old g.now }
    requires low { All (λ x. x.meter < length kept.old.slots) path.now }
    requires different { AllPairs (λ (x y : Move). x.meter ≢ y.meter) path.now }
    requires bare { All (λ x. slice_index_or kept.old.slots x.meter None ≡ None) path.now }
    requires forest { IsForestAt g.now.ends (branches (pairs_of (moved path.now kept.old.slots))) }
    ensures moved { kept.new ≡ with_slots kept.old g.now (moved path.now kept.old.slots) }
{
    for x in path {
        kept.add(g, *x);
    }
}

/// Puts the moves of a path in, and holds the branches of the pairs. Where its meters hand their branches on, the list
/// only gets the last one; else their pairs are taken away, and the new ones are put in.
pub fn take_path(g: &Graph, kept: &mut Kept, path: &[Move])
    requires over { IsOver kept.old g.now }
    requires some { 0 < length path.now }
    requires low { All (λ x. x.meter < length kept.old.slots) path.now }
    requires different { AllPairs (λ (x y : Move). x.meter ≢ y.meter) path.now }
    requires forest { IsForestAt g.now.ends (branches (pairs_of (moved path.now kept.old.slots))) }
    ensures moved { kept.new ≡ with_slots kept.old g.now (moved path.now kept.old.slots) }
{
    if hands_on(path, kept.slots()) {
        return hand_on(g, kept, path);
    }
    lose_pairs(g, kept, path);
    add_pairs(g, kept, path);
}
