// The laws of the first assignment.
ghost use Rattle.std.specs.Prelude.{◌≡◌, ◌↔◌, ◌<◌, ◌≤◌, ℕ, Bool, true, Option, List, length};
ghost use Rattle.obs_graph.specs.declared.Ends.{Ends};
ghost use Rattle.obs_graph.specs.Graph.{Graph};
ghost use Rattle.obs_graph.specs.Positions.{AreBranches};
ghost use Rattle.obs_matroid.specs.Assignments.{Pair, items};
ghost use Rattle.obs_matroid.specs.Lists.{In};
ghost use Rattle.obs_meter.specs.declared.Touch.{Touch};
ghost use Rattle.obs_meter.specs.Touches.{every_item, is_live, live_items};
ghost use Rattle.obs_assign.specs.Assignment.{Assignment};
ghost use Rattle.obs_assign.specs.inner.Assignment.{IsWhole, StandsOver, pairs};
ghost use Rattle.obs_exchange.specs.inner.Longest.{IsMost};
ghost use Rattle.obs_first.specs.inner.Backwards.{HasNoWayTo};
ghost use Rattle.obs_first.specs.inner.Deciding.{AreCriticalBeside, HasFrozenOf};
ghost use Rattle.obs_first.specs.First.{IsFirstAt, first_pairs};

/// The computed pairs are the first assignment of all meters, and of the live ones: no assignment is longer, and of
/// those that are as long none comes before it. There is no other first assignment.
pub fn first_assignment()
    ensures first { (n : ℕ) (ends : List (Option Ends)) (touches : List Touch) → AreBranches n ends →
        IsFirstAt ends touches (every_item touches) (first_pairs n ends touches) }
    ensures of_live { (n : ℕ) (ends : List (Option Ends)) (touches : List Touch) → AreBranches n ends →
        IsFirstAt ends touches (live_items ends touches) (first_pairs n ends touches) }
    ensures unique { (n : ℕ) (ends : List (Option Ends)) (touches : List Touch) → AreBranches n ends →
        (A : List Pair) → IsFirstAt ends touches (every_item touches) A → (p : Pair) →
        In p A ↔ In p (first_pairs n ends touches) }
{}

/// Where the pairs are as many as they can be, and no source leads to a live meter over loose ones, the meter is critical
/// beside the frozen pairs.
pub fn no_way_back()
    ensures critical { (g : Graph) (touches : List Touch) (a : Assignment) (loose : List Bool) (long : ℕ) →
        AreBranches g.vertices g.ends → IsWhole a → StandsOver a g touches →
        AreCriticalBeside g.ends touches a loose long → long ≤ length (pairs a) → IsMost g.ends touches long →
        (m : ℕ) → is_live g.ends touches m ≡ true → HasNoWayTo g.ends touches a loose m →
        (B : List Pair) → HasFrozenOf g.ends touches a B → (In m (items B) → ⊥) → length B < long }
{}
