// The laws of touched branches, and of assignments over a graph.
ghost use Rattle.std.specs.Prelude.{◌≡◌, ◌<◌, ◌⊎◌, ◌↔◌, ℕ, Bool, Option, None, Some, List, All, AllPairs, IsSome, slice_index_or, take};
ghost use Rattle.obs_graph.specs.declared.Ends.{Ends};
ghost use Rattle.obs_graph.specs.Positions.{AreBranches, IsForestAt, branches_at};
ghost use Rattle.obs_matroid.specs.Lists.{IsDistinct};
ghost use Rattle.obs_matroid.specs.Matroid.{IsIndependent};
ghost use Rattle.obs_matroid.specs.inner.Matroid.{IsMatroid};
ghost use Rattle.obs_matroid.specs.Assignments.{IsAssignment, Pair};
ghost use Rattle.obs_matroid.specs.inner.Assignments.{IsRho};
ghost use Rattle.obs_matroid.specs.inner.Bounds.{bound};
ghost use Rattle.obs_meter.specs.declared.Hub.{Hub};
ghost use Rattle.obs_meter.specs.declared.Touch.{Touch};
ghost use Rattle.obs_meter.specs.Lost.{losing};
ghost use Rattle.obs_meter.specs.inner.Lost.{left_of};
ghost use Rattle.obs_meter.specs.Touches.{every_item, live_items, touch_at, touched};
ghost use Rattle.obs_meter.specs.inner.Touches.{hub_of};
ghost use Rattle.obs_meter.specs.Spanned.{ends_at, graph_matroid, common_vertex};
ghost use Rattle.obs_meter.specs.Assignments.{IsAssignmentAt, IsRhoAt, rho_at};
ghost use Rattle.obs_meter.specs.inner.Assignments.{bound_at};

/// The branches that an item touches rise and are present, and all of them lie at one vertex. Where the item has a hub,
/// they are the first so many branches there.
pub fn touched_branches()
    ensures rising { (ends : List (Option Ends)) (t : Touch) → AllPairs ◌<◌ (touched ends t) }
    ensures present { (ends : List (Option Ends)) (t : Touch) →
        All (λ e. IsSome (slice_index_or ends e None)) (touched ends t) }
    ensures vertex { (ends : List (Option Ends)) (t : Touch) →
        All (λ e. ((ends_at ends e).0 ≡ common_vertex ends t) ⊎ ((ends_at ends e).1 ≡ common_vertex ends t))
        (touched ends t) }
    ensures hub { (ends : List (Option Ends)) (t : Touch) (h : Hub) → hub_of ends t ≡ Some h →
        touched ends t ≡ take h.count (branches_at ends h.vertex) }
{}

/// What the branches of a graph join is a matroid, and forests are its independent lists.
pub fn graph_is_matroid()
    ensures matroid { (n : ℕ) (ends : List (Option Ends)) → AreBranches n ends → IsMatroid (graph_matroid n ends) }
    ensures forest { (n : ℕ) (ends : List (Option Ends)) (L : List ℕ) →
        IsIndependent (graph_matroid n ends) L ↔ IsForestAt ends L }
{}

/// Assignments and their greatest length are those of the graph's matroid, and so are bounds.
pub fn assignments_are_those_of_the_matroid()
    ensures assignment { (n : ℕ) (ends : List (Option Ends)) (touches : List Touch) (M : List ℕ) (A : List Pair) →
        IsAssignmentAt ends touches M A ↔ IsAssignment (graph_matroid n ends) (touch_at ends touches) M A }
    ensures rho { (n : ℕ) (ends : List (Option Ends)) (touches : List Touch) (M : List ℕ) (r : ℕ) →
        IsRhoAt ends touches M r ↔ IsRho (graph_matroid n ends) (touch_at ends touches) M r }
    ensures bound { (n : ℕ) (ends : List (Option Ends)) (touches : List Touch) (J : ℕ → Bool) (M : List ℕ) →
        bound_at n ends touches J M ≡ bound (graph_matroid n ends) (touch_at ends touches) J M }
{}

/// Different items have exactly one greatest length of an assignment, and `rho_at` gives it.
pub fn greatest_length()
    ensures computed { (n : ℕ) (ends : List (Option Ends)) (touches : List Touch) (M : List ℕ) →
        AreBranches n ends → IsDistinct M → IsRhoAt ends touches M (rho_at n ends touches M) }
    ensures unique { (ends : List (Option Ends)) (touches : List Touch) (M : List ℕ) (r s : ℕ) →
        IsRhoAt ends touches M r → IsRhoAt ends touches M s → r ≡ s }
{}

/// Live items are all different, and each item of an assignment is live: idle items change no greatest length.
pub fn only_live_items_have_pairs()
    ensures different { (ends : List (Option Ends)) (touches : List Touch) → IsDistinct (live_items ends touches) }
    ensures assignment { (ends : List (Option Ends)) (touches : List Touch) (A : List Pair) →
        IsAssignmentAt ends touches (live_items ends touches) A ↔ IsAssignmentAt ends touches (every_item touches) A }
    ensures rho { (ends : List (Option Ends)) (touches : List Touch) (r : ℕ) →
        IsRhoAt ends touches (live_items ends touches) r ↔ IsRhoAt ends touches (every_item touches) r }
{}

/// Where some items are lost, and touch nothing, the live items, the assignments and the greatest length are those of the
/// items that aren't.
pub fn lost_meters()
    ensures live { (ends : List (Option Ends)) (lost : ℕ → Bool) (touches : List Touch) →
        live_items ends (losing lost touches) ≡ left_of lost (live_items ends touches) }
    ensures assignments { (ends : List (Option Ends)) (lost : ℕ → Bool) (touches : List Touch) (M : List ℕ)
        (A : List Pair) →
        IsAssignmentAt ends (losing lost touches) M A ↔ IsAssignmentAt ends touches (left_of lost M) A }
    ensures rho { (ends : List (Option Ends)) (lost : ℕ → Bool) (touches : List Touch) (M : List ℕ) (r : ℕ) →
        IsRhoAt ends (losing lost touches) M r ↔ IsRhoAt ends touches (left_of lost M) r }
{}
