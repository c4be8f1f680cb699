// The laws of kept assignments.
ghost use Rattle.std.specs.Prelude.{◌≡◌, ◌≢◌, ◌+◌, ◌++◌, ◌<◌, ◌≤◌, ◌↔◌, ℕ, Bool, false, true, Option, Some, None, List, flat_map, length, slice_index_or, slice_set};
ghost use Rattle.obs_graph.specs.declared.Ends.{Ends};
ghost use Rattle.obs_graph.specs.Joined.{is_joined, rank};
ghost use Rattle.obs_graph.specs.inner.Joined.{AreMergedBy, InRange, IsMerging, renamed};
ghost use Rattle.obs_graph.specs.Positions.{AreBranches, IsForestAt};
ghost use Rattle.obs_graph.specs.Graph.{Graph};
ghost use Rattle.obs_matroid.specs.Assignments.{Pair, branches};
ghost use Rattle.obs_matroid.specs.inner.Assignments.{others};
ghost use Rattle.obs_matroid.specs.Bounds.{inside};
ghost use Rattle.obs_matroid.specs.Lists.{In};
ghost use Rattle.obs_matroid.specs.inner.Slots.{pairs_of};
ghost use Rattle.obs_meter.specs.declared.Touch.{Touch};
ghost use Rattle.obs_meter.specs.Assignments.{IsAssignmentAt};
ghost use Rattle.obs_meter.specs.inner.Assignments.{bound_at};
ghost use Rattle.obs_meter.specs.Spanned.{rank_at};
ghost use Rattle.obs_meter.specs.Touches.{every_item, touch_at};
ghost use Rattle.obs_assign.specs.declared.Move.{Move};
ghost use Rattle.obs_assign.specs.Assignment.{Assignment};
ghost use Rattle.obs_assign.specs.inner.Assignment.{IsWhole, StandsOver, branch_at, pairs};
ghost use Rattle.obs_assign.specs.inner.Moves.{ArePath, moved};
ghost use Rattle.obs_assign.specs.inner.Pins.{IsPinnedAt, joins};
ghost use Rattle.obs_assign.specs.inner.Still.{AreRetained, still};

/// No assignment is longer than a bound: the rank of what some items touch, and one for each other item. So it is, too,
/// where items more take part, each of whose touched branches has its ends joined by what the first ones touch.
pub fn weak_bound()
    ensures weak { (n : ℕ) (ends : List (Option Ends)) (touches : List Touch)
        (M : List ℕ) (J : ℕ → Bool) (A : List Pair) →
        AreBranches n ends → IsAssignmentAt ends touches M A → length A ≤ bound_at n ends touches J M }
    ensures spanned { (n : ℕ) (ends : List (Option Ends)) (touches : List Touch)
        (M X : List ℕ) (J : ℕ → Bool) (A : List Pair) →
        AreBranches n ends → IsAssignmentAt ends touches (M ++ X) A →
        ((m e : ℕ) → In m X → In e (touch_at ends touches m) →
        joins ends (flat_map (touch_at ends touches) (inside J M)) e ≡ true) → length A ≤ bound_at n ends touches J M }
{}

/// The pairs of an assignment that stands over a graph and meters are an assignment of these meters.
pub fn standing_is_assignment()
    ensures assignment { (a : Assignment) (g : Graph) (touches : List Touch) → IsWhole a →
        StandsOver a g touches →
        IsAssignmentAt g.ends touches (every_item touches) (pairs a) }
{}

/// A meter may take a branch that it touches where the branches of the other meters don't join its ends.
pub fn one_move()
    ensures assignment { (a : Assignment) (g : Graph) (touches : List Touch) (m e : ℕ) →
        AreBranches g.vertices g.ends → IsWhole a →
        StandsOver a g touches → m < length a.slots →
        In e (touch_at g.ends touches m) → joins g.ends (others (pairs a) m) e ≡ false →
        IsAssignmentAt g.ends touches (every_item touches) (pairs_of (slice_set a.slots m (Some e))) }
{}

/// No branch has two meters.
pub fn one_owner()
    ensures one { (a : Assignment) (m k e : ℕ) → IsWhole a → branch_at a m ≡ Some e → branch_at a k ≡ Some e →
        m ≡ k }
{}

/// After the moves of a path each meter of the path has the branch of its move, and every other meter has what it had.
pub fn after_moves()
    ensures taken { (a : Assignment) (path : List Move) (x : Move) → ArePath a path → In x path →
        slice_index_or (moved path a.slots) x.meter None ≡ Some x.branch }
    ensures kept { (a : Assignment) (path : List Move) (m : ℕ) → ((x : Move) → In x path → x.meter ≢ m) →
        slice_index_or (moved path a.slots) m None ≡ branch_at a m }
{}

/// After a pin of m to e the meter m has e, the meter x that gave up its pair has none where it is another one than m,
/// and every other meter has what it had.
pub fn after_pin()
    ensures taken { (a : Assignment) (ends : List (Option Ends)) (m e x : ℕ) (after : List (Option ℕ)) →
        IsPinnedAt a ends m e after x → m < length a.slots → slice_index_or after m None ≡ Some e }
    ensures given_up { (a : Assignment) (ends : List (Option Ends)) (m e x : ℕ) (after : List (Option ℕ)) →
        IsPinnedAt a ends m e after x → x ≢ m → slice_index_or after x None ≡ None }
    ensures kept { (a : Assignment) (ends : List (Option Ends)) (m e x k : ℕ) (after : List (Option ℕ)) →
        IsPinnedAt a ends m e after x → m < length a.slots → k ≢ m → k ≢ x →
        slice_index_or after k None ≡ branch_at a k }
{}

/// Where two vertices become one, the rank of a list of branches falls by at most one, and by none where the list
/// doesn't join the two.
pub fn rank_of_merged()
    ensures at_most_one { (n m s t : ℕ) (h : ℕ → ℕ) (es : List Ends) → IsMerging n m s t h → InRange n es →
        rank n es ≤ rank m (renamed h es) + 1 }
    ensures no_higher { (n m s t : ℕ) (h : ℕ → ℕ) (es : List Ends) → IsMerging n m s t h → InRange n es →
        rank m (renamed h es) ≤ rank n es }
    ensures same_if_apart { (n m s t : ℕ) (h : ℕ → ℕ) (es : List Ends) → IsMerging n m s t h → InRange n es →
        is_joined es s t ≡ false → rank m (renamed h es) ≡ rank n es }
{}

/// Where the vertices that the pairs of a list join become one, the rank of a list of branches falls by at most the
/// rank of the pairs, and so by at most their number.
pub fn rank_of_merges()
    ensures at_most { (n m : ℕ) (merges : List Ends) (h : ℕ → ℕ) (es : List Ends) → AreMergedBy n m merges h →
        InRange n es → rank n es ≤ rank m (renamed h es) + rank n merges }
    ensures at_most_length { (n m : ℕ) (merges : List Ends) (h : ℕ → ℕ) (es : List Ends) → AreMergedBy n m merges h →
        InRange n es → rank n es ≤ rank m (renamed h es) + length merges }
    ensures no_higher { (n m : ℕ) (merges : List Ends) (h : ℕ → ℕ) (es : List Ends) → AreMergedBy n m merges h →
        InRange n es → rank m (renamed h es) ≤ rank n es }
{}

/// The pairs that stand still are those whose meter touches their branch.
pub fn still_pairs()
    ensures exactly { (ends : List (Option Ends)) (touches : List Touch) (A : List Pair) (p : Pair) →
        In p (still ends touches A) ↔ (In p A × In p.1 (touch_at ends touches p.0)) }
{}

/// Of the pairs that stand still as many are retained as the rank of their branches.
pub fn retained_by_rank()
    ensures rank { (n : ℕ) (ends : List (Option Ends)) (touches : List Touch) (before after : List Pair) →
        AreBranches n ends → IsForestAt ends (branches after) → AreRetained ends touches before after →
        length after ≡ rank_at n ends (branches (still ends touches before)) }
{}
