// The laws of joined, forest and rank.
ghost use Rattle.std.specs.Prelude.{◌≡◌, ◌≢◌, ◌↔◌, ◌+◌, ◌<◌, ◌≤◌, ℕ, Option, Some, None, List, [], ◌∷◌, ◌++◌, length, Bool, true, false, not, IsTrue, IsSome, All, AllPairs, Contains, slice_index_or};
ghost use Rattle.obs_graph.specs.declared.Ends.{Ends};
ghost use Rattle.obs_graph.specs.Joined.{Chain, is_joined, first_joined, rank, count_below, IsForest};
ghost use Rattle.obs_graph.specs.inner.Joined.{joined_by, rank_in, InRange, LiesIn, IsSeparate, kept_in, AreDifferent, glued, renamed, shifted, beside, IsRenaming, IsMerging, AreMergedBy};
ghost use Rattle.obs_graph.specs.Positions.{ends_of, has_end, branches_at, IsForestAt};

/// The test is true exactly where a chain of the branches leads from u to v.
pub fn joined_by_chain()
    ensures chain { (es : List Ends) (u v : ℕ) → IsTrue (is_joined es u v) ↔ Chain es u v }
{}

/// Each vertex is joined with itself; joined goes both ways, and through a third vertex.
pub fn joined_is_equivalence()
    ensures itself { (es : List Ends) (u : ℕ) → IsTrue (is_joined es u u) }
    ensures back { (es : List Ends) (u v : ℕ) → IsTrue (is_joined es u v) → IsTrue (is_joined es v u) }
    ensures through { (es : List Ends) (u v w : ℕ) →
        IsTrue (is_joined es u v) → IsTrue (is_joined es v w) → IsTrue (is_joined es u w) }
{}

/// One more branch joins u and v where they are joined already, or where its ends hang on the two,
/// one on each.
pub fn joined_by_cases()
    ensures same { (es : List Ends) (u v : ℕ) → joined_by es u v ≡ is_joined es u v }
{}

/// The first vertex is joined with u, and none below it is.
pub fn first_is_lowest()
    ensures joined { (es : List Ends) (u : ℕ) → IsTrue (is_joined es u (first_joined es u)) }
    ensures lowest { (es : List Ends) (u v : ℕ) → IsTrue (is_joined es u v) → first_joined es u ≤ v }
{}

/// What some branches join, more of them join too, and their rank is no lower: order and repetition
/// don't matter.
pub fn more_branches_join_more()
    ensures joined { (es fs : List Ends) → ((e : Ends) → Contains es e → Contains fs e) →
        (u v : ℕ) → IsTrue (is_joined es u v) → IsTrue (is_joined fs u v) }
    ensures rank { (n : ℕ) (es fs : List Ends) → ((e : Ends) → Contains es e → Contains fs e) →
        rank n es ≤ rank n fs }
{}

/// Where one list joins the ends of each branch of another, it joins all that the other joins, and
/// its rank is no lower.
pub fn joined_within()
    ensures joined { (es fs : List Ends) → ((e : Ends) → Contains es e → IsTrue (is_joined fs e.a e.b)) →
        (u v : ℕ) → IsTrue (is_joined es u v) → IsTrue (is_joined fs u v) }
    ensures rank { (n : ℕ) (es fs : List Ends) →
        ((e : Ends) → Contains es e → IsTrue (is_joined fs e.a e.b)) → rank n es ≤ rank n fs }
{}

/// One more branch raises the rank by one where its ends aren't joined, and leaves it where they
/// are.
pub fn rank_of_one_more()
    ensures apart { (n : ℕ) (e : Ends) (es : List Ends) → e.a < n → e.b < n →
        is_joined es e.a e.b ≡ false → rank n (e ∷ es) ≡ rank n es + 1 }
    ensures joined { (n : ℕ) (e : Ends) (es : List Ends) →
        IsTrue (is_joined es e.a e.b) → rank n (e ∷ es) ≡ rank n es }
{}

/// A list is a forest exactly where its rank is its length.
pub fn forest_by_rank()
    ensures at_most { (n : ℕ) (es : List Ends) → InRange n es → rank n es ≤ length es }
    ensures forest { (n : ℕ) (es : List Ends) → InRange n es → IsForest es ↔ (rank n es ≡ length es) }
{}

/// The branches of a forest are different, and different branches of a forest are a forest.
pub fn part_of_forest()
    ensures different { (es : List Ends) → IsForest es → AreDifferent es }
    ensures part { (es fs : List Ends) → ((e : Ends) → Contains es e → Contains fs e) →
        AreDifferent es → IsForest fs → IsForest es }
{}

/// A branch of a forest may be exchanged for one whose ends the others don't join. Where the branch
/// was needed for the ends of x, and the forest doesn't join the ends of the new one, x's ends are
/// apart afterwards.
pub fn exchange_in_forest()
    ensures forest { (xs : List Ends) (f : Ends) (ys : List Ends) (e : Ends) → IsForest (xs ++ f ∷ ys) →
        is_joined (xs ++ ys) e.a e.b ≡ false → IsForest (e ∷ (xs ++ ys)) }
    ensures apart { (xs : List Ends) (f : Ends) (ys : List Ends) (x e : Ends) →
        IsTrue (is_joined (xs ++ f ∷ ys) x.a x.b) → is_joined (xs ++ ys) x.a x.b ≡ false →
        is_joined (xs ++ f ∷ ys) e.a e.b ≡ false → is_joined (e ∷ (xs ++ ys)) x.a x.b ≡ false }
{}

/// Where a list has a greater rank than a forest has branches, one of its branches may be added to
/// the forest.
pub fn greater_rank_adds()
    ensures one { (n : ℕ) (es fs : List Ends) → InRange n es → IsForest es → length es < rank n fs →
        (e : Ends) × Contains fs e × IsForest (e ∷ es) }
{}

/// Where the vertex t becomes s, the rank falls by one if the branches join the two, and stays if
/// they don't.
pub fn rank_of_glued()
    ensures joined { (n s t : ℕ) (es : List Ends) → s < n → t < n → s ≢ t →
        IsTrue (is_joined es s t) → rank n es ≡ rank n (glued s t es) + 1 }
    ensures apart { (n s t : ℕ) (es : List Ends) → s < n → t < n →
        is_joined es s t ≡ false → rank n es ≡ rank n (glued s t es) }
{}

/// New names change nothing where no two vertices become one.
pub fn same_by_new_names()
    ensures joined { (n m : ℕ) (h : ℕ → ℕ) (es : List Ends) → IsRenaming n m h → InRange n es →
        (u v : ℕ) → u < n → v < n → is_joined (renamed h es) (h u) (h v) ≡ is_joined es u v }
    ensures rank { (n m : ℕ) (h : ℕ → ℕ) (es : List Ends) → IsRenaming n m h → InRange n es →
        rank m (renamed h es) ≡ rank n es }
{}

/// Where s and t become one by new names, the branches join what they joined with one branch more,
/// between s and t. So the rank falls by one if they joined the two, and stays if they didn't.
pub fn merged_by_new_names()
    ensures joined { (n m s t : ℕ) (h : ℕ → ℕ) (es : List Ends) → IsMerging n m s t h → InRange n es →
        (u v : ℕ) → u < n → v < n →
        is_joined (renamed h es) (h u) (h v) ≡ is_joined (record { a = s; b = t } ∷ es) u v }
    ensures rank_if_joined { (n m s t : ℕ) (h : ℕ → ℕ) (es : List Ends) → IsMerging n m s t h → InRange n es →
        IsTrue (is_joined es s t) → rank n es ≡ rank m (renamed h es) + 1 }
    ensures rank_if_apart { (n m s t : ℕ) (h : ℕ → ℕ) (es : List Ends) → IsMerging n m s t h → InRange n es →
        is_joined es s t ≡ false → rank n es ≡ rank m (renamed h es) }
{}

/// Where the vertices that the pairs of a list join become one by new names, the branches join what
/// they joined together with these pairs, and the rank of the two is the rank that is left and that
/// of the pairs. A list of one pair merges its two vertices, and one of none leaves all. Where the branches don't join
/// the first pair, their rank falls by one less. Two sets of vertices side by side merge by both lists.
pub fn merged_by_list()
    ensures joined { (n m : ℕ) (merges : List Ends) (h : ℕ → ℕ) (es : List Ends) → AreMergedBy n m merges h →
        InRange n es → (u v : ℕ) → u < n → v < n →
        is_joined (renamed h es) (h u) (h v) ≡ is_joined (merges ++ es) u v }
    ensures rank { (n m : ℕ) (merges : List Ends) (h : ℕ → ℕ) (es : List Ends) → AreMergedBy n m merges h →
        InRange n es → rank n (merges ++ es) ≡ rank m (renamed h es) + rank n merges }
    ensures one { (n m s t : ℕ) (h : ℕ → ℕ) → s ≢ t →
        IsMerging n m s t h ↔ AreMergedBy n m (record { a = s; b = t } ∷ []) h }
    ensures none { (n : ℕ) → AreMergedBy n n [] (λ v. v) }
    ensures apart { (n m : ℕ) (e : Ends) (merges : List Ends) (h : ℕ → ℕ) (es : List Ends) →
        AreMergedBy n m (e ∷ merges) h → InRange n es → is_joined es e.a e.b ≡ false →
        rank n es + 1 ≤ rank m (renamed h es) + rank n (e ∷ merges) }
    ensures beside { (n m a b : ℕ) (ms ns : List Ends) (h g : ℕ → ℕ) → AreMergedBy n m ms h →
        AreMergedBy a b ns g → AreMergedBy (n + a) (m + b) (ms ++ shifted n ns) (beside n m h g) }
{}

/// Where two vertices become one, a forest loses one branch at most: of two branches beside a part
/// of it, what is left joins the ends of one at most.
pub fn merging_loses_one()
    ensures apart { (n m s t : ℕ) (h : ℕ → ℕ) (f g : Ends) (es : List Ends) → IsMerging n m s t h →
        InRange n (f ∷ g ∷ es) → IsForest (f ∷ g ∷ es) →
        IsTrue (is_joined (renamed h es) (h f.a) (h f.b)) →
        is_joined (renamed h es) (h g.a) (h g.b) ≡ false }
{}

/// The part of a vertex holds exactly the positions of the present branches with an end there, and
/// they rise.
pub fn branches_at_vertex()
    ensures exactly { (bs : List (Option Ends)) (v p : ℕ) →
        Contains (branches_at bs v) p ↔ IsTrue (has_end v (slice_index_or bs p None)) }
    ensures rising { (bs : List (Option Ends)) (v : ℕ) → AllPairs ◌<◌ (branches_at bs v) }
{}

/// The positions of a forest are different and as many as its rank, and positions of present
/// branches with that rank are a forest.
pub fn forest_at_by_rank()
    ensures different { (bs : List (Option Ends)) (ps : List ℕ) → IsForestAt bs ps → AllPairs ◌≢◌ ps }
    ensures rank { (n : ℕ) (bs : List (Option Ends)) (ps : List ℕ) → InRange n (ends_of bs ps) →
        IsForestAt bs ps → rank n (ends_of bs ps) ≡ length ps }
    ensures forest { (n : ℕ) (bs : List (Option Ends)) (ps : List ℕ) → InRange n (ends_of bs ps) →
        All (λ p. IsSome (slice_index_or bs p None)) ps → rank n (ends_of bs ps) ≡ length ps →
        IsForestAt bs ps }
{}

/// Different positions of a forest are a forest.
pub fn part_of_forest_at()
    ensures part { (bs : List (Option Ends)) (ps qs : List ℕ) → IsForestAt bs ps →
        ((q : ℕ) → Contains qs q → Contains ps q) → AllPairs ◌≢◌ qs → IsForestAt bs qs }
{}

/// A position of a forest may be exchanged for that of a branch whose ends the others don't join.
pub fn exchange_at()
    ensures forest { (bs : List (Option Ends)) (xs : List ℕ) (f : ℕ) (ys : List ℕ) (p : ℕ) (e : Ends) →
        IsForestAt bs (xs ++ f ∷ ys) → slice_index_or bs p None ≡ Some e →
        is_joined (ends_of bs (xs ++ ys)) e.a e.b ≡ false → IsForestAt bs (p ∷ (xs ++ ys)) }
{}

/// The rank in a set is no lower for more that is joined; in the set of all vertices it is the
/// rank.
pub fn rank_in_grows()
    ensures all { (n : ℕ) (es : List Ends) → rank_in (λ u. true) n es ≡ rank n es }
    ensures grows { (inside : ℕ → Bool) (n : ℕ) (es fs : List Ends) →
        ((e : Ends) → Contains es e → IsTrue (is_joined fs e.a e.b)) →
        rank_in inside n es ≤ rank_in inside n fs }
{}

/// One more branch between two vertices of a set raises the rank in the set by one where its ends
/// aren't joined, and leaves it where they are.
pub fn rank_in_of_one_more()
    ensures apart { (inside : ℕ → Bool) (n : ℕ) (e : Ends) (es : List Ends) → e.a < n → e.b < n →
        IsTrue (inside e.a) → IsTrue (inside e.b) → is_joined es e.a e.b ≡ false →
        rank_in inside n (e ∷ es) ≡ rank_in inside n es + 1 }
    ensures joined { (inside : ℕ → Bool) (n : ℕ) (e : Ends) (es : List Ends) →
        IsTrue (is_joined es e.a e.b) → rank_in inside n (e ∷ es) ≡ rank_in inside n es }
{}

/// A list that lies in a set is a forest exactly where its rank there is its length.
pub fn forest_by_rank_in()
    ensures at_most { (inside : ℕ → Bool) (n : ℕ) (es : List Ends) → InRange n es → LiesIn inside es →
        rank_in inside n es ≤ length es }
    ensures forest { (inside : ℕ → Bool) (n : ℕ) (es : List Ends) → InRange n es → LiesIn inside es →
        IsForest es ↔ (rank_in inside n es ≡ length es) }
{}

/// The branches join all vertices of a set exactly where their rank in it is one less than the
/// number of its vertices.
pub fn joined_set_by_rank()
    ensures joined { (inside : ℕ → Bool) (n : ℕ) (es : List Ends) →
        count_below inside n ≤ rank_in inside n es + 1 →
        (u v : ℕ) → u < n → v < n → IsTrue (inside u) → IsTrue (inside v) →
        IsTrue (is_joined es u v) }
    ensures rank { (inside : ℕ → Bool) (n : ℕ) (es : List Ends) (m : ℕ) → m < n → IsTrue (inside m) →
        ((u : ℕ) → u < n → IsTrue (inside u) → IsTrue (is_joined es u m)) →
        rank_in inside n es + 1 ≡ count_below inside n }
{}

/// Where no branch leads out of a set, the ranks in the set and in the others add up, and in the
/// set the branches that lie there join what all join.
pub fn rank_of_separate_set()
    ensures sum { (inside : ℕ → Bool) (n : ℕ) (es : List Ends) → IsSeparate inside es →
        rank n es ≡ rank_in inside n es + rank_in (λ u. not (inside u)) n es }
    ensures joined { (inside : ℕ → Bool) (es : List Ends) → IsSeparate inside es →
        (u v : ℕ) → IsTrue (inside u) → IsTrue (is_joined es u v) →
        IsTrue (is_joined (kept_in inside es) u v) }
    ensures rank { (inside : ℕ → Bool) (n : ℕ) (es : List Ends) → IsSeparate inside es →
        rank_in inside n (kept_in inside es) ≡ rank_in inside n es }
{}
