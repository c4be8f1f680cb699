// The laws of islands.
ghost use Rattle.std.specs.Prelude.{◌≡◌, ◌<◌, ◌↔◌, ℕ, Bool, true, [], Option, List};
ghost use Rattle.obs_graph.specs.declared.Ends.{Ends};
ghost use Rattle.obs_graph.specs.Positions.{AreBranches, branches_at};
ghost use Rattle.obs_meter.specs.declared.Touch.{Touch};
ghost use Rattle.obs_islands.specs.Firsts.{island_first};
ghost use Rattle.obs_islands.specs.inner.Firsts.{BetweenIslandsRaise};
ghost use Rattle.obs_islands.specs.Islands.{IsFirstIn, IsIslandAt, IsOnlyIslandOf};

/// Each vertex lies in exactly one island.
pub fn islands_partition()
    ensures partition { (n : ℕ) (ends : List (Option Ends)) (touches : List Touch) (v : ℕ) →
        AreBranches n ends → v < n →
        (S : ℕ → Bool) × IsOnlyIslandOf n ends touches v S }
{}

/// Of each vertex of an island `island_first` is the island's first vertex. Two vertices have the same one exactly
/// where some island has both.
pub fn first_of_island()
    ensures first { (n : ℕ) (ends : List (Option Ends)) (touches : List Touch) (v : ℕ) (S : ℕ → Bool) →
        AreBranches n ends →
        v < n → IsIslandAt n ends touches S → S v ≡ true → IsFirstIn n S (island_first n ends touches v) }
    ensures same { (n : ℕ) (ends : List (Option Ends)) (touches : List Touch) (u v : ℕ) →
        AreBranches n ends → u < n → v < n →
        (island_first n ends touches u ≡ island_first n ends touches v)
        ↔ ((S : ℕ → Bool) × IsIslandAt n ends touches S × (S u ≡ true) × (S v ≡ true)) }
{}

/// A vertex without a branch is an island of its own: it names its island, in which there is no other vertex.
pub fn lone_vertex()
    ensures lone { (n : ℕ) (ends : List (Option Ends)) (touches : List Touch) (v : ℕ) → AreBranches n ends → v < n →
        branches_at ends v ≡ [] → island_first n ends touches v ≡ v }
    ensures alone { (n : ℕ) (ends : List (Option Ends)) (touches : List Touch) (v u : ℕ) (S : ℕ → Bool) →
        AreBranches n ends →
        v < n → branches_at ends v ≡ [] → IsIslandAt n ends touches S → S v ≡ true → u < n → S u ≡ true → u ≡ v }
{}

/// An item behind the meters, as a candidate is, raises their greatest length by one exactly where it touches a branch
/// between two islands.
pub fn between_islands()
    ensures raised { BetweenIslandsRaise }
{}
