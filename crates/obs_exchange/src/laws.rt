// The laws of critical meters, of tight lists and of closed sets.
ghost use Rattle.std.specs.Prelude.{◌≡◌, ◌↔◌, ◌≤◌, ℕ, Bool, true, false, Option, List, filter, length};
ghost use Rattle.obs_graph.specs.declared.Ends.{Ends};
ghost use Rattle.obs_graph.specs.Positions.{AreBranches};
ghost use Rattle.obs_graph.specs.Graph.{Graph};
ghost use Rattle.obs_matroid.specs.Assignments.{Pair};
ghost use Rattle.obs_matroid.specs.inner.Assignments.{part};
ghost use Rattle.obs_matroid.specs.inner.Closed.{Extends};
ghost use Rattle.obs_matroid.specs.inner.Components.{is_of};
ghost use Rattle.obs_matroid.specs.Lists.{In, IsDistinct};
ghost use Rattle.obs_meter.specs.declared.Touch.{Touch};
ghost use Rattle.obs_meter.specs.Assignments.{IsAssignmentAt, IsRhoAt};
ghost use Rattle.obs_meter.specs.inner.Assignments.{bound_at};
ghost use Rattle.obs_meter.specs.Touches.{every_item, is_live, live_items};
ghost use Rattle.obs_assign.specs.Assignment.{Assignment};
ghost use Rattle.obs_assign.specs.inner.Assignment.{IsWhole, StandsOver, is_frozen, pairs};
ghost use Rattle.obs_exchange.specs.declared.Found.{Found};
ghost use Rattle.obs_exchange.specs.declared.Sources.{Sources};
ghost use Rattle.obs_exchange.specs.Critical.{IsCriticalAt, critical_at};
ghost use Rattle.obs_exchange.specs.inner.Found.{AddsSource, HasGrown, IsFound};
ghost use Rattle.obs_exchange.specs.Laws.{noncritical_in};
ghost use Rattle.obs_exchange.specs.inner.Laws.{HasClosedSet, HoldsNonCritical, IsThawed, JoinsWithinKinds, TouchesOneKind};

/// The computed critical meters are those without which the greatest length over the live meters falls.
pub fn critical()
    ensures exactly { (n : ℕ) (ends : List (Option Ends)) (touches : List Touch) (m : ℕ) → AreBranches n ends →
        (critical_at n ends touches m ≡ true)
        ↔ ((is_live ends touches m ≡ true) × IsCriticalAt ends touches (live_items ends touches) m) }
{}

/// Over different items the bound of those that aren't critical is the greatest length, and every list with that bound
/// holds all of them. `noncritical_in` computes them.
pub fn least_tight()
    ensures computed { (n : ℕ) (ends : List (Option Ends)) (touches : List Touch) (M : List ℕ) →
        AreBranches n ends → IsDistinct M → HoldsNonCritical ends touches M (noncritical_in n ends touches M) }
    ensures tight { (n : ℕ) (ends : List (Option Ends)) (touches : List Touch) (M : List ℕ) (S : ℕ → Bool) →
        AreBranches n ends → IsDistinct M → HoldsNonCritical ends touches M S →
        IsRhoAt ends touches M (bound_at n ends touches S M) }
    ensures least { (n : ℕ) (ends : List (Option Ends)) (touches : List Touch) (M : List ℕ) (J : ℕ → Bool) →
        AreBranches n ends → IsDistinct M → IsRhoAt ends touches M (bound_at n ends touches J M) →
        (m : ℕ) → In m M → (IsCriticalAt ends touches M m → ⊥) → J m ≡ true }
{}

/// Where a search from all sources ends with a closed set and nothing is frozen, the pairs are as many as they can be,
/// and the closed set holds just the live meters that aren't critical.
pub fn closed_is_longest()
    ensures longest { (a : Assignment) (g : Graph) (touches : List Touch) (S : ℕ → Bool) →
        HasClosedSet a g touches S → IsThawed a →
        IsRhoAt g.ends touches (live_items g.ends touches) (length (pairs a)) }
    ensures noncritical { (a : Assignment) (g : Graph) (touches : List Touch) (S : ℕ → Bool) →
        HasClosedSet a g touches S → IsThawed a → (m : ℕ) →
        (S m ≡ true) ↔ ((is_live g.ends touches m ≡ true) × (critical_at g.vertices g.ends touches m ≡ false)) }
{}

/// Then the bound of the closed set is the number of pairs, over the live meters and over those of each component, and
/// no assignment has more pairs of meters of a component. `kind` is the component of a branch and `of` that of a meter.
pub fn closed_is_tight()
    ensures whole { (a : Assignment) (g : Graph) (touches : List Touch) (S : ℕ → Bool) →
        HasClosedSet a g touches S → IsThawed a →
        bound_at g.vertices g.ends touches S (live_items g.ends touches) ≡ length (pairs a) }
    ensures component { (a : Assignment) (g : Graph) (touches : List Touch)
        (S : ℕ → Bool) (kind of : ℕ → ℕ) →
        HasClosedSet a g touches S → IsThawed a →
        JoinsWithinKinds g.ends kind → TouchesOneKind g.ends touches kind of → (K : ℕ) →
        bound_at g.vertices g.ends touches S (filter (is_of of K) (live_items g.ends touches))
        ≡ length (part (is_of of K) (pairs a)) }
    ensures none_longer { (a : Assignment) (g : Graph) (touches : List Touch)
        (S : ℕ → Bool) (kind of : ℕ → ℕ) →
        HasClosedSet a g touches S → IsThawed a →
        JoinsWithinKinds g.ends kind → TouchesOneKind g.ends touches kind of → (K : ℕ) (B : List Pair) →
        IsAssignmentAt g.ends touches (every_item touches) B →
        length (part (is_of of K) B) ≤ length (part (is_of of K) (pairs a)) }
{}

/// Where some pairs are frozen, no assignment that has these is longer.
pub fn closed_with_frozen()
    ensures none_longer { (a : Assignment) (g : Graph) (touches : List Touch)
        (S : ℕ → Bool) →
        HasClosedSet a g touches S → (B : List Pair) →
        IsAssignmentAt g.ends touches (every_item touches) B → Extends (is_frozen a) (pairs a) B →
        length B ≤ length (pairs a) }
{}

/// An assignment that has grown adds a source: so a search finds no pair more exactly where no assignment adds one.
pub fn grown_adds_source()
    ensures adds { (a b : Assignment) (g : Graph) (touches : List Touch) (from : Sources) (m : ℕ) →
        IsWhole b → StandsOver b g touches → HasGrown g.ends touches from a b m →
        AddsSource g.ends touches from a (pairs b) }
    ensures closed { (a b : Assignment) (g : Graph) (touches : List Touch) (from : Sources)
        (flags : List Bool) (answer : Found) →
        IsWhole b → StandsOver b g touches → IsFound g.ends touches from a b flags answer →
        (answer ≡ Found.Closed) ↔ ((B : List Pair) → AddsSource g.ends touches from a B → ⊥) }
{}
