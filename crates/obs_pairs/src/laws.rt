// The laws of partners and their classes.
ghost use Rattle.std.specs.Prelude.{◌≡◌, ◌≢◌, ◌↔◌, ◌⊎◌, ℕ, true, false, Option, List};
ghost use Rattle.obs_graph.specs.declared.Ends.{Ends};
ghost use Rattle.obs_graph.specs.Positions.{AreBranches};
ghost use Rattle.obs_matroid.specs.Lists.{In, IsDistinct, without};
ghost use Rattle.obs_meter.specs.declared.Touch.{Touch};
ghost use Rattle.obs_meter.specs.Touches.{is_live, live_items};
ghost use Rattle.obs_exchange.specs.Critical.{IsCriticalAt, critical_at};
ghost use Rattle.obs_pairs.specs.Partners.{class_at};
ghost use Rattle.obs_pairs.specs.inner.Partners.{ArePartnersAt, IsFirstOfClass, partner_at};

/// The computed partners are the meters without which, both lost, the greatest length falls, though neither is
/// critical. In any list of meters the partners of one that isn't critical are those that become critical without it.
pub fn partners()
    ensures computed { (n : ℕ) (ends : List (Option Ends)) (touches : List Touch) (m k : ℕ) → AreBranches n ends →
        (partner_at n ends touches m k ≡ true) ↔ ArePartnersAt ends touches (live_items ends touches) m k }
    ensures newly_critical { (n : ℕ) (ends : List (Option Ends)) (touches : List Touch) (M : List ℕ) (m k : ℕ) →
        AreBranches n ends → IsDistinct M → In m M → (IsCriticalAt ends touches M m → ⊥) →
        (IsCriticalAt ends touches (without m M) k × (IsCriticalAt ends touches M k → ⊥))
        ↔ ArePartnersAt ends touches M m k }
{}

/// In any list of meters a partner is one both ways, and different partners of one meter are partners of each other. So
/// classes are a partition: two meters have one class exactly where they are the same or partners. Each class is named by
/// its first meter.
pub fn classes_are_a_partition()
    ensures both_ways { (n : ℕ) (ends : List (Option Ends)) (touches : List Touch) (M : List ℕ) (m k : ℕ) →
        AreBranches n ends → IsDistinct M → ArePartnersAt ends touches M m k → ArePartnersAt ends touches M k m }
    ensures together { (n : ℕ) (ends : List (Option Ends)) (touches : List Touch) (M : List ℕ) (m k x : ℕ) →
        AreBranches n ends → IsDistinct M → ArePartnersAt ends touches M m k → ArePartnersAt ends touches M m x →
        k ≢ x → ArePartnersAt ends touches M k x }
    ensures classes { (n : ℕ) (ends : List (Option Ends)) (touches : List Touch) (m k : ℕ) → AreBranches n ends →
        (class_at n ends touches m ≡ class_at n ends touches k)
        ↔ ((m ≡ k) ⊎ ArePartnersAt ends touches (live_items ends touches) m k) }
    ensures alone { (n : ℕ) (ends : List (Option Ends)) (touches : List Touch) (m : ℕ) → AreBranches n ends →
        (is_live ends touches m ≡ false) ⊎ (critical_at n ends touches m ≡ true) →
        class_at n ends touches m ≡ m }
    ensures named { (n : ℕ) (ends : List (Option Ends)) (touches : List Touch) (m : ℕ) → AreBranches n ends →
        IsFirstOfClass ends touches (live_items ends touches) m (class_at n ends touches m) }
{}
