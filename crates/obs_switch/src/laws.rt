// The laws of buses.
ghost use Rattle.std.specs.Prelude.{◌≡◌, ◌≢◌, ◌↔◌, ◌<◌, ◌≤◌, ◌++◌, ◌∷◌, ℕ, List, slice_index, length};
ghost use Rattle.obs_graph.specs.inner.Joined.{IsMerging};
ghost use Rattle.obs_switch.specs.declared.link.Link.{Link};
ghost use Rattle.obs_switch.specs.Buses.{AreOneBus, bus_of, bus_count, buses_of, first_node, members_of};
ghost use Rattle.obs_switch.specs.inner.Buses.{bus_under};

/// Two nodes have one bus exactly where a chain of closed switches leads from the one to the other.
pub fn one_bus_by_chain()
    ensures bus { (links : List Link) (u v : ℕ) → (bus_of links u ≡ bus_of links v) ↔ AreOneBus links u v }
{}

/// The first node of a bus is one of its nodes, and none of them stands before it.
pub fn first_node_is_lowest()
    ensures one_bus { (links : List Link) (u : ℕ) → AreOneBus links u (first_node links u) }
    ensures lowest { (links : List Link) (u v : ℕ) → AreOneBus links u v → first_node links u ≤ v }
{}

/// Buses are numbered in the order of their first nodes, from 0, and each number is that of a bus.
pub fn buses_by_first_nodes()
    ensures order { (links : List Link) (u v : ℕ)
        → first_node links u < first_node links v → bus_of links u < bus_of links v }
    ensures below { (nodes : ℕ) (links : List Link) (u : ℕ) → u < nodes → bus_of links u < bus_count nodes links }
    ensures each { (nodes : ℕ) (links : List Link) (bus : ℕ)
        → bus < bus_count nodes links → (u : ℕ) × (u < nodes) × (bus_of links u ≡ bus) }
{}

/// The first member of a node's bus is the first node of that bus, and there is one.
pub fn first_member_names_the_bus()
    ensures some { (nodes : ℕ) (links : List Link) (u : ℕ) → u < nodes
        → 0 < length (members_of (buses_of nodes links) (bus_of links u)) }
    ensures named { (nodes : ℕ) (links : List Link) (u : ℕ) → u < nodes
        → slice_index (members_of (buses_of nodes links) (bus_of links u)) 0 ≡ first_node links u }
{}

/// One closed switch more, between two nodes of one bus, leaves the buses. Between nodes of two buses it makes these
/// one: each bus has a new name, that of the bus after in which its first node lies, and all its nodes with it.
pub fn one_link_more()
    ensures same { (nodes : ℕ) (xs : List Link) (l : Link) (ys : List Link) → l.from < nodes → l.to < nodes →
        bus_of (xs ++ ys) l.from ≡ bus_of (xs ++ ys) l.to →
        buses_of nodes (xs ++ l ∷ ys) ≡ buses_of nodes (xs ++ ys) }
    ensures merged { (nodes : ℕ) (xs : List Link) (l : Link) (ys : List Link) → l.from < nodes → l.to < nodes →
        bus_of (xs ++ ys) l.from ≢ bus_of (xs ++ ys) l.to →
        IsMerging (bus_count nodes (xs ++ ys)) (bus_count nodes (xs ++ l ∷ ys)) (bus_of (xs ++ ys) l.from)
        (bus_of (xs ++ ys) l.to) (bus_under nodes (xs ++ ys) (xs ++ l ∷ ys)) }
    ensures named { (nodes : ℕ) (xs : List Link) (l : Link) (ys : List Link) (u : ℕ) →
        l.from < nodes → l.to < nodes → u < nodes →
        bus_of (xs ++ l ∷ ys) u ≡ bus_under nodes (xs ++ ys) (xs ++ l ∷ ys) (bus_of (xs ++ ys) u) }
{}
