// The laws of networks.
ghost use Rattle.std.specs.Prelude.{◌≡◌, ◌≢◌, ◌↔◌, ◌⊎◌, ◌<◌, ◌≤◌, ◌+◌, ◌-◌, ℕ, Bool, true, false, List, Some, None, [], IsSome, IsTrue, Contains, length, filter, sum_by, slice_index, slice_index_or, slice_set};
ghost use Rattle.std.specs.List.{range_with_len};
ghost use Rattle.obs_graph.specs.declared.Ends.{Ends};
ghost use Rattle.obs_graph.specs.Joined.{is_joined};
ghost use Rattle.obs_graph.specs.Positions.{AreBranches, IsForestAt, present};
ghost use Rattle.obs_switch.specs.declared.link.Link.{Link};
ghost use Rattle.obs_switch.specs.Buses.{AreOneBus, bus_of, ends_of_links};
ghost use Rattle.obs_case.specs.declared.rows.Node.{Node};
ghost use Rattle.obs_case.specs.Flags.{with_branch_inservice, with_closed, with_meter_inservice};
ghost use Rattle.obs_case.specs.Items.{angle_position, is_angle};
ghost use Rattle.obs_case.specs.Tables.{IsValid, Tables};
ghost use Rattle.obs_matroid.specs.Lists.{In, IsRising};
ghost use Rattle.obs_matroid.specs.Assignments.{Pair};
ghost use Rattle.obs_matroid.specs.inner.Components.{IsSumOfKinds};
ghost use Rattle.obs_meter.specs.declared.Touch.{Touch};
ghost use Rattle.obs_meter.specs.declared.Touch.TheVariants.{Nothing};
ghost use Rattle.obs_meter.specs.Assignments.{IsAssignmentAt, IsRhoAt, rho_at};
ghost use Rattle.obs_meter.specs.Spanned.{graph_matroid, rank_at};
ghost use Rattle.obs_meter.specs.Touches.{touch_at};
ghost use Rattle.obs_meter.specs.inner.Touches.{AreInRange};
ghost use Rattle.obs_network.specs.Switched.{case_bus_count, case_buses, closed_links};
ghost use Rattle.obs_network.specs.inner.Switched.{IsClosedSwitch};
ghost use Rattle.obs_network.specs.Components.{component_count, component_of, components_of, first_bus, first_buses_of, is_absolute_node, is_marked, is_source, marked_nodes, need_of, needed_of, sizes_of};
ghost use Rattle.obs_network.specs.inner.Components.{AreOneComponent, is_energised, source_nodes};
ghost use Rattle.obs_network.specs.Located.{component_of_item};
ghost use Rattle.obs_network.specs.inner.Located.{component_of_branch, live_meters_of};
ghost use Rattle.obs_network.specs.Network.{Network, case_branches, case_component_count, case_components, case_live, case_meters, case_need, case_needed, case_offered, case_rows, case_sizes, case_vertex_component, case_vertex_count, network_of, rows_of};
ghost use Rattle.obs_network.specs.inner.Edited.{AreKept, AreMerged, ArePresent, AreSameBut, IsOneMerge, IsReferenceMerge};
ghost use Rattle.obs_network.specs.Parted.{outage_case};
ghost use Rattle.obs_network.specs.inner.Parted.{AreJoinedWithout, HasSource, HasSourceBeside, IsParted, StaysJoined};
ghost use Rattle.obs_network.specs.Observable.{IsObservableCase, branch_component, case_live_meters, case_rank, is_absolute_component, is_energised_component, item_component};
ghost use Rattle.obs_network.specs.inner.Standing.{HasMarkedNode, IsPresentAngle, IsPresentRow, Touches};
ghost use Rattle.obs_network.specs.inner.Plain.{HasNoAbsolute, other_touches_in_order, touches_in_order, without_angles};

/// Two nodes have one bus exactly where the closed switches, as branches between nodes, join them: where a chain of closed
/// switches of the case leads from the one to the other.
pub fn bus_is_what_switches_join()
    ensures joined { (links : List Link) (u v : ℕ) →
        (bus_of links u ≡ bus_of links v) ↔ IsTrue (is_joined (ends_of_links links) u v) }
    ensures of_case { (t : Tables) (u v : ℕ) → u < length t.nodes → v < length t.nodes →
        (slice_index (case_buses t) u ≡ slice_index (case_buses t) v) ↔ AreOneBus (closed_links t.switches) u v }
    ensures closed { (t : Tables) (l : Link) →
        Contains (closed_links t.switches) l ↔ IsClosedSwitch t.switches l }
{}

/// Two buses have one component exactly where a chain of live branches leads from the one to the other.
pub fn one_component_by_chain()
    ensures component { (live : List Ends) (b c : ℕ) →
        (component_of live b ≡ component_of live c) ↔ AreOneComponent live b c }
    ensures of_case { (t : Tables) (b c : ℕ) → b < case_bus_count t → c < case_bus_count t →
        (slice_index (case_components t) b ≡ slice_index (case_components t) c)
        ↔ AreOneComponent (present (case_live t)) b c }
{}

/// The first bus of a component is one of its buses, and none of them stands before it; it is noted at the
/// number of the component, and components are numbered in the order of their first buses.
pub fn components_by_first_buses()
    ensures one_component { (live : List Ends) (b : ℕ) → AreOneComponent live b (first_bus live b) }
    ensures lowest { (live : List Ends) (b c : ℕ) → AreOneComponent live b c → first_bus live b ≤ c }
    ensures noted { (n : ℕ) (live : List Ends) (b : ℕ) → b < n →
        slice_index (first_buses_of n live) (component_of live b) ≡ first_bus live b }
    ensures order { (live : List Ends) (b c : ℕ) →
        first_bus live b < first_bus live c → component_of live b < component_of live c }
    ensures below { (n : ℕ) (live : List Ends) (b : ℕ) → b < n → component_of live b < component_count n live }
    ensures count { (n : ℕ) (live : List Ends) → length (first_buses_of n live) ≡ component_count n live }
{}

/// Each component has a bus.
pub fn components_have_buses()
    ensures some { (n : ℕ) (live : List Ends) (c : ℕ) → c < component_count n live →
        0 < slice_index (sizes_of (component_count n live) (components_of n live)) c }
{}

/// A component is energised exactly where one of its nodes is a source, and absolute exactly where one of them is marked
/// absolute.
pub fn energised_by_a_source()
    ensures source { (components buses : List ℕ) (nodes : List Node) (c : ℕ) →
        (is_energised components buses nodes c ≡ true)
        ↔ (u : ℕ) × Contains (source_nodes nodes) u × (slice_index components (slice_index buses u) ≡ c) }
    ensures absolute { (components buses : List ℕ) (nodes : List Node) (c : ℕ) →
        (is_marked is_absolute_node components buses nodes c ≡ true)
        ↔ (u : ℕ) × Contains (marked_nodes is_absolute_node nodes) u
        × (slice_index components (slice_index buses u) ≡ c) }
    ensures of_case { (t : Tables) (c : ℕ) → c < case_component_count t →
        (is_energised_component t c ≡ true) ↔ HasMarkedNode is_source t c }
    ensures absolute_of_case { (t : Tables) (c : ℕ) → c < case_component_count t →
        (is_absolute_component t c ≡ true) ↔ HasMarkedNode is_absolute_node t c }
{}

/// The needed number is the sum of what the energised components need.
pub fn needed_is_a_sum()
    ensures sum { (sizes : List ℕ) (energised absolute : List Bool) (count : ℕ) →
        needed_of sizes energised absolute count
        ≡ sum_by (need_of sizes absolute) (filter (λ c. slice_index_or energised c false) (range_with_len 0 count)) }
{}

/// The branches of a network have two different vertices as their ends, and what items touch is in its range.
pub fn network_is_in_range()
    ensures branches { (t : Tables) → IsValid t → AreBranches (case_vertex_count t) (case_branches t) }
    ensures meters { (t : Tables) → IsValid t → AreInRange (network_of t).graph (case_meters t) }
    ensures offered { (t : Tables) → IsValid t → AreInRange (network_of t).graph (case_offered t) }
{}

/// All that an item touches lies in one component, and no branches of other components help to join the ends of
/// a branch.
pub fn items_lie_in_one_component()
    ensures item { (t : Tables) → IsValid t → (touches : List Touch) (m e : ℕ) →
        In e (touch_at (case_branches t) touches m) → branch_component t e ≡ item_component t touches m }
    ensures sum { (t : Tables) → IsValid t →
        IsSumOfKinds (graph_matroid (case_vertex_count t) (case_branches t)) (branch_component t) }
{}

/// No assignment has more pairs than the needed number, and a case is observable exactly where an assignment of
/// its live meters has as many.
pub fn observable_by_rank()
    ensures at_most { (t : Tables) → IsValid t → (touches : List Touch) (M : List ℕ) (A : List Pair) →
        IsAssignmentAt (case_branches t) touches M A → length A ≤ case_needed t }
    ensures rank { (t : Tables) → IsValid t →
        IsObservableCase t ↔ IsRhoAt (case_branches t) (case_meters t) (case_live_meters t) (case_needed t) }
    ensures computed { (t : Tables) → IsValid t →
        IsObservableCase t
        ↔ (rho_at (case_vertex_count t) (case_branches t) (case_meters t) (case_live_meters t) ≡ case_needed t) }
{}

/// A case without an energised component is observable.
pub fn nothing_energised_is_observable()
    ensures observable { (t : Tables) →
        ((c : ℕ) → c < case_component_count t → is_energised_component t c ≡ false) → IsObservableCase t }
{}

/// An angle item touches no other branch than its angle branch, which stands behind the rows of the branch table at the
/// item's number. Any other item touches rows of the branch table alone.
pub fn positions_of_items()
    ensures angle { (t : Tables) → IsValid t → (m e : ℕ) → In e (touch_at (case_branches t) (case_offered t) m) →
        is_angle t m ≡ true → e ≡ angle_position t m }
    ensures row { (t : Tables) → IsValid t → (m e : ℕ) → In e (touch_at (case_branches t) (case_offered t) m) →
        is_angle t m ≡ false → e < length t.branches }
{}

/// A row of the branch table is present exactly where it is in service and its two nodes lie on different buses of an
/// energised component; these buses are its ends. The branch of an angle item is present exactly where the component of
/// the bus of its node is energised and absolute. An item touches a branch exactly where it counts, the branch is present,
/// and the item stands at it: a flow at its own row, an injection or a zero at each row at the bus of its node, and an
/// angle at its angle branch.
pub fn items_touch_what_they_stand_at()
    ensures rows { (t : Tables) (e : ℕ) (ends : Ends) → e < length t.branches →
        (slice_index_or (case_branches t) e None ≡ Some ends) ↔ IsPresentRow t e ends }
    ensures angles { (t : Tables) → IsValid t → (m : ℕ) (ends : Ends) →
        (slice_index_or (case_branches t) (angle_position t m) None ≡ Some ends) ↔ IsPresentAngle t m ends }
    ensures touched { (t : Tables) (m e : ℕ) →
        In e (touch_at (case_branches t) (case_offered t) m) ↔ Touches t m e }
{}

/// Where no node is marked absolute, each component needs one pair fewer than it has buses, no angle branch is present,
/// and the items of other kinds touch, one after another, what the items of the case without its angle items touch. The
/// rows of the branch table that are present don't depend on items.
pub fn without_absolute_nodes()
    ensures needs { (t : Tables) → HasNoAbsolute t → (c : ℕ) → case_need t c ≡ slice_index (case_sizes t) c - 1 }
    ensures angles { (t : Tables) → HasNoAbsolute t → (e : ℕ) → length t.branches ≤ e →
        slice_index_or (case_branches t) e None ≡ None }
    ensures touches { (t : Tables) → HasNoAbsolute t →
        other_touches_in_order t ≡ touches_in_order (without_angles t) }
    ensures rows { (t : Tables) → case_rows (without_angles t) ≡ case_rows t }
{}

/// A new flag leaves the numbers of rows.
pub fn flags_keep_rows()
    ensures switch { (t : Tables) (at : ℕ) (closed : Bool) → rows_of (with_closed t at closed) ≡ rows_of t }
    ensures branch { (t : Tables) (at : ℕ) (inservice : Bool) →
        rows_of (with_branch_inservice t at inservice) ≡ rows_of t }
    ensures meter { (t : Tables) (at : ℕ) (inservice : Bool) →
        rows_of (with_meter_inservice t at inservice) ≡ rows_of t }
{}

/// A branch put in service or taken out leaves the buses. Between a branch out of service and the same branch in
/// service, the reference vertices of its ends' components become one, all other vertices keep apart, and the ends of
/// branches follow.
pub fn a_branch_keeps_buses()
    ensures buses { (t : Tables) (at : ℕ) (inservice : Bool) →
        case_buses (with_branch_inservice t at inservice) ≡ case_buses t }
    ensures merged { (t : Tables) → IsValid t → (at : ℕ) → at < length t.branches →
        IsReferenceMerge (with_branch_inservice t at false) (with_branch_inservice t at true) }
{}

/// A meter put in service or taken out leaves the buses and all branches, merges no vertices, and changes what it
/// touches itself alone.
pub fn a_meter_changes_its_touch()
    ensures kept { (t : Tables) → IsValid t → (at : ℕ) (inservice : Bool) →
        AreKept t (with_meter_inservice t at inservice) }
    ensures merged { (t : Tables) → IsValid t → (at : ℕ) (inservice : Bool) →
        AreMerged t (with_meter_inservice t at inservice) [] }
    ensures branches { (t : Tables) (at : ℕ) (inservice : Bool) →
        case_branches (with_meter_inservice t at inservice) ≡ case_branches t }
    ensures meters { (t : Tables) (at : ℕ) (inservice : Bool) →
        case_meters (with_meter_inservice t at inservice)
        ≡ slice_set (case_meters t) at (slice_index_or (case_meters (with_meter_inservice t at inservice)) at Nothing) }
    ensures offered { (t : Tables) (at : ℕ) (inservice : Bool) → at < length t.meters →
        case_offered (with_meter_inservice t at inservice)
        ≡ slice_set (case_offered t) at
        (slice_index_or (case_meters (with_meter_inservice t at inservice)) at Nothing) }
{}

/// Between a switch open and the same switch closed, the buses, the vertices and the ends of branches are the same, or
/// two buses become one, and so do the reference vertices of their components; all other vertices keep apart, and the
/// ends of branches follow. A switch is open or closed.
pub fn a_switch_merges_two_buses()
    ensures closing { (t : Tables) → IsValid t → (at : ℕ) →
        (AreKept (with_closed t at false) (with_closed t at true)
        × AreMerged (with_closed t at false) (with_closed t at true) [])
        ⊎ IsOneMerge (with_closed t at false) (with_closed t at true) }
    ensures as_it_is { (t : Tables) (at : ℕ) → (t ≡ with_closed t at false) ⊎ (t ≡ with_closed t at true) }
{}

/// Positions of a forest that stay present are a forest after an edit. Where a switch is closed, all but one of them
/// still count in their rank.
pub fn forests_after_edits()
    ensures branch { (t : Tables) → IsValid t → (at : ℕ) (inservice : Bool) (L : List ℕ) →
        IsForestAt (case_branches t) L → ArePresent (case_branches (with_branch_inservice t at inservice)) L →
        IsForestAt (case_branches (with_branch_inservice t at inservice)) L }
    ensures meter { (t : Tables) → IsValid t → (at : ℕ) (inservice : Bool) (L : List ℕ) →
        IsForestAt (case_branches t) L → ArePresent (case_branches (with_meter_inservice t at inservice)) L →
        IsForestAt (case_branches (with_meter_inservice t at inservice)) L }
    ensures opened { (t : Tables) → IsValid t → (at : ℕ) (L : List ℕ) →
        IsForestAt (case_branches t) L → ArePresent (case_branches (with_closed t at false)) L →
        IsForestAt (case_branches (with_closed t at false)) L }
    ensures closed { (t : Tables) → IsValid t → (at : ℕ) (L : List ℕ) →
        IsForestAt (case_branches t) L → ArePresent (case_branches (with_closed t at true)) L →
        length L ≤ rank_at (case_vertex_count (with_closed t at true)) (case_branches (with_closed t at true)) L + 1 }
    ensures rank { (t : Tables) → IsValid t → (L : List ℕ) → IsForestAt (case_branches t) L →
        rank_at (case_vertex_count t) (case_branches t) L ≡ length L }
{}

/// Both ends of a branch lie in its component, which is energised. An absent branch has none.
pub fn components_of_branches()
    ensures ends { (t : Tables) → IsValid t → (e : ℕ) (ends : Ends) →
        slice_index_or (case_branches t) e None ≡ Some ends →
        (component_of_branch (network_of t) e ≡ Some (case_vertex_component t ends.a))
        × (component_of_branch (network_of t) e ≡ Some (case_vertex_component t ends.b)) }
    ensures absent { (t : Tables) (e : ℕ) → slice_index_or (case_branches t) e None ≡ None →
        component_of_branch (network_of t) e ≡ None }
    ensures energised { (t : Tables) → IsValid t → (e c : ℕ) → component_of_branch (network_of t) e ≡ Some c →
        (c < case_component_count t) × (is_energised_component t c ≡ true) }
{}

/// An item lies in the component of each branch that it touches, and in none where it touches nothing. A meter is the
/// item of its number.
pub fn components_of_items()
    ensures touching { (t : Tables) → IsValid t → (m e : ℕ) → In e (touch_at (case_branches t) (case_offered t) m) →
        component_of_item (network_of t) m ≡ component_of_branch (network_of t) e }
    ensures idle { (t : Tables) (m : ℕ) → touch_at (case_branches t) (case_offered t) m ≡ [] →
        component_of_item (network_of t) m ≡ None }
    ensures meters { (t : Tables) (m : ℕ) → m < length t.meters →
        slice_index_or (case_offered t) m Nothing ≡ slice_index_or (case_meters t) m Nothing }
{}

/// The live meters of a component are exactly those that touch one of its branches. They rise, so that none stands
/// twice, and each live meter of a case is in the list of exactly one component.
pub fn live_meters_by_component()
    ensures exactly { (t : Tables) → IsValid t → (c m : ℕ) →
        In m (live_meters_of (network_of t) c)
        ↔ (e : ℕ) × In e (touch_at (case_branches t) (case_meters t) m)
        × (component_of_branch (network_of t) e ≡ Some c) }
    ensures rising { (n : Network) (c : ℕ) → IsRising (live_meters_of n c) }
    ensures some_list { (t : Tables) → IsValid t → (m : ℕ) → In m (case_live_meters t) →
        (c : ℕ) × (c < case_component_count t) × In m (live_meters_of (network_of t) c) }
    ensures one_list { (n : Network) (c d m : ℕ) →
        In m (live_meters_of n c) → In m (live_meters_of n d) → c ≡ d }
{}

/// Where a branch goes out of service, each branch that is present was present, and what a meter touches it touched.
pub fn an_outage_takes_away()
    ensures present { (t : Tables) → IsValid t → (at e : ℕ) →
        IsSome (slice_index_or (case_branches (outage_case t at)) e None) →
        IsSome (slice_index_or (case_branches t) e None) }
    ensures touched { (t : Tables) → IsValid t → (at m e : ℕ) →
        In e (touch_at (case_branches (outage_case t at)) (case_meters (outage_case t at)) m) →
        In e (touch_at (case_branches t) (case_meters t) m) }
{}

/// Where the ends of a live branch stay joined without it, its outage changes nothing but this branch. They do where the
/// other rows join them.
pub fn an_outage_between_joined_ends()
    ensures same { (t : Tables) → IsValid t → (at : ℕ) → at < length t.branches → StaysJoined t at →
        AreSameBut at (network_of t) (network_of (outage_case t at)) }
    ensures absent { (t : Tables) → IsValid t → (at : ℕ) → at < length t.branches → StaysJoined t at →
        slice_index_or (case_branches (outage_case t at)) at None ≡ None }
    ensures by_rows { (t : Tables) → IsValid t → (at : ℕ) → IsSome (slice_index_or (case_rows t) at None) →
        AreJoinedWithout (case_rows t) at → StaysJoined t at }
{}

/// Where an outage parts the buses of a component that isn't absolute, the needed number falls by one where both sides have
/// a source, and else by the number of buses of the side that has none. The rank falls by no more than the needed number
/// does; so an observable case stays observable. Where the needed number falls by one, no meter loses another branch.
pub fn an_outage_parts_a_component()
    ensures both { (t : Tables) → IsValid t → (e c : ℕ) (side : List ℕ) → IsParted t e c side →
        HasSource t side → HasSourceBeside t c side → case_needed (outage_case t e) + 1 ≡ case_needed t }
    ensures listed { (t : Tables) → IsValid t → (e c : ℕ) (side : List ℕ) → IsParted t e c side →
        (HasSource t side → ⊥) → case_needed (outage_case t e) + length side ≡ case_needed t }
    ensures other { (t : Tables) → IsValid t → (e c : ℕ) (side : List ℕ) → IsParted t e c side →
        (HasSourceBeside t c side → ⊥) →
        case_needed (outage_case t e) + (slice_index (case_sizes t) c - length side) ≡ case_needed t }
    ensures size { (t : Tables) → IsValid t → (e c : ℕ) (side : List ℕ) → IsParted t e c side →
        length side ≤ slice_index (case_sizes t) c }
    ensures rank { (t : Tables) → IsValid t → (e c : ℕ) (side : List ℕ) → IsParted t e c side →
        case_rank t + case_needed (outage_case t e) ≤ case_rank (outage_case t e) + case_needed t }
    ensures observable { (t : Tables) → IsValid t → (e c : ℕ) (side : List ℕ) → IsParted t e c side →
        IsObservableCase t → IsObservableCase (outage_case t e) }
    ensures alone { (t : Tables) → IsValid t → (e c : ℕ) (side : List ℕ) → IsParted t e c side →
        case_needed (outage_case t e) + 1 ≡ case_needed t → (m k : ℕ) → k ≢ e →
        In k (touch_at (case_branches t) (case_meters t) m) →
        In k (touch_at (case_branches (outage_case t e)) (case_meters (outage_case t e)) m) }
{}
