// Passes over the items of a claim, one clause each.
ghost use Rattle.std.specs.Prelude.{◌≡◌, ◌≤◌, ◌<◌, ◌^◌, ◌-◌, ◌+◌, [], ℕ, suc, List, flat_map, length, min, sum_by, take};
ghost use Rattle.obs_graph.specs.declared.Ends.{Ends};
ghost use Rattle.obs_case.specs.Tables.{IsValid};
ghost use Rattle.obs_network.specs.Network.{case_branches, case_vertex_room, network_of};
ghost use Rattle.obs_cert.specs.inner.Contractions.{IsContraction, contracted_ends, contracted_rank};
ghost use Rattle.obs_cert.specs.Flaws.{not_inside, twice, unknown_item};
ghost use Rattle.obs_cert.specs.inner.Hubs.{AreHubs};
ghost use Rattle.obs_cert.specs.inner.InScope.{in_scope};
ghost use Rattle.obs_cert.specs.inner.Joins.{AreFree, AreJoined, AreWays, onto};
ghost use Rattle.obs_cert.specs.inner.Marks.{AreBelow, is_marked};
ghost use Rattle.obs_cert.specs.Numbered.{items_of};
ghost use Rattle.obs_meter.specs.Lost.{is_listed};
ghost use Rattle.obs_cert.specs.Scopes.{item_touches, price_at};

use crate::contraction::Contraction;
use crate::hubs::{Hubs, is_repeated};
use crate::joins::{clear, join_all};
use crate::marks::mark;
use crate::numbers::{is_known, item_of};
use crate::scopes::{Scope, in_scope, price_at};
use crate::walk::Items;
use obs_case::Case;
use obs_network::Present;

/// Whether an item isn't in its table.
pub(crate) fn has_unknown(case: &Case, items: Items<'_>) -> bool
    ensures unknown { result ≡ unknown_item case.now items.entry }
{
    for item in items {
        if !is_known(case, item) {
            return true;
        }
    }
    false
}

/// Whether an item isn't one that the claim may speak of.
pub(crate) fn has_outside(present: &Present<'_>, scope: Scope<'_>, items: Items<'_>) -> bool
    ensures outside { result ≡ not_inside (in_scope present.now scope.entry) (items_of present.now items.entry) }
{
    let case = present.case();
    for item in items {
        if !in_scope(present, scope, item_of(case, item)) {
            return true;
        }
    }
    false
}

/// Whether an item stands twice. Marks them with the stamp.
pub(crate) fn has_twice(case: &Case, items: Items<'_>, marks: &mut [u32], stamp: u32) -> bool
    requires room { length case.now.meters + length case.now.candidates < length marks.old }
    requires fresh { AreBelow stamp marks.old }
    ensures twice { result ≡ twice (items_of case.now items.entry) }
    ensures marked { (x : ℕ) → is_marked marks.new stamp x ≡ is_listed (items_of case.now items.entry) x }
    ensures below { AreBelow (suc stamp) marks.new }
{
    let mut twice = false;
    for item in items {
        if mark(marks, stamp, item_of(case, item)) {
            twice = true;
        }
    }
    twice
}

/// How many items there are, counted on from a number, at most as many as can be counted.
pub(crate) fn count(items: Items<'_>, before: u32) -> u32
    ensures count { result ≡ min (before + length items.entry) (2 ^ 32 - 1) }
{
    let mut count = before;
    for _item in items {
        count = count.saturating_add(1);
    }
    count
}

/// What the items cost as candidates together, at most as much as can be counted.
pub(crate) fn cost(case: &Case, items: Items<'_>) -> u128
    ensures cost { result ≡ min (sum_by (price_at case.now) (items_of case.now items.entry)) (2 ^ 128 - 1) }
{
    let mut cost = 0u128;
    for item in items {
        cost = cost.saturating_add(u128::from(price_at(case, item_of(case, item))));
    }
    cost
}

// Joins what became of the ends of all branches that an item touches.
fn join_touched(
    present: &Present<'_>,
    m: u32,
    contraction: Contraction<'_>,
    ups: &mut [u32],
    moved: &mut [u32],
    count: usize,
) -> usize
    requires contraction { IsContraction present.now contraction }
    requires ways { AreWays ups.old moved.old count }
    requires vertices { (network_of present.now).graph.vertices ≤ length ups.old }
    ensures joined { (es : List Ends) → AreJoined es ups.old (take count moved.old) →
        AreJoined (onto (contracted_ends contraction.entry (case_branches present.now)) (item_touches present.now m) es) ups.new (take result moved.new) }
    ensures count { result ≤ length moved.new }
{
    let network = present.network();
    if m < network.offered().count() {
        let touched = network.offered().touch(network.graph(), m);
        join_all(network.graph(), touched, contraction, ups, moved, count)
    } else {
        count
    }
}

// Joins what became of the ends of all branches that an item touches, unless they are the rows at a vertex whose rows are
// joined.
fn join_item(
    present: &Present<'_>,
    m: u32,
    contraction: Contraction<'_>,
    hubs: &mut Hubs,
    ups: &mut [u32],
    moved: &mut [u32],
    count: usize,
) -> usize
    requires contraction { IsContraction present.now contraction }
    requires ways { AreWays ups.old moved.old count }
    requires vertices { (network_of present.now).graph.vertices ≤ length ups.old }
    requires hubs { AreHubs present.now contraction hubs.old.list ups.old }
    requires hub_room { length ups.old ≤ hubs.old.room }
    ensures joined { (es : List Ends) → AreJoined es ups.old (take count moved.old) →
        AreJoined (onto (contracted_ends contraction.entry (case_branches present.now)) (item_touches present.now m) es) ups.new (take result moved.new) }
    ensures count { result ≤ length moved.new }
    ensures hubs { AreHubs present.now contraction.entry hubs.new.list ups.new }
    ensures hub_room { hubs.new.room ≡ hubs.old.room }
{
    if is_repeated(present, m, hubs) {
        return count;
    }
    join_touched(present, m, contraction, ups, moved, count)
}

/// Joins what became of the ends of all branches that the items touch.
pub(crate) fn join_items(
    present: &Present<'_>,
    items: Items<'_>,
    contraction: Contraction<'_>,
    hubs: &mut Hubs,
    ups: &mut [u32],
    moved: &mut [u32],
    count: usize,
) -> usize
    requires contraction { IsContraction present.now contraction }
    requires ways { AreWays ups.old moved.old count }
    requires vertices { (network_of present.now).graph.vertices ≤ length ups.old }
    requires hubs { AreHubs present.now contraction hubs.old.list ups.old }
    requires hub_room { length ups.old ≤ hubs.old.room }
    ensures joined { (es : List Ends) → AreJoined es ups.old (take count moved.old) →
        AreJoined (onto (contracted_ends contraction.entry (case_branches present.now)) (flat_map (item_touches present.now) (items_of present.now items.entry)) es)
        ups.new (take result moved.new) }
    ensures count { result ≤ length moved.new }
    ensures hubs { AreHubs present.now contraction.entry hubs.new.list ups.new }
    ensures hub_room { hubs.new.room ≡ hubs.old.room }
    ensures valid { IsValid present.now }
{
    let case = present.case();
    let mut count = count;
    for item in items {
        count = join_item(
            present,
            item_of(case, item),
            contraction,
            hubs,
            ups,
            moved,
            count,
        );
    }
    count
}

/// The rank of the branches that the items touch, in the contracted graph.
pub(crate) fn measure_items(
    present: &Present<'_>,
    items: Items<'_>,
    contraction: Contraction<'_>,
    hubs: &mut Hubs,
    ups: &mut [u32],
    moved: &mut [u32],
) -> u32
    requires contraction { IsContraction present.now contraction }
    requires free { AreFree (case_vertex_room present.now) ups.old moved.old }
    requires hubs { length ups.old ≤ hubs.old.room }
    ensures rank { result ≡ contracted_rank present.now contraction.entry (items_of present.now items.entry) }
    ensures clear { AreJoined [] ups.new [] }
    ensures hubs { hubs.new.room ≡ hubs.old.room }
{
    let _ = present.case();
    hubs.begin(contraction);
    let count = join_items(present, items, contraction, hubs, ups, moved, 0);
    clear(ups, &moved[..count]);
    count as u32
}
