// Passes over the layers of a cost claim, one clause each.
ghost use Rattle.std.specs.Prelude.{◌≡◌, ◌≤◌, ◌^◌, ◌-◌, ◌*◌, ◌||◌, ◌++◌, ◌∷◌, [], false, ℕ, List, length, min, nat_lt, not, take};
ghost use Rattle.std.specs.List.{list_any, sum_by};
ghost use Rattle.obs_graph.specs.declared.Ends.{Ends};
ghost use Rattle.obs_network.specs.Network.{case_vertex_room};
ghost use Rattle.obs_cert.specs.Flaws.{all_inside, listed_layers, not_below, not_inside, runs_on, shows, twice, wrong_outside, wrong_rank};
ghost use Rattle.obs_cert.specs.inner.Joins.{AreFree, AreJoined};
ghost use Rattle.obs_cert.specs.inner.Keys.{AreKeys};
ghost use Rattle.obs_cert.specs.Numbered.{items_of};
ghost use Rattle.obs_cert.specs.Scopes.{is_below, is_live_item, scope_of};
ghost use Rattle.obs_cert.specs.inner.Seen.{TellsLayers, too_dear};

use crate::contraction::Contraction;
use crate::hubs::Hubs;
use crate::joins::clear;
use crate::keys::count_below;
use crate::lists::{count, join_items};
use crate::numbers::item_of;
use crate::scopes::{is_live, is_meter, price_at};
use crate::walk::{Items, Layers, Sort, walk_items};
use obs_case::Case;
use obs_network::Present;

/// What is known of the items that were listed so far:
/// whether one is idle, and what the dearest of the candidates costs.
#[derive(Clone, Copy)]
pub(crate) struct Seen {
    pub idle: bool,
    pub dearest: Option<u64>,
}

// The dearest price, with one more.
fn dearer(dearest: Option<u64>, price: u64) -> Option<u64>
    ensures dearer { (to : ℕ) → too_dear result to ≡ (too_dear dearest to || not (nat_lt price to)) }
{
    match dearest {
        Some(other) => Some(other.max(price)),
        None => Some(price),
    }
}

// The same with one item more.
fn see(present: &Present<'_>, m: u32, seen: Seen) -> Seen
    ensures tells { (list : List ℕ) → TellsLayers present.now list seen → TellsLayers present.now (list ++ m ∷ []) result }
{
    let case = present.case();
    if !is_live(present, m) {
        return Seen {
            idle: true,
            dearest: seen.dearest,
        };
    }
    if is_meter(case, m) {
        return seen;
    }
    Seen {
        idle: seen.idle,
        dearest: dearer(seen.dearest, price_at(case, m)),
    }
}

// The same with these items more.
fn see_items(present: &Present<'_>, items: Items<'_>, seen: Seen) -> Seen
    ensures tells { (list : List ℕ) → TellsLayers present.now list seen
        → TellsLayers present.now (list ++ items_of present.now items.entry) result }
{
    let case = present.case();
    let mut seen = seen;
    for item in items {
        seen = see(present, item_of(case, item), seen);
    }
    seen
}

// Whether a listed item isn't one that a layer which ends at this price may speak of.
fn is_outside(seen: Seen, to: u64) -> bool
    ensures outside { result ≡ (seen.idle || too_dear seen.dearest to) }
{
    let dear = match seen.dearest {
        Some(dearest) => dearest >= to,
        None => false,
    };
    seen.idle || dear
}

/// Whether an item of a layer's list isn't one that the layer may speak of.
pub(crate) fn has_outside_layer(present: &Present<'_>, layers: Layers<'_>) -> bool
    ensures outside { result ≡ list_any (λ l. not_inside (is_below present.now l.layer.to) l.list)
        (listed_layers present.now layers.entry) }
{
    let mut seen = Seen {
        idle: false,
        dearest: None,
    };
    for layer in layers {
        seen = see_items(present, walk_items(Sort::Inside, layer.rest), seen);
        if is_outside(seen, layer.to) {
            return true;
        }
    }
    false
}

// Whether a layer has a wrong rank. Joins what the lists touch.
fn join_layers(
    present: &Present<'_>,
    layers: Layers<'_>,
    hubs: &mut Hubs,
    ups: &mut [u32],
    moved: &mut [u32],
) -> (usize, bool)
    requires free { AreFree (case_vertex_room present.now) ups.old moved.old }
    requires hubs { length ups.old ≤ hubs.old.room }
    ensures hubs { hubs.new.room ≡ hubs.old.room }
    ensures rank { result.1 ≡ list_any (λ l. wrong_rank present.now l.list l.layer.rank)
        (listed_layers present.now layers.entry) }
    ensures joined { (es : List Ends) × AreJoined es ups.new (take result.0 moved.new) }
    ensures count { result.0 ≤ length moved.new }
{
    hubs.begin(Contraction::Nothing);
    let mut count = 0;
    let mut wrong = false;
    for layer in layers {
        let items = walk_items(Sort::Inside, layer.rest);
        count = join_items(
            present,
            items,
            Contraction::Nothing,
            hubs,
            ups,
            moved,
            count,
        );
        if count as u64 != layer.rank {
            wrong = true;
        }
    }
    (count, wrong)
}

/// Whether a layer has a wrong rank.
pub(crate) fn has_wrong_rank(
    present: &Present<'_>,
    layers: Layers<'_>,
    hubs: &mut Hubs,
    ups: &mut [u32],
    moved: &mut [u32],
) -> bool
    requires free { AreFree (case_vertex_room present.now) ups.old moved.old }
    requires hubs { length ups.old ≤ hubs.old.room }
    ensures hubs { hubs.new.room ≡ hubs.old.room }
    ensures rank { result ≡ list_any (λ l. wrong_rank present.now l.list l.layer.rank)
        (listed_layers present.now layers.entry) }
    ensures clear { AreJoined [] ups.new [] }
{
    let (count, wrong) = join_layers(present, layers, hubs, ups, moved);
    clear(ups, &moved[..count]);
    wrong
}

/// How many live items there are.
pub(crate) fn count_live(present: &Present<'_>) -> u32
    ensures count { result ≡ length (scope_of present.now (is_live_item present.now)) }
{
    let network = present.network();
    let mut count = 0;
    for m in 0..network.offered().count() {
        if is_live(present, m) {
            count += 1;
        }
    }
    count
}

/// Whether a layer has a wrong number outside, where each item is inside and none stands twice.
pub(crate) fn has_wrong_outside(case: &Case, keys: &[u128], layers: Layers<'_>) -> bool
    requires keys { AreKeys case.now keys.now }
    requires inside { list_any (λ l. not_inside (is_below case.now l.layer.to) l.list)
        (listed_layers case.now layers) ≡ false }
    requires once { twice (items_of case.now (all_inside layers)) ≡ false }
    ensures outside { result ≡ list_any
        (λ l. wrong_outside case.now (is_below case.now l.layer.to) l.list l.layer.outside)
        (listed_layers case.now layers.entry) }
{
    let mut listed = 0;
    for layer in layers {
        listed = count(walk_items(Sort::Inside, layer.rest), listed);
        let outside = count_below(case, keys, layer.to).saturating_sub(listed);
        if u64::from(outside) != layer.outside {
            return true;
        }
    }
    false
}

/// Whether a layer's rank and outside together aren't below the need.
pub(crate) fn has_high(layers: Layers<'_>, need: u32) -> bool
    ensures high { result ≡ list_any (λ l. not_below l.rank l.outside need) layers.entry }
{
    for layer in layers {
        if layer.rank.saturating_add(layer.outside) >= u64::from(need) {
            return true;
        }
    }
    false
}

/// Whether the layers run on from 0.
pub(crate) fn run_on(layers: Layers<'_>) -> bool
    ensures run { result ≡ runs_on 0 layers.entry }
{
    let mut from = 0;
    for layer in layers {
        if layer.from != from || layer.from >= layer.to {
            return false;
        }
        from = layer.to;
    }
    true
}

// What a layer shows of the cost.
fn shown(need: u32, rank: u64, outside: u64, height: u64) -> u128
    ensures shown { result ≡ (need - rank - outside) * height }
{
    let lacks = u64::from(need).saturating_sub(rank).saturating_sub(outside);
    u128::from(lacks) * u128::from(height)
}

/// What the layers show of the cost together, at most as much as can be counted.
pub(crate) fn shown_cost(layers: Layers<'_>, need: u32) -> u128
    ensures sum { result ≡ min (sum_by (shows need) layers.entry) (2 ^ 128 - 1) }
{
    let mut sum = 0u128;
    for layer in layers {
        let height = layer.to.saturating_sub(layer.from);
        sum = sum.saturating_add(shown(need, layer.rank, layer.outside, height));
    }
    sum
}
