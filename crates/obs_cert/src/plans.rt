// The flaw of a cost claim.
ghost use Rattle.std.specs.Prelude.{◌≡◌, ◌||◌, [], ℕ, false, suc};
ghost use Rattle.std.specs.List.{list_any};
ghost use Rattle.obs_network.specs.Network.{case_needed, rows_of};
ghost use Rattle.obs_cert.specs.Flaws.{all_inside, costs_clauses, cost_flaw, first_true, layers_clauses, listed_layers, not_inside, outside_of_plan, twice, twice_in_plan, unknown_in_plan};
ghost use Rattle.obs_cert.specs.inner.Joins.{AreJoined};
ghost use Rattle.obs_cert.specs.inner.Keys.{AreKeys};
ghost use Rattle.obs_cert.specs.inner.Marks.{is_marked};
ghost use Rattle.obs_cert.specs.Numbered.{candidate_items, items_of};
ghost use Rattle.obs_cert.specs.inner.Ready.{HasRoomForRows, IsReadyFor};
ghost use Rattle.obs_meter.specs.Lost.{is_listed};
ghost use Rattle.obs_cert.specs.Scopes.{is_below};
ghost use Rattle.obs_cert.specs.inner.Walked.{cost_of, parts_in};

use crate::flaw::FlawCode;
use crate::forests::{forest, has_pair_twice, has_unknown_pair};
use crate::layers::{
    has_high, has_outside_layer, has_wrong_outside, has_wrong_rank, run_on, shown_cost,
};
use crate::lists::{cost, has_outside, has_twice, has_unknown};
use crate::pairs::has_untouched;
use crate::scopes::Scope;
use crate::walk::{Sort, walk_items, walk_layers, walk_pairs};
use crate::work::Work;
use obs_case::Case;
use obs_network::Present;

// The flaw of the cost, and of what the layers state beside their ranks and numbers outside.
fn costs(case: &Case, number: u64, needed: u32, rest: &[u8]) -> Option<FlawCode>
    requires needed { needed ≡ case_needed case.now }
    ensures flaw { result ≡ first_true (costs_clauses case.now (cost_of number (parts_in rest.now))) }
{
    if has_high(walk_layers(rest), needed) {
        return Some(FlawCode::NotBelow);
    }
    if !run_on(walk_layers(rest)) {
        return Some(FlawCode::WrongLayers);
    }
    let chosen = cost(case, walk_items(Sort::Chosen, rest));
    let shown = shown_cost(walk_layers(rest), needed);
    if chosen != u128::from(number) || shown != u128::from(number) {
        return Some(FlawCode::WrongCost);
    }
    None
}

// The flaw of the layers and the cost of a cost claim, where each item is inside and none stands twice.
fn layers(
    present: &Present<'_>,
    number: u64,
    rest: &[u8],
    keys: &[u128],
    work: &mut Work,
) -> Option<FlawCode>
    requires keys { AreKeys present.now keys.now }
    requires room { HasRoomForRows (rows_of present.now) work.old }
    requires clear { AreJoined [] work.old.ups.items [] }
    requires inside { list_any (λ l. not_inside (is_below present.now l.layer.to) l.list)
        (listed_layers present.now (parts_in rest.now).layers) ≡ false }
    requires once { twice (items_of present.now (all_inside (parts_in rest.now).layers)) ≡ false }
    ensures flaw { result ≡ first_true (layers_clauses present.now (cost_of number (parts_in rest.now))) }
    ensures ready { (stamp : ℕ) → IsReadyFor present.now stamp work.old → IsReadyFor present.now stamp work.new }
{
    let case = present.case();
    let network = present.network();
    let needed = network.needed();
    if has_wrong_rank(
        present,
        walk_layers(rest),
        &mut work.hubs,
        &mut work.ups,
        &mut work.moved,
    ) {
        return Some(FlawCode::WrongRank);
    }
    if has_wrong_outside(case, keys, walk_layers(rest)) {
        return Some(FlawCode::WrongOutside);
    }
    costs(case, number, needed, rest)
}

// Whether a name of a cost claim isn't in its table.
fn has_unknown_name(case: &Case, rest: &[u8]) -> bool
    ensures unknown { (number : ℕ) → result ≡ unknown_in_plan case.now (cost_of number (parts_in rest.now)) }
{
    has_unknown(case, walk_items(Sort::Chosen, rest))
        || (has_unknown_pair(case, rest) || has_unknown(case, walk_items(Sort::EachInside, rest)))
}

// Whether an item of a cost claim, whose chosen candidates are marked, isn't one that it may speak of.
fn has_outside_item(present: &Present<'_>, rest: &[u8], chosen: &[u32], stamp: u32) -> bool
    requires marked { (x : ℕ) → is_marked chosen.now stamp x
        ≡ is_listed (items_of present.now (candidate_items (parts_in rest.now).chosen)) x }
    ensures outside { (number : ℕ) → result ≡ outside_of_plan present.now (cost_of number (parts_in rest.now)) }
{
    let paired = walk_items(Sort::Paired, rest);
    has_outside(present, Scope::Plan(chosen, stamp), paired)
        || has_outside_layer(present, walk_layers(rest))
}

// Whether one of three holds.
fn either(a: bool, b: bool, c: bool) -> bool
    ensures either { result ≡ (a || (b || c)) }
{
    a || (b || c)
}

// Whether a candidate is chosen twice, or an item or a branch stands in two pairs, or an item stands twice in the lists.
// Marks them with the stamp.
fn has_twice_in_plan(case: &Case, rest: &[u8], work: &mut Work, stamp: u32) -> bool
    requires ready { IsReadyFor case.now stamp work.old }
    ensures twice { (number : ℕ) → result ≡ twice_in_plan case.now (cost_of number (parts_in rest.now)) }
    ensures marked { (x : ℕ) → is_marked work.new.chosen.items stamp x
        ≡ is_listed (items_of case.now (candidate_items (parts_in rest.now).chosen)) x }
    ensures ready { IsReadyFor case.now (suc stamp) work.new }
{
    let chosen = walk_items(Sort::Chosen, rest);
    let chosen_twice = has_twice(case, chosen, &mut work.chosen, stamp);
    let pair_twice = has_pair_twice(case, rest, &mut work.paired, &mut work.taken, stamp);
    let listed = walk_items(Sort::EachInside, rest);
    let listed_twice = has_twice(case, listed, &mut work.listed, stamp);
    either(chosen_twice, pair_twice, listed_twice)
}

/// The flaw of a cost claim.
pub(crate) fn plan(
    present: &Present<'_>,
    number: u64,
    rest: &[u8],
    keys: &[u128],
    work: &mut Work,
    stamp: u32,
) -> Option<FlawCode>
    requires keys { AreKeys present.now keys.now }
    requires ready { IsReadyFor present.now stamp work.old }
    ensures flaw { result ≡ cost_flaw present.now (cost_of number (parts_in rest.now)) }
    ensures ready { IsReadyFor present.now (suc stamp) work.new }
{
    let case = present.case();
    let network = present.network();
    if has_unknown_name(case, rest) {
        return Some(FlawCode::UnknownName);
    }
    let twice = has_twice_in_plan(case, rest, work, stamp);
    if has_outside_item(present, rest, &work.chosen, stamp) {
        return Some(FlawCode::NotInside);
    }
    if has_untouched(present, walk_pairs(rest)) {
        return Some(FlawCode::NotTouched);
    }
    if twice {
        return Some(FlawCode::Twice);
    }
    if let Some(code) = forest(present, rest, network.needed(), work) {
        return Some(code);
    }
    layers(present, number, rest, keys, work)
}
