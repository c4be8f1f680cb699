// The flaw of a claim.
ghost use Rattle.std.specs.Prelude.{◌≡◌, ◌∷◌, ℕ, Bool, false, suc, length};
ghost use Rattle.obs_cert.specs.declared.flaw.FlawCode.TheVariants.{NotInside};
ghost use Rattle.obs_cert.specs.Flaws.{bound_clauses, bound_flaw, first_true, flaw_of, list_clauses, not_inside, shortfall_flaw, tree_flaw, twice};
ghost use Rattle.obs_cert.specs.inner.InScope.{in_scope};
ghost use Rattle.obs_cert.specs.inner.Keys.{AreKeys};
ghost use Rattle.obs_cert.specs.Numbered.{items_of};
ghost use Rattle.obs_cert.specs.inner.Ready.{IsReadyFor};
ghost use Rattle.obs_cert.specs.Scopes.{is_live_item, scope_of};
ghost use Rattle.obs_cert.specs.inner.Scopes.{OfItems};
ghost use Rattle.obs_cert.specs.inner.Walked.{claim_said, parts_in};

use crate::flaw::FlawCode;
use crate::forests::{forest, has_pair_twice, has_unknown_pair};
use crate::lists::{count, has_outside, has_twice, has_unknown};
use crate::pairs::has_untouched;
use crate::plans::plan;
use crate::scopes::{Scope, component_named};
use crate::stars::measure_listed;
use crate::walk::{ClaimLines, Sort, walk_items, walk_pairs};
use crate::work::Work;
use obs_network::Present;

// The flaw of a tree claim.
fn tree(
    present: &Present<'_>,
    name: &[u8],
    rest: &[u8],
    work: &mut Work,
    stamp: u32,
) -> Option<FlawCode>
    requires ready { IsReadyFor present.now stamp work.old }
    ensures flaw { result ≡ tree_flaw present.now (record { component = name.now; pairs = (parts_in rest.now).pairs }) }
    ensures ready { IsReadyFor present.now (suc stamp) work.new }
{
    let case = present.case();
    let Some(named) = component_named(present, name) else {
        return Some(FlawCode::UnknownName);
    };
    if has_unknown_pair(case, rest) {
        return Some(FlawCode::UnknownName);
    }
    if !named.energised {
        return Some(FlawCode::NotComponent);
    }
    let scope = Scope::Component(named.component);
    if has_outside(present, scope, walk_items(Sort::Paired, rest)) {
        return Some(FlawCode::NotInside);
    }
    if has_untouched(present, walk_pairs(rest)) {
        return Some(FlawCode::NotTouched);
    }
    if has_pair_twice(case, rest, &mut work.paired, &mut work.taken, stamp) {
        return Some(FlawCode::Twice);
    }
    forest(present, rest, named.need, work)
}

// The numbers that a bound states: a rank, and a number outside, both of them together below a need.
#[derive(Clone, Copy)]
struct Stated {
    rank: u64,
    outside: u64,
    need: u32,
}

// The flaw of the numbers that are stated for a list without doubles, in a scope of so many items that has all that are
// listed.
fn numbers(
    present: &Present<'_>,
    rest: &[u8],
    scope: u32,
    stated: Stated,
    work: &mut Work,
) -> Option<FlawCode>
    requires ready { (stamp : ℕ) × IsReadyFor present.now stamp work.old }
    requires once { twice (items_of present.now (parts_in rest.now).inside) ≡ false }
    ensures flaw { (test : ℕ → Bool) → scope ≡ length (scope_of present.now test) → OfItems present.now test
        → not_inside test (items_of present.now (parts_in rest.now).inside) ≡ false
        → result ≡ first_true (bound_clauses present.now test (items_of present.now (parts_in rest.now).inside)
        stated.rank stated.outside stated.need) }
    ensures ready { (stamp : ℕ) → IsReadyFor present.now stamp work.old → IsReadyFor present.now stamp work.new }
{
    let rank = measure_listed(
        present,
        rest,
        &work.links,
        &mut work.stars,
        &mut work.hubs,
        &mut work.ups,
        &mut work.moved,
    );
    if u64::from(rank) != stated.rank {
        return Some(FlawCode::WrongRank);
    }
    let outside = scope.saturating_sub(count(walk_items(Sort::Inside, rest), 0));
    if u64::from(outside) != stated.outside {
        return Some(FlawCode::WrongOutside);
    }
    if stated.rank.saturating_add(stated.outside) >= u64::from(stated.need) {
        return Some(FlawCode::NotBelow);
    }
    None
}

// The flaw of a list and these numbers, in a scope of so many items.
fn list(
    present: &Present<'_>,
    rest: &[u8],
    scope: Scope<'_>,
    count: u32,
    stated: Stated,
    work: &mut Work,
    stamp: u32,
) -> Option<FlawCode>
    requires count { count ≡ length (scope_of present.now (in_scope present.now scope)) }
    requires items { OfItems present.now (in_scope present.now scope) }
    requires ready { IsReadyFor present.now stamp work.old }
    ensures flaw { result ≡ first_true ((
      not_inside (in_scope present.now scope.entry)
          (items_of present.now (parts_in rest.now).inside),
      NotInside,
    )
        ∷ list_clauses present.now (in_scope present.now scope.entry) (items_of present.now (parts_in rest.now).inside)
        stated.rank stated.outside stated.need) }
    ensures ready { IsReadyFor present.now (suc stamp) work.new }
{
    let case = present.case();
    if has_outside(present, scope, walk_items(Sort::Inside, rest)) {
        return Some(FlawCode::NotInside);
    }
    let items = walk_items(Sort::Inside, rest);
    if has_twice(case, items, &mut work.listed, stamp) {
        return Some(FlawCode::Twice);
    }
    numbers(present, rest, count, stated, work)
}

// The flaw of a bound claim.
fn bound(
    present: &Present<'_>,
    name: &[u8],
    numbers: (u64, u64),
    rest: &[u8],
    work: &mut Work,
    stamp: u32,
) -> Option<FlawCode>
    requires ready { IsReadyFor present.now stamp work.old }
    ensures flaw { result ≡ bound_flaw present.now (record {
      component = name.now;
      rank = numbers.0;
      outside = numbers.1;
      inside = (parts_in rest.now).inside;
    }) }
    ensures ready { IsReadyFor present.now (suc stamp) work.new }
{
    let case = present.case();
    let network = present.network();
    let Some(named) = component_named(present, name) else {
        return Some(FlawCode::UnknownName);
    };
    if has_unknown(case, walk_items(Sort::Inside, rest)) {
        return Some(FlawCode::UnknownName);
    }
    if !named.energised {
        return Some(FlawCode::NotComponent);
    }
    let scope = Scope::Component(named.component);
    let stated = Stated {
        rank: numbers.0,
        outside: numbers.1,
        need: named.need,
    };
    let count = network.live_meters(named.component).len() as u32;
    list(present, rest, scope, count, stated, work, stamp)
}

// The flaw of a shortfall claim, where there are so many live items.
fn shortfall(
    present: &Present<'_>,
    live: u32,
    numbers: (u64, u64),
    rest: &[u8],
    work: &mut Work,
    stamp: u32,
) -> Option<FlawCode>
    requires live { live ≡ length (scope_of present.now (is_live_item present.now)) }
    requires ready { IsReadyFor present.now stamp work.old }
    ensures flaw { result ≡ shortfall_flaw present.now (record {
      rank = numbers.0;
      outside = numbers.1;
      inside = (parts_in rest.now).inside;
    }) }
    ensures ready { IsReadyFor present.now (suc stamp) work.new }
{
    let case = present.case();
    let network = present.network();
    if has_unknown(case, walk_items(Sort::Inside, rest)) {
        return Some(FlawCode::UnknownName);
    }
    let stated = Stated {
        rank: numbers.0,
        outside: numbers.1,
        need: network.needed(),
    };
    list(present, rest, Scope::Live, live, stated, work, stamp)
}

/// The flaw of a claim on a case with so many live items and these keys.
pub(crate) fn flaw_of(
    present: &Present<'_>,
    live: u32,
    keys: &[u128],
    claim: ClaimLines<'_>,
    work: &mut Work,
    stamp: u32,
) -> Option<FlawCode>
    requires keys { AreKeys present.now keys.now }
    requires live { live ≡ length (scope_of present.now (is_live_item present.now)) }
    requires ready { IsReadyFor present.now stamp work.old }
    ensures flaw { result ≡ flaw_of present.now (claim_said claim.entry) }
    ensures ready { IsReadyFor present.now (suc stamp) work.new }
{
    match claim {
        ClaimLines::Tree(name, rest) => tree(present, name, rest, work, stamp),
        ClaimLines::Bound(name, rank, outside, rest) => {
            bound(present, name, (rank, outside), rest, work, stamp)
        }
        ClaimLines::Cost(number, rest) => plan(present, number, rest, keys, work, stamp),
        ClaimLines::Shortfall(rank, outside, rest) => {
            shortfall(present, live, (rank, outside), rest, work, stamp)
        }
    }
}
