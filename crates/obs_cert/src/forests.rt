// The clauses on pairs that tree and cost claims have in common.
ghost use Rattle.std.specs.Prelude.{◌≡◌, ◌<◌, ◌+◌, [], ℕ, Bool, List, Some, IfNone, IfSome, suc, length};
ghost use Rattle.obs_network.specs.Network.{case_position_room, rows_of};
ghost use Rattle.obs_cert.specs.Flaws.{forest_clauses, first_true, paired_twice, twice, unknown_pair};
ghost use Rattle.obs_cert.specs.inner.Joins.{AreJoined};
ghost use Rattle.obs_cert.specs.inner.Marks.{AreBelow};
ghost use Rattle.obs_cert.specs.Numbered.{pairs_of};
ghost use Rattle.obs_cert.specs.declared.flaw.FlawCode.{FlawCode};
ghost use Rattle.obs_cert.specs.inner.Ready.{HasRoomForRows, IsReadyFor};
ghost use Rattle.obs_cert.specs.inner.Walked.{parts_in};

use crate::flaw::FlawCode;
use crate::lists::{has_twice, has_unknown};
use crate::pairs::{has_branch_twice, has_unknown_branch, measure_pairs};
use crate::walk::{Sort, walk_items, walk_pairs};
use crate::work::Work;
use obs_case::Case;
use obs_network::Present;

/// Whether a name or a word of the pairs stands for nothing.
pub(crate) fn has_unknown_pair(case: &Case, rest: &[u8]) -> bool
    ensures unknown { result ≡ unknown_pair case.now (parts_in rest.now).pairs }
{
    has_unknown(case, walk_items(Sort::Paired, rest)) || has_unknown_branch(case, walk_pairs(rest))
}

/// Whether an item or a branch stands in two pairs. Marks them with the stamp.
pub(crate) fn has_pair_twice(
    case: &Case,
    rest: &[u8],
    paired: &mut [u32],
    taken: &mut [u32],
    stamp: u32,
) -> bool
    requires items { length case.now.meters + length case.now.candidates < length paired.old }
    requires branches { case_position_room case.now < length taken.old }
    requires fresh_items { AreBelow stamp paired.old }
    requires fresh_branches { AreBelow stamp taken.old }
    ensures twice { result ≡ paired_twice case.now (parts_in rest.now).pairs }
    ensures below_items { AreBelow (suc stamp) paired.new }
    ensures below_branches { AreBelow (suc stamp) taken.new }
{
    let items = has_twice(case, walk_items(Sort::Paired, rest), paired, stamp);
    let branches = has_branch_twice(case, walk_pairs(rest), taken, stamp);
    items || branches
}

/// The flaw of the pairs' branches and their number.
pub(crate) fn forest(
    present: &Present<'_>,
    rest: &[u8],
    need: u32,
    work: &mut Work,
) -> Option<FlawCode>
    requires room { HasRoomForRows (rows_of present.now) work.old }
    requires clear { AreJoined [] work.old.ups.items [] }
    ensures none { IfNone result ((clauses : List (Bool × FlawCode)) →
        first_true (forest_clauses present.now (pairs_of present.now (parts_in rest.now).pairs) need clauses)
        ≡ first_true clauses) }
    ensures flaw { IfSome result (λ code. (clauses : List (Bool × FlawCode)) →
        first_true (forest_clauses present.now (pairs_of present.now (parts_in rest.now).pairs) need clauses) ≡ Some code) }
    ensures ready { (stamp : ℕ) → IsReadyFor present.now stamp work.old → IsReadyFor present.now stamp work.new }
    ensures room { HasRoomForRows (rows_of present.now) work.new }
    ensures clear { AreJoined [] work.new.ups.items [] }
{
    let forest = measure_pairs(present, walk_pairs(rest), &mut work.ups, &mut work.moved);
    if forest.cycle {
        return Some(FlawCode::Cycle);
    }
    if forest.rank != need {
        return Some(FlawCode::WrongLength);
    }
    None
}
