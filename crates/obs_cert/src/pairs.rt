// Passes over the pairs of a claim, one clause each.
ghost use Rattle.std.specs.Prelude.{◌≡◌, ◌≤◌, ◌<◌, ◌==◌, ◌+◌, ◌⊎◌, suc, None, List, [], length, not, slice_index_or, take};
ghost use Rattle.std.specs.List.{cons_option};
ghost use Rattle.obs_graph.specs.declared.Ends.{Ends};
ghost use Rattle.obs_matroid.specs.Assignments.{branches};
ghost use Rattle.obs_network.specs.Network.{case_position_room, case_vertex_room};
ghost use Rattle.obs_cert.specs.Flaws.{cycle, not_touched, rank_of_branches, twice, unknown_branch};
ghost use Rattle.obs_cert.specs.inner.Joins.{AreFree, AreJoined, AreWays, onto};
ghost use Rattle.obs_cert.specs.inner.Marks.{AreBelow};
ghost use Rattle.obs_cert.specs.Numbered.{pairs_of};

use crate::joins::{clear, ends_of, join};
use crate::marks::mark;
use crate::numbers::{branch_of, is_known_branch, item_of};
use crate::scopes::touches;
use crate::walk::Pairs;
use obs_case::Case;
use obs_graph::Graph;
use obs_network::Present;

/// Whether a word of a pair stands for no branch.
pub(crate) fn has_unknown_branch(case: &Case, pairs: Pairs<'_>) -> bool
    ensures unknown { result ≡ unknown_branch case.now pairs.entry }
{
    for pair in pairs {
        if !is_known_branch(case, pair.item, pair.branch) {
            return true;
        }
    }
    false
}

/// Whether a pair's branch isn't touched by its item.
pub(crate) fn has_untouched(present: &Present<'_>, pairs: Pairs<'_>) -> bool
    ensures untouched { result ≡ not_touched present.now (pairs_of present.now pairs.entry) }
{
    let case = present.case();
    for pair in pairs {
        if !touches(
            present,
            item_of(case, pair.item),
            branch_of(case, pair.item, pair.branch),
        ) {
            return true;
        }
    }
    false
}

/// Whether a branch stands in two pairs. Marks them with the stamp.
pub(crate) fn has_branch_twice(case: &Case, pairs: Pairs<'_>, marks: &mut [u32], stamp: u32) -> bool
    requires room { case_position_room case.now < length marks.old }
    requires fresh { AreBelow stamp marks.old }
    ensures twice { result ≡ twice (branches (pairs_of case.now pairs.entry)) }
    ensures below { AreBelow (suc stamp) marks.new }
{
    let mut twice = false;
    for pair in pairs {
        if mark(marks, stamp, branch_of(case, pair.item, pair.branch)) {
            twice = true;
        }
    }
    twice
}

/// The rank of the pairs' branches, and whether it isn't their number.
#[derive(Clone, Copy)]
pub(crate) struct Forest {
    pub rank: u32,
    pub cycle: bool,
}

// Joins the ends of the branch at a position, if it is present.
fn join_one(g: &Graph, e: u32, ups: &mut [u32], moved: &mut [u32], count: usize) -> usize
    requires ways { AreWays ups.old moved.old count }
    requires vertices { g.now.vertices ≤ length ups.old }
    ensures joined { (es : List Ends) → AreJoined es ups.old (take count moved.old) →
        AreJoined (cons_option (slice_index_or g.now.ends e None) es) ups.new (take result moved.new) }
    ensures count { result ≤ length moved.new }
    ensures one { (result ≡ count) ⊎ (result ≡ count + 1) }
{
    match ends_of(g, e) {
        Some(ends) => join(ups, moved, count, ends),
        None => count,
    }
}

// Joins the ends of the pairs' branches; says how many vertices are noted, and whether a branch joined nothing.
fn join_pairs(
    case: &Case,
    g: &Graph,
    pairs: Pairs<'_>,
    ups: &mut [u32],
    moved: &mut [u32],
) -> (usize, bool)
    requires free { AreFree g.now.vertices ups.old moved.old }
    ensures joined { AreJoined (onto g.now.ends (branches (pairs_of case.now pairs.entry)) []) ups.new
        (take result.0 moved.new) }
    ensures count { result.0 ≤ length moved.new }
    ensures cycle { result.1 ≡ not (result.0 == length pairs.entry) }
{
    let mut count = 0;
    let mut cycle = false;
    for pair in pairs {
        let joined = join_one(
            g,
            branch_of(case, pair.item, pair.branch),
            ups,
            moved,
            count,
        );
        if joined == count {
            cycle = true;
        }
        count = joined;
    }
    (count, cycle)
}

/// The rank of the pairs' branches, and whether they are no forest.
pub(crate) fn measure_pairs(
    present: &Present<'_>,
    pairs: Pairs<'_>,
    ups: &mut [u32],
    moved: &mut [u32],
) -> Forest
    requires free { AreFree (case_vertex_room present.now) ups.old moved.old }
    ensures rank { result.rank ≡ rank_of_branches present.now (branches (pairs_of present.now pairs.entry)) }
    ensures cycle { result.cycle ≡ cycle present.now (pairs_of present.now pairs.entry) }
    ensures clear { AreJoined [] ups.new [] }
{
    let case = present.case();
    let network = present.network();
    let (count, cycle) = join_pairs(case, network.graph(), pairs, ups, moved);
    clear(ups, &moved[..count]);
    Forest {
        rank: count as u32,
        cycle,
    }
}
