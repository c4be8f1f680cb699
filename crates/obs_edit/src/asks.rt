// How the answers to a case are found. Each call keeps the pairs longest.
ghost use Rattle.std.specs.Prelude.{◌≡◌};
ghost use Rattle.obs_assign.specs.inner.Assignment.{pairs};
ghost use Rattle.obs_edit.specs.Answers.{case_first_pairs, case_islands};
ghost use Rattle.obs_kept.specs.inner.Kept.{AreLongest};
ghost use Rattle.obs_repair.specs.inner.Kept.{HasRoom, case_room};

use obs_assign::{Assignment, Steps};
use obs_exchange::Work;
use obs_islands::{IslandRoom, find_islands_of};
use obs_network::Present;
use std::sync::ledger::Ledger;

/// Makes the pairs the first assignment of the case's meters.
pub(crate) fn find_first<L: Ledger>(
    present: &Present<'_>,
    a: &mut Assignment,
    work: &mut Work,
    steps: &mut Steps<L>,
)
    requires longest { AreLongest present.now a.old }
    requires room { HasRoom present.now a.old work.old }
    ensures first { pairs a.new ≡ case_first_pairs present.now }
    ensures longest { AreLongest present.now a.new }
    ensures room { HasRoom present.now a.new work.new }
{
    obs_first::first(present.graph(), present.meters(), a, work, steps);
}

/// Finds the islands of the case, from the pairs.
pub(crate) fn find_islands(present: &Present<'_>, a: &Assignment, islands: &mut IslandRoom)
    requires longest { AreLongest present.now a.now }
    requires room { islands.old.sizes ≡ case_room present.now }
    ensures islands { islands.new.firsts ≡ case_islands present.now }
    ensures same_sizes { islands.new.sizes ≡ islands.old.sizes }
{
    find_islands_of(present.graph(), present.meters(), a, islands);
}
