// What longest pairs show: the critical meters, and the bound of a component.
ghost use Rattle.std.specs.Prelude.{◌≡◌, ◌<◌, ◌≤◌, length, take};
ghost use Rattle.obs_network.specs.Network.{case_component_count};
ghost use Rattle.obs_repair.specs.Bounds.{bound_meters, bound_outside, bound_rank, case_critical_meters};
ghost use Rattle.obs_repair.specs.inner.Bounds.{AreMarks};
ghost use Rattle.obs_kept.specs.inner.Kept.{AreLongest};
ghost use Rattle.obs_repair.specs.inner.Kept.{HasRoom};

use crate::components::{count_paired, list_marked};
use obs_assign::{Assignment, Steps};
use obs_critical::CriticalWork;
use obs_exchange::{Work, close};
use obs_network::Present;
use std::sync::ledger::Ledger;

/// Marks the live meters that aren't critical, and lists those that are. One search shows which they are.
pub fn find_critical<L: Ledger>(
    present: &Present<'_>,
    pairs: &mut Assignment,
    work: &mut Work,
    marks: &mut [bool],
    list: &mut CriticalWork,
    steps: &mut Steps<L>,
)
    requires longest { AreLongest present.now pairs.old }
    requires room { HasRoom present.now pairs.old work.old }
    requires marks { length marks.old ≡ length present.now.meters }
    requires list { list.old.most_meters ≡ length present.now.meters }
    ensures marks { AreMarks present.now marks.new }
    ensures critical { list.new.list ≡ case_critical_meters present.now }
    ensures same { pairs.new ≡ pairs.old }
    ensures same_sizes { work.new.sizes ≡ work.old.sizes }
    ensures same_room { list.new.most_meters ≡ list.old.most_meters }
{
    let g = present.graph();
    let ms = present.meters();
    close(g, ms, pairs, work, steps);
    let reached = work.reached();
    marks.copy_from_slice(reached);
    obs_critical::find_critical(g, ms, pairs, reached, list);
}

/// The numbers of a bound:
/// how many meters it lists, the rank of what they touch, and how many other live meters there are.
#[derive(Clone, Copy)]
pub struct Measured {
    pub listed: usize,
    pub rank: u32,
    pub outside: u32,
}

/// Lists the meters of a component's bound, and measures it. The rank of what they touch is the number of the
/// component's pairs without one for each other live meter, so this goes through the component's meters alone.
pub fn find_bound(
    present: &Present<'_>,
    pairs: &Assignment,
    marks: &[bool],
    inside: &mut [u32],
    c: u32,
) -> Measured
    requires longest { AreLongest present.now pairs.now }
    requires marks { AreMarks present.now marks.now }
    requires inside { length inside.old ≡ length present.now.meters }
    requires component { c < case_component_count present.now }
    ensures listed { take result.listed inside.new ≡ bound_meters present.now c }
    ensures rank { result.rank ≡ bound_rank present.now c }
    ensures outside { result.outside ≡ bound_outside present.now c }
    ensures few { result.listed ≤ length inside.new }
{
    let meters = present.network().live_meters(c);
    let listed = list_marked(meters, marks, inside);
    let outside = (meters.len() - listed) as u32;
    let rank = count_paired(meters, pairs) - outside;
    Measured {
        listed,
        rank,
        outside,
    }
}
