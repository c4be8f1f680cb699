// The critical meters.
ghost use Rattle.std.specs.Prelude.{◌≡◌, ◌<◌, ◌≤◌, ℕ, [], false, filter, length, take, IfOk};
ghost use Rattle.obs_meter.specs.Touches.{every_item};
ghost use Rattle.obs_meter.specs.inner.Touches.{AreInRange};
ghost use Rattle.obs_assign.specs.inner.Assignment.{StandsOver, has_flag, is_frozen};
ghost use Rattle.obs_exchange.specs.declared.Sources.TheVariants.{All};
ghost use Rattle.obs_exchange.specs.inner.Closed.{IsLeastClosedAt};
ghost use Rattle.obs_exchange.specs.Critical.{critical_meters};
ghost use Rattle.obs_critical.specs.inner.Listed.{is_unmarked_pair};

use crate::memory::NoMemory;
use obs_assign::Assignment;
use obs_graph::Graph;
use obs_meter::Meters;
use std::alloc::Global;
use std::marker::Model;

/// Room for a list of critical meters, and the list that was found last.
#[derive(Drop)]
pub struct CriticalWork {
    // the first `count` of these are listed
    list: Vec<u32>,
    count: usize,
}

impl Model for CriticalWork {
    ghost use Rattle.std.specs.Prelude.{◌≤◌, length, take};
    ghost use Rattle.obs_critical.specs.inner.Listed.{CriticalWork};

    ghost Value = { CriticalWork };

    ghost view = { λ w. record { list = take w.count w.list.items; most_meters = length w.list.items } };

    ghost invariant = { λ w. w.count ≤ length w.list.items };
}

impl CriticalWork {
    /// Room for so many meters.
    pub fn make(alloc: Global, most_meters: u32) -> Result<CriticalWork, NoMemory>
        ensures empty { IfOk result (λ w. w ≡ record { list = []; most_meters = most_meters }) }
    {
        Ok(CriticalWork {
            list: vec![in alloc; 0; most_meters as usize]?,
            count: 0,
        })
    }

    /// The critical meters as `find_critical` found them last, rising.
    pub fn list(&self) -> &[u32]
        ensures list { result.now ≡ self.now.list }
    {
        &self.list[..self.count]
    }
}

// Whether the meter has a pair and isn't marked.
fn is_listed(a: &Assignment, marks: &[bool], m: u32) -> bool
    requires m { m < length marks.now }
    requires marks { length marks.now ≡ length a.now.slots }
    ensures value { result ≡ is_unmarked_pair a.now (has_flag marks.now) m }
{
    a.branch_of(m).is_some() && !marks[m as usize]
}

// Lists the meters that have a pair and aren't marked, rising. Says how many they are.
fn list_unmarked(ms: &Meters, a: &Assignment, marks: &[bool], list: &mut [u32]) -> usize
    requires meters { length ms.now.touches ≡ length a.now.slots }
    requires marks { length marks.now ≡ length ms.now.touches }
    requires room { length ms.now.touches ≤ length list.old }
    ensures bound { result ≤ length ms.now.touches }
    ensures listed { take result list.new ≡
        filter (is_unmarked_pair a.now (has_flag marks.now)) (every_item ms.now.touches) }
{
    let mut count = 0;
    for m in 0..ms.count() {
        if is_listed(a, marks, m) {
            list[count] = m;
            count += 1;
        }
    }
    count
}

/// Finds the critical meters: those that the search which found no further pair didn't reach. `CriticalWork::list` then
/// has them.
pub fn find_critical(
    g: &Graph,
    ms: &Meters,
    a: &Assignment,
    marks: &[bool],
    work: &mut CriticalWork,
)
    requires stands { StandsOver a.now g.now ms.now.touches }
    requires in_range { AreInRange g.now ms.now.touches }
    requires thawed { (m : ℕ) → is_frozen a.now m ≡ false }
    requires marks { length marks.now ≡ length ms.now.touches }
    requires closed { IsLeastClosedAt g.now.ends ms.now.touches All a.now (has_flag marks.now) }
    requires room { length ms.now.touches ≤ work.old.most_meters }
    ensures critical { work.new.list ≡ critical_meters g.now.vertices g.now.ends ms.now.touches }
    ensures same_sizes { work.new.most_meters ≡ work.old.most_meters }
{
    // What each of the two knows of itself: the branches lie between the vertices, and the pairs are whole.
    let _ = g.vertices();
    let _ = a.length();
    work.count = list_unmarked(ms, a, marks, &mut work.list);
}

/// The critical meters, rising: those that the search which found no further pair didn't reach.
pub fn critical<'a>(
    g: &Graph,
    ms: &Meters,
    a: &Assignment,
    marks: &[bool],
    work: &'a mut CriticalWork,
) -> &'a [u32]
    requires stands { StandsOver a.now g.now ms.now.touches }
    requires in_range { AreInRange g.now ms.now.touches }
    requires thawed { (m : ℕ) → is_frozen a.now m ≡ false }
    requires marks { length marks.now ≡ length ms.now.touches }
    requires closed { IsLeastClosedAt g.now.ends ms.now.touches All a.now (has_flag marks.now) }
    requires room { length ms.now.touches ≤ work.old.most_meters }
    ensures critical { result.now ≡ critical_meters g.now.vertices g.now.ends ms.now.touches }
{
    find_critical(g, ms, a, marks, work);
    work.list()
}
