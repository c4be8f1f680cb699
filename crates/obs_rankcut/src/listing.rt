// One pass over the meters: the marked ones of the scope are listed with the branches that they touch, and the others
// counted.
ghost use Rattle.std.specs.Prelude.{◌≡◌, ◌<◌, ◌≤◌, ◌&&◌, All, false, flat_map, length, not, replicate, slice_index_or, take};
ghost use Rattle.obs_meter.specs.declared.Touch.TheVariants.{Nothing};
ghost use Rattle.obs_meter.specs.Touches.{touch_at};
ghost use Rattle.obs_meter.specs.inner.Touches.{IsInRange};
ghost use Rattle.obs_graph.specs.Positions.{branches_at};
ghost use Rattle.obs_rankcut.specs.Bounds.{listed, listed_rank};
ghost use Rattle.obs_rankcut.specs.inner.Bounds.{CanList, HasRoomToRank, IsCounted};
ghost use Rattle.obs_rankcut.specs.inner.Flags.{marked};
ghost use Rattle.obs_rankcut.specs.inner.Marks.{AreFrontsMarked, AreMarkedToo, MarksJust};

use obs_graph::{Graph, GraphWork};
use obs_meter::{Hub, Meters};

// Takes all flags back.
fn clear(flags: &mut [bool])
    ensures clear { flags.new ≡ replicate (length flags.old) false }
{
    flags.fill(false);
}

// Marks each of the branches.
fn mark_all(positions: &[u32], flags: &mut [bool])
    requires low { All (λ e. e < length flags.old) positions.now }
    ensures marks { AreMarkedToo flags.old positions.now flags.new }
{
    for e in positions {
        flags[*e as usize] = true;
    }
}

// Takes all counts back.
fn begin(fronts: &mut [usize])
    ensures none { fronts.new ≡ replicate (length fronts.old) 0 }
{
    fronts.fill(0);
}

// Marks the first so many branches at a vertex. Those that were marked there before are passed over.
fn mark_hub(g: &Graph, hub: Hub, flags: &mut [bool], fronts: &mut [usize])
    requires vertex { hub.vertex < g.now.vertices }
    requires count { hub.count ≤ length (branches_at g.now.ends hub.vertex) }
    requires flags { length flags.old ≡ length g.now.ends }
    requires fronts { length fronts.old ≡ g.now.vertices }
    requires done { AreFrontsMarked g.now.ends fronts.old flags.old }
    ensures marks { AreMarkedToo flags.old (take hub.count (branches_at g.now.ends hub.vertex)) flags.new }
    ensures done { AreFrontsMarked g.now.ends fronts.new flags.new }
{
    let known = fronts[hub.vertex as usize];
    if known < hub.count {
        fronts[hub.vertex as usize] = hub.count;
        let front = &g.branches_at(hub.vertex)[..hub.count];
        mark_all(&front[known..], flags);
    }
}

// Marks the branches that a meter touches.
fn mark_touched(g: &Graph, ms: &Meters, m: u32, flags: &mut [bool], fronts: &mut [usize])
    requires item { m < length ms.now.touches }
    requires in_range { IsInRange g.now (slice_index_or ms.now.touches m Nothing) }
    requires flags { length flags.old ≡ length g.now.ends }
    requires fronts { length fronts.old ≡ g.now.vertices }
    requires done { AreFrontsMarked g.now.ends fronts.old flags.old }
    ensures marks { AreMarkedToo flags.old (touch_at g.now.ends ms.now.touches m) flags.new }
    ensures done { AreFrontsMarked g.now.ends fronts.new flags.new }
{
    match ms.hub(g, m) {
        Some(hub) => mark_hub(g, hub, flags, fronts),
        None => mark_all(ms.touch(g, m), flags),
    }
}

// Whether a meter of the scope is listed: it is live and marked.
fn is_listed(live: bool, mark: bool) -> bool
    ensures listed { result ≡ (live && mark) }
{
    live && mark
}

// Whether a meter of the scope is counted as outside: it is live and not marked.
fn is_outside(live: bool, mark: bool) -> bool
    ensures outside { result ≡ (live && not mark) }
{
    live && !mark
}

// Which meters are marked, and which are of the scope.
#[derive(Clone, Copy)]
pub(crate) struct Choice<'a> {
    pub marks: &'a [bool],
    pub scope: &'a [bool],
}

// How many meters are listed, and how many other live meters the scope has.
#[derive(Clone, Copy)]
pub(crate) struct Passed {
    pub count: usize,
    pub outside: u32,
}

// Lists the marked live meters of the scope and marks what they touch, and counts the other live meters of the scope.
pub(crate) fn pass(
    g: &Graph,
    ms: &Meters,
    choice: &Choice<'_>,
    list: &mut [u32],
    flags: &mut [bool],
    fronts: &mut [usize],
) -> Passed
    requires can { CanList g.now ms.now.touches choice.now list.old }
    requires flags { length flags.old ≡ length g.now.ends }
    requires fronts { length fronts.old ≡ g.now.vertices }
    ensures counted { IsCounted g.now.ends ms.now.touches choice.now list.new result.count result.outside }
    ensures flags { MarksJust (flat_map (touch_at g.now.ends ms.now.touches)
        (listed g.now.ends ms.now.touches (marked choice.now.marks.now) (marked choice.now.scope.now))) flags.new }
{
    clear(flags);
    begin(fronts);
    let mut count = 0;
    let mut outside = 0;
    for m in 0..ms.count() {
        if choice.scope[m as usize] {
            let live = ms.live(g, m);
            let mark = choice.marks[m as usize];
            if is_listed(live, mark) {
                list[count] = m;
                count += 1;
                mark_touched(g, ms, m, flags, fronts);
            } else if is_outside(live, mark) {
                outside += 1;
            }
        }
    }
    Passed { count, outside }
}

// How many meters are listed, the rank of what they touch, and how many other live meters the scope has.
#[derive(Clone, Copy)]
pub(crate) struct Counted {
    pub count: usize,
    pub rank: u32,
    pub outside: u32,
}

// Lists the marked live meters of the scope, and measures them.
pub(crate) fn count_in(
    g: &Graph,
    ms: &Meters,
    choice: &Choice<'_>,
    list: &mut [u32],
    flags: &mut [bool],
    fronts: &mut [usize],
    work: &mut GraphWork,
) -> Counted
    requires can { CanList g.now ms.now.touches choice.now list.old }
    requires room { HasRoomToRank g.now flags.old fronts.old work.old }
    ensures counted { IsCounted g.now.ends ms.now.touches choice.now list.new result.count result.outside }
    ensures rank { result.rank ≡ listed_rank g.now.vertices g.now.ends ms.now.touches
        (marked choice.now.marks.now) (marked choice.now.scope.now) }
    ensures work { work.new ≡ work.old }
{
    let flags = &mut flags[..g.positions() as usize];
    let fronts = &mut fronts[..g.vertices() as usize];
    let passed = pass(g, ms, choice, list, flags, fronts);
    Counted {
        count: passed.count,
        rank: g.rank_of(flags, work),
        outside: passed.outside,
    }
}
