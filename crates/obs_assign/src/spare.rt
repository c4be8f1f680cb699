// Which pair may be given up for another one, and pins.
ghost use Rattle.std.specs.Prelude.{◌≡◌, ◌≢◌, ◌<◌, ◌≤◌, ℕ, true, false, All, Contains, IsSome, None, Some, IsTrue, MatchOption, length, slice_index_or};
ghost use Rattle.obs_graph.specs.Positions.{IsForestAt};
ghost use Rattle.obs_matroid.specs.Assignments.{branches};
ghost use Rattle.obs_matroid.specs.inner.Assignments.{part};
ghost use Rattle.obs_matroid.specs.inner.Slots.{pairs_of};
ghost use Rattle.obs_forest.specs.inner.Forest.{StandsOver};
ghost use Rattle.obs_assign.specs.inner.Assignment.{ArePaired, has_flag};
ghost use Rattle.obs_assign.specs.inner.Kept.{IsOver, with_slots};
ghost use Rattle.obs_assign.specs.inner.Pins.{joins, pinned_slots};
ghost use Rattle.obs_assign.specs.inner.Spare.{IsSpare, IsSpareOf};

use crate::Move;
use crate::kept::Kept;
use obs_graph::Graph;

// Where more branches than these are on the way, the last one goes.
const LONG: usize = 1024;

/// Of the meters that have these branches one that isn't frozen: m, where it has one of them, else the first. The ways up from
/// where the first branches lie are the longest, so the least is walked where such a branch goes. But ways get longer by this, so
/// of a long one it is the last.
pub fn spare_of(path: &[u32], owners: &[Option<u32>], frozen: &[bool], m: u32) -> Option<u32>
    requires low { All (λ p. p < length owners.now) path.now }
    requires owned { All (λ p. IsSome (slice_index_or owners.now p None)) path.now }
    requires meters { (p x : ℕ) → slice_index_or owners.now p None ≡ Some x → x < length frozen.now }
    requires thawed { has_flag frozen.now m ≡ false }
    ensures spare { MatchOption result
        ((p x : ℕ) → Contains path.now p → slice_index_or owners.now p None ≡ Some x → has_flag frozen.now x ≡ true)
        (λ x. IsSpareOf path.now owners.now frozen.now m x) }
{
    let long = path.len() > LONG;
    let mut spare = None;
    for p in path {
        if let Some(x) = owners[*p as usize] {
            if x == m {
                return Some(m);
            }
            if (long || spare.is_none()) && !frozen[x as usize] {
                spare = Some(x);
            }
        }
    }
    spare
}

/// The meter whose pair has to be given up where m, which isn't frozen, takes the branch e: m itself, where that is
/// enough. None where the frozen branches join the ends of e.
pub fn spare_for(
    g: &Graph,
    kept: &Kept,
    frozen: &[bool],
    path: &mut [u32],
    m: u32,
    e: u32,
) -> Option<u32>
    requires m { m < length kept.now.slots }
    requires present { IsSome (slice_index_or g.now.ends e None) }
    requires stands { StandsOver kept.now.forest g.now }
    requires paired { ArePaired kept.now.slots frozen.now kept.now.forest.held }
    requires room { kept.now.forest.vertices ≤ length path.old }
    requires thawed { has_flag frozen.now m ≡ false }
    ensures spare { MatchOption result
        (joins g.now.ends (branches (part (has_flag frozen.now) (pairs_of kept.now.slots))) e ≡ true)
        (λ x. IsSpare g.now.ends kept.now.slots frozen.now m e x) }
{
    let _ = g.vertices();
    let owners = kept.owners();
    if let Some(x) = owners[e as usize] {
        if frozen[x as usize] {
            return None;
        }
        return Some(x);
    }
    let forest = kept.forest();
    let ends = g.ends(e).unwrap();
    if forest.piece(ends.a) != forest.piece(ends.b) {
        return Some(m);
    }
    let count = forest.cycle(g, e, path);
    spare_of(&path[..count], owners, frozen, m)
}

/// Whether the meter has another branch than e.
fn has_other(branch: Option<u32>, e: u32) -> bool
    ensures other { IsTrue result → IsSome branch × (branch ≢ Some e) }
    ensures none { result ≡ false → (f : ℕ) → branch ≡ Some f → f ≡ e }
{
    match branch {
        Some(f) => f != e,
        None => false,
    }
}

/// Puts a pair in for that of x, where its meter has none with another branch. Where the branch of the pair is held
/// already, the forest stays as it is.
fn put_pin(g: &Graph, kept: &mut Kept, pin: Move, x: u32)
    requires over { IsOver kept.old g.now }
    requires m { pin.meter < length kept.old.slots }
    requires x { x < length kept.old.slots }
    requires e { pin.branch < length g.now.ends }
    requires bare { (f : ℕ) → slice_index_or kept.old.slots pin.meter None ≡ Some f → f ≡ pin.branch }
    requires spare { (y : ℕ) → slice_index_or kept.old.slots y None ≡ Some pin.branch → y ≡ x }
    requires forest { IsForestAt g.now.ends
        (branches (pairs_of (pinned_slots kept.old.slots pin.meter pin.branch x))) }
    ensures pinned { kept.new ≡ with_slots kept.old g.now (pinned_slots kept.old.slots pin.meter pin.branch x) }
{
    if kept.owners()[pin.branch as usize].is_some() {
        return kept.hand(pin, x);
    }
    kept.lose(g, x);
    kept.add(g, pin);
}

/// Puts a pair in for those of its meter and of x: the forest loses the branches of these and gets that of the pair.
pub fn take_pin(g: &Graph, kept: &mut Kept, pin: Move, x: u32)
    requires over { IsOver kept.old g.now }
    requires m { pin.meter < length kept.old.slots }
    requires x { x < length kept.old.slots }
    requires e { pin.branch < length g.now.ends }
    requires spare { (y : ℕ) → slice_index_or kept.old.slots y None ≡ Some pin.branch → y ≡ x }
    requires forest { IsForestAt g.now.ends
        (branches (pairs_of (pinned_slots kept.old.slots pin.meter pin.branch x))) }
    ensures pinned { kept.new ≡ with_slots kept.old g.now (pinned_slots kept.old.slots pin.meter pin.branch x) }
{
    if has_other(kept.slots()[pin.meter as usize], pin.branch) {
        kept.lose(g, pin.meter);
        return put_pin(g, kept, pin, x);
    }
    put_pin(g, kept, pin, x);
}
