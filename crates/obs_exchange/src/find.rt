// The path of moves by which the assignment grows.
ghost use Rattle.std.specs.Prelude.{◌≡◌, ◌+◌, ◌<◌, ◌≤◌, ℕ, false, IfSome, MatchResult, length, drop};
ghost use Rattle.obs_assign.specs.inner.Assignment.{HasRoomOf, IsWhole, StandsOver, has_flag};
ghost use Rattle.obs_exchange.specs.declared.Sources.{Sources};
ghost use Rattle.obs_exchange.specs.inner.Found.{HasGrown};
ghost use Rattle.obs_exchange.specs.inner.Noting.{AreNotedIn};
ghost use Rattle.obs_exchange.specs.inner.Searching.{BeginsAtSource, CanMove, CanSearch, HasPath, HasReached, HasRoomIn, IsAsLarge, IsEnd, IsFreeFor, IsReady, IsResting};
ghost use Rattle.obs_exchange.specs.inner.Setting.{IsSound, IsSourceIn, Setting, first_of};

use crate::begin::{spread_all, spread_open};
use crate::free::untried_branch;
use crate::noted::Noted;
use crate::pass::Start;
use crate::progress::Progress;
use crate::setting::Setting;
use crate::stars::Stars;
use crate::trail::Trail;
use obs_assign::{Assignment, Move, Steps};
use obs_graph::Graph;
use obs_meter::Meters;
use std::sync::ledger::Ledger;

/// The move of the first noted source that touches a free branch. Sources before the given meter are passed over.
fn free_move(over: &Setting<'_>, noted: &Noted, first: u32, stars: &mut Stars) -> Option<Move>
    requires noted { AreNotedIn over.now noted.now }
    requires first { first_of over.now.sources ≤ first }
    requires room { over.now.graph.vertices ≤ length stars.old }
    ensures free { IfSome result
        (λ x. (x.meter < length over.now.touches) × IsSourceIn over.now x.meter
        × IsFreeFor over.now x.meter x.branch) }
    ensures same { stars.new ≡ stars.old }
{
    let limit = over.end();
    let mut m = noted.next(first, limit);
    while m < limit {
        if over.is_source(m) {
            if let Some(e) = untried_branch(over, m, stars) {
                return Some(Move {
                    meter: m,
                    branch: e,
                });
            }
        }
        m = noted.next(m + 1, limit);
    }
    None
}

/// Writes the moves from a source to the last one at the end of the path, and says where they begin.
fn trace(last: Move, trail: &Trail, path: &mut [Move]) -> usize
    requires end { (over : Setting) × IsEnd over trail.now last }
    requires room { length trail.now.marks ≤ length path.old }
    ensures bound { result ≤ length path.new }
    ensures ready { (over : Setting) → IsEnd over trail.now last → IsReady over (drop result path.new) }
{
    let mut start = path.len() - 1;
    path[start] = last;
    let mut x = last.meter;
    while let Some(p) = trail.parent(x) {
        start -= 1;
        path[start] = p;
        x = p.meter;
    }
    start
}

/// Marks nothing, and notes that no branch was walked or met: a search begins.
pub fn start_anew(over: &Setting<'_>, search: &mut Progress)
    requires sound { IsSound over.now }
    requires room { HasRoomIn over.now search.old }
    ensures resting { IsResting over.now search.new }
    ensures unmarked { (m : ℕ) → has_flag search.new.trail.marks m ≡ false }
    ensures as_large { IsAsLarge search.old search.new }
{
    let _ = over;
    search.trail.clear();
    search.stars.clear();
    search.tops.separate();
}

/// Where what earlier searches closed is closed still, looks for a path that passes it over, writes it at the end of the
/// array and says where it begins.
fn find_open(
    ahead: &Setting<'_>,
    noted: &Noted,
    start: Start,
    search: &mut Progress,
    path: &mut [Move],
) -> Option<usize>
    requires sound { IsSound ahead.now }
    requires flags { length ahead.now.touches ≤ length noted.now.flags }
    requires searched { first_of ahead.now.sources ≤ start.searched }
    requires room { HasRoomIn ahead.now search.old }
    requires path { length search.old.trail.marks ≤ length path.old }
    ensures found { IfSome result (HasPath ahead.now path.new) }
    ensures as_large { IsAsLarge search.old search.new }
{
    if !start.kept {
        return None;
    }
    start_anew(ahead, search);
    match spread_open(ahead, noted, start.searched, search) {
        Some(x) => Some(trace(x, &search.trail, path)),
        None => None,
    }
}

/// Looks for a path of moves that gives a source a pair, writes it at the end of the array and says where it begins.
/// Where there is no such path, it says how many meters it reached: these are the first of the queue, and the marks are
/// the least closed set. Of the sources those from `tried` on are tried for a free branch. Where none is found, it
/// searches from the sources, those from `searched` on before the others, and first as if the meters that `ahead` passes
/// over were frozen.
pub fn find(
    over: &Setting<'_>,
    ahead: &Setting<'_>,
    noted: &Noted,
    start: Start,
    search: &mut Progress,
    path: &mut [Move],
) -> Result<usize, usize>
    requires can { CanSearch over.now ahead.now noted.now start.tried start.searched }
    requires room { HasRoomIn over.now search.old }
    requires path { length search.old.trail.marks ≤ length path.old }
    ensures found { MatchResult result (HasPath over.now path.new) (HasReached over.now search.new.trail) }
    ensures as_large { IsAsLarge search.old search.new }
{
    search.stars.renew(start.anew);
    if let Some(x) = free_move(over, noted, start.tried, &mut search.stars) {
        let last = path.len() - 1;
        path[last] = x;
        return Ok(last);
    }
    if let Some(k) = find_open(ahead, noted, start, search, path) {
        return Ok(k);
    }
    start_anew(over, search);
    match spread_all(over, noted, start.searched, search) {
        Some(x) => Ok(trace(x, &search.trail, path)),
        None => Err(search.trail.tail()),
    }
}

/// Puts the moves of a path in, and ticks once. Says which source has a pair then.
pub fn grow<L: Ledger>(
    g: &Graph,
    ms: &Meters,
    a: &mut Assignment,
    path: &[Move],
    steps: &mut Steps<L>,
) -> u32
    requires stands { StandsOver a.old g.now ms.now.touches }
    requires can { CanMove g.now.ends ms.now.touches a.old path.now }
    ensures grown { (from : Sources) → BeginsAtSource g.now.ends ms.now.touches from a.old path.now
        → HasGrown g.now.ends ms.now.touches from a.old a.new result }
    ensures tick { steps.new ≡ steps.old + 1 }
    ensures stands { StandsOver a.new g.now ms.now.touches }
    ensures whole { IsWhole a.new }
    ensures same_room { HasRoomOf a.old a.new }
{
    let _ = a.length();
    let first = path[0].meter;
    a.augment(g, ms, path, steps);
    first
}
