// The meters of the queue, one after the other, up to the first free branch.
ghost use Rattle.std.specs.Prelude.{◌≡◌, ◌<◌, ◌≤◌, Bool, List, IsTrue, MatchOption, length};
ghost use Rattle.obs_exchange.specs.inner.Classes.{AreClasses};
ghost use Rattle.obs_exchange.specs.inner.Searching.{AreStarred, AreWalkedOf, IsDone, IsEnd, IsFreeFor, IsRunning, IsVisiting, RunsOn};
ghost use Rattle.obs_exchange.specs.inner.Setting.{touched_in};
ghost use Rattle.obs_exchange.specs.inner.Trail.{AreLed, Stays};

use crate::free::{count, free_branch};
use crate::progress::Progress;
use crate::setting::Setting;
use crate::stars::Stars;
use crate::tops::Tops;
use crate::trail::Trail;
use crate::walk::walk;
use obs_assign::Move;

/// Whether the branches of this meter were walked before, among the first ones at a vertex.
fn is_starred(over: &Setting<'_>, m: u32, stars: &Stars) -> bool
    requires m { m < length over.now.touches }
    requires room { over.now.graph.vertices ≤ length stars.now }
    ensures walked { (walked : List Bool) → AreStarred over.now stars.now walked
        → IsTrue result → AreWalkedOf over.now walked m }
{
    match over.hub(m) {
        Some(h) => h.count <= stars.walked(h.vertex) as usize,
        None => false,
    }
}

/// Notes that the branches of this meter were walked, where they are the first so many at a vertex.
fn star(over: &Setting<'_>, m: u32, stars: &mut Stars)
    requires m { m < length over.now.touches }
    requires room { over.now.graph.vertices ≤ length stars.old }
    ensures starred { (walked : List Bool) → AreWalkedOf over.now walked m
        → AreStarred over.now stars.old walked → AreStarred over.now stars.new walked }
    ensures same_room { length stars.new ≡ length stars.old }
{
    if let Some(h) = over.hub(m) {
        stars.set_walked(h.vertex, count(h.count));
    }
}

/// Walks the branches that the visited meter touches, up to the first free one.
fn walk_touched(
    over: &Setting<'_>,
    m: u32,
    touched: &[u32],
    trail: &mut Trail,
    tops: &mut Tops,
) -> Option<u32>
    requires touched { touched.now ≡ touched_in over.now m }
    requires visiting { IsVisiting over.now trail.old m }
    requires classes { AreClasses over.now trail.old.marks tops.old }
    ensures visiting { IsVisiting over.now trail.new m }
    ensures classes { AreClasses over.now trail.new.marks tops.new }
    ensures walked { MatchOption result (AreWalkedOf over.now trail.new.walked m) (λ e. IsFreeFor over.now m e) }
    ensures stays { Stays trail.old trail.new }
{
    for e in touched {
        let by = Move {
            meter: m,
            branch: *e,
        };
        if walk(over, by, trail, tops) {
            return Some(*e);
        }
    }
    None
}

/// Visits the meter at the head of the queue: looks for a free branch that it touches, and walks the branches that it
/// touches where it finds none.
fn visit(over: &Setting<'_>, m: u32, search: &mut Progress) -> Option<u32>
    requires visiting { IsVisiting over.now search.old.trail m }
    requires running { IsRunning over.now search.old }
    ensures visiting { IsVisiting over.now search.new.trail m }
    ensures runs_on { RunsOn over.now search.old search.new }
    ensures led { AreLed search.old.trail search.new.trail }
    ensures walked { MatchOption result (AreWalkedOf over.now search.new.trail.walked m) (λ e. IsFreeFor over.now m e) }
    ensures head { search.new.trail.head ≡ search.old.trail.head }
{
    if is_starred(over, m, &search.stars) {
        return None;
    }
    if let Some(e) = free_branch(over, m, &mut search.stars) {
        return Some(e);
    }
    match walk_touched(
        over,
        m,
        over.touched(m),
        &mut search.trail,
        &mut search.tops,
    ) {
        Some(e) => Some(e),
        None => {
            star(over, m, &mut search.stars);
            None
        }
    }
}

/// Visits the meters of the queue in their order, from its head on, up to the first one that touches a free branch.
pub fn spread(over: &Setting<'_>, search: &mut Progress) -> Option<Move>
    requires running { IsRunning over.now search.old }
    ensures runs_on { RunsOn over.now search.old search.new }
    ensures led { AreLed search.old.trail search.new.trail }
    ensures found { MatchOption result (IsDone search.new.trail) (λ x. IsEnd over.now search.new.trail x) }
{
    while search.trail.waits() {
        let m = search.trail.next();
        if let Some(e) = visit(over, m, search) {
            return Some(Move {
                meter: m,
                branch: e,
            });
        }
        search.trail.advance();
    }
    None
}
