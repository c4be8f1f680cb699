// How a meter takes a branch, or is refused it: refused where the other meters can have no more pairs, and none is won
// by this branch either.
ghost use Rattle.std.specs.Prelude.{◌≡◌, ◌≢◌, ◌+◌, ◌≤◌, ℕ, false, Some, None, length, slice_set, IsTrue, MatchBool};
ghost use Rattle.obs_matroid.specs.Lists.{In};
ghost use Rattle.obs_meter.specs.declared.Touch.TheVariants.{Nothing};
ghost use Rattle.obs_meter.specs.Touches.{touch_at};
ghost use Rattle.obs_assign.specs.inner.Assignment.{StandsOver, branch_at, pairs};
ghost use Rattle.obs_exchange.specs.declared.Sources.TheVariants.{One};
ghost use Rattle.obs_exchange.specs.inner.Found.{CanBegin, HasClosed};
ghost use Rattle.obs_first.specs.inner.Deciding.{AreEnoughFor, GoesOn, HasRefused, HasTaken, IsAside, IsMoved, IsOutOfReach, IsReady, IsUnderWay, IsWithoutPair, MayTake};

use obs_assign::{Assignment, Steps};
use obs_exchange::{Found, Over, Sources, Work, search_by};
use obs_meter::{Meters, Touch};
use std::sync::ledger::Ledger;

/// Looks for one pair more from these sources among the meters other than m, which has none. Says whether there is one
/// then.
fn wins<L: Ledger>(
    over: &Over<'_>,
    a: &mut Assignment,
    m: u32,
    from: Sources,
    work: &mut Work,
    steps: &mut Steps<L>,
) -> bool
    requires ready { (long : ℕ) × IsReady over.now.graph.now over.now.meters.now.touches a.old work.old long }
    requires without { IsWithoutPair over.now.meters.now.touches a.old m }
    requires begins { CanBegin from a.old }
    ensures won { MatchBool result
        (length (pairs a.new) ≡ length (pairs a.old) + 1)
        (HasClosed over.now.graph.now.ends (slice_set over.now.meters.now.touches m Nothing)
        from a.old a.new work.new.reached) }
    ensures bare { branch_at a.new m ≡ None }
    ensures moved { (long : ℕ) → IsReady over.now.graph.now over.now.meters.now.touches a.old work.old long
        → IsMoved over.now.graph.now over.now.meters.now.touches a.old a.new work.old work.new long }
{
    match search_by(
        over.graph,
        over.meters,
        a,
        m,
        Touch::Nothing,
        from,
        work,
        steps,
    ) {
        Found::Grown(x) => {
            work.note(x, false);
            true
        }
        Found::Closed => false,
    }
}

/// Looks back from the branch that the meter had, if it had one, for a source that could make up for it, and where that
/// ends too early for noted meters around it. Says how many there are.
fn look_near(over: &Over<'_>, a: &Assignment, m: u32, around: Option<u32>, work: &mut Work) -> usize
    requires stands { StandsOver a.now over.now.graph.now over.now.meters.now.touches }
    ensures same { work.new ≡ work.old }
{
    match around {
        Some(e) => {
            if e < over.graph.positions() && !work.look_back(over.graph, over.meters, a, m, e) {
                work.look_near(over.graph, e)
            } else {
                0
            }
        }
        None => 0,
    }
}

/// Whether a search may begin at this meter alone.
fn can_begin(ms: &Meters, a: &Assignment, s: u32) -> bool
    requires meters { length ms.now.touches ≡ length a.now.slots }
    ensures begins { IsTrue result → CanBegin (One s) a.now }
{
    s < ms.count() && a.branch_of(s).is_none()
}

/// As `wins`, from sources around a branch, one after the other.
fn wins_near<L: Ledger>(
    over: &Over<'_>,
    a: &mut Assignment,
    m: u32,
    around: Option<u32>,
    work: &mut Work,
    steps: &mut Steps<L>,
) -> bool
    requires ready { (long : ℕ) × IsReady over.now.graph.now over.now.meters.now.touches a.old work.old long }
    requires without { IsWithoutPair over.now.meters.now.touches a.old m }
    ensures won { MatchBool result (length (pairs a.new) ≡ length (pairs a.old) + 1) (a.new ≡ a.old) }
    ensures bare { branch_at a.new m ≡ None }
    ensures moved { (long : ℕ) → IsReady over.now.graph.now over.now.meters.now.touches a.old work.old long
        → IsMoved over.now.graph.now over.now.meters.now.touches a.old a.new work.old work.new long }
{
    for k in 0..look_near(over, a, m, around, work) {
        if let Some(s) = work.near(k) {
            if can_begin(over.meters, a, s) && wins(over, a, m, Sources::One(s), work, steps) {
                return true;
            }
        }
    }
    false
}

/// Takes the pair of the meter away, and notes it.
fn release(over: &Over<'_>, a: &mut Assignment, m: u32, rank: u32, work: &mut Work)
    requires may { MayTake over.now.graph.now over.now.meters.now.touches a.old work.old m rank }
    ensures dropped { a.new.slots ≡ slice_set a.old.slots m None }
    ensures moved { IsMoved over.now.graph.now over.now.meters.now.touches a.old a.new work.old work.new rank }
{
    a.drop_pair(over.graph, m);
    work.note(m, true);
}

/// Takes the pair of the meter away, and looks for one pair more among the others, where the meter isn't known to be
/// critical beside the frozen pairs: first from sources near the branch that it had. Says whether the pairs are enough
/// then. Where they aren't, the search has told which meters may be loose still.
fn give_up<L: Ledger>(
    over: &Over<'_>,
    a: &mut Assignment,
    m: u32,
    rank: u32,
    work: &mut Work,
    steps: &mut Steps<L>,
) -> bool
    requires may { MayTake over.now.graph.now over.now.meters.now.touches a.old work.old m rank }
    requires paired { branch_at a.old m ≢ None }
    requires enough { rank ≤ length (pairs a.old) }
    ensures given { MatchBool result
        (rank ≤ length (pairs a.new))
        (IsAside over.now.graph.now.ends over.now.meters.now.touches a.new m rank) }
    ensures bare { branch_at a.new m ≡ None }
    ensures moved { IsMoved over.now.graph.now over.now.meters.now.touches a.old a.new work.old work.new rank }
{
    let around = a.branch_of(m);
    release(over, a, m, rank, work);
    if !work.is_loose(m) {
        return false;
    }
    if wins_near(over, a, m, around, work, steps) {
        return true;
    }
    if wins(over, a, m, Sources::All, work, steps) {
        return true;
    }
    if a.length() >= rank {
        return true;
    }
    work.narrow();
    false
}

/// Where the meter has another branch than e, gives it up. Says whether the pairs are enough then.
fn set_aside<L: Ledger>(
    over: &Over<'_>,
    a: &mut Assignment,
    m: u32,
    e: u32,
    rank: u32,
    work: &mut Work,
    steps: &mut Steps<L>,
) -> bool
    requires may { MayTake over.now.graph.now over.now.meters.now.touches a.old work.old m rank }
    ensures aside { MatchBool result
        (AreEnoughFor a.new m e rank)
        (IsAside over.now.graph.now.ends over.now.meters.now.touches a.new m rank) }
    ensures moved { IsMoved over.now.graph.now over.now.meters.now.touches a.old a.new work.old work.new rank }
{
    if a.length() < rank {
        return false;
    }
    match a.branch_of(m) {
        None => true,
        Some(had) => had == e || give_up(over, a, m, rank, work, steps),
    }
}

/// Looks for a pair for the meter, which has none, as if it touched e alone. Says whether it has it then.
fn reaches<L: Ledger>(
    over: &Over<'_>,
    a: &mut Assignment,
    m: u32,
    e: u32,
    work: &mut Work,
    steps: &mut Steps<L>,
) -> bool
    requires ready { (long : ℕ) × IsReady over.now.graph.now over.now.meters.now.touches a.old work.old long }
    requires without { IsWithoutPair over.now.meters.now.touches a.old m }
    requires touched { In e (touch_at over.now.graph.now.ends over.now.meters.now.touches m) }
    ensures same { result ≡ false → a.new ≡ a.old }
    ensures reached { MatchBool result
        (AreEnoughFor a.new m e (length (pairs a.old) + 1))
        (IsOutOfReach over.now.graph.now.ends over.now.meters.now.touches a.new m e) }
    ensures moved { (long : ℕ) → IsReady over.now.graph.now over.now.meters.now.touches a.old work.old long
        → IsMoved over.now.graph.now over.now.meters.now.touches a.old a.new work.old work.new long }
{
    match search_by(
        over.graph,
        over.meters,
        a,
        m,
        Touch::Edge(e),
        Sources::One(m),
        work,
        steps,
    ) {
        Found::Grown(_) => true,
        Found::Closed => false,
    }
}

/// Whether the pairs can be as many as they are to be with e for the meter, as far as frozen pairs allow it. Then they
/// are, and the meter has e or no branch.
fn makes_way<L: Ledger>(
    over: &Over<'_>,
    a: &mut Assignment,
    m: u32,
    e: u32,
    rank: u32,
    work: &mut Work,
    steps: &mut Steps<L>,
) -> bool
    requires may { MayTake over.now.graph.now over.now.meters.now.touches a.old work.old m rank }
    requires touched { In e (touch_at over.now.graph.now.ends over.now.meters.now.touches m) }
    ensures way { MatchBool result
        (AreEnoughFor a.new m e rank)
        (HasRefused over.now.graph.now.ends over.now.meters.now.touches a.old a.new m e rank
        × IsUnderWay over.now.graph.now.ends over.now.meters.now.touches a.new m rank) }
    ensures moved { IsMoved over.now.graph.now over.now.meters.now.touches a.old a.new work.old work.new rank }
{
    if !a.may_pin(over.graph, m, e) {
        return false;
    }
    set_aside(over, a, m, e, rank, work, steps) || reaches(over, a, m, e, work, steps)
}

/// Gives the meter the branch and freezes the pair, where the pairs can be so many then. Says whether that is so.
pub fn take_branch<L: Ledger>(
    over: &Over<'_>,
    a: &mut Assignment,
    m: u32,
    e: u32,
    rank: u32,
    work: &mut Work,
    steps: &mut Steps<L>,
) -> bool
    requires may { MayTake over.now.graph.now over.now.meters.now.touches a.old work.old m rank }
    requires touched { In e (touch_at over.now.graph.now.ends over.now.meters.now.touches m) }
    ensures taken { MatchBool result
        (HasTaken a.old a.new m e rank)
        (HasRefused over.now.graph.now.ends over.now.meters.now.touches a.old a.new m e rank
        × IsUnderWay over.now.graph.now.ends over.now.meters.now.touches a.new m rank) }
    ensures goes_on { GoesOn over.now.graph.now over.now.meters.now.touches a.old a.new work.old work.new rank }
{
    if !makes_way(over, a, m, e, rank, work, steps) {
        return false;
    }
    let Some(x) = a.spare(over.graph, m, e) else {
        return false;
    };
    a.pin_for(over.graph, over.meters, m, e, x, steps);
    work.note(x, true);
    work.note(m, false);
    work.note_near(over.graph, over.meters, x);
    true
}
