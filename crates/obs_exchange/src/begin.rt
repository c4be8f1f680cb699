// The sources, one after the other.
ghost use Rattle.std.specs.Prelude.{◌≡◌, ◌<◌, ◌≤◌, true, IfSome, MatchOption, length};
ghost use Rattle.obs_assign.specs.inner.Assignment.{has_flag};
ghost use Rattle.obs_exchange.specs.inner.Noting.{AreNotedIn};
ghost use Rattle.obs_exchange.specs.inner.Searching.{AreMarked, IsDone, IsEnd, IsResting, RunsOn};
ghost use Rattle.obs_exchange.specs.inner.Setting.{IsSourceIn, end_of, first_of};
ghost use Rattle.obs_exchange.specs.inner.Trail.{AreLedBut};

use crate::noted::Noted;
use crate::progress::Progress;
use crate::setting::Setting;
use crate::visit::spread;
use obs_assign::Move;

/// Marks the meter, where it is a live source that isn't marked, and visits what is reached from it, up to the first
/// free branch. Nothing waits in the queue before, nor afterwards where no branch is free.
pub fn spread_source(over: &Setting<'_>, m: u32, search: &mut Progress) -> Option<Move>
    requires first { first_of over.now.sources ≤ m }
    requires end { m < end_of over.now.sources (length over.now.touches) }
    requires resting { IsResting over.now search.old }
    ensures runs_on { RunsOn over.now search.old search.new }
    ensures found { MatchOption result (IsDone search.new.trail) (λ x. IsEnd over.now search.new.trail x) }
    ensures marked { IsSourceIn over.now m → has_flag search.new.trail.marks m ≡ true }
    ensures led { AreLedBut m search.old.trail search.new.trail }
{
    if search.trail.is_marked(m) {
        return None;
    }
    if !over.is_source(m) {
        return None;
    }
    search.trail.push(m, None);
    spread(over, search)
}

/// Marks the live sources from one meter on, below a limit, and visits what is reached from each before the next, up to
/// the first free branch.
fn spread_range(
    over: &Setting<'_>,
    noted: &Noted,
    first: u32,
    limit: u32,
    search: &mut Progress,
) -> Option<Move>
    requires noted { AreNotedIn over.now noted.now }
    requires first { first_of over.now.sources ≤ first }
    requires limit { limit ≤ end_of over.now.sources (length over.now.touches) }
    requires resting { IsResting over.now search.old }
    ensures runs_on { RunsOn over.now search.old search.new }
    ensures found { MatchOption result
        (IsDone search.new.trail × AreMarked over.now search.new.trail.marks first limit)
        (λ x. IsEnd over.now search.new.trail x) }
{
    let mut m = noted.next(first, limit);
    while m < limit {
        if let Some(x) = spread_source(over, m, search) {
            return Some(x);
        }
        m = noted.next(m + 1, limit);
    }
    None
}

/// As `spread_source`, where the meter isn't flagged as one to pass over.
fn spread_unshut(over: &Setting<'_>, m: u32, search: &mut Progress) -> Option<Move>
    requires first { first_of over.now.sources ≤ m }
    requires end { m < end_of over.now.sources (length over.now.touches) }
    requires resting { IsResting over.now search.old }
    ensures runs_on { RunsOn over.now search.old search.new }
    ensures found { MatchOption result (IsDone search.new.trail) (λ x. IsEnd over.now search.new.trail x) }
{
    if over.is_shut(m) {
        return None;
    }
    spread_source(over, m, search)
}

/// Visits what is reached from the live sources from one meter on, one after the other, up to the first free branch.
/// Those that are flagged as ones to pass over aren't begun with.
pub fn spread_open(
    over: &Setting<'_>,
    noted: &Noted,
    first: u32,
    search: &mut Progress,
) -> Option<Move>
    requires room { length over.now.touches ≤ length noted.now.flags }
    requires first { first_of over.now.sources ≤ first }
    requires resting { IsResting over.now search.old }
    ensures runs_on { RunsOn over.now search.old search.new }
    ensures found { IfSome result (λ x. IsEnd over.now search.new.trail x) }
{
    let limit = over.end();
    let mut m = noted.next(first, limit);
    while m < limit {
        if let Some(x) = spread_unshut(over, m, search) {
            return Some(x);
        }
        m = noted.next(1 + m, limit);
    }
    None
}

/// Marks the live sources, those from the given meter on before the others, and visits what is reached from each before
/// the next, up to the first free branch. The second range is the whole one; its marked meters are passed over.
pub fn spread_all(
    over: &Setting<'_>,
    noted: &Noted,
    middle: u32,
    search: &mut Progress,
) -> Option<Move>
    requires noted { AreNotedIn over.now noted.now }
    requires middle { first_of over.now.sources ≤ middle }
    requires resting { IsResting over.now search.old }
    ensures runs_on { RunsOn over.now search.old search.new }
    ensures found { MatchOption result
        (IsDone search.new.trail × AreMarked over.now search.new.trail.marks (first_of over.now.sources)
        (end_of over.now.sources (length over.now.touches)))
        (λ x. IsEnd over.now search.new.trail x) }
{
    let end = over.end();
    if let Some(x) = spread_range(over, noted, middle, end, search) {
        return Some(x);
    }
    spread_range(over, noted, over.first(), end, search)
}
