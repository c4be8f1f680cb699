// The rank without a station's meters, where it shows from which places these are reached.
ghost use Rattle.std.specs.Prelude.{◌≡◌, ◌<◌, ◌^◌, All, IfSome, filter, length, nat_lt, slice_index, true};
ghost use Rattle.obs_station.specs.inner.Held.{has_any};
ghost use Rattle.obs_station.specs.inner.Rounds.{AreOwn, HasLongest, AreReached, CostNothing, is_bare, rank_left};

use crate::grouping::Grouping;
use crate::reach::Reach;
use crate::stations::Stations;
use obs_assign::Assignment;

// How many of the listed meters are reached from a place below the last one.
fn count_reached(firsts: &[u32], list: &[u32], all: usize) -> u32
    requires low { All (λ m. m < length firsts.now) list.now }
    requires few { length list.now < 2 ^ 32 }
    ensures count { result ≡ length (filter (λ m. nat_lt (slice_index firsts.now m) all) list.now) }
{
    let mut count = 0;
    for m in list {
        if (firsts[*m as usize] as usize) < all {
            count += 1;
        }
    }
    count
}

// How many of the listed meters have no pair.
fn count_bare(a: &Assignment, list: &[u32]) -> u32
    requires low { All (λ m. m < length a.now.slots) list.now }
    requires few { length list.now < 2 ^ 32 }
    ensures count { result ≡ length (filter (is_bare a.now) list.now) }
{
    let mut count = 0;
    for m in list {
        if a.branch_of(*m).is_none() {
            count += 1;
        }
    }
    count
}

// Whether the listed meters that have a pair are reached from no place before the one and, from the last place on, from
// none before the other.
fn are_own(a: &Assignment, list: &[u32], reach: &Reach<'_>, before: usize, behind: usize) -> bool
    requires low { All (λ m. m < length a.now.slots) list.now }
    requires firsts { length reach.now.firsts.now ≡ length a.now.slots }
    requires lasts { length reach.now.lasts.now ≡ length a.now.slots }
    ensures own { result ≡ true → AreOwn a.now list.now reach.now.firsts.now reach.now.lasts.now before behind }
{
    for m in list {
        let k = *m as usize;
        if a.branch_of(*m).is_some() {
            if (reach.firsts[k] as usize) < before || (reach.lasts[k] as usize) < behind {
                return false;
            }
        }
    }
    true
}

// How many meters of a station cost nothing, where it shows: of at most one that is reached this one, else those without a
// pair, where those with one are reached from the station alone.
fn count_spared(stations: &Stations, a: &Assignment, c: u32, reach: &Reach<'_>) -> Option<u32>
    requires station { c < stations.now.buses.count }
    requires slots { length a.now.slots ≡ length stations.now.keys }
    requires firsts { length reach.now.firsts.now ≡ length stations.now.keys }
    requires lasts { length reach.now.lasts.now ≡ length stations.now.keys }
    ensures spared { IfSome result
        (CostNothing stations.now a.now reach.now.firsts.now reach.now.lasts.now reach.now.both c) }
{
    let list = stations.meters(c);
    let count = stations.count();
    let all = stations.start(count);
    let reached = count_reached(reach.firsts, list, all);
    if reached <= 1 {
        return Some(reached);
    }
    let before = stations.start(c);
    let end = stations.start(c + 1);
    let behind = all - end;
    if reach.both && are_own(a, list, reach, before, behind) {
        return Some(count_bare(a, list));
    }
    None
}

/// The rank without a station's meters, where it shows and the station has live ones: less by one for each meter but those
/// that cost nothing.
pub(crate) fn shown_rank(
    over: &Grouping<'_>,
    a: &Assignment,
    c: u32,
    reach: &Reach<'_>,
) -> Option<u32>
    requires paired { HasLongest over.now a.now }
    requires reached { AreReached over.now a.now reach.now.firsts.now reach.now.lasts.now reach.now.both }
    requires station { c < over.now.stations.now.buses.count }
    ensures rank { IfSome result (λ r. (has_any over.now.stations.now c ≡ true) × (r ≡ rank_left over.now c)) }
{
    let stations = over.stations;
    if !stations.has_any(c) {
        return None;
    }
    let list = stations.meters(c);
    match count_spared(stations, a, c, reach) {
        Some(spared) => Some(a.length() - (list.len() as u32 - spared)),
        None => None,
    }
}
