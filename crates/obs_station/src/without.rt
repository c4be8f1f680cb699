// The pairs without the meters of a station.
ghost use Rattle.std.specs.Prelude.{◌≡◌, ◌+◌, ◌<◌, ◌≤◌, All, IfSome, None, ℕ, length, take};
ghost use Rattle.std.specs.List.{range_with_len};
ghost use Rattle.obs_switch.specs.Groups.{items_with};
ghost use Rattle.obs_switch.specs.inner.Groups.{group_start};
ghost use Rattle.obs_meter.specs.Assignments.{rho_at};
ghost use Rattle.obs_meter.specs.Lost.{is_listed};
ghost use Rattle.obs_meter.specs.inner.Lost.{left_of};
ghost use Rattle.obs_meter.specs.Touches.{live_items};
ghost use Rattle.obs_matroid.specs.Lists.{In};
ghost use Rattle.obs_assign.specs.inner.Assignment.{branch_at};
ghost use Rattle.obs_station.specs.inner.Going.{GoesOn, HasPlaces, IsAsLarge, MayLoseStation};
ghost use Rattle.obs_station.specs.inner.Held.{losses_in};
ghost use Rattle.obs_station.specs.inner.Rounds.{allowed, rank_left};

use crate::grouping::Grouping;
use crate::losses::Loss;
use crate::room::Room;
use crate::rounds::Rounds;
use crate::settle::settle_many;
use obs_assign::{Assignment, Steps};
use obs_exchange::{lose, regain, regrow};
use std::sync::ledger::Ledger;

/// The rank without the listed meters. They are lost and regained, and the pairs are as many as there can be again.
pub(crate) fn rank_without<L: Ledger>(
    over: &Grouping<'_>,
    list: &[u32],
    a: &mut Assignment,
    room: &mut Room,
    steps: &mut Steps<L>,
) -> u32
    requires ready { MayLoseStation over.now a.old room.old }
    requires low { All (λ m. m < length over.now.meters.now.touches) list.now }
    ensures rank { result ≡ rho_at over.now.graph.now.vertices over.now.graph.now.ends over.now.meters.now.touches
        (left_of (is_listed list.now) (live_items over.now.graph.now.ends over.now.meters.now.touches)) }
    ensures ticks { steps.new ≤ steps.old + (length list.now + 1) }
    ensures vacant { (m : ℕ) → In m list.now → branch_at a.old m ≡ None → steps.new ≤ steps.old + length list.now }
    ensures goes_on { GoesOn over.now a.old a.new room.old room.new steps.old steps.new }
{
    let most = a.length();
    lose(over.graph, &mut room.left, list, a);
    let _ = regrow(over.graph, &room.left, a, most, &mut room.exchange, steps);
    let rank = a.length();
    regain(over.meters, &mut room.left, list);
    let _ = regrow(over.graph, over.meters, a, most, &mut room.exchange, steps);
    rank
}

// The rank without the meters of a station, where it isn't known yet.
fn station_rank<L: Ledger>(
    over: &Grouping<'_>,
    c: u32,
    known: Option<u32>,
    a: &mut Assignment,
    room: &mut Room,
    steps: &mut Steps<L>,
) -> u32
    requires ready { MayLoseStation over.now a.old room.old }
    requires station { c < over.now.stations.now.buses.count }
    requires known { IfSome known (λ r. r ≡ rank_left over.now c) }
    ensures rank { result ≡ rank_left over.now c }
    ensures ticks { steps.new + allowed (length (items_with over.now.stations.now.keys c)) known
        ≤ steps.old + (length (items_with over.now.stations.now.keys c) + 1) }
    ensures goes_on { GoesOn over.now a.old a.new room.old room.new steps.old steps.new }
{
    match known {
        Some(rank) => rank,
        None => {
            let list = over.stations.meters(c);
            rank_without(over, list, a, room, steps)
        }
    }
}

/// Writes an entry for each station with a live meter, and says how many there are. What shows of many stations at once is
/// found first; the rank without each of the others is searched for.
pub(crate) fn write_losses<L: Ledger>(
    over: &Grouping<'_>,
    a: &mut Assignment,
    room: &mut Room,
    rounds: &mut Rounds,
    entries: &mut [Loss],
    steps: &mut Steps<L>,
) -> usize
    requires ready { MayLoseStation over.now a.old room.old }
    requires places { HasPlaces over.now rounds.old }
    requires entries { over.now.stations.now.buses.most_nodes ≤ length entries.old }
    ensures losses { take result entries.new
        ≡ losses_in over.now.graph.now over.now.meters.now.touches over.now.stations.now
        (range_with_len 0 over.now.stations.now.buses.count) }
    ensures few { result ≤ length entries.old }
    ensures ticks { steps.new
        ≤ steps.old + (group_start over.now.stations.now.keys over.now.stations.now.buses.count + result) }
    ensures goes_on { GoesOn over.now a.old a.new room.old room.new steps.old steps.new }
    ensures as_large { IsAsLarge rounds.old rounds.new }
{
    settle_many(over, a, room, rounds, steps);
    let stations = over.stations;
    let mut found = 0;
    for c in 0..stations.count() {
        if stations.has_any(c) {
            let list = stations.meters(c);
            let known = rounds.rank(c);
            let rank = station_rank(over, c, known, a, room, steps);
            entries[found] = Loss {
                node: stations.node(c),
                lost: list.len() as u32,
                rank,
            };
            found += 1;
        }
    }
    found
}
