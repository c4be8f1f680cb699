// Stations settled many at once, in rounds.
ghost use Rattle.std.specs.Prelude.{◌≡◌, ◌+◌, ◌≤◌, if◌then◌else◌, false};
ghost use Rattle.obs_station.specs.inner.Going.{AreKnown, GoesOn, HasPlaces, IsAsLarge, MayLoseStation, HasSettled, NoneVacant};
ghost use Rattle.obs_station.specs.inner.Rounds.{allowance};

use crate::grouping::Grouping;
use crate::room::Room;
use crate::rounds::Rounds;
use crate::without::rank_without;
use obs_assign::{Assignment, Steps};
use std::sync::ledger::Ledger;

// A round may take so many searches more than it saves: those for a station alone walk further than those of a round.
const LOSS: u32 = 32;

// Finds the rank without a station that has a live meter without a pair, where there is one whose rank isn't known. That
// takes a search less than the station may take.
fn settle_vacant<L: Ledger>(
    over: &Grouping<'_>,
    a: &mut Assignment,
    room: &mut Room,
    rounds: &mut Rounds,
    steps: &mut Steps<L>,
) -> bool
    requires ready { MayLoseStation over.now a.old room.old }
    requires known { AreKnown over.now rounds.old }
    ensures settled { HasSettled over.now a.old a.new room.old room.new rounds.old rounds.new steps.old steps.new
        0 (if result then 1 else 0) }
    ensures none { result ≡ false → NoneVacant over.now a.new rounds.new }
    ensures same { result ≡ false → rounds.new ≡ rounds.old }
{
    match rounds.vacant(over, a) {
        Some(m) => {
            let c = over.stations.station(m);
            let list = over.stations.meters(c);
            let rank = rank_without(over, list, a, room, steps);
            rounds.put(c, rank);
            true
        }
        None => false,
    }
}

// Reaches the meters, from the first station to the last and perhaps the other way round too, and notes the ranks that show.
fn settle_reached<L: Ledger>(
    over: &Grouping<'_>,
    a: &Assignment,
    room: &mut Room,
    rounds: &mut Rounds,
    both: bool,
    steps: &mut Steps<L>,
) -> u32
    requires ready { MayLoseStation over.now a.now room.old }
    requires known { AreKnown over.now rounds.old }
    ensures settled { HasSettled over.now a.now a.now room.old room.new rounds.old rounds.new steps.old steps.new
        (if both then 2 else 1) result }
{
    rounds.reach(over, a, both, &mut room.exchange, steps);
    rounds.settle(over, a, both)
}

// Makes a round with no more searches than are given: the pairs are grown without some meters and then with them, and the
// ranks noted that show. Says how many searches are left, with those that the settled stations may take.
fn settle_round<L: Ledger>(
    over: &Grouping<'_>,
    a: &mut Assignment,
    room: &mut Room,
    rounds: &mut Rounds,
    given: u32,
    steps: &mut Steps<L>,
) -> u32
    requires ready { MayLoseStation over.now a.old room.old }
    requires known { AreKnown over.now rounds.old }
    ensures settled { HasSettled over.now a.old a.new room.old room.new rounds.old rounds.new steps.old steps.new
        given result }
{
    let count = rounds.draw(over.stations, given.saturating_sub(3));
    if count == 0 {
        return given;
    }
    let list = rounds.listed(count);
    let _ = rank_without(over, list, a, room, steps);
    let gain = settle_reached(over, a, room, rounds, true, steps);
    (given - count - 3).saturating_add(gain)
}

// Makes rounds as long as each takes few searches more than it saves.
fn settle_rounds<L: Ledger>(
    over: &Grouping<'_>,
    a: &mut Assignment,
    room: &mut Room,
    rounds: &mut Rounds,
    given: u32,
    steps: &mut Steps<L>,
)
    requires ready { MayLoseStation over.now a.old room.old }
    requires known { AreKnown over.now rounds.old }
    ensures settled { HasSettled over.now a.old a.new room.old room.new rounds.old rounds.new steps.old steps.new
        given 0 }
{
    let mut given = given;
    let mut worth = true;
    for _round in 0..512u32 {
        if worth {
            let next = settle_round(over, a, room, rounds, given, steps);
            worth = given.saturating_sub(LOSS) < next;
            given = next;
        }
    }
}

// As `settle_many`, with one search more.
fn settle_others<L: Ledger>(
    over: &Grouping<'_>,
    a: &mut Assignment,
    room: &mut Room,
    rounds: &mut Rounds,
    steps: &mut Steps<L>,
)
    requires ready { MayLoseStation over.now a.old room.old }
    requires known { AreKnown over.now rounds.old }
    ensures settled { HasSettled over.now a.old a.new room.old room.new rounds.old rounds.new steps.old steps.new
        1 0 }
{
    if settle_vacant(over, a, room, rounds, steps) {
        let given = settle_reached(over, a, room, rounds, true, steps);
        settle_rounds(over, a, room, rounds, given, steps);
    } else {
        let _ = settle_reached(over, a, room, rounds, false, steps);
    }
}

/// Notes the rank without each of as many stations as show it. Two stations with a meter without a pair come first: each
/// takes a search less than it may, and two searches reach the meters.
pub(crate) fn settle_many<L: Ledger>(
    over: &Grouping<'_>,
    a: &mut Assignment,
    room: &mut Room,
    rounds: &mut Rounds,
    steps: &mut Steps<L>,
)
    requires ready { MayLoseStation over.now a.old room.old }
    requires places { HasPlaces over.now rounds.old }
    ensures known { AreKnown over.now rounds.new }
    ensures goes_on { GoesOn over.now a.old a.new room.old room.new steps.old steps.new }
    ensures ticks { steps.new ≤ steps.old
        + allowance over.now.stations.now rounds.new.ranks over.now.stations.now.buses.count }
    ensures as_large { IsAsLarge rounds.old rounds.new }
{
    let _ = over.meters.count();
    let all = over.stations.members().len() as u32;
    rounds.begin(all);
    if settle_vacant(over, a, room, rounds, steps) {
        settle_others(over, a, room, rounds, steps);
    } else {
        let _ = rounds.settle(over, a, false);
    }
}
