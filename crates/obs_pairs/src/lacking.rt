// What a search reaches when a meter is lost.
ghost use Rattle.std.specs.Prelude.{◌≡◌, true, length};
ghost use Rattle.obs_assign.specs.inner.Assignment.{has_flag};
ghost use Rattle.obs_pairs.specs.inner.Moved.{IsMoved, MayLose};
ghost use Rattle.obs_pairs.specs.inner.Settled.{LacksClass, redundant_at};

use crate::room::Room;
use obs_assign::{Assignment, Steps};
use obs_exchange::{Over, close, lose, regain, regrow};
use std::sync::ledger::Ledger;

/// Loses a redundant meter, makes the pairs as many again without it, and searches once more. What is redundant and
/// isn't reached then has the class of the meter. It touches afterwards what it touched, and has no pair.
pub(crate) fn search_without<L: Ledger>(
    over: &Over<'_>,
    a: &mut Assignment,
    m: u32,
    room: &mut Room,
    steps: &mut Steps<L>,
)
    requires may { MayLose over.now a.old room.old }
    requires redundant { redundant_at over.now.graph.now.vertices over.now.graph.now.ends
        over.now.meters.now.touches m ≡ true }
    ensures flags { length room.new.exchange.reached ≡ length over.now.meters.now.touches }
    ensures lacks { LacksClass over.now.graph.now.vertices over.now.graph.now.ends over.now.meters.now.touches m
        (has_flag room.new.exchange.reached) }
    ensures moved { IsMoved over.now a.old a.new room.old room.new }
{
    let most = a.length();
    let lost = [m];
    lose(over.graph, &mut room.left, &lost, a);
    let _ = regrow(over.graph, &room.left, a, most, &mut room.exchange, steps);
    close(over.graph, &room.left, a, &mut room.exchange, steps);
    regain(over.meters, &mut room.left, &lost);
}
