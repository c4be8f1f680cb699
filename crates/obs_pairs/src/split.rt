// The classes of all meters without a pair, settled at once.
ghost use Rattle.std.specs.Prelude.{◌≡◌, ◌+◌, ◌≤◌, length};
ghost use Rattle.obs_exchange.specs.inner.Ordered.{AreReachedInOrder};
ghost use Rattle.obs_pairs.specs.inner.Moved.{IsMoved, MayLose, MaySearch};
ghost use Rattle.obs_pairs.specs.inner.Settled.{AreSettled};
ghost use Rattle.obs_pairs.specs.inner.Split.{AreInOrder};

use crate::reach::{keep_first, settle_same, write_order};
use crate::room::Room;
use obs_assign::{Assignment, Steps};
use obs_exchange::{Over, Work, close_in_order};
use std::sync::ledger::Ledger;

// Searches from the meters without a pair one after the other, where their numbers rise or fall.
fn reach_in_order<L: Ledger>(
    over: &Over<'_>,
    a: &Assignment,
    exchange: &mut Work,
    falls: bool,
    order: &mut [u32],
    places: &mut [u32],
    steps: &mut Steps<L>,
)
    requires may { MaySearch over.now.graph.now over.now.meters.now.touches a.now exchange.old }
    requires order { length order.old ≡ length over.now.meters.now.touches }
    requires places { length places.old ≡ length over.now.meters.now.touches }
    ensures order { AreInOrder falls (length over.now.meters.now.touches) order.new }
    ensures reached { AreReachedInOrder over.now.graph.now.ends over.now.meters.now.touches a.now
        order.new places.new }
    ensures same_sizes { exchange.new.sizes ≡ exchange.old.sizes }
{
    write_order(falls, order);
    close_in_order(over.graph, over.meters, a, order, places, exchange, steps);
}

// As `split`, with the order and the places in one array.
fn split_within<L: Ledger>(
    over: &Over<'_>,
    a: &Assignment,
    exchange: &mut Work,
    reach: &mut [u32],
    waiting: &mut [bool],
    list: &mut [u32],
    steps: &mut Steps<L>,
)
    requires may { MaySearch over.now.graph.now over.now.meters.now.touches a.now exchange.old }
    requires reach { length over.now.meters.now.touches + length over.now.meters.now.touches ≤ length reach.old }
    requires settled { AreSettled over.now.graph.now.vertices over.now.graph.now.ends
        over.now.meters.now.touches waiting.old list.old 0 }
    ensures settled { AreSettled over.now.graph.now.vertices over.now.graph.now.ends
        over.now.meters.now.touches waiting.new list.new 0 }
    ensures same_sizes { exchange.new.sizes ≡ exchange.old.sizes }
{
    let count = over.meters.count() as usize;
    let (order, places) = reach[..count + count].split_at_mut(count);
    reach_in_order(over, a, exchange, false, order, places, steps);
    keep_first(waiting, places, list);
    reach_in_order(over, a, exchange, true, order, places, steps);
    settle_same(list, places, waiting);
}

/// Settles the classes of the meters without a pair, by two searches: one from the first of them to the last, and one from
/// the last to the first. What is first reached from the same one both times is reached from it alone, and has its class.
pub(crate) fn split<L: Ledger>(
    over: &Over<'_>,
    a: &Assignment,
    room: &mut Room,
    waiting: &mut [bool],
    list: &mut [u32],
    steps: &mut Steps<L>,
)
    requires may { MayLose over.now a.now room.old }
    requires settled { AreSettled over.now.graph.now.vertices over.now.graph.now.ends
        over.now.meters.now.touches waiting.old list.old 0 }
    ensures settled { AreSettled over.now.graph.now.vertices over.now.graph.now.ends
        over.now.meters.now.touches waiting.new list.new 0 }
    ensures moved { IsMoved over.now a.now a.now room.old room.new }
{
    split_within(
        over,
        a,
        &mut room.exchange,
        &mut room.reach,
        waiting,
        list,
        steps,
    );
}
