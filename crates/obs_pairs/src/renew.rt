// Other pairs, that leave meters without one whose class isn't known yet.
ghost use Rattle.std.specs.Prelude.{◌≡◌, length};
ghost use Rattle.obs_pairs.specs.inner.Moved.{IsMoved, MayLose};

use crate::lost::{lose_marked, restore};
use crate::room::Room;
use obs_assign::{Assignment, Steps};
use obs_exchange::{Over, fill, regrow};
use std::sync::ledger::Ledger;

/// Makes the pairs anew, as many as before: first without the meters that wait, and then with these for what is lacking.
/// So as many of them as can be have no pair.
pub(crate) fn renew<L: Ledger>(
    over: &Over<'_>,
    a: &mut Assignment,
    room: &mut Room,
    waiting: &[bool],
    steps: &mut Steps<L>,
)
    requires may { MayLose over.now a.old room.old }
    requires waiting { length waiting.now ≡ length over.now.meters.now.touches }
    ensures moved { IsMoved over.now a.old a.new room.old room.new }
{
    let most = a.length();
    lose_marked(over.meters, waiting, &mut room.left);
    fill(over.graph, &room.left, a, most, &mut room.exchange, steps);
    restore(over.meters, &mut room.left);
    let _ = regrow(over.graph, over.meters, a, most, &mut room.exchange, steps);
}
