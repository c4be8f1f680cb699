// Splits with other pairs each time, as long as they settle enough.
ghost use Rattle.std.specs.Prelude.{◌≡◌, ◌≤◌, length};
ghost use Rattle.obs_pairs.specs.inner.Moved.{IsMoved, MayLose};
ghost use Rattle.obs_pairs.specs.inner.Settled.{AreSettled};

use crate::renew::renew;
use crate::room::Room;
use crate::split::split;
use obs_assign::{Assignment, Steps};
use obs_exchange::Over;
use std::sync::ledger::Ledger;

// So many settled classes are worth a round, which makes the searches of new pairs and two more; alone a class takes two, and
// these walk further.
const WORTH: usize = 24;

// How many meters wait.
fn count_waiting(waiting: &[bool]) -> usize
    ensures few { result ≤ length waiting.now }
{
    let mut count = 0;
    for k in 0..waiting.len() {
        if waiting[k] {
            count += 1;
        }
    }
    count
}

// How many classes are settled: one meter of each is its own key.
fn count_settled(waiting: &[bool], list: &[u32]) -> usize
    requires list { length list.now ≡ length waiting.now }
    ensures few { result ≤ length waiting.now }
{
    let mut count = 0;
    for k in 0..waiting.len() {
        if !waiting[k] && list[k] as usize == k {
            count += 1;
        }
    }
    count
}

// Whether enough classes were settled since there were so many, and meters enough wait for a round more.
fn is_worth(waiting: &[bool], list: &[u32], settled: usize) -> bool
    requires list { length list.now ≡ length waiting.now }
{
    WORTH <= count_waiting(waiting) && WORTH <= count_settled(waiting, list).saturating_sub(settled)
}

/// Settles classes by splits, each but the first with other pairs, as long as they settle classes enough and meters enough
/// wait.
pub(crate) fn split_in_rounds<L: Ledger>(
    over: &Over<'_>,
    a: &mut Assignment,
    room: &mut Room,
    waiting: &mut [bool],
    list: &mut [u32],
    steps: &mut Steps<L>,
)
    requires may { MayLose over.now a.old room.old }
    requires settled { AreSettled over.now.graph.now.vertices over.now.graph.now.ends
        over.now.meters.now.touches waiting.old list.old 0 }
    ensures settled { AreSettled over.now.graph.now.vertices over.now.graph.now.ends
        over.now.meters.now.touches waiting.new list.new 0 }
    ensures moved { IsMoved over.now a.old a.new room.old room.new }
{
    let settled = count_settled(waiting, list);
    split(over, a, room, waiting, list, steps);
    let mut worth = is_worth(waiting, list, settled);
    for _round in 0..512u32 {
        if worth {
            let settled = count_settled(waiting, list);
            renew(over, a, room, waiting, steps);
            split(over, a, room, waiting, list, steps);
            worth = is_worth(waiting, list, settled);
        }
    }
}
