// Classes, settled one after the other.
ghost use Rattle.std.specs.Prelude.{◌≡◌, ◌&&◌, ◌<◌, ◌≤◌, ◌^◌, if◌then◌else◌, ℕ, not, length, slice_index, take};
ghost use Rattle.obs_assign.specs.inner.Assignment.{has_flag};
ghost use Rattle.obs_exchange.specs.inner.Blank.{AreNumbers};
ghost use Rattle.obs_pairs.specs.inner.Moved.{IsMoved, MayLose};
ghost use Rattle.obs_pairs.specs.Partners.{classes_of};
ghost use Rattle.obs_pairs.specs.inner.Settled.{AreKeyed, AreSettled};

use crate::lacking::search_without;
use crate::name::name_all;
use crate::room::Room;
use crate::rounds::split_in_rounds;
use obs_assign::{Assignment, Steps};
use obs_exchange::{Over, close};
use std::sync::ledger::Ledger;

// The marked meters wait for their class, and each meter is written as its own.
fn begin(marks: &[bool], waiting: &mut [bool], list: &mut [u32])
    requires waiting { length waiting.old ≡ length marks.now }
    requires few { length list.old < 2 ^ 32 }
    ensures waiting { waiting.new ≡ marks.now }
    ensures list { AreNumbers list.new }
{
    waiting.copy_from_slice(marks);
    for k in 0..list.len() {
        list[k] = k as u32;
    }
}

// Whether the meter waits and isn't marked.
fn is_lacking(waiting: &[bool], marks: &[bool], k: usize) -> bool
    requires waiting { k < length waiting.now }
    requires marks { k < length marks.now }
    ensures value { result ≡ (has_flag waiting.now k && not (has_flag marks.now k)) }
{
    waiting[k] && !marks[k]
}

// Settles the meters that wait that aren't marked: m is the key of their class.
fn settle(marks: &[bool], m: u32, waiting: &mut [bool], list: &mut [u32])
    requires waiting { length waiting.old ≡ length marks.now }
    requires list { length list.old ≡ length marks.now }
    ensures waiting { (k : ℕ) → has_flag waiting.new k ≡ (has_flag waiting.old k && has_flag marks.now k) }
    ensures list { (k : ℕ) → slice_index list.new k
        ≡ (if has_flag waiting.old k && not (has_flag marks.now k) then m else slice_index list.old k) }
{
    for k in 0..marks.len() {
        if is_lacking(waiting, marks, k) {
            waiting[k] = false;
            list[k] = m;
        }
    }
}

// Settles the class of each waiting meter, one after the other.
fn settle_all<L: Ledger>(
    over: &Over<'_>,
    a: &mut Assignment,
    room: &mut Room,
    waiting: &mut [bool],
    list: &mut [u32],
    steps: &mut Steps<L>,
)
    requires may { MayLose over.now a.old room.old }
    requires settled { AreSettled over.now.graph.now.vertices over.now.graph.now.ends
        over.now.meters.now.touches waiting.old list.old 0 }
    ensures keyed { AreKeyed over.now.graph.now.vertices over.now.graph.now.ends over.now.meters.now.touches list.new }
    ensures moved { IsMoved over.now a.old a.new room.old room.new }
{
    for m in 0..over.meters.count() {
        if waiting[m as usize] {
            search_without(over, a, m, room, steps);
            settle(room.exchange.reached(), m, waiting, list);
        }
    }
}

// Finds the redundant meters, and settles their classes.
fn find_all<L: Ledger>(
    over: &Over<'_>,
    a: &mut Assignment,
    room: &mut Room,
    waiting: &mut [bool],
    list: &mut [u32],
    steps: &mut Steps<L>,
)
    requires may { MayLose over.now a.old room.old }
    requires waiting { length waiting.old ≡ length over.now.meters.now.touches }
    requires list { length list.old ≡ length over.now.meters.now.touches }
    ensures classes { list.new
        ≡ classes_of over.now.graph.now.vertices over.now.graph.now.ends over.now.meters.now.touches }
    ensures moved { IsMoved over.now a.old a.new room.old room.new }
{
    close(over.graph, over.meters, a, &mut room.exchange, steps);
    begin(room.exchange.reached(), waiting, list);
    split_in_rounds(over, a, room, waiting, list, steps);
    settle_all(over, a, room, waiting, list, steps);
    name_all(over.graph, over.meters, list);
}

/// Writes the class of each meter. The flags say afterwards which meters' classes aren't known: none.
pub(crate) fn list_classes<L: Ledger>(
    over: &Over<'_>,
    a: &mut Assignment,
    room: &mut Room,
    waiting: &mut [bool],
    list: &mut [u32],
    steps: &mut Steps<L>,
)
    requires may { MayLose over.now a.old room.old }
    requires waiting { length over.now.meters.now.touches ≤ length waiting.old }
    requires list { length over.now.meters.now.touches ≤ length list.old }
    ensures classes { take (length over.now.meters.now.touches) list.new
        ≡ classes_of over.now.graph.now.vertices over.now.graph.now.ends over.now.meters.now.touches }
    ensures moved { IsMoved over.now a.old a.new room.old room.new }
{
    let n = over.meters.count() as usize;
    find_all(over, a, room, &mut waiting[..n], &mut list[..n], steps);
}
