// What is lost after other branches are.
ghost use Rattle.std.specs.Prelude.{◌≡◌, ◌+◌, ◌<◌, ◌^◌, ◌==◌, length, slice_set};
ghost use Rattle.obs_islands.specs.inner.GivenUp.{IsQueue, StillGivesUp};
ghost use Rattle.obs_islands.specs.inner.Left.{AreOver};
ghost use Rattle.obs_islands.specs.inner.Rounds.{IsNotedAt, noted};

use crate::pairing::Pairing;
use crate::pieces::lower;
use obs_meter::Meters;

/// Puts a vertex at the end of the queue.
fn push(v: u32, queue: &mut [u32], tail: &mut usize)
    requires room { tail.old < length queue.old }
    ensures queue { queue.new ≡ slice_set queue.old tail.old v }
    ensures tail { tail.new ≡ tail.old + 1 }
{
    queue[*tail] = v;
    *tail += 1;
}

/// Puts the vertices at which a branch is noted into the queue, and says how many there are.
fn fill_queue(positions: u32, lowest: &[u32], queue: &mut [u32]) -> usize
    requires places { length queue.old ≡ length lowest.now }
    requires few { length lowest.now < 2 ^ 32 }
    ensures queue { IsQueue positions lowest.now queue.new result }
{
    let mut tail = 0;
    for v in 0..lowest.len() {
        if lowest[v] < positions {
            push(v as u32, queue, &mut tail);
        }
    }
    tail
}

/// Notes a lost branch at a vertex. Where it is the first one there, the vertex goes to the end of the queue.
fn note(v: u32, e: u32, positions: u32, lowest: &mut [u32], queue: &mut [u32], tail: &mut usize)
    requires v { v < length lowest.old }
    requires e { e < positions }
    requires queue { IsQueue positions lowest.old queue.old tail.old }
    ensures noted { IsNotedAt (λ u. v == u) e lowest.old lowest.new }
    ensures queue { IsQueue positions lowest.new queue.new tail.new }
{
    if lowest[v as usize] >= positions {
        push(v, queue, tail);
    }
    lower(v, e, lowest);
}

/// Notes the branch at both its ends where the item that has it touches what is noted at v.
fn follow_branch(
    over: &Pairing<'_>,
    ms: &Meters,
    v: u32,
    e: u32,
    lowest: &mut [u32],
    queue: &mut [u32],
    tail: &mut usize,
)
    requires over { AreOver over.now ms.now.touches }
    requires e { e < length over.now.graph.now.ends }
    requires vertex { v < over.now.graph.now.vertices }
    requires lowest { length lowest.old ≡ over.now.graph.now.vertices }
    requires noted { noted lowest.old v < length over.now.graph.now.ends }
    requires queue { IsQueue (length over.now.graph.now.ends) lowest.old queue.old tail.old }
    ensures gives_up { StillGivesUp over.now.graph.now.ends ms.now.touches over.now.pairs.now
        (noted lowest.old) (noted lowest.new) }
    ensures noted { noted lowest.new v < length over.now.graph.now.ends }
    ensures queue { IsQueue (length over.now.graph.now.ends) lowest.new queue.new tail.new }
{
    let Some(m) = over.pairs.meter_of(e) else {
        return;
    };
    if !ms.is_touched(over.graph, m, lowest[v as usize]) {
        return;
    }
    if let Some(x) = over.graph.ends(e) {
        note(x.a, e, over.graph.positions(), lowest, queue, tail);
        note(x.b, e, over.graph.positions(), lowest, queue, tail);
    }
}

/// Notes the branches at v that items have which touch what is noted there.
fn follow_vertex(
    over: &Pairing<'_>,
    ms: &Meters,
    v: u32,
    lowest: &mut [u32],
    queue: &mut [u32],
    tail: &mut usize,
)
    requires over { AreOver over.now ms.now.touches }
    requires vertex { v < over.now.graph.now.vertices }
    requires lowest { length lowest.old ≡ over.now.graph.now.vertices }
    requires noted { noted lowest.old v < length over.now.graph.now.ends }
    requires queue { IsQueue (length over.now.graph.now.ends) lowest.old queue.old tail.old }
    ensures gives_up { StillGivesUp over.now.graph.now.ends ms.now.touches over.now.pairs.now
        (noted lowest.old) (noted lowest.new) }
    ensures queue { IsQueue (length over.now.graph.now.ends) lowest.new queue.new tail.new }
{
    for e in over.graph.branches_at(v) {
        follow_branch(over, ms, v, *e, lowest, queue, tail);
    }
}

/// Notes what is lost after the branches that are noted: those of the items that touch one of them.
pub(crate) fn follow(over: &Pairing<'_>, ms: &Meters, lowest: &mut [u32], queue: &mut [u32])
    requires few { over.now.graph.now.vertices < 2 ^ 32 }
    requires over { AreOver over.now ms.now.touches }
    requires lowest { length lowest.old ≡ over.now.graph.now.vertices }
    requires queue { length queue.old ≡ over.now.graph.now.vertices }
    ensures gives_up { StillGivesUp over.now.graph.now.ends ms.now.touches over.now.pairs.now
        (noted lowest.old) (noted lowest.new) }
{
    let mut tail = fill_queue(over.graph.positions(), lowest, queue);
    let mut head = 0;
    while head < tail {
        let v = queue[head];
        follow_vertex(over, ms, v, lowest, queue, &mut tail);
        head += 1;
    }
}
