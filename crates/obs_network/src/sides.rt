// A walk from both ends of a row along the other rows: they join the two, or one of the two sides is found whole.
ghost use Rattle.std.specs.Prelude.{◌≡◌, ◌≢◌, ◌<◌, ◌≤◌, ◌+◌, ◌⊎◌, ◌==◌, ℕ, false, true, All, IsSome, IsTrue, MatchBool, MatchOption, IfOk, None, Some, length, slice_index_or, slice_set, take};
ghost use Rattle.obs_graph.specs.Positions.{has_end, present};
ghost use Rattle.obs_graph.specs.inner.Search.{Reaches};
ghost use Rattle.obs_matroid.specs.Lists.{In};
ghost use Rattle.obs_network.specs.inner.Parted.{AreJoinedWithout, IsSide};
ghost use Rattle.obs_network.specs.inner.Sides.{AreClear, AreFollowedUpTo, AreWalked, HaveGrown, IsMeeting, IsQueueOf, label_at, rows_in};

use crate::memory::NoMemory;
use obs_graph::search::other;
use obs_graph::{Ends, Graph};
use std::alloc::Global;
use std::marker::Model;

// Puts a vertex into the queue of the end from which it is reached.
fn push(v: u32, end: u32, labels: &mut [Option<u32>], queue: &mut [u32], tail: &mut usize)
    requires vertex { v < length labels.old }
    requires room { tail.old < length queue.old }
    ensures labels { labels.new ≡ slice_set labels.old v (Some end) }
    ensures queue { queue.new ≡ slice_set queue.old tail.old v }
    ensures tail { tail.new ≡ tail.old + 1 }
{
    labels[v as usize] = Some(end);
    queue[*tail] = v;
    *tail += 1;
}

/// Where a branch at v leads.
pub(crate) fn across(g: &Graph, p: u32, v: u32) -> u32
    requires there { has_end v (slice_index_or g.now.ends p None) ≡ true }
    ensures to { Reaches g.now.ends v result p }
    ensures vertex { result < g.now.vertices }
{
    match g.ends(p) {
        Some(ends) => other(ends, v),
        None => v,
    }
}

// Comes to a vertex from one of the ends: it goes into this end's queue where it isn't reached yet. Says whether it is
// reached from the other end.
fn come(to: u32, end: u32, labels: &mut [Option<u32>], queue: &mut [u32], tail: &mut usize) -> bool
    requires vertex { to < length labels.old }
    requires room { label_at labels.old to ≡ None → tail.old < length queue.old }
    ensures new { label_at labels.old to ≡ None → (result ≡ false) × (labels.new ≡ slice_set labels.old to (Some end))
        × (queue.new ≡ slice_set queue.old tail.old to) × (tail.new ≡ tail.old + 1) }
    ensures known { (u : ℕ) → label_at labels.old to ≡ Some u → (labels.new ≡ labels.old) × (queue.new ≡ queue.old)
        × (tail.new ≡ tail.old) × MatchBool result (u ≢ end) (u ≡ end) }
{
    match labels[to as usize] {
        Some(from) => from != end,
        None => {
            push(to, end, labels, queue, tail);
            false
        }
    }
}

// The rows of a graph, which are so many of its first branches, without one.
#[derive(Clone, Copy)]
struct Others<'a> {
    graph: &'a Graph,
    rows: u32,
    without: u32,
}

// Follows the other rows at the vertex that stands at the head of an end's queue. Says whether one of them leads to a
// vertex that is reached from the other end.
fn follow(
    others: &Others<'_>,
    end: u32,
    head: usize,
    labels: &mut [Option<u32>],
    queue: &mut [u32],
    tail: &mut usize,
) -> bool
    requires rows { others.now.rows ≤ length others.now.graph.now.ends }
    requires room { others.now.graph.now.vertices ≤ length labels.old }
    requires head { head < tail.old }
    requires queue { IsQueueOf others.now.graph.now.vertices (rows_in others.now) labels.old end queue.old tail.old }
    requires followed { AreFollowedUpTo (rows_in others.now) labels.old end queue.old head }
    ensures queue { IsQueueOf others.now.graph.now.vertices (rows_in others.now) labels.new end queue.new tail.new }
    ensures followed { result ≡ false → AreFollowedUpTo (rows_in others.now) labels.new end queue.new (head + 1) }
    ensures met { IsTrue result → IsMeeting (rows_in others.now) labels.new end }
    ensures grown { HaveGrown labels.old labels.new end }
    ensures longer { tail.old ≤ tail.new }
{
    let rows = others.rows;
    let e = others.without;
    let v = queue[head];
    for p in others.graph.branches_at(v) {
        if *p >= rows {
            return false;
        }
        if *p != e && come(across(others.graph, *p, v), end, labels, queue, tail) {
            return true;
        }
    }
    false
}

// How far a walk came: whether the two ends have met, and of each end at how many vertices of its queue the walk has
// looked and how many there are.
#[derive(Clone, Copy)]
struct Walked {
    met: bool,
    head: usize,
    tail: usize,
    head_there: usize,
    tail_there: usize,
}

// How many branches the walk from an end has looked at, when it has followed one vertex more.
fn looked_at(g: &Graph, looked: usize, v: u32) -> usize
    requires vertex { v < g.now.vertices }
{
    looked.saturating_add(g.branches_at(v).len())
}

// Walks from both ends, until the two meet or one of the queues ends: on from the end from which fewer branches were
// looked at.
fn spread(
    others: &Others<'_>,
    one: u32,
    there: u32,
    labels: &mut [Option<u32>],
    queue: &mut [u32],
    queue_there: &mut [u32],
) -> Walked
    requires rows { others.now.rows ≤ length others.now.graph.now.ends }
    requires room { others.now.graph.now.vertices ≤ length labels.old }
    requires places { length queue.old ≡ length labels.old }
    requires places_there { length queue_there.old ≡ length labels.old }
    requires clear { AreClear labels.old }
    requires one { one < others.now.graph.now.vertices }
    requires there { there < others.now.graph.now.vertices }
    requires apart { one ≢ there }
    ensures walked { AreWalked others.now.graph.now.vertices (rows_in others.now) labels.new one there queue.new queue_there.new result }
    ensures ended { result.met ≡ false → (result.head ≡ result.tail) ⊎ (result.head_there ≡ result.tail_there) }
{
    let mut met = false;
    let (mut head, mut tail) = (0, 0);
    let (mut head_there, mut tail_there) = (0, 0);
    let (mut looked, mut looked_there) = (0, 0);
    push(one, one, labels, queue, &mut tail);
    push(there, there, labels, queue_there, &mut tail_there);
    while !met && head < tail && head_there < tail_there {
        let next = looked_at(others.graph, looked, queue[head]);
        let next_there = looked_at(others.graph, looked_there, queue_there[head_there]);
        if next <= next_there {
            met = follow(others, one, head, labels, queue, &mut tail);
            head += 1;
            looked = next;
        } else {
            met = follow(
                others,
                there,
                head_there,
                labels,
                queue_there,
                &mut tail_there,
            );
            head_there += 1;
            looked_there = next_there;
        }
    }
    Walked {
        met,
        head,
        tail,
        head_there,
        tail_there,
    }
}

// Takes the labels of these vertices off.
fn clear(reached: &[u32], labels: &mut [Option<u32>])
    requires places { All (λ v. v < length labels.old) reached.now }
    ensures cleared { (v : ℕ) → In v reached.now → label_at labels.new v ≡ None }
    ensures kept { (v : ℕ) → (label_at labels.new v ≡ label_at labels.old v) ⊎ (label_at labels.new v ≡ None) }
{
    for v in reached {
        labels[*v as usize] = None;
    }
}

// The end of a branch at which fewer branches stand.
fn end_with_fewer(g: &Graph, ends: Ends) -> u32
    requires a { ends.a < g.now.vertices }
    requires b { ends.b < g.now.vertices }
    ensures end { (ends.a ≡ result) ⊎ (ends.b ≡ result) }
{
    if g.branches_at(ends.b).len() < g.branches_at(ends.a).len() {
        ends.b
    } else {
        ends.a
    }
}

// Says how many vertices the queue has that has ended, and makes it the first one. None where the ends have met.
fn keep(walked: Walked, queue: &mut [u32], queue_there: &[u32]) -> Option<usize>
    requires places { length queue.old ≡ length queue_there.now }
    requires room { walked.tail ≤ length queue.old }
    requires room_there { walked.tail_there ≤ length queue.old }
    ensures kept { MatchOption result (IsTrue walked.met) (λ count. (walked.met ≡ false) × (count ≤ length queue.new)
        × MatchBool (walked.head == walked.tail)
        (take count queue.new ≡ take walked.tail queue.old)
        (take count queue.new ≡ take walked.tail_there queue_there.now)) }
{
    if walked.met {
        return None;
    }
    if walked.head == walked.tail {
        return Some(walked.tail);
    }
    let count = walked.tail_there;
    queue[..count].copy_from_slice(&queue_there[..count]);
    Some(count)
}

// Walks from the ends of a row along the others. Where these don't join the two, it says how many of the found
// vertices are a side.
fn part(
    g: &Graph,
    rows: u32,
    e: u32,
    labels: &mut [Option<u32>],
    found: &mut [u32],
    queue: &mut [u32],
) -> Option<usize>
    requires rows { rows ≤ length g.now.ends }
    requires row { e < rows }
    requires room { g.now.vertices ≤ length labels.old }
    requires places { length found.old ≡ length labels.old }
    requires places_there { length queue.old ≡ length labels.old }
    requires clear { AreClear labels.old }
    ensures clear { AreClear labels.new }
    ensures parted { MatchOption result (AreJoinedWithout (take rows g.now.ends) e)
        (λ count. (count ≤ length found.new) × IsSide (take rows g.now.ends) e (take count found.new)) }
{
    let Some(ends) = g.ends(e) else {
        return None;
    };
    let one = end_with_fewer(g, ends);
    let there = other(ends, one);
    let others = Others {
        graph: g,
        rows,
        without: e,
    };
    let walked = spread(&others, one, there, labels, found, queue);
    clear(&found[..walked.tail], labels);
    clear(&queue[..walked.tail_there], labels);
    keep(walked, found, queue)
}

/// Finds whether the other rows join the ends of a row, and else one of the two sides.
pub struct Sides {
    // by vertex the end from which it is reached: none, but while a walk runs
    labels: Vec<Option<u32>>,
    // the queues of the two ends, of which the first has the side that was found
    queue: Vec<u32>,
    queue_there: Vec<u32>,
    // how many vertices this side has
    count: usize,
}

impl Model for Sides {
    ghost use Rattle.std.specs.Prelude.{length, take};
    ghost use Rattle.obs_network.specs.inner.Sides.{AreSides, Sides};

    ghost Value = { Sides };

    ghost view = { λ s. record {
      found = take s.count s.queue.items;
      most_vertices = length s.labels.items;
    } };

    ghost invariant = { λ s. AreSides s.labels.items s.queue.items s.queue_there.items s.count };
}

// Written out: so a caller's proof sees one call, and not the drop of each field.
impl Drop for Sides {
    fn drop(self) {
        let Sides {
            labels: _,
            queue: _,
            queue_there: _,
            count: _,
        } = self;
    }
}

impl Sides {
    /// Room for walks over so many vertices.
    pub fn make(alloc: Global, most_vertices: u32) -> Result<Sides, NoMemory>
        ensures room { IfOk result (λ s. s.most_vertices ≡ most_vertices) }
    {
        let Ok(labels) = vec![in alloc; None; most_vertices as usize] else {
            return Err(NoMemory);
        };
        let Ok(queue) = vec![in alloc; 0; most_vertices as usize] else {
            return Err(NoMemory);
        };
        let Ok(queue_there) = vec![in alloc; 0; most_vertices as usize] else {
            return Err(NoMemory);
        };
        Ok(Sides {
            labels,
            queue,
            queue_there,
            count: 0,
        })
    }

    /// Whether the other rows join the ends of a row. Where they don't, one of its two sides is found. The first `rows`
    /// branches of the graph are the rows.
    pub fn walk(&mut self, g: &Graph, rows: u32, e: u32) -> bool
        requires room { g.now.vertices ≤ self.old.most_vertices }
        requires rows { rows ≤ length g.now.ends }
        requires row { e < rows }
        requires present { IsSome (slice_index_or g.now.ends e None) }
        ensures joined { IsTrue result → AreJoinedWithout (take rows g.now.ends) e }
        ensures parted { result ≡ false → IsSide (take rows g.now.ends) e self.new.found }
        ensures room { self.new.most_vertices ≡ self.old.most_vertices }
    {
        match part(
            g,
            rows,
            e,
            &mut self.labels,
            &mut self.queue,
            &mut self.queue_there,
        ) {
            Some(count) => {
                self.count = count;
                false
            }
            None => true,
        }
    }

    /// The vertices of the side that the last walk found, where the ends weren't joined.
    pub fn found(&self) -> &[u32]
        ensures found { result.now ≡ self.now.found }
    {
        &self.queue[..self.count]
    }
}
