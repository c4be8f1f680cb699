// What a search has reached and walked.
ghost use Rattle.std.specs.Prelude.{◌≡◌, ◌↔◌, ◌+◌, ◌<◌, ◌≤◌, IfOk, IsTrue, true, length, slice_index, slice_set, take};
ghost use Rattle.obs_assign.specs.inner.Assignment.{has_flag};
ghost use Rattle.obs_exchange.specs.inner.Searching.{parent_of};
ghost use Rattle.obs_exchange.specs.inner.Trail.{AreFull, cleared, new_trail, pushed};

use crate::flags::Flags;
use crate::memory::NoMemory;
use obs_assign::Move;
use std::alloc::Global;
use std::marker::Model;

/// The marked meters with their parents, in a queue, and the branches that were walked.
pub struct Trail {
    // whether the meter is marked
    marks: Flags,
    // the move by which the meter was reached
    parents: Vec<Option<Move>>,
    // the marked meters, in their order
    queue: Vec<u32>,
    // how many of them were visited, and how many there are
    head: usize,
    tail: usize,
    // whether the branch was walked
    walked: Flags,
}

impl Model for Trail {
    ghost use Rattle.std.specs.Prelude.{length};
    ghost use Rattle.obs_exchange.specs.inner.Trail.{AreFull, Trail};

    ghost Value = { Trail };

    ghost view = { λ t. record {
      marks = t.marks;
      parents = t.parents.items;
      queue = t.queue.items;
      head = t.head;
      tail = t.tail;
      walked = t.walked;
    } };

    ghost invariant = { λ t.
        AreFull (record {
          marks = t.marks;
          parents = t.parents.items;
          queue = t.queue.items;
          head = t.head;
          tail = t.tail;
          walked = t.walked;
        }) };
}

// Written out: so a caller's proof sees one call, and not the drop of each field.
impl Drop for Trail {
    fn drop(self) {
        let Trail {
            marks: _,
            parents: _,
            queue: _,
            head: _,
            tail: _,
            walked: _,
        } = self;
    }
}

impl Trail {
    /// A trail with room for so many meters and branches.
    pub fn make(alloc: Global, most_meters: u32, most_branches: u32) -> Result<Trail, NoMemory>
        ensures made { IfOk result (λ t. t ≡ new_trail most_meters most_branches) }
    {
        let meters = most_meters as usize;
        let Ok(marks) = Flags::make(alloc, most_meters) else {
            return Err(NoMemory);
        };
        let Ok(parents) = vec![in alloc; None; meters] else {
            return Err(NoMemory);
        };
        let Ok(queue) = vec![in alloc; 0; meters] else {
            return Err(NoMemory);
        };
        let Ok(walked) = Flags::make(alloc, most_branches) else {
            return Err(NoMemory);
        };
        Ok(Trail {
            marks,
            parents,
            queue,
            head: 0,
            tail: 0,
            walked,
        })
    }

    /// The marks of the first meters.
    pub fn marks(&self, meters: usize) -> &[bool]
        requires meters { meters ≤ length self.now.marks }
        ensures marks { result.now ≡ take meters self.now.marks }
    {
        self.marks.first(meters)
    }

    /// The first meters of the queue.
    pub fn queued(&self, count: usize) -> &[u32]
        requires count { count ≤ length self.now.marks }
        ensures queued { result.now ≡ take count self.now.queue }
    {
        &self.queue[..count]
    }

    /// All places of the queue.
    pub fn queue(&self) -> &[u32] {
        &self.queue
    }

    /// How many meters came into the queue.
    pub fn tail(&self) -> usize
        ensures tail { result ≡ self.now.tail }
    {
        self.tail
    }

    /// Whether the meter is marked.
    pub fn is_marked(&self, m: u32) -> bool
        requires m { m < length self.now.marks }
        ensures marked { result ≡ has_flag self.now.marks m }
    {
        self.marks.at(m)
    }

    /// The move by which the meter was reached, or None.
    pub fn parent(&self, m: u32) -> Option<Move>
        requires m { m < length self.now.marks }
        ensures parent { result ≡ parent_of self.now m }
    {
        self.parents[m as usize]
    }

    /// Whether a meter waits in the queue.
    pub fn waits(&self) -> bool
        ensures waits { IsTrue result ↔ self.now.head < self.now.tail }
    {
        self.head < self.tail
    }

    /// The meter at the head of the queue.
    pub fn next(&self) -> u32
        requires head { self.now.head < length self.now.marks }
        ensures next { result ≡ slice_index self.now.queue self.now.head }
    {
        self.queue[self.head]
    }

    /// Whether the branch was walked.
    pub fn is_walked(&self, e: u32) -> bool
        requires e { e < length self.now.walked }
        ensures walked { result ≡ has_flag self.now.walked e }
    {
        self.walked.at(e)
    }

    /// Marks nothing, empties the queue and walks no branch.
    pub fn clear(&mut self)
        ensures cleared { self.new ≡ cleared self.old }
        ensures full { AreFull self.new }
    {
        self.marks.clear();
        self.walked.clear();
        self.head = 0;
        self.tail = 0;
    }

    /// Marks a meter, notes how it was reached, and puts it at the end of the queue.
    pub fn push(&mut self, x: u32, by: Option<Move>)
        requires x { x < length self.old.marks }
        requires tail { self.old.tail < length self.old.marks }
        ensures pushed { self.new ≡ pushed self.old x by }
    {
        self.marks.set(x);
        self.parents[x as usize] = by;
        self.queue[self.tail] = x;
        self.tail += 1;
    }

    /// Notes that the branch was walked.
    pub fn set_walked(&mut self, e: u32)
        requires e { e < length self.old.walked }
        ensures walked { self.new ≡ record self.old { walked = slice_set self.old.walked e true } }
    {
        self.walked.set(e);
    }

    /// Goes on to the next meter of the queue.
    pub fn advance(&mut self)
        requires head { self.old.head < length self.old.marks }
        ensures advanced { self.new ≡ record self.old { head = self.old.head + 1 } }
    {
        self.head += 1;
    }
}
