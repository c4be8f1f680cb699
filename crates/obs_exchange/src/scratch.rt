// What a search writes on.
ghost use Rattle.std.specs.Prelude.{◌≡◌, ◌≤◌, IfOk, MatchResult, length, drop, take};
ghost use Rattle.obs_exchange.specs.declared.Sources.TheVariants.{All};
ghost use Rattle.obs_exchange.specs.inner.Longest.{IsLongest};
ghost use Rattle.obs_exchange.specs.inner.Ordered.{AreReachedInOrder, IsOrder};
ghost use Rattle.obs_exchange.specs.inner.Searching.{CanSearch, HasPath, HasReached};
ghost use Rattle.obs_exchange.specs.inner.Setting.{IsSound};
ghost use Rattle.obs_exchange.specs.inner.Trail.{HasRoomOnly};

use crate::find::find;
use crate::memory::NoMemory;
use crate::noted::Noted;
use crate::ordered::spread_in_order;
use crate::pass::Start;
use crate::progress::Progress;
use crate::setting::Setting;
use crate::stars::Stars;
use crate::tops::Tops;
use crate::trail::Trail;
use obs_assign::Move;
use std::alloc::Global;
use std::marker::Model;

/// The arrays that a search fills.
pub(crate) struct Scratch {
    // how far it is
    search: Progress,
    // the moves to a free branch, at the end
    path: Vec<Move>,
}

impl Model for Scratch {
    ghost use Rattle.std.specs.Prelude.{◌≡◌, length};
    ghost use Rattle.obs_exchange.specs.inner.Trail.{Scratch};

    ghost Value = { Scratch };

    ghost view = { λ s. record { trail = s.search.trail; path = s.path.items; vertices = length s.search.stars } };

    ghost invariant = { λ s.
        (length s.path.items ≡ length s.search.trail.marks) × (length s.search.tops ≡ length s.search.stars) };
}

// Written out: so a caller's proof sees one call, and not the drop of each field.
impl Drop for Scratch {
    fn drop(self) {
        let Scratch { search: _, path: _ } = self;
    }
}

impl Scratch {
    /// Room for a search over so many meters, branches and vertices.
    pub(crate) fn make(
        alloc: Global,
        most_meters: u32,
        most_branches: u32,
        most_vertices: u32,
    ) -> Result<Scratch, NoMemory>
        ensures room { IfOk result (λ s. HasRoomOnly s most_meters most_branches most_vertices) }
    {
        let no_move = Move {
            meter: 0,
            branch: 0,
        };
        let Ok(trail) = Trail::make(alloc, most_meters, most_branches) else {
            return Err(NoMemory);
        };
        let Ok(stars) = Stars::make(alloc, most_vertices) else {
            return Err(NoMemory);
        };
        let Ok(tops) = Tops::make(alloc, most_vertices) else {
            return Err(NoMemory);
        };
        let Ok(path) = vec![in alloc; no_move; most_meters as usize] else {
            return Err(NoMemory);
        };
        Ok(Scratch {
            search: Progress { trail, stars, tops },
            path,
        })
    }

    /// For how many vertices there is room.
    pub(crate) fn vertices(&self) -> usize
        ensures vertices { result ≡ self.now.vertices }
    {
        self.search.tops.len()
    }

    /// `find` on these arrays.
    pub(crate) fn find(
        &mut self,
        over: &Setting<'_>,
        ahead: &Setting<'_>,
        noted: &Noted,
        start: Start,
    ) -> Result<usize, usize>
        requires can { CanSearch over.now ahead.now noted.now start.tried start.searched }
        requires meters { length over.now.touches ≤ length self.old.trail.marks }
        requires branches { length over.now.graph.ends ≤ length self.old.trail.walked }
        requires vertices { over.now.graph.vertices ≤ self.old.vertices }
        requires room { over.now.room ≡ self.old.vertices }
        ensures found { MatchResult result (HasPath over.now self.new.path) (HasReached over.now self.new.trail) }
        ensures same_meters { length self.new.trail.marks ≡ length self.old.trail.marks }
        ensures same_branches { length self.new.trail.walked ≡ length self.old.trail.walked }
        ensures same_vertices { self.new.vertices ≡ self.old.vertices }
    {
        find(over, ahead, noted, start, &mut self.search, &mut self.path)
    }

    /// `spread_in_order` on these arrays.
    pub(crate) fn spread_in_order(&mut self, over: &Setting<'_>, order: &[u32], places: &mut [u32])
        requires sound { IsSound over.now }
        requires longest { IsLongest over.now.graph over.now.touches over.now.assignment }
        requires sources { over.now.sources ≡ All }
        requires meters { length over.now.touches ≤ length self.old.trail.marks }
        requires branches { length over.now.graph.ends ≤ length self.old.trail.walked }
        requires vertices { over.now.graph.vertices ≤ self.old.vertices }
        requires room { over.now.room ≡ self.old.vertices }
        requires order { IsOrder (length over.now.touches) order.now }
        requires places { length places.old ≡ length over.now.touches }
        ensures reached { AreReachedInOrder over.now.graph.ends over.now.touches over.now.assignment
            order.now places.new }
        ensures same_meters { length self.new.trail.marks ≡ length self.old.trail.marks }
        ensures same_branches { length self.new.trail.walked ≡ length self.old.trail.walked }
        ensures same_vertices { self.new.vertices ≡ self.old.vertices }
    {
        spread_in_order(over, order, &mut self.search, places);
    }

    /// The moves of the path from one place on.
    pub(crate) fn path(&self, k: usize) -> &[Move]
        requires k { k ≤ length self.now.path }
        ensures path { result.now ≡ drop k self.now.path }
    {
        &self.path[k..]
    }

    /// The marks of the first meters.
    pub(crate) fn marks(&self, meters: usize) -> &[bool]
        requires meters { meters ≤ length self.now.trail.marks }
        ensures marks { result.now ≡ take meters self.now.trail.marks }
    {
        self.search.trail.marks(meters)
    }

    /// The places of the queue, of which the last search filled the first ones.
    pub(crate) fn queue(&self) -> &[u32] {
        self.search.trail.queue()
    }

    /// The first meters of the queue.
    pub(crate) fn queued(&self, count: usize) -> &[u32]
        requires count { count ≤ length self.now.trail.marks }
        ensures queued { result.now ≡ take count self.now.trail.queue }
    {
        self.search.trail.queued(count)
    }
}
