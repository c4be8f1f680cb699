// Classes of partners, and what they are found in.
ghost use Rattle.std.specs.Prelude.{◌≡◌, ◌<◌, [], IfOk, length};
ghost use Rattle.obs_meter.specs.inner.Sizes.{HasRoomFor};
ghost use Rattle.obs_meter.specs.inner.Touches.{AreInRange};
ghost use Rattle.obs_assign.specs.inner.Assignment.{HasRoomOf};
ghost use Rattle.obs_exchange.specs.inner.Longest.{IsLongest};
ghost use Rattle.obs_pairs.specs.PairWork.{has_another};
ghost use Rattle.obs_pairs.specs.Partners.{classes_of};

use crate::memory::NoMemory;
use crate::room::Room;
use crate::settle::list_classes;
use crate::shared::mark_shared;
use obs_assign::{Assignment, Steps};
use obs_exchange::Over;
use obs_graph::Graph;
use obs_meter::Meters;
use std::alloc::Global;
use std::marker::Model;
use std::sync::ledger::Ledger;

/// Room for finding classes, and those that were found last.
pub struct PairWork {
    // how many meters there were last
    count: usize,
    // the class of each meter, and whether it is still to be found
    list: Vec<u32>,
    waiting: Vec<bool>,
    // whether another has the same class
    shared: Vec<bool>,
    room: Room,
}

impl Model for PairWork {
    ghost use Rattle.std.specs.Prelude.{◌≡◌, ◌+◌, ◌≤◌, length, take};
    ghost use Rattle.obs_pairs.specs.inner.PairWork.{AreShared, PairWork};

    ghost Value = { PairWork };

    ghost view = { λ w. record { list = take w.count w.list.items; sizes = w.room.exchange.sizes } };

    ghost invariant = { λ w. record {
      found : w.count ≤ length w.list.items;
      places : length w.list.items ≡ w.room.exchange.sizes.meters;
      flags : length w.waiting.items ≡ w.room.exchange.sizes.meters;
      marks : length w.shared.items ≡ w.room.exchange.sizes.meters;
      shared : AreShared (take w.count w.list.items) w.shared.items;
      left : w.room.left.most ≡ w.room.exchange.sizes.meters;
      reach : length w.room.reach.items ≡ w.room.exchange.sizes.meters + w.room.exchange.sizes.meters;
    } };
}

// Written out: so a caller's proof sees one call, and not the drop of each field.
impl Drop for PairWork {
    fn drop(self) {
        let PairWork {
            count: _,
            list: _,
            waiting: _,
            shared: _,
            room: _,
        } = self;
    }
}

impl PairWork {
    /// Room for so many meters, branches and vertices.
    pub fn make(
        alloc: Global,
        most_meters: u32,
        most_branches: u32,
        most_vertices: u32,
    ) -> Result<PairWork, NoMemory>
        ensures empty { IfOk result (λ w. w ≡ record {
          list = [];
          sizes = record { meters = most_meters; branches = most_branches; vertices = most_vertices };
        }) }
    {
        let most = most_meters as usize;
        Ok(PairWork {
            count: 0,
            list: vec![in alloc; 0; most]?,
            waiting: vec![in alloc; false; most]?,
            shared: vec![in alloc; false; most]?,
            room: Room::make(alloc, most_meters, most_branches, most_vertices)?,
        })
    }

    /// Of each meter the first meter of its class, as `find_classes` found them last.
    pub fn list(&self) -> &[u32]
        ensures list { result.now ≡ self.now.list }
    {
        &self.list[..self.count]
    }

    /// Whether another meter has the meter's class in the list.
    pub fn has_partner(&self, m: u32) -> bool
        requires m { m < length self.now.list }
        ensures partner { result ≡ has_another self.now.list m }
    {
        self.shared[m as usize]
    }
}

/// Finds the classes. `PairWork::list` then has for each meter the first meter of its class. The pairs may be others
/// afterwards, and are as many.
pub fn find_classes<L: Ledger>(
    g: &Graph,
    ms: &Meters,
    a: &mut Assignment,
    work: &mut PairWork,
    steps: &mut Steps<L>,
)
    requires longest { IsLongest g.now ms.now.touches a.old }
    requires in_range { AreInRange g.now ms.now.touches }
    requires room { HasRoomFor work.old.sizes g.now ms.now.touches }
    ensures classes { work.new.list ≡ classes_of g.now.vertices g.now.ends ms.now.touches }
    ensures longest { IsLongest g.now ms.now.touches a.new }
    ensures same_room { HasRoomOf a.old a.new }
    ensures same_sizes { work.new.sizes ≡ work.old.sizes }
{
    let _ = g.vertices();
    let count = ms.count() as usize;
    let over = Over {
        graph: g,
        meters: ms,
    };
    work.room.left.refill(ms.touches());
    list_classes(
        &over,
        a,
        &mut work.room,
        &mut work.waiting,
        &mut work.list,
        steps,
    );
    work.count = count;
    mark_shared(&work.list[..work.count], &mut work.shared);
}

/// For each meter the first meter of its class. For a critical meter, one without a partner or one that is idle that is
/// the meter itself.
pub fn classes<'a, L: Ledger>(
    g: &Graph,
    ms: &Meters,
    a: &mut Assignment,
    work: &'a mut PairWork,
    steps: &mut Steps<L>,
) -> &'a [u32]
    requires longest { IsLongest g.now ms.now.touches a.old }
    requires in_range { AreInRange g.now ms.now.touches }
    requires room { HasRoomFor work.old.sizes g.now ms.now.touches }
    ensures classes { result.now ≡ classes_of g.now.vertices g.now.ends ms.now.touches }
    ensures longest { IsLongest g.now ms.now.touches a.new }
    ensures same_room { HasRoomOf a.old a.new }
{
    find_classes(g, ms, a, work, steps);
    work.list()
}
