// The arrays of a search.
ghost use Rattle.std.specs.Prelude.{◌≡◌, ◌+◌, ◌<◌, ◌≤◌, ◌&&◌, ℕ, true, false, [], length, replicate, slice_set, IfOk};
ghost use Rattle.obs_meter.specs.inner.Sizes.{HasRoomFor};
ghost use Rattle.obs_meter.specs.inner.Touches.{AreInRange};
ghost use Rattle.obs_assign.specs.inner.Assignment.{StandsOver, has_flag};
ghost use Rattle.obs_exchange.specs.declared.Sources.TheVariants.{All};
ghost use Rattle.obs_exchange.specs.inner.Found.{CanRun, HasRun, searched};
ghost use Rattle.obs_exchange.specs.inner.Longest.{IsLongest};
ghost use Rattle.obs_exchange.specs.inner.Noting.{AreNoted};
ghost use Rattle.obs_exchange.specs.inner.Ordered.{AreReachedInOrder, IsOrder};

use crate::back::{Back, Ground};
use crate::find::grow;
use crate::flags::Flags;
use crate::like::Like;
use crate::memory::NoMemory;
use crate::near::Near;
use crate::noted::Noted;
use crate::pass::{Pass, next_tried};
use crate::scratch::Scratch;
use crate::setting::Setting;
use crate::{Found, Sources};
use obs_assign::{Assignment, Move, Steps};
use obs_graph::{Ends, Graph};
use obs_meter::{Meters, Touch};
use std::alloc::Global;
use std::marker::Model;
use std::sync::ledger::Ledger;

/// The arrays of a search, and what the last one reached.
pub struct Work {
    // how many meters the last search was over
    meters: usize,
    // how many the last closed search reached
    count: usize,
    // the arrays that it fills
    scratch: Scratch,
    // how many pairs there were at the last search
    pairs: u32,
    // the meters among which it looks for sources
    noted: Noted,
    // the meters, copied, for searches where one of them touches something else
    copy: Meters,
    // the meters that a caller keeps as loose
    loose: Vec<bool>,
    // sources by what they touch: a hint
    near: Near,
    // meters by what they touch: a hint
    like: Like,
    // ways back from a meter that is to lose its pair: a hint
    back: Back,
    // where the next search begins to try sources
    pass: Pass,
    // meters from which no path led, as long as pairs are only added, or all but those on a way back; and the source of
    // this way, where the next search is along it: a hint
    shut: Flags,
    along: Option<u32>,
}

impl Model for Work {
    ghost use Rattle.std.specs.Prelude.{◌≡◌, ◌≤◌, length, take};
    ghost use Rattle.obs_exchange.specs.inner.Found.{Work};

    ghost Value = { Work };

    ghost view = { λ w.
        record {
          reached = take w.meters w.scratch.trail.marks;
          listed = take w.count w.scratch.trail.queue;
          noted = w.noted;
          touches = w.copy.touches;
          loose = w.loose.items;
          sizes = record {
            meters = length w.scratch.trail.marks;
            branches = length w.scratch.trail.walked;
            vertices = w.scratch.vertices;
          };
        } };

    ghost invariant = { λ w.
        (w.meters ≤ length w.scratch.trail.marks) × (w.count ≤ length w.scratch.trail.marks)
        × (length w.noted.flags ≡ length w.scratch.trail.marks) × (w.copy.most ≡ length w.scratch.trail.marks)
        × (length w.loose.items ≡ length w.scratch.trail.marks) };
}

// Written out: so a caller's proof sees one call, and not the drop of each field.
impl Drop for Work {
    fn drop(self) {
        let Work {
            meters: _,
            count: _,
            scratch: _,
            pairs: _,
            noted: _,
            copy: _,
            loose: _,
            near: _,
            like: _,
            back: _,
            pass: _,
            shut: _,
            along: _,
        } = self;
    }
}

/// The copied meters, or those that are given.
fn picked<'a>(given: &'a Meters, copy: &'a Meters, copied: bool) -> &'a Meters
    ensures touches { result.now.touches ≡ searched copied copy.now.touches given.now.touches }
{
    if copied { copy } else { given }
}

/// Flags the meters that a search reached before it came to the source at which its path begins.
fn shut_front(shut: &mut Flags, queue: &[u32], path: &[Move]) {
    if path.len() < 2 {
        return;
    }
    for m in queue {
        if *m == path[0].meter {
            return;
        }
        if (*m as usize) < shut.len() {
            shut.set(*m);
        }
    }
}

/// Sets all flags.
fn loosen(flags: &mut [bool])
    ensures set { (m : ℕ) → m < length flags.old → has_flag flags.new m ≡ true }
    ensures same_length { length flags.new ≡ length flags.old }
{
    for m in 0..flags.len() {
        flags[m] = true;
    }
}

/// Takes back the flags that aren't set among the kept ones.
fn narrow(flags: &mut [bool], kept: &[bool])
    requires room { length kept.now ≤ length flags.old }
    ensures narrowed { (m : ℕ) → m < length kept.now
        → has_flag flags.new m ≡ (has_flag flags.old m && has_flag kept.now m) }
    ensures same_length { length flags.new ≡ length flags.old }
{
    for m in 0..kept.len() {
        if !kept[m] {
            flags[m] = false;
        }
    }
}

impl Work {
    /// Room for a search over so many meters, branches and vertices.
    pub fn make(
        alloc: Global,
        most_meters: u32,
        most_branches: u32,
        most_vertices: u32,
    ) -> Result<Work, NoMemory>
        ensures empty { IfOk result (λ w. w ≡ record {
          reached = [];
          listed = [];
          noted = record { all = true; flags = replicate most_meters false };
          touches = [];
          loose = replicate most_meters false;
          sizes = record { meters = most_meters; branches = most_branches; vertices = most_vertices };
        }) }
    {
        Ok(Work {
            meters: 0,
            count: 0,
            scratch: Scratch::make(alloc, most_meters, most_branches, most_vertices)?,
            pairs: 0,
            noted: Noted::make(alloc, most_meters)?,
            copy: Meters::make(alloc, most_meters)?,
            loose: vec![in alloc; false; most_meters as usize]?,
            near: Near::make(alloc, most_vertices)?,
            like: Like::make(alloc, most_branches, most_vertices)?,
            back: Back::make(alloc, most_meters, most_branches, most_vertices)?,
            pass: Pass::new(),
            shut: Flags::make(alloc, most_meters)?,
            along: None,
        })
    }

    /// A flag for each meter: whether the last search reached it, where that search ended with `Closed`.
    pub fn reached(&self) -> &[bool]
        ensures reached { result.now ≡ self.now.reached }
    {
        self.scratch.marks(self.meters)
    }

    /// The meters that the last search reached, in the order in which it did, where that search ended with `Closed`.
    pub fn listed(&self) -> &[u32]
        ensures listed { result.now ≡ self.now.listed }
    {
        self.scratch.queued(self.count)
    }

    /// Notes the live meters without a pair, for `lengthen_from` and `search_by`, and copies the meters for the latter.
    pub fn note_sources(&mut self, g: &Graph, ms: &Meters, a: &Assignment)
        requires stands { StandsOver a.now g.now ms.now.touches }
        requires in_range { AreInRange g.now ms.now.touches }
        requires room { HasRoomFor self.old.sizes g.now ms.now.touches }
        ensures noted { AreNoted g.now.ends ms.now.touches All a.now self.new.noted }
        ensures copied { self.new.touches ≡ ms.now.touches }
        ensures same_loose { self.new.loose ≡ self.old.loose }
        ensures same_sizes { self.new.sizes ≡ self.old.sizes }
    {
        self.noted.put_sources(g, ms, a);
        self.copy.refill(ms.touches());
    }

    /// Notes a meter, or notes it no more, for `lengthen_from` and `search_by`.
    pub fn note(&mut self, m: u32, noted: bool)
        requires m { m < self.old.sizes.meters }
        ensures noted { self.new ≡ record self.old {
          noted = record self.old.noted { flags = slice_set self.old.noted.flags m noted };
        } }
        ensures low { m < length self.old.noted.flags }
    {
        self.noted.put(m, noted);
    }

    /// Notes a meter as one that may be a source, for `near`. Nothing rests on it.
    pub fn note_near(&mut self, g: &Graph, ms: &Meters, m: u32)
        requires m { m < length ms.now.touches }
        requires in_range { AreInRange g.now ms.now.touches }
        ensures same { self.new ≡ self.old }
    {
        self.near.put(g, ms, m);
    }

    /// Looks around a branch for meters that were noted so, nearer ones first. Says how many there are. Nothing rests on
    /// it.
    pub fn look_near(&mut self, g: &Graph, e: u32) -> usize
        requires e { e < length g.now.ends }
        ensures same { self.new ≡ self.old }
    {
        self.near.find(g, e)
    }

    /// The meter of this number among those that the last `look_near` found, if there is one.
    pub fn near(&self, k: usize) -> Option<u32> {
        self.near.named(k)
    }

    /// Lists the meters by what they touch, for `look_back`. Nothing rests on it.
    pub fn list_touching(&mut self, ms: &Meters)
        ensures same { self.new ≡ self.old }
    {
        self.back.list(ms);
    }

    /// Looks back, over loose meters, for a source from which a path leads to a meter that lost its pair with the branch
    /// f. The next `look_near` names that one alone, and the next search goes along this path first. Says whether none
    /// was found and all were looked at. Nothing rests on it.
    pub fn look_back(&mut self, g: &Graph, ms: &Meters, a: &Assignment, m: u32, f: u32) -> bool
        requires stands { StandsOver a.now g.now ms.now.touches }
        ensures same { self.new ≡ self.old }
    {
        let ground = Ground {
            graph: g,
            meters: ms,
            pairs: a,
            all: false,
            loose: &self.loose,
        };
        let none = self.back.look(&ground, m, f);
        self.along = self.back.leads_along(&mut self.shut);
        self.near.name_alone(self.back.source());
        none
    }

    /// Looks back for a source from two ends that a pair joined which isn't there any more. The next search goes along the
    /// path from there first. Nothing rests on it.
    pub fn look_across(&mut self, g: &Graph, ms: &Meters, a: &Assignment, ends: Ends)
        requires stands { StandsOver a.now g.now ms.now.touches }
        ensures same { self.new ≡ self.old }
    {
        let ground = Ground {
            graph: g,
            meters: ms,
            pairs: a,
            all: true,
            loose: &[],
        };
        let _ = self.back.look_across(&ground, ends);
        self.along = self.back.leads_along(&mut self.shut);
    }

    /// Lists a meter that touches this now, for `look_across`. Nothing rests on it.
    pub fn put_touching(&mut self, touch: Touch, m: u32)
        ensures same { self.new ≡ self.old }
    {
        self.back.put(touch, m);
    }

    /// Notes that meters touch something else than at the last `look_across`. Nothing rests on it.
    pub fn forget_touching(&mut self)
        ensures same { self.new ≡ self.old }
    {
        self.back.forget();
    }

    /// Notes a meter by what it touches, for `like`. Nothing rests on it.
    pub fn note_like(&mut self, touch: Touch, m: u32)
        ensures same { self.new ≡ self.old }
    {
        self.like.put(touch, m);
    }

    /// The last meter that was noted so and may touch this, if there is one.
    pub fn like(&self, touch: Touch) -> Option<u32> {
        self.like.find(touch)
    }

    /// Whether the meter is kept as loose.
    pub fn is_loose(&self, m: u32) -> bool
        requires m { m < self.now.sizes.meters }
        ensures loose { result ≡ has_flag self.now.loose m }
    {
        self.loose[m as usize]
    }

    /// Keeps all meters as loose.
    pub fn loosen(&mut self)
        ensures loose { (m : ℕ) → m < self.old.sizes.meters → has_flag self.new.loose m ≡ true }
        ensures same { self.new ≡ record self.old { loose = self.new.loose } }
    {
        loosen(&mut self.loose);
    }

    /// Keeps as loose only those that the last search reached too, where that search ended with `Closed`.
    pub fn narrow(&mut self)
        ensures loose { (m : ℕ) → m < length self.old.reached
            → has_flag self.new.loose m ≡ (has_flag self.old.loose m && has_flag self.old.reached m) }
        ensures same { self.new ≡ record self.old { loose = self.new.loose } }
    {
        narrow(&mut self.loose, self.scratch.marks(self.meters));
    }

    /// Notes all meters.
    pub(crate) fn note_all(&mut self)
        ensures all { self.new ≡ record self.old { noted = record self.old.noted { all = true } } }
    {
        self.noted.put_all();
    }

    /// Makes one of the copied meters touch this.
    pub(crate) fn change(&mut self, m: u32, touch: Touch)
        requires m { m < length self.old.touches }
        ensures changed { self.new ≡ record self.old { touches = slice_set self.old.touches m touch } }
    {
        self.copy.set(m, touch);
    }

    /// The body of `close_in_order`, without the tick.
    pub(crate) fn run_in_order(
        &mut self,
        g: &Graph,
        ms: &Meters,
        a: &Assignment,
        order: &[u32],
        places: &mut [u32],
    )
        requires longest { IsLongest g.now ms.now.touches a.now }
        requires in_range { AreInRange g.now ms.now.touches }
        requires room { HasRoomFor self.old.sizes g.now ms.now.touches }
        requires order { IsOrder (length ms.now.touches) order.now }
        requires places { length places.old ≡ length ms.now.touches }
        ensures reached { AreReachedInOrder g.now.ends ms.now.touches a.now order.now places.new }
        ensures same_sizes { self.new.sizes ≡ self.old.sizes }
    {
        self.pairs = a.length();
        let room = self.scratch.vertices();
        let over = Setting::new(g, ms, a, Sources::All, room);
        self.scratch.spread_in_order(&over, order, places);
    }

    /// The body of `search`, over the noted meters; over the copied ones, where these are asked for.
    pub(crate) fn run<L: Ledger>(
        &mut self,
        g: &Graph,
        ms: &Meters,
        a: &mut Assignment,
        from: Sources,
        copied: bool,
        steps: &mut Steps<L>,
    ) -> Found
        requires can { CanRun g.now (searched copied self.old.touches ms.now.touches) from a.old self.old }
        ensures run { HasRun g.now (searched copied self.old.touches ms.now.touches) from a.old a.new self.old self.new
            result }
        ensures tick { steps.new ≡ steps.old + 1 }
    {
        let ms = picked(ms, &self.copy, copied);
        self.meters = ms.count() as usize;
        let along = self.along;
        let start = self
            .pass
            .start(a, from, self.pairs, self.shut.is_any(), along);
        self.along = None;
        self.pairs = a.length();
        let room = self.scratch.vertices();
        self.shut.clear_unless(start.kept);
        let found = self.scratch.find(
            &Setting::new(g, ms, a, from, room),
            &Setting::shut(g, ms, a, from, room, self.shut.all()),
            &self.noted,
            start,
        );
        match found {
            Ok(k) => {
                let path = self.scratch.path(k);
                let next = next_tried(path, ms.count());
                shut_front(&mut self.shut, self.scratch.queue(), path);
                let m = grow(g, ms, a, path, steps);
                self.pass = Pass::after(a, from, next, m, along);
                Found::Grown(m)
            }
            Err(count) => {
                self.count = count;
                self.pass = Pass::new();
                steps.tick();
                Found::Closed
            }
        }
    }
}
