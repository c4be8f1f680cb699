// The way back from a meter that is to lose its pair to a source: a hint, on which nothing rests.
ghost use Rattle.std.specs.Prelude.{◌≡◌, length};
ghost use Rattle.obs_assign.specs.inner.Assignment.{StandsOver};

use crate::flags::Flags;
use crate::memory::NoMemory;
use crate::sides::Sides;
use obs_assign::Assignment;
use obs_graph::{Ends, Graph};
use obs_meter::{Meters, Touch};
use std::alloc::Global;

/// Over how many branches one look back goes.
const MOST_LOOKS: usize = 20000;

/// No meter.
const NONE: u32 = u32::MAX;

/// What stands behind a meter that isn't listed.
const UNLISTED: u32 = u32::MAX - 1;

/// What a look back is over: a graph, meters, pairs, and whether all meters may be reached, or those that are loose.
#[derive(Clone, Copy)]
pub(crate) struct Ground<'a> {
    pub graph: &'a Graph,
    pub meters: &'a Meters,
    pub pairs: &'a Assignment,
    pub all: bool,
    pub loose: &'a [bool],
}

/// By vertex the first meter that touches branches there, by branch the first that touches it alone, and by meter the
/// next one there; and whether they are to be listed anew.
pub(crate) struct Touching {
    at: Vec<u32>,
    on: Vec<u32>,
    next: Vec<u32>,
    stale: bool,
}

/// The meters that lead to the one that is to lose its pair, in the order in which they were reached, and by meter the
/// search that reached it last, and the meter that it leads to at once.
pub(crate) struct Reached {
    queue: Vec<u32>,
    tail: usize,
    met: Vec<u32>,
    next: Vec<u32>,
    search: u32,
    looks: usize,
    source: u32,
}

/// What looks back write on.
pub(crate) struct Back {
    touching: Touching,
    reached: Reached,
    sides: Sides,
}

// Written out: so a caller's proof sees one call, and not the drop of each field.
impl Drop for Touching {
    fn drop(self) {
        let Touching {
            at: _,
            on: _,
            next: _,
            stale: _,
        } = self;
    }
}

impl Drop for Reached {
    fn drop(self) {
        let Reached {
            queue: _,
            tail: _,
            met: _,
            next: _,
            search: _,
            looks: _,
            source: _,
        } = self;
    }
}

impl Drop for Back {
    fn drop(self) {
        let Back {
            touching: _,
            reached: _,
            sides: _,
        } = self;
    }
}

/// What stands at a place, or no meter.
fn noted(list: &[u32], place: u32) -> u32 {
    match list.get(place as usize) {
        Some(x) => *x,
        None => NONE,
    }
}

/// Puts a meter in front of those that are noted at a place.
fn put_front(firsts: &mut [u32], next: &mut [u32], place: u32, m: u32) {
    let Some(first) = firsts.get_mut(place as usize) else {
        return;
    };
    let Some(behind) = next.get_mut(m as usize) else {
        return;
    };
    *behind = *first;
    *first = m;
}

impl Touching {
    fn make(
        alloc: Global,
        most_meters: u32,
        most_branches: u32,
        most_vertices: u32,
    ) -> Result<Touching, NoMemory> {
        Ok(Touching {
            at: vec![in alloc; NONE; most_vertices as usize]?,
            on: vec![in alloc; NONE; most_branches as usize]?,
            next: vec![in alloc; UNLISTED; most_meters as usize]?,
            stale: true,
        })
    }

    /// Lists the meters by what they touch.
    fn list(&mut self, ms: &Meters) {
        self.at.fill(NONE);
        self.on.fill(NONE);
        self.next.fill(UNLISTED);
        for m in 0..ms.count() {
            self.put(ms.kind(m), m);
        }
        self.stale = false;
    }

    /// Lists a meter that touches this, where it isn't listed.
    fn put(&mut self, touch: Touch, m: u32) {
        if noted(&self.next, m) != UNLISTED {
            return;
        }
        match touch {
            Touch::Nothing => {}
            Touch::Edge(e) => put_front(&mut self.on, &mut self.next, e, m),
            Touch::Star(v) => put_front(&mut self.at, &mut self.next, v, m),
            Touch::Front { at: v, count: _ } => {
                put_front(&mut self.at, &mut self.next, v, m);
            }
        }
    }
}

impl Reached {
    fn make(alloc: Global, most_meters: u32) -> Result<Reached, NoMemory> {
        Ok(Reached {
            queue: vec![in alloc; 0; most_meters as usize]?,
            tail: 0,
            met: vec![in alloc; 0; most_meters as usize]?,
            next: vec![in alloc; NONE; most_meters as usize]?,
            search: 0,
            looks: 0,
            source: NONE,
        })
    }

    /// Reaches a meter that leads to the next one. Says whether it wasn't reached before.
    fn put(&mut self, x: u32, next: u32) -> bool {
        let Some(met) = self.met.get_mut(x as usize) else {
            return false;
        };
        if *met == self.search {
            return false;
        }
        let Some(place) = self.queue.get_mut(self.tail) else {
            return false;
        };
        let Some(leads) = self.next.get_mut(x as usize) else {
            return false;
        };
        *met = self.search;
        *place = x;
        *leads = next;
        self.tail = self.tail.saturating_add(1);
        true
    }

    /// Reaches nothing.
    fn begin(&mut self) {
        self.search = self.search.wrapping_add(1);
        self.tail = 0;
        self.looks = 0;
        self.source = NONE;
    }

    /// Goes on by so many branches.
    fn look(&mut self, count: usize) {
        self.looks = self.looks.saturating_add(count);
    }

    /// Whether a source was reached, or too many branches were looked at.
    fn is_over(&self) -> bool {
        self.source != NONE || self.looks > MOST_LOOKS
    }

    /// Reaches a meter that touches a branch across, where it may be reached.
    fn reach(&mut self, ground: &Ground<'_>, x: u32, next: u32)
        requires meters { length ground.now.meters.now.touches ≡ length ground.now.pairs.now.slots }
    {
        if x >= ground.meters.count() || ground.pairs.frozen(x) {
            return;
        }
        if !ground.all && !is_loose(ground.loose, x) {
            return;
        }
        if self.put(x, next) && ground.pairs.branch_of(x).is_none() {
            self.source = x;
        }
    }

    /// Reaches the meters of a list that touch the branch.
    fn reach_all(&mut self, ground: &Ground<'_>, touching: &[u32], first: u32, e: u32, next: u32)
        requires meters { length ground.now.meters.now.touches ≡ length ground.now.pairs.now.slots }
    {
        if e >= ground.graph.positions() {
            return;
        }
        let mut x = first;
        for _ in 0..MOST_LOOKS {
            if self.is_over() || x == NONE {
                return;
            }
            self.look(1);
            if x < ground.meters.count() && ground.meters.is_touched(ground.graph, x, e) {
                self.reach(ground, x, next);
            }
            x = noted(touching, x);
        }
    }
}

/// Whether the meter is flagged as loose.
fn is_loose(loose: &[bool], x: u32) -> bool {
    match loose.get(x as usize) {
        Some(flag) => *flag,
        None => false,
    }
}

/// The other end of a branch.
fn other_end(g: &Graph, e: u32, v: u32) -> Option<u32> {
    if e >= g.positions() {
        return None;
    }
    let ends = g.ends(e)?;
    Some(if ends.a == v { ends.b } else { ends.a })
}

impl Back {
    /// Room for so many meters, branches and vertices.
    pub(crate) fn make(
        alloc: Global,
        most_meters: u32,
        most_branches: u32,
        most_vertices: u32,
    ) -> Result<Back, NoMemory> {
        Ok(Back {
            touching: Touching::make(alloc, most_meters, most_branches, most_vertices)?,
            reached: Reached::make(alloc, most_meters)?,
            sides: Sides::make(alloc, most_vertices)?,
        })
    }

    /// Lists the meters by what they touch.
    pub(crate) fn list(&mut self, ms: &Meters) {
        self.touching.list(ms);
    }

    /// Reaches what touches a branch from this vertex across, where the side that was walked is left there.
    fn reach_from(&mut self, ground: &Ground<'_>, v: u32, next: u32)
        requires stands { StandsOver ground.now.pairs.now ground.now.graph.now ground.now.meters.now.touches }
    {
        let Some(side) = self.sides.whole() else {
            return;
        };
        if v >= ground.graph.vertices() {
            return;
        }
        let touching = &self.touching;
        let reached = &mut self.reached;
        let mut own = true;
        for e in ground.graph.branches_at(v) {
            reached.look(1);
            let Some(w) = other_end(ground.graph, *e, v) else {
                continue;
            };
            if self.sides.is_on(side, w) {
                continue;
            }
            if own {
                reached.reach_all(ground, &touching.next, noted(&touching.at, v), *e, next);
                own = false;
            }
            reached.reach_all(ground, &touching.next, noted(&touching.at, w), *e, next);
            reached.reach_all(ground, &touching.next, noted(&touching.on, *e), *e, next);
            if reached.is_over() {
                return;
            }
        }
    }

    /// Reaches what touches a branch from the one side to the other, where these ends lie on two sides without the branch
    /// f, for a meter that has f.
    fn reach_across(&mut self, ground: &Ground<'_>, d: u32, f: u32, ends: Ends)
        requires stands { StandsOver ground.now.pairs.now ground.now.graph.now ground.now.meters.now.touches }
    {
        let looks = self
            .sides
            .walk(ground.graph, ground.pairs, f, ends, MOST_LOOKS);
        self.reached.look(looks);
        for k in 0..MOST_LOOKS {
            if self.reached.is_over() {
                return;
            }
            let v = match self.sides.whole() {
                Some(side) => side.at(k),
                None => None,
            };
            let Some(v) = v else {
                return;
            };
            self.reach_from(ground, v, d);
        }
    }

    /// Reaches what touches a branch from the one side of this meter's branch to the other.
    fn reach_by(&mut self, ground: &Ground<'_>, d: u32, f: u32)
        requires stands { StandsOver ground.now.pairs.now ground.now.graph.now ground.now.meters.now.touches }
    {
        if f >= ground.graph.positions() {
            return;
        }
        if let Some(ends) = ground.graph.ends(f) {
            self.reach_across(ground, d, f, ends);
        }
    }

    /// Looks back for a source from a meter that lost its pair with the branch f. Says whether there was none, where all
    /// that lead to it were looked at.
    pub(crate) fn look(&mut self, ground: &Ground<'_>, m: u32, f: u32) -> bool
        requires stands { StandsOver ground.now.pairs.now ground.now.graph.now ground.now.meters.now.touches }
    {
        self.reached.begin();
        let _ = self.reached.put(m, NONE);
        self.reach_by(ground, m, f);
        self.go_on(ground, 1)
    }

    /// The same from two ends that a pair joined which isn't there any more. The meters are listed by what they touch, where
    /// that is to be done anew.
    pub(crate) fn look_across(&mut self, ground: &Ground<'_>, ends: Ends) -> bool
        requires stands { StandsOver ground.now.pairs.now ground.now.graph.now ground.now.meters.now.touches }
    {
        if self.touching.stale {
            self.touching.list(ground.meters);
        }
        self.reached.begin();
        self.reach_across(ground, NONE, NONE, ends);
        self.go_on(ground, 0)
    }

    /// Notes that the meters are to be listed anew.
    pub(crate) fn forget(&mut self) {
        self.touching.stale = true;
    }

    /// Lists a meter that touches this.
    pub(crate) fn put(&mut self, touch: Touch, m: u32) {
        self.touching.put(touch, m);
    }

    /// Goes on at the meters that were reached, from the one at a place on.
    fn go_on(&mut self, ground: &Ground<'_>, first: usize) -> bool
        requires stands { StandsOver ground.now.pairs.now ground.now.graph.now ground.now.meters.now.touches }
    {
        for head in first..self.reached.queue.len() {
            if self.reached.is_over() {
                return false;
            }
            if head >= self.reached.tail {
                return true;
            }
            let Some(d) = self.reached.queue.get(head) else {
                return false;
            };
            let d = *d;
            if d >= ground.meters.count() {
                return false;
            }
            if let Some(f) = ground.pairs.branch_of(d) {
                self.reach_by(ground, d, f);
            }
        }
        false
    }

    /// The source that the last look back found, if it did.
    pub(crate) fn source(&self) -> Option<u32> {
        if self.reached.source == NONE {
            return None;
        }
        Some(self.reached.source)
    }

    /// Where the last look back found a source, flags all meters but those on the way from there. Says which one.
    pub(crate) fn leads_along(&self, shut: &mut Flags) -> Option<u32>
        ensures length { length shut.new ≡ length shut.old }
    {
        let source = self.source()?;
        shut.set_all();
        let mut x = self.reached.source;
        for _ in 0..self.reached.tail {
            shut.take_out(x);
            x = noted(&self.reached.next, x);
        }
        Some(source)
    }
}
