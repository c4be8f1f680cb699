// What is known of items while they are taken.
ghost use Rattle.std.specs.Prelude.{◌≡◌, ◌<◌, ◌≤◌, [], false, true, length, replicate, slice_set, take, IfOk};
ghost use Rattle.obs_placement.specs.inner.Holding.{nothing_known};
ghost use Rattle.obs_placement.specs.inner.Offer.{HasRoomForOffer};
ghost use Rattle.obs_placement.specs.inner.Taking.{never};

use crate::memory::NoMemory;
use crate::offer::Offer;
use std::alloc::Global;
use std::marker::Model;

/// The price of an item that wasn't found not to be critical: above all prices.
pub const NEVER: u64 = 18446744073709551615;

/// The price from which on each item isn't critical, with flags and counts of what such items touch.
pub struct Known {
    // how many items, branches and vertices there are
    items: usize,
    branches: usize,
    vertices: usize,
    // the price from which on the item isn't critical, or `NEVER`
    since: Vec<u64>,
    // whether an item that is known not to be critical touches the branch
    touched: Vec<bool>,
    // how many of the first branches at the vertex one of them touches, or 0
    fronts: Vec<usize>,
}

impl Model for Known {
    ghost use Rattle.std.specs.Prelude.{◌≤◌, length, take};
    ghost use Rattle.obs_placement.specs.inner.Holding.{Known};

    ghost Value = { Known };

    ghost view = { λ k. record {
      since = take k.items k.since.items;
      touched = take k.branches k.touched.items;
      fronts = take k.vertices k.fronts.items;
      sizes = record {
        meters = length k.since.items;
        branches = length k.touched.items;
        vertices = length k.fronts.items;
      };
    } };

    ghost invariant = { λ k. record {
      items : k.items ≤ length k.since.items;
      branches : k.branches ≤ length k.touched.items;
      vertices : k.vertices ≤ length k.fronts.items;
    } };
}

// Written out: so a caller's proof sees one call, and not the drop of each field.
impl Drop for Known {
    fn drop(self) {
        let Known {
            items: _,
            branches: _,
            vertices: _,
            since: _,
            touched: _,
            fronts: _,
        } = self;
    }
}

/// Forgets from which price on the first n items aren't critical.
fn forget(since: &mut [u64], n: usize)
    requires n { n ≤ length since.old }
    ensures count { length since.new ≡ length since.old }
    ensures forgotten { take n since.new ≡ replicate n never }
{
    since[..n].fill(NEVER);
}

/// Takes all flags back.
pub fn clear(flags: &mut [bool])
    ensures clear { flags.new ≡ replicate (length flags.old) false }
{
    flags.fill(false);
}

/// Forgets the first n counts.
fn forget_counts(counts: &mut [usize], n: usize)
    requires n { n ≤ length counts.old }
    ensures count { length counts.new ≡ length counts.old }
    ensures forgotten { take n counts.new ≡ replicate n 0 }
{
    counts[..n].fill(0);
}

/// Takes the first n flags back.
fn unset(flags: &mut [bool], n: usize)
    requires n { n ≤ length flags.old }
    ensures count { length flags.new ≡ length flags.old }
    ensures unset { take n flags.new ≡ replicate n false }
{
    clear(&mut flags[..n]);
}

impl Known {
    /// Room for so many items, branches and vertices.
    pub fn make(
        alloc: Global,
        most_items: u32,
        most_branches: u32,
        most_vertices: u32,
    ) -> Result<Known, NoMemory>
        ensures empty { IfOk result (λ k. k ≡ record {
          since = [];
          touched = [];
          fronts = [];
          sizes = record { meters = most_items; branches = most_branches; vertices = most_vertices };
        }) }
    {
        let Ok(since) = vec![in alloc; 0; most_items as usize] else {
            return Err(NoMemory);
        };
        let Ok(touched) = vec![in alloc; false; most_branches as usize] else {
            return Err(NoMemory);
        };
        let Ok(fronts) = vec![in alloc; 0; most_vertices as usize] else {
            return Err(NoMemory);
        };
        Ok(Known {
            items: 0,
            branches: 0,
            vertices: 0,
            since,
            touched,
            fronts,
        })
    }

    /// By item the price from which on it isn't critical, or `NEVER`.
    pub fn since(&self) -> &[u64]
        ensures since { result.now ≡ self.now.since }
    {
        &self.since[..self.items]
    }

    /// By branch whether an item that is known not to be critical touches it.
    pub fn touched(&self) -> &[bool]
        ensures touched { result.now ≡ self.now.touched }
    {
        &self.touched[..self.branches]
    }

    /// By vertex how many of the first branches there such an item touches, or 0.
    pub fn fronts(&self) -> &[usize]
        ensures fronts { result.now ≡ self.now.fronts }
    {
        &self.fronts[..self.vertices]
    }

    /// Knows nothing of what is offered.
    pub fn begin(&mut self, offer: &Offer<'_>)
        requires room { HasRoomForOffer self.old.sizes offer.now }
        ensures begun { self.new ≡ nothing_known self.old offer.now }
    {
        self.items = offer.items.count() as usize;
        self.branches = offer.graph.positions() as usize;
        self.vertices = offer.graph.vertices() as usize;
        forget(&mut self.since, self.items);
        unset(&mut self.touched, self.branches);
        forget_counts(&mut self.fronts, self.vertices);
    }

    /// The item isn't critical from this price on.
    pub fn set(&mut self, m: u32, price: u64)
        requires m { m < length self.old.since }
        ensures set { self.new ≡ record self.old { since = slice_set self.old.since m price } }
    {
        self.since[m as usize] = price;
    }

    /// A known item touches the branch.
    pub fn touch(&mut self, e: u32)
        requires e { e < length self.old.touched }
        ensures touched { self.new ≡ record self.old { touched = slice_set self.old.touched e true } }
    {
        self.touched[e as usize] = true;
    }

    /// A known item touches so many of the first branches at the vertex.
    pub fn put_front(&mut self, v: u32, count: usize)
        requires v { v < length self.old.fronts }
        ensures front { self.new ≡ record self.old { fronts = slice_set self.old.fronts v count } }
    {
        self.fronts[v as usize] = count;
    }
}
