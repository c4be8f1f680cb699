// The answer: which candidates are chosen, and what they cost.
ghost use Rattle.std.specs.Prelude.{◌≡◌, ◌<◌, ◌≤◌, IfOk, filter, length, slice_index_or, take};
ghost use Rattle.std.specs.List.{range_with_len};
ghost use Rattle.obs_assign.specs.inner.Assignment.{has_flag};
ghost use Rattle.obs_placement.specs.Answer.{cost_of};
ghost use Rattle.obs_placement.specs.inner.Choosing.{IsChosen, new_choosing};
ghost use Rattle.obs_placement.specs.inner.Offer.{HasRoomForOffer, IsOffer};
ghost use Rattle.obs_placement.specs.inner.Taking.{is_raised};

use crate::known::clear;
use crate::memory::NoMemory;
use crate::offer::Offer;
use crate::order::put_in_order;
use crate::taking::{Taking, take_all};
use obs_assign::{Assignment, Steps};
use std::alloc::Global;
use std::marker::Model;
use std::sync::ledger::Ledger;

/// How many candidates are listed, and what they cost.
#[derive(Clone, Copy)]
pub struct Listed {
    pub count: usize,
    pub cost: u64,
}

/// Lists the positions of the candidates with a flag, rising.
fn list_raised(offer: &Offer<'_>, raised: &[bool], list: &mut [u32]) -> Listed
    requires offer { IsOffer offer.now }
    requires raised { length raised.now ≡ length offer.now.items.now.touches }
    requires room { length offer.now.prices.now ≤ length list.old }
    ensures bound { result.count ≤ length offer.now.prices.now }
    ensures listed { take result.count list.new ≡ filter (is_raised raised.now offer.now.meters)
        (range_with_len 0 (length offer.now.prices.now)) }
    ensures cost { result.cost ≡ cost_of offer.now.prices.now
        (filter (is_raised raised.now offer.now.meters) (range_with_len 0 (length offer.now.prices.now))) }
{
    let mut count = 0;
    let mut cost = 0;
    for k in 0..offer.prices.len() {
        if raised[offer.meters as usize + k] {
            list[count] = k as u32;
            count += 1;
            cost += offer.prices[k];
        }
    }
    Listed { count, cost }
}

/// Takes all items in their order, and lists the chosen candidates. The arrays may have more places than there are
/// items.
fn choose_in<L: Ledger>(
    offer: &Offer<'_>,
    keys: &mut [(u64, u32)],
    raised: &mut [bool],
    list: &mut [u32],
    taking: &mut Taking,
    steps: &mut Steps<L>,
) -> Listed
    requires offer { IsOffer offer.now }
    requires room { HasRoomForOffer taking.old.sizes offer.now }
    requires keys { length keys.old ≡ taking.old.sizes.meters }
    requires raised { length raised.old ≡ taking.old.sizes.meters }
    requires list { length list.old ≡ taking.old.sizes.meters }
    ensures bound { result.count ≤ length list.new }
    ensures chosen { IsChosen offer.now (record {
      keys = take (length offer.now.items.now.touches) keys.new;
      raised = take (length offer.now.items.now.touches) raised.new;
      chosen = take result.count list.new;
      cost = result.cost;
      since = taking.new.known.since;
      pairs = taking.new.pairs;
      sizes = taking.new.sizes;
    }) }
    ensures same_sizes { taking.new.sizes ≡ taking.old.sizes }
{
    let n = offer.items.count() as usize;
    let keys = &mut keys[..n];
    let raised = &mut raised[..n];
    put_in_order(offer, keys);
    clear(raised);
    taking.begin(offer);
    take_all(offer, keys, taking, raised, steps);
    taking.thaw();
    list_raised(offer, raised, list)
}

/// Room for choosing candidates, and those that were chosen last.
pub struct Choosing {
    // how many items there were, how many candidates were chosen, and what these cost
    items: usize,
    listed: Listed,
    // the price of each item with its number: the order in which they are taken
    keys: Vec<(u64, u32)>,
    // whether the item raised the greatest length
    raised: Vec<bool>,
    // the positions of the chosen candidates, at the front
    list: Vec<u32>,
    // what the items are taken in
    taking: Taking,
}

impl Model for Choosing {
    ghost use Rattle.std.specs.Prelude.{◌≡◌, ◌≤◌, length, take};
    ghost use Rattle.obs_placement.specs.inner.Choosing.{Choosing};

    ghost Value = { Choosing };

    ghost view = { λ c. record {
      keys = take c.items c.keys.items;
      raised = take c.items c.raised.items;
      chosen = take c.listed.count c.list.items;
      cost = c.listed.cost;
      since = c.taking.known.since;
      pairs = c.taking.pairs;
      sizes = c.taking.sizes;
    } };

    ghost invariant = { λ c. record {
      items : c.items ≤ length c.keys.items;
      count : c.listed.count ≤ length c.list.items;
      keys : length c.keys.items ≡ c.taking.sizes.meters;
      raised : length c.raised.items ≡ c.taking.sizes.meters;
      list : length c.list.items ≡ c.taking.sizes.meters;
    } };
}

// Written out: so a caller's proof sees one call, and not the drop of each field.
impl Drop for Choosing {
    fn drop(self) {
        let Choosing {
            items: _,
            listed: _,
            keys: _,
            raised: _,
            list: _,
            taking: _,
        } = self;
    }
}

impl Choosing {
    /// Room for so many items, branches and vertices.
    pub fn make(
        alloc: Global,
        most_items: u32,
        most_branches: u32,
        most_vertices: u32,
    ) -> Result<Choosing, NoMemory>
        ensures empty { IfOk result (λ c. c ≡
            new_choosing (record { meters = most_items; branches = most_branches; vertices = most_vertices })) }
    {
        let Ok(keys) = vec![in alloc; (0, 0); most_items as usize] else {
            return Err(NoMemory);
        };
        let Ok(raised) = vec![in alloc; false; most_items as usize] else {
            return Err(NoMemory);
        };
        let Ok(list) = vec![in alloc; 0; most_items as usize] else {
            return Err(NoMemory);
        };
        let Ok(taking) = Taking::make(alloc, most_items, most_branches, most_vertices) else {
            return Err(NoMemory);
        };
        Ok(Choosing {
            items: 0,
            listed: Listed { count: 0, cost: 0 },
            keys,
            raised,
            list,
            taking,
        })
    }

    /// The k-th of the prices and items, in the order in which the items were taken.
    pub fn key(&self, k: usize) -> (u64, u32)
        requires k { k < length self.now.keys }
        ensures key { result ≡ slice_index_or self.now.keys k (0, 0) }
    {
        self.keys[k]
    }

    /// Whether the item raised the greatest length.
    pub fn raised(&self, m: u32) -> bool
        requires m { m < length self.now.raised }
        ensures raised { result ≡ has_flag self.now.raised m }
    {
        self.raised[m as usize]
    }

    /// The positions of the chosen candidates, rising.
    pub fn chosen(&self) -> &[u32]
        ensures chosen { result.now ≡ self.now.chosen }
    {
        &self.list[..self.listed.count]
    }

    /// What the chosen candidates cost.
    pub fn cost(&self) -> u64
        ensures cost { result ≡ self.now.cost }
    {
        self.listed.cost
    }

    /// By item the price from which on it isn't critical.
    pub fn since(&self) -> &[u64]
        ensures since { result.now ≡ self.now.since }
    {
        self.taking.since()
    }

    /// The pairs of the items that were taken.
    pub fn pairs(&self) -> &Assignment
        ensures pairs { result.now ≡ self.now.pairs }
    {
        self.taking.pairs()
    }

    /// Takes all items in their order, and keeps which candidates are chosen.
    pub fn choose<L: Ledger>(&mut self, offer: &Offer<'_>, steps: &mut Steps<L>)
        requires offer { IsOffer offer.now }
        requires room { HasRoomForOffer self.old.sizes offer.now }
        ensures chosen { IsChosen offer.now self.new }
        ensures same_sizes { self.new.sizes ≡ self.old.sizes }
    {
        self.items = offer.items.count() as usize;
        self.listed = choose_in(
            offer,
            &mut self.keys,
            &mut self.raised,
            &mut self.list,
            &mut self.taking,
            steps,
        );
    }
}
