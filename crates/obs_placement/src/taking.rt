// Items are taken one after the other: each that raises the greatest length gets a pair, and of each other one it is
// kept which items aren't critical from its price on.
ghost use Rattle.std.specs.Prelude.{◌≡◌, [], IfOk, length};
ghost use Rattle.obs_assign.specs.inner.Assignment.{pairs as pairs_at};
ghost use Rattle.obs_placement.specs.inner.Choosing.{nothing_taken};
ghost use Rattle.obs_placement.specs.inner.Holding.{GoesOn, HasEnded, IsTakenNow, IsToTake, StandsBeside, nothing_known, thawed};
ghost use Rattle.obs_placement.specs.inner.Offer.{HasRoomForOffer, IsOffer, price_in};
ghost use Rattle.obs_placement.specs.inner.Order.{IsOrder};

use crate::holding::{keep, touches_known};
use crate::known::Known;
use crate::memory::NoMemory;
use crate::offer::Offer;
use obs_assign::{Assignment, Steps};
use obs_exchange::{Found, Sources, Work, search};
use std::alloc::Global;
use std::marker::Model;
use std::sync::ledger::Ledger;

/// What items are taken in.
pub struct Taking {
    // from which price on each item isn't critical, and the flags of what such items touch
    known: Known,
    // the pairs of the items that were taken, and what finds them
    pairs: Assignment,
    work: Work,
}

impl Model for Taking {
    ghost use Rattle.std.specs.Prelude.{◌≡◌};
    ghost use Rattle.obs_placement.specs.inner.Holding.{Taking};

    ghost Value = { Taking };

    ghost view = { λ t. record { known = t.known; pairs = t.pairs; sizes = t.work.sizes } };

    ghost invariant = { λ t. record {
      known : t.known.sizes ≡ t.work.sizes;
      pairs : t.pairs.most_meters ≡ t.work.sizes.meters;
      branches : t.pairs.forest.most_branches ≡ t.work.sizes.branches;
      vertices : t.pairs.forest.most_vertices ≡ t.work.sizes.vertices;
    } };
}

// Written out: so a caller's proof sees one call, and not the drop of each field.
impl Drop for Taking {
    fn drop(self) {
        let Taking {
            known: _,
            pairs: _,
            work: _,
        } = self;
    }
}

impl Taking {
    /// Room for so many items, branches and vertices.
    pub fn make(
        alloc: Global,
        most_items: u32,
        most_branches: u32,
        most_vertices: u32,
    ) -> Result<Taking, NoMemory>
        ensures empty { IfOk result (λ t. t ≡
            nothing_taken (record { meters = most_items; branches = most_branches; vertices = most_vertices })) }
    {
        let Ok(known) = Known::make(alloc, most_items, most_branches, most_vertices) else {
            return Err(NoMemory);
        };
        let Ok(pairs) = Assignment::make(alloc, most_items, most_branches, most_vertices) else {
            return Err(NoMemory);
        };
        let Ok(work) = Work::make(alloc, most_items, most_branches, most_vertices) else {
            return Err(NoMemory);
        };
        Ok(Taking { known, pairs, work })
    }

    /// By item the price from which on it isn't critical.
    pub fn since(&self) -> &[u64]
        ensures since { result.now ≡ self.now.known.since }
    {
        self.known.since()
    }

    /// The pairs of the items that were taken.
    pub fn pairs(&self) -> &Assignment
        ensures pairs { result.now ≡ self.now.pairs }
    {
        &self.pairs
    }

    /// Takes no item.
    pub fn begin(&mut self, offer: &Offer<'_>)
        requires offer { IsOffer offer.now }
        requires room { HasRoomForOffer self.old.sizes offer.now }
        ensures beside { StandsBeside offer.now self.new.pairs self.new.known }
        ensures no_pair { pairs_at self.new.pairs ≡ [] }
        ensures nothing_known { self.new.known ≡ nothing_known self.old.known offer.now }
        ensures same_sizes { self.new.sizes ≡ self.old.sizes }
    {
        self.pairs.clear(offer.graph, offer.items);
        self.known.begin(offer);
    }

    /// Takes a live item by a search from it, and says whether it raises the greatest length.
    fn search_item<L: Ledger>(
        &mut self,
        offer: &Offer<'_>,
        price: u64,
        c: u32,
        steps: &mut Steps<L>,
    ) -> bool
        requires offer { IsOffer offer.now }
        requires room { HasRoomForOffer self.old.sizes offer.now }
        requires item { IsToTake offer.now c price self.old }
        ensures taken { IsTakenNow offer.now c price self.old self.new result }
        ensures same_sizes { self.new.sizes ≡ self.old.sizes }
    {
        match search(
            offer.graph,
            offer.items,
            &mut self.pairs,
            Sources::One(c),
            &mut self.work,
            steps,
        ) {
            Found::Grown(_) => true,
            Found::Closed => {
                keep(
                    offer,
                    &mut self.pairs,
                    &mut self.known,
                    self.work.listed(),
                    price,
                    steps,
                );
                false
            }
        }
    }

    /// Takes a live item, and says whether it raises the greatest length. Where known items touch all that it touches,
    /// it raises nothing, and no other item becomes known: so no search is made.
    fn take<L: Ledger>(
        &mut self,
        offer: &Offer<'_>,
        price: u64,
        c: u32,
        steps: &mut Steps<L>,
    ) -> bool
        requires offer { IsOffer offer.now }
        requires room { HasRoomForOffer self.old.sizes offer.now }
        requires item { IsToTake offer.now c price self.old }
        ensures taken { IsTakenNow offer.now c price self.old self.new result }
        ensures same_sizes { self.new.sizes ≡ self.old.sizes }
    {
        if touches_known(offer, &self.known, c) {
            self.known.set(c, price);
            return false;
        }
        self.search_item(offer, price, c, steps)
    }

    /// Thaws all items, and keeps the pairs.
    pub fn thaw(&mut self)
        ensures thawed { self.new ≡ record self.old { pairs = thawed self.old.pairs } }
    {
        self.pairs.unpin_all();
    }
}

/// Takes all items, in their order, and says which of them raise the greatest length of those before them.
pub fn take_all<L: Ledger>(
    offer: &Offer<'_>,
    keys: &[(u64, u32)],
    taking: &mut Taking,
    raised: &mut [bool],
    steps: &mut Steps<L>,
)
    requires offer { IsOffer offer.now }
    requires room { HasRoomForOffer taking.old.sizes offer.now }
    requires order { IsOrder (price_in offer.now) (length offer.now.items.now.touches) keys.now }
    requires begun { GoesOn offer.now keys.now 0 taking.old raised.old }
    ensures taken { HasEnded offer.now taking.new raised.new }
    ensures same_sizes { taking.new.sizes ≡ taking.old.sizes }
{
    for k in 0..keys.len() {
        let (price, c) = keys[k];
        if offer.items.live(offer.graph, c) {
            raised[c as usize] = taking.take(offer, price, c, steps);
        }
    }
}
