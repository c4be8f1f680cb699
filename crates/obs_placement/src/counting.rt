// How many live items are below a price, and how many of these raise the greatest length, counted in the order of the
// items.
ghost use Rattle.std.specs.Prelude.{◌≡◌, ◌+◌, ◌<◌, ◌≤◌, if◌then◌else◌, length};
ghost use Rattle.obs_placement.specs.inner.Choosing.{IsChosen};
ghost use Rattle.obs_placement.specs.inner.Counting.{AreCounted};
ghost use Rattle.obs_placement.specs.inner.Offer.{IsOffer, price_in};
ghost use Rattle.obs_placement.specs.inner.Order.{item_at};

use crate::choosing::Choosing;
use crate::offer::Offer;

/// How many live items are counted and how many of them raise the greatest length, and the same of those below a price.
#[derive(Clone, Copy)]
pub struct Tally {
    pub price: u64,
    pub live_below: u32,
    pub raised_below: u32,
    pub live: u32,
    pub raised: u32,
}

/// The counts before the first item.
pub fn nothing_counted() -> Tally
    ensures value { result ≡ record { price = 0; live_below = 0; raised_below = 0; live = 0; raised = 0 } }
{
    Tally {
        price: 0,
        live_below: 0,
        raised_below: 0,
        live: 0,
        raised: 0,
    }
}

/// The counts at a price, where all that is counted is below it or at the price before.
fn at_price(tally: Tally, price: u64) -> Tally
    ensures same { price ≤ tally.price → result ≡ tally }
    ensures higher { tally.price < price → result ≡ record {
      price = price;
      live_below = tally.live;
      raised_below = tally.raised;
      live = tally.live;
      raised = tally.raised;
    } }
{
    if tally.price < price {
        Tally {
            price,
            live_below: tally.live,
            raised_below: tally.raised,
            live: tally.live,
            raised: tally.raised,
        }
    } else {
        tally
    }
}

/// One where the flag is set.
fn one_where(flag: bool) -> u32
    ensures value { result ≡ (if flag then 1 else 0) }
{
    if flag { 1 } else { 0 }
}

/// Counts the item at the next place.
pub fn count_item(offer: &Offer<'_>, choosing: &Choosing, k: usize, tally: Tally) -> Tally
    requires offer { IsOffer offer.now }
    requires chosen { IsChosen offer.now choosing.now }
    requires k { k < length offer.now.items.now.touches }
    requires counted { AreCounted offer.now.graph.now offer.now.items.now.touches (price_in offer.now)
        choosing.now.keys k tally }
    ensures counted { AreCounted offer.now.graph.now offer.now.items.now.touches (price_in offer.now)
        choosing.now.keys (k + 1) result }
    ensures price { result.price ≡ price_in offer.now (item_at choosing.now.keys k) }
{
    let (price, c) = choosing.key(k);
    let before = at_price(tally, price);
    let live = one_where(offer.items.live(offer.graph, c));
    let more = one_where(choosing.raised(c));
    Tally {
        price: before.price,
        live_below: before.live_below,
        raised_below: before.raised_below,
        live: before.live + live,
        raised: before.raised + more,
    }
}
