// The order in which the items are taken, and that in which the layers list them.
ghost use Rattle.std.specs.Prelude.{◌≡◌, ◌<◌, ◌≤◌, ◌^◌, length, take};
ghost use Rattle.obs_placement.specs.inner.Offer.{IsOffer, price_in};
ghost use Rattle.obs_placement.specs.inner.Order.{AreNumbered, IsOrder};
ghost use Rattle.obs_placement.specs.inner.Taking.{since_at};

use crate::offer::Offer;

/// The price of an item: a meter costs nothing.
pub fn price_at(offer: &Offer<'_>, m: u32) -> u64
    requires offer { IsOffer offer.now }
    requires m { m < length offer.now.items.now.touches }
    ensures price { result ≡ price_in offer.now m }
{
    if m < offer.meters {
        0
    } else {
        offer.prices[(m - offer.meters) as usize]
    }
}

/// Writes each item with its price.
fn number(offer: &Offer<'_>, keys: &mut [(u64, u32)])
    requires offer { IsOffer offer.now }
    requires count { length keys.old ≡ length offer.now.items.now.touches }
    ensures numbered { AreNumbered (price_in offer.now) (length offer.now.items.now.touches) keys.new }
{
    for m in 0..offer.items.count() {
        keys[m as usize] = (price_at(offer, m), m);
    }
}

/// Puts the items into the order in which they are taken.
pub fn put_in_order(offer: &Offer<'_>, keys: &mut [(u64, u32)])
    requires offer { IsOffer offer.now }
    requires count { length keys.old ≡ length offer.now.items.now.touches }
    ensures order { IsOrder (price_in offer.now) (length offer.now.items.now.touches) keys.new }
{
    number(offer, keys);
    keys.sort_unstable();
}

/// Writes each item with the price from which on it isn't critical.
fn number_known(since: &[u64], keys: &mut [(u64, u32)])
    requires few { length since.now < 2 ^ 32 }
    requires count { length keys.old ≡ length since.now }
    ensures numbered { AreNumbered (since_at since.now) (length since.now) keys.new }
{
    for m in 0..since.len() {
        keys[m] = (since[m], m as u32);
    }
}

/// Puts the items, at the front, into the order of the prices from which on they aren't critical and, at one price, of
/// their numbers.
pub fn put_known_in_order(since: &[u64], keys: &mut [(u64, u32)])
    requires few { length since.now < 2 ^ 32 }
    requires room { length since.now ≤ length keys.old }
    ensures order { IsOrder (since_at since.now) (length since.now) (take (length since.now) keys.new) }
{
    let front = &mut keys[..since.len()];
    number_known(since, front);
    front.sort_unstable();
}
