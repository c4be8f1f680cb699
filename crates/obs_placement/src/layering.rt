// The layers of a plan, read off the prices from which on items aren't critical.
ghost use Rattle.std.specs.Prelude.{◌≡◌, ◌<◌, ◌≤◌, ◌++◌, ◌∷◌, [], length};
ghost use Rattle.obs_placement.specs.inner.Choosing.{AreFirstBelow, IsChosen};
ghost use Rattle.obs_placement.specs.inner.Counting.{live_below, raised_below};
ghost use Rattle.obs_placement.specs.Layers.{added_items, layer_of};
ghost use Rattle.obs_placement.specs.inner.Layers.{count_known};
ghost use Rattle.obs_placement.specs.inner.Offer.{AreAllKnown, IsOffer, price_in};
ghost use Rattle.obs_placement.specs.inner.Order.{IsOrder};
ghost use Rattle.obs_placement.specs.Placed.{plan_of};
ghost use Rattle.obs_placement.specs.inner.Taking.{since_at};

use crate::choosing::Choosing;
use crate::counting::{Tally, count_item, nothing_counted};
use crate::laying::Laying;
use crate::offer::Offer;
use crate::plans::Layer;

/// Lays out the layer from one price to another, after those that are laid out already.
fn add_layer(
    offer: &Offer<'_>,
    since: &[u64],
    from: u64,
    to: u64,
    tally: Tally,
    laying: &mut Laying,
)
    requires offer { IsOffer offer.now }
    requires known { AreAllKnown offer.now since.now }
    requires rising { from ≤ to }
    requires live { tally.live_below
        ≡ live_below offer.now.graph.now.ends offer.now.items.now.touches (price_in offer.now) to }
    requires raised { tally.raised_below ≡ raised_below offer.now.graph.now.vertices offer.now.graph.now.ends
        offer.now.items.now.touches (price_in offer.now) to }
    requires layers { length laying.old.layers < laying.old.room }
    requires inside { length offer.now.items.now.touches ≤ laying.old.room }
    requires upto { length laying.old.inside ≡ count_known since.now from }
    requires order { IsOrder (since_at since.now) (length since.now) laying.old.keys }
    requires first { AreFirstBelow since.now laying.old.keys (length laying.old.inside) from }
    ensures layer { laying.new.layers ≡ laying.old.layers
        ++ layer_of offer.now.graph.now.vertices offer.now.graph.now.ends offer.now.items.now.touches
        (price_in offer.now) from to (length laying.old.inside) ∷ [] }
    ensures listed { laying.new.inside ≡ laying.old.inside
        ++ added_items offer.now.graph.now.vertices offer.now.graph.now.ends offer.now.items.now.touches
        (price_in offer.now) from to }
    ensures upto { length laying.new.inside ≡ count_known since.now to }
    ensures first { AreFirstBelow since.now laying.old.keys (length laying.new.inside) to }
    ensures keys { laying.new.keys ≡ laying.old.keys }
    ensures room { laying.new.room ≡ laying.old.room }
{
    laying.list_next(to);
    let listed = laying.inside().len() as u32;
    let outside = tally.live_below - listed;
    laying.add(Layer {
        from,
        to,
        rank: tally.raised_below - outside,
        outside,
        upto: listed,
    });
}

/// Lays out all layers: one for each different price above 0 of the chosen candidates, in the order of the items.
pub fn add_layers(offer: &Offer<'_>, choosing: &Choosing, laying: &mut Laying)
    requires offer { IsOffer offer.now }
    requires chosen { IsChosen offer.now choosing.now }
    requires room { length offer.now.items.now.touches ≤ laying.old.room }
    ensures layers { laying.new.layers ≡ (plan_of offer.now.graph.now.vertices offer.now.graph.now.ends
        offer.now.items.now.touches offer.now.meters offer.now.prices.now).layers }
    ensures inside { laying.new.inside ≡ (plan_of offer.now.graph.now.vertices offer.now.graph.now.ends
        offer.now.items.now.touches offer.now.meters offer.now.prices.now).inside }
    ensures room { laying.new.room ≡ laying.old.room }
{
    laying.begin(choosing.since());
    let mut last = 0;
    let mut tally = nothing_counted();
    for k in 0..offer.items.count() as usize {
        let (price, c) = choosing.key(k);
        tally = count_item(offer, choosing, k, tally);
        if last < price && choosing.raised(c) {
            add_layer(offer, choosing.since(), last, price, tally, laying);
            last = price;
        }
    }
}
