// A placement, worked out.
ghost use Rattle.std.specs.Prelude.{◌≡◌, ◌≤◌, length};
ghost use Rattle.obs_placement.specs.inner.Choosing.{IsChosen, placed_in};
ghost use Rattle.obs_placement.specs.inner.Offer.{HasRoomForOffer, IsOffer};
ghost use Rattle.obs_placement.specs.Placed.{placement_of};

use crate::choosing::Choosing;
use crate::known::NEVER;
use crate::layering::add_layers;
use crate::laying::Laying;
use crate::measuring::Measuring;
use crate::offer::Offer;
use obs_assign::Steps;
use std::sync::ledger::Ledger;

/// Whether all that is offered falls short, and then the numbers of the bound that shows it.
#[derive(Clone, Copy)]
pub struct Lack {
    pub short: bool,
    pub rank: u32,
    pub outside: u32,
    pub needed: u32,
}

/// Chooses candidates, and lays out the layers or measures the bound that shows the shortfall.
pub fn place_in<L: Ledger>(
    offer: &Offer<'_>,
    needed: u32,
    choosing: &mut Choosing,
    measuring: &mut Measuring,
    laying: &mut Laying,
    steps: &mut Steps<L>,
) -> Lack
    requires offer { IsOffer offer.now }
    requires room { HasRoomForOffer choosing.old.sizes offer.now }
    requires measuring { measuring.old.sizes ≡ choosing.old.sizes }
    requires laying { length offer.now.items.now.touches ≤ laying.old.room }
    ensures placed { placed_in result choosing.new measuring.new.inside laying.new
        ≡ placement_of offer.now.graph.now.vertices offer.now.graph.now.ends offer.now.items.now.touches
        offer.now.meters offer.now.prices.now needed }
    ensures chosen { IsChosen offer.now choosing.new }
    ensures same_sizes { choosing.new.sizes ≡ choosing.old.sizes }
    ensures same_measuring { measuring.new.sizes ≡ measuring.old.sizes }
    ensures same_laying { laying.new.room ≡ laying.old.room }
{
    choosing.choose(offer, steps);
    if choosing.pairs().length() < needed {
        let bound = measuring.measure(offer, choosing.since(), NEVER);
        Lack {
            short: true,
            rank: bound.rank,
            outside: bound.outside,
            needed,
        }
    } else {
        add_layers(offer, choosing, laying);
        Lack {
            short: false,
            rank: 0,
            outside: 0,
            needed,
        }
    }
}
