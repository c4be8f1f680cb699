// What a placement is worked out in.
ghost use Rattle.std.specs.Prelude.{◌≡◌, ◌+◌, ◌≤◌, All, IfOk, length};
ghost use Rattle.obs_meter.specs.Assignments.{rho_at};
ghost use Rattle.obs_meter.specs.inner.Sizes.{HasRoomFor};
ghost use Rattle.obs_meter.specs.Touches.{live_items};
ghost use Rattle.obs_meter.specs.inner.Touches.{AreInRange};
ghost use Rattle.obs_meter.specs.Costs.{price_of};
ghost use Rattle.obs_assign.specs.inner.Assignment.{pairs as pairs_at};
ghost use Rattle.obs_placement.specs.inner.Limits.{most_candidates, most_price};
ghost use Rattle.obs_placement.specs.Answer.{chosen_of};
ghost use Rattle.obs_placement.specs.inner.Choosing.{HavePairsOnly, new_placing};
ghost use Rattle.obs_placement.specs.Placed.{placement_of};
ghost use Rattle.obs_placement.specs.inner.Placed.{placed_of};
ghost use Rattle.obs_placement.specs.inner.Taking.{AreKnown, IsStanding};

use crate::choosing::Choosing;
use crate::laying::Laying;
use crate::measuring::Measuring;
use crate::memory::NoMemory;
use crate::offer::Offer;
use crate::placing::{Lack, place_in};
use crate::plans::{Placement, Plan};
use obs_assign::{Assignment, Steps};
use obs_graph::Graph;
use obs_meter::Meters;
use obs_rankcut::Bound;
use std::alloc::Global;
use std::marker::Model;
use std::sync::ledger::Ledger;

const NO_LACK: Lack = Lack {
    short: false,
    rank: 0,
    outside: 0,
    needed: 0,
};

/// Room for a placement, and what was found last.
pub struct PlaceWork {
    // whether all that was offered fell short, with the numbers of the bound
    lack: Lack,
    // what candidates are chosen in, and those that were chosen
    choosing: Choosing,
    // what the bound of a shortfall is measured in, and its list
    measuring: Measuring,
    // the layers of a plan
    laying: Laying,
}

impl Model for PlaceWork {
    ghost use Rattle.std.specs.Prelude.{◌≡◌};
    ghost use Rattle.obs_placement.specs.inner.Choosing.{PlaceWork, placed_in};

    ghost Value = { PlaceWork };

    ghost view = { λ w. record {
      placed = placed_in w.lack w.choosing w.measuring.inside w.laying;
      chosen = w.choosing.chosen;
      since = w.choosing.since;
      pairs = w.choosing.pairs;
      sizes = w.choosing.sizes;
    } };

    ghost invariant = { λ w. record {
      measuring : w.measuring.sizes ≡ w.choosing.sizes;
      laying : w.laying.room ≡ w.choosing.sizes.meters;
    } };
}

// Written out: so a caller's proof sees one call, and not the drop of each field.
impl Drop for PlaceWork {
    fn drop(self) {
        let PlaceWork {
            lack: _,
            choosing: _,
            measuring: _,
            laying: _,
        } = self;
    }
}

impl PlaceWork {
    /// Room for so many meters and candidates together, and so many branches and vertices.
    pub fn make(
        alloc: Global,
        most_offered: u32,
        most_branches: u32,
        most_vertices: u32,
    ) -> Result<PlaceWork, NoMemory>
        ensures empty { IfOk result (λ w. w ≡
            new_placing (record { meters = most_offered; branches = most_branches; vertices = most_vertices })) }
    {
        let Ok(choosing) = Choosing::make(alloc, most_offered, most_branches, most_vertices) else {
            return Err(NoMemory);
        };
        let Ok(measuring) = Measuring::make(alloc, most_offered, most_branches, most_vertices)
        else {
            return Err(NoMemory);
        };
        let Ok(laying) = Laying::make(alloc, most_offered) else {
            return Err(NoMemory);
        };
        Ok(PlaceWork {
            lack: NO_LACK,
            choosing,
            measuring,
            laying,
        })
    }

    /// The placement that was found last.
    pub fn found(&self) -> Placement<'_>
        ensures placed { placed_of result ≡ self.now.placed }
    {
        if self.lack.short {
            Placement::Shortfall(Bound {
                inside: self.measuring.inside(),
                rank: self.lack.rank,
                outside: self.lack.outside,
                needed: self.lack.needed,
            })
        } else {
            Placement::Cheapest(Plan {
                chosen: self.choosing.chosen(),
                cost: self.choosing.cost(),
                layers: self.laying.layers(),
                inside: self.laying.inside(),
            })
        }
    }

    /// The positions of the candidates that were chosen last, rising: of those that each raise the greatest length,
    /// also where all that was offered fell short.
    pub fn chosen(&self) -> &[u32]
        ensures chosen { result.now ≡ self.now.chosen }
    {
        self.choosing.chosen()
    }

    /// The pairs after the last placement: of meters and chosen candidates alone, and as many as the greatest length of
    /// all that was offered. Before the first placement nothing is said of them.
    pub fn pairs(&self) -> &Assignment
        ensures pairs { result.now ≡ self.now.pairs }
    {
        self.choosing.pairs()
    }
}

/// Finds the cheapest candidates that, with the meters, do as much as all that is offered. Where this is just the needed
/// number, none complete the meters for less; where it is below, finds the bound that shows this. `offered` are so many
/// meters and then the candidates. `PlaceWork::found` then has the placement.
pub fn find_placement<L: Ledger>(
    g: &Graph,
    offered: &Meters,
    meters: u32,
    prices: &[u64],
    needed: u32,
    work: &mut PlaceWork,
    steps: &mut Steps<L>,
)
    requires in_range { AreInRange g.now offered.now.touches }
    requires items { length offered.now.touches ≡ meters + length prices.now }
    requires few { length prices.now ≤ most_candidates }
    requires cheap { All (λ p. p ≤ most_price) prices.now }
    requires room { HasRoomFor work.old.sizes g.now offered.now.touches }
    ensures placed { work.new.placed
        ≡ placement_of g.now.vertices g.now.ends offered.now.touches meters prices.now needed }
    ensures chosen { work.new.chosen ≡ chosen_of g.now.vertices g.now.ends offered.now.touches meters prices.now }
    ensures longest { length (pairs_at work.new.pairs)
        ≡ rho_at g.now.vertices g.now.ends offered.now.touches (live_items g.now.ends offered.now.touches) }
    ensures standing { IsStanding g.now offered.now.touches work.new.pairs }
    ensures only_chosen { HavePairsOnly meters
        (chosen_of g.now.vertices g.now.ends offered.now.touches meters prices.now) work.new.pairs }
    ensures known { AreKnown g.now offered.now.touches (price_of meters prices.now) work.new.since }
    ensures same_sizes { work.new.sizes ≡ work.old.sizes }
{
    let _ = g.vertices();
    let _ = offered.count();
    let offer = Offer {
        graph: g,
        items: offered,
        meters,
        prices,
    };
    work.lack = place_in(
        &offer,
        needed,
        &mut work.choosing,
        &mut work.measuring,
        &mut work.laying,
        steps,
    );
}

/// The cheapest candidates that, with the meters, do as much as all that is offered, and their layers. Where this is just
/// the needed number, none complete the meters for less, and the layers prove it; where it is below, the answer is the
/// bound that shows this. `offered` are so many meters and then the candidates, whose prices these are. No memory is
/// taken.
pub fn place<'a, L: Ledger>(
    g: &Graph,
    offered: &Meters,
    meters: u32,
    prices: &[u64],
    needed: u32,
    work: &'a mut PlaceWork,
    steps: &mut Steps<L>,
) -> Placement<'a>
    requires in_range { AreInRange g.now offered.now.touches }
    requires items { length offered.now.touches ≡ meters + length prices.now }
    requires few { length prices.now ≤ most_candidates }
    requires cheap { All (λ p. p ≤ most_price) prices.now }
    requires room { HasRoomFor work.old.sizes g.now offered.now.touches }
    ensures placed { placed_of result
        ≡ placement_of g.now.vertices g.now.ends offered.now.touches meters prices.now needed }
{
    find_placement(g, offered, meters, prices, needed, work, steps);
    work.found()
}
