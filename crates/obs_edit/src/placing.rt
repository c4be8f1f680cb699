// The placement that was found last.
ghost use Rattle.std.specs.Prelude.{◌≡◌, ◌+◌, IfOk, length};
ghost use Rattle.obs_case.specs.Tables.{prices_of};
ghost use Rattle.obs_meter.specs.inner.Sizes.{HasRoomFor};
ghost use Rattle.obs_meter.specs.inner.Touches.{AreInRange};
ghost use Rattle.obs_assign.specs.inner.Assignment.{StandsOver, pairs as pairs_at};
ghost use Rattle.obs_placement.specs.Placed.{placement_of};
ghost use Rattle.obs_placement.specs.inner.Placed.{placed_of};
ghost use Rattle.obs_network.specs.Network.{case_offered, network_of};
ghost use Rattle.obs_edit.specs.Planned.{case_placed_pairs, case_placement, placed_pairs};
ghost use Rattle.obs_edit.specs.inner.Planned.{new_planning, offered_room, planning_of};

use crate::pairing::Pairing;
use obs_assign::{Assignment, Steps};
use obs_case::{Candidate, Case};
use obs_graph::Graph;
use obs_meter::Meters;
use obs_network::{Present, position_count, vertex_room};
use obs_placement::{PlaceWork, Placement, find_placement};
use obs_repair::NoMemory;
use std::alloc::Global;
use std::marker::Model;
use std::sync::ledger::Ledger;

/// Room for a placement and its pairs, the prices of the candidates, and what was found last.
pub(crate) struct Placing {
    // the price of each candidate
    prices: Vec<u64>,
    // what the placement is found in
    work: PlaceWork,
    // what its pairs are found in
    paired: Pairing,
}

impl Model for Placing {
    ghost use Rattle.std.specs.Prelude.{◌≡◌, ◌≤◌, All, length};
    ghost use Rattle.obs_placement.specs.inner.Limits.{most_candidates, most_price};
    ghost use Rattle.obs_edit.specs.inner.Planned.{Planning};

    ghost Value = { Planning };

    ghost view = { λ p. record {
      placed = p.work.placed;
      pairs = p.paired.pairs;
      prices = p.prices.items;
      sizes = p.work.sizes;
    } };

    ghost invariant = { λ p. record {
      few : length p.prices.items ≤ most_candidates;
      cheap : All (λ price. price ≤ most_price) p.prices.items;
      paired : p.paired.sizes ≡ p.work.sizes;
    } };
}

// Written out: so a caller's proof sees one call, and not the drop of each field.
impl Drop for Placing {
    fn drop(self) {
        let Placing {
            prices: _,
            work: _,
            paired: _,
        } = self;
    }
}

/// Writes what candidates cost.
fn write_prices(candidates: &[Candidate], prices: &mut [u64])
    requires one_each { length candidates.now ≡ length prices.old }
    ensures prices { prices.new ≡ prices_of candidates.now }
{
    for k in 0..candidates.len() {
        prices[k] = candidates[k].price;
    }
}

/// What candidates cost.
fn list_prices(alloc: Global, candidates: &[Candidate]) -> Result<Vec<u64>, NoMemory>
    ensures prices { IfOk result (λ prices. prices.items ≡ prices_of candidates.now) }
{
    let Ok(mut prices) = vec![in alloc; 0; candidates.len()] else {
        return Err(NoMemory);
    };
    write_prices(candidates, &mut prices);
    Ok(prices)
}

impl Placing {
    // Room for a placement of so many items, positions and vertices, with the prices of this case.
    fn with_room(
        alloc: Global,
        case: &Case,
        items: u32,
        positions: u32,
        vertices: u32,
    ) -> Result<Placing, NoMemory>
        ensures empty { IfOk result (λ p. p ≡ planning_of
            (record { meters = items; branches = positions; vertices = vertices }) (prices_of case.now.candidates)) }
    {
        let Ok(prices) = list_prices(alloc, case.candidates()) else {
            return Err(NoMemory);
        };
        let Ok(work) = PlaceWork::make(alloc, items, positions, vertices) else {
            return Err(NoMemory);
        };
        let Ok(paired) = Pairing::make(alloc, items, positions, vertices) else {
            return Err(NoMemory);
        };
        Ok(Placing {
            prices,
            work,
            paired,
        })
    }

    /// Room for the placement of every case with the rows of this one and the same prices, where candidates were given.
    pub(crate) fn make(alloc: Global, case: &Case, offered: bool) -> Result<Placing, NoMemory>
        ensures empty { IfOk result (λ p. p ≡ new_planning offered case.now) }
    {
        if !offered {
            return Placing::with_room(alloc, case, 0, 0, 0);
        }
        let items = case.meters().len() as u32 + case.candidates().len() as u32;
        Placing::with_room(alloc, case, items, position_count(case), vertex_room(case))
    }

    /// Finds the placement of so many meters and then the candidates, and its pairs. No memory is taken.
    pub(crate) fn find<L: Ledger>(
        &mut self,
        g: &Graph,
        offered: &Meters,
        meters: u32,
        needed: u32,
        steps: &mut Steps<L>,
    )
        requires in_range { AreInRange g.now offered.now.touches }
        requires items { length offered.now.touches ≡ meters + length self.old.prices }
        requires room { HasRoomFor self.old.sizes g.now offered.now.touches }
        ensures placed { self.new.placed ≡
            placement_of g.now.vertices g.now.ends offered.now.touches meters self.old.prices needed }
        ensures pairs { pairs_at self.new.pairs ≡
            placed_pairs g.now.vertices g.now.ends offered.now.touches meters self.old.prices needed }
        ensures stands { StandsOver self.new.pairs g.now offered.now.touches }
        ensures same_prices { self.new.prices ≡ self.old.prices }
        ensures same_sizes { self.new.sizes ≡ self.old.sizes }
    {
        find_placement(
            g,
            offered,
            meters,
            &self.prices,
            needed,
            &mut self.work,
            steps,
        );
        self.paired.pair(g, offered, meters, &self.work, steps);
    }

    /// The placement that was found last.
    pub(crate) fn found(&self) -> Placement<'_>
        ensures placed { placed_of result ≡ self.now.placed }
    {
        self.work.found()
    }

    /// Its pairs.
    pub(crate) fn pairs(&self) -> &Assignment
        ensures pairs { result.now ≡ self.now.pairs }
    {
        self.paired.found()
    }
}

/// Finds the placement of a case, and its pairs. No memory is taken.
pub(crate) fn place<L: Ledger>(present: &Present<'_>, placing: &mut Placing, steps: &mut Steps<L>)
    requires prices { placing.old.prices ≡ prices_of present.now.candidates }
    requires sizes { placing.old.sizes ≡ offered_room present.now }
    ensures placed { placing.new.placed ≡ case_placement present.now }
    ensures pairs { pairs_at placing.new.pairs ≡ case_placed_pairs present.now }
    ensures stands { StandsOver placing.new.pairs (network_of present.now).graph (case_offered present.now) }
    ensures same_prices { placing.new.prices ≡ placing.old.prices }
    ensures same_sizes { placing.new.sizes ≡ placing.old.sizes }
{
    let network = present.network();
    let meters = present.case().meters().len() as u32;
    placing.find(
        present.graph(),
        network.offered(),
        meters,
        network.needed(),
        steps,
    );
}
