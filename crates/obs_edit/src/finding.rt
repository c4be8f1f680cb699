//! The answers of a session: each is found by a call that lends nothing, and seen by another.
ghost use Rattle.std.specs.Prelude.{◌≡◌, ◌<◌, true, Some};
ghost use Rattle.obs_assign.specs.inner.Assignment.{StandsOver, pairs};
ghost use Rattle.obs_exchange.specs.inner.Laws.{IsThawed};
ghost use Rattle.obs_placement.specs.inner.Placed.{placed_of};
ghost use Rattle.obs_network.specs.Network.{case_component_count, case_meters, case_need, case_offered, network_of};
ghost use Rattle.obs_repair.specs.Bounds.{bound_meters, bound_outside, bound_rank, case_critical_meters};
ghost use Rattle.obs_edit.specs.Answers.{case_first_pairs, case_islands};
ghost use Rattle.obs_edit.specs.Planned.{case_placed_pairs, case_placement};

use crate::asks::{find_first, find_islands};
use crate::placing::place;
use crate::session::Session;
use obs_assign::{Assignment, Steps};
use obs_network::Present;
use obs_placement::Placement;
use obs_rankcut::Bound;
use obs_repair::{find_bound, find_critical};
use std::sync::ledger::Ledger;

impl Session {
    /// Makes the kept pairs the first assignment. `found_pairs` then lends it.
    pub fn find_first<L: Ledger>(&mut self, steps: &mut Steps<L>)
        ensures tables { self.new.tables ≡ self.old.tables }
        ensures offered { self.new.offered ≡ self.old.offered }
        ensures at_hand { self.new.at_hand ≡ record self.old.at_hand { first = true } }
    {
        if self.answers.hand.first {
            return;
        }
        let present = Present {
            case: &self.case,
            network: &self.network,
        };
        find_first(&present, &mut self.held.pairs, &mut self.held.work, steps);
        self.answers.hand.first = true;
    }

    /// Finds the critical meters, and marks the other live ones. `found_critical` then lends them.
    pub fn find_critical<L: Ledger>(&mut self, steps: &mut Steps<L>)
        ensures tables { self.new.tables ≡ self.old.tables }
        ensures offered { self.new.offered ≡ self.old.offered }
        ensures pairs { self.new.pairs ≡ self.old.pairs }
        ensures at_hand { self.new.at_hand ≡ record self.old.at_hand { critical = true } }
    {
        if self.answers.hand.critical {
            return;
        }
        let present = Present {
            case: &self.case,
            network: &self.network,
        };
        find_critical(
            &present,
            &mut self.held.pairs,
            &mut self.held.work,
            &mut self.answers.marks,
            &mut self.answers.critical,
            steps,
        );
        self.answers.hand.critical = true;
    }

    /// Finds the islands. `found_islands` then lends them.
    pub fn find_islands<L: Ledger>(&mut self, steps: &mut Steps<L>)
        ensures tables { self.new.tables ≡ self.old.tables }
        ensures offered { self.new.offered ≡ self.old.offered }
        ensures pairs { self.new.pairs ≡ self.old.pairs }
        ensures at_hand { self.new.at_hand ≡ record self.old.at_hand { islands = true } }
    {
        if self.answers.hand.islands {
            return;
        }
        let present = Present {
            case: &self.case,
            network: &self.network,
        };
        let _ = steps;
        find_islands(&present, &self.held.pairs, &mut self.answers.islands);
        self.answers.hand.islands = true;
    }

    /// Measures the bound of a component, where the critical meters are at hand. `found_bound` then lends it. This goes
    /// through the component's own meters alone.
    pub fn find_bound(&mut self, c: u32)
        requires component { c < case_component_count self.old.tables }
        requires critical { self.old.at_hand.critical ≡ true }
        ensures tables { self.new.tables ≡ self.old.tables }
        ensures offered { self.new.offered ≡ self.old.offered }
        ensures pairs { self.new.pairs ≡ self.old.pairs }
        ensures at_hand { self.new.at_hand ≡ record self.old.at_hand { bound = Some c } }
    {
        let present = Present {
            case: &self.case,
            network: &self.network,
        };
        self.answers.measured = find_bound(
            &present,
            &self.held.pairs,
            &self.answers.marks,
            &mut self.answers.inside,
            c,
        );
        self.answers.hand.bound = Some(c);
    }

    /// The first assignment of the present case's meters, where it is at hand.
    pub fn found_pairs(&self) -> &Assignment
        requires first { self.now.at_hand.first ≡ true }
        ensures pairs { result.now ≡ self.now.pairs }
        ensures first { pairs result.now ≡ case_first_pairs self.now.tables }
        ensures stands { StandsOver result.now (network_of self.now.tables).graph (case_meters self.now.tables) }
        ensures thawed { IsThawed result.now }
    {
        &self.held.pairs
    }

    /// The critical meters of the present case, rising, where they are at hand.
    pub fn found_critical(&self) -> &[u32]
        requires critical { self.now.at_hand.critical ≡ true }
        ensures critical { result.now ≡ case_critical_meters self.now.tables }
    {
        self.answers.critical.list()
    }

    /// Of each vertex of the present case the first vertex of its island, where the islands are at hand. The buses come
    /// first, so that of a bus is a bus.
    pub fn found_islands(&self) -> &[u32]
        requires islands { self.now.at_hand.islands ≡ true }
        ensures islands { result.now ≡ case_islands self.now.tables }
    {
        self.answers.islands.firsts()
    }

    /// The bound of a component of the present case, where it is at hand: its live meters that aren't critical, the
    /// rank of what they touch, the number of its other live meters, and its need.
    pub fn found_bound(&self, c: u32) -> Bound<'_>
        requires component { c < case_component_count self.now.tables }
        requires bound { self.now.at_hand.bound ≡ Some c }
        ensures inside { result.inside.now ≡ bound_meters self.now.tables c }
        ensures rank { result.rank ≡ bound_rank self.now.tables c }
        ensures outside { result.outside ≡ bound_outside self.now.tables c }
        ensures needed { result.needed ≡ case_need self.now.tables c }
    {
        Bound {
            inside: &self.answers.inside[..self.answers.measured.listed],
            rank: self.answers.measured.rank,
            outside: self.answers.measured.outside,
            needed: self.network.need(c),
        }
    }

    /// Finds the placement of the present case, and its pairs. `found_placement` and `found_plan_pairs` then lend them.
    pub fn find_placement<L: Ledger>(&mut self, steps: &mut Steps<L>)
        requires candidates { self.old.offered ≡ true }
        ensures tables { self.new.tables ≡ self.old.tables }
        ensures offered { self.new.offered ≡ self.old.offered }
        ensures pairs { self.new.pairs ≡ self.old.pairs }
        ensures at_hand { self.new.at_hand ≡ record self.old.at_hand { placed = true } }
    {
        if self.answers.hand.placed {
            return;
        }
        let present = Present {
            case: &self.case,
            network: &self.network,
        };
        place(&present, &mut self.placing, steps);
        self.answers.hand.placed = true;
    }

    /// The cheapest candidates that complete the meters of the present case, or the bound that shows that none do,
    /// where they are at hand.
    pub fn found_placement(&self) -> Placement<'_>
        requires placed { self.now.at_hand.placed ≡ true }
        ensures placed { placed_of result ≡ case_placement self.now.tables }
    {
        self.placing.found()
    }

    /// The pairs of the placement of the present case, where it is at hand: of a plan the first assignment of the
    /// meters and then the chosen candidates, numbered as in what is offered, and of a shortfall none.
    pub fn found_plan_pairs(&self) -> &Assignment
        requires placed { self.now.at_hand.placed ≡ true }
        ensures pairs { pairs result.now ≡ case_placed_pairs self.now.tables }
        ensures stands { StandsOver result.now (network_of self.now.tables).graph (case_offered self.now.tables) }
    {
        self.placing.pairs()
    }
}
