//! The asks of a session:
//! each finds its answer, where it isn't at hand, and lends it with the present case and its network.
//! When that is given back, the session is as after the call that finds it.
ghost use Rattle.std.specs.Borrow.{sem};
ghost use Rattle.std.specs.Prelude.{◌≡◌, ◌<◌, true, Some};
ghost use Rattle.obs_assign.specs.inner.Assignment.{StandsOver, pairs};
ghost use Rattle.obs_exchange.specs.inner.Laws.{IsThawed};
ghost use Rattle.obs_placement.specs.inner.Placed.{placed_of};
ghost use Rattle.obs_network.specs.Network.{case_component_count, case_meters, case_need, case_offered, network_of};
ghost use Rattle.obs_network.specs.Observable.{IsObservable, is_energised_component};
ghost use Rattle.obs_repair.specs.Bounds.{bound_meters, bound_outside, bound_rank, case_critical_meters};
ghost use Rattle.obs_edit.specs.Answers.{case_first_pairs, case_islands};
ghost use Rattle.obs_edit.specs.Planned.{case_placed_pairs, case_placement};

use crate::session::Session;
use obs_assign::{Assignment, Steps};
use obs_case::Case;
use obs_network::Network;
use obs_placement::Placement;
use obs_rankcut::Bound;
use std::sync::ledger::Ledger;

/// An answer of a session: the present case, its network, and what was found.
#[derive(Drop)]
pub struct Seen<'a, T> {
    pub case: &'a Case,
    pub network: &'a Network,
    pub found: T,
}

/// A placement and its pairs: of a plan the first assignment of the meters and then the chosen candidates, numbered as
/// in what is offered, and of a shortfall none.
#[derive(Clone, Copy)]
pub struct Placed<'a> {
    pub placement: Placement<'a>,
    pub pairs: &'a Assignment,
}

impl Session {
    ghost use Rattle.obs_edit.specs.inner.Lending.{SessionGivenBack};

    /// The first assignment of the present case's meters, with nothing frozen.
    pub fn first_pairs<L: Ledger>(&mut self, steps: &mut Steps<L>) -> Seen<'_, &Assignment>
        ensures case { result.case.now ≡ self.old.tables }
        ensures network { result.network.now ≡ network_of self.old.tables }
        ensures found { pairs result.found.now ≡ case_first_pairs self.old.tables }
        ensures stands { StandsOver result.found.now (network_of self.old.tables).graph (case_meters self.old.tables) }
        ensures thawed { IsThawed result.found.now }
        ensures* given_back { sem 𝓛 (SessionGivenBack self.entry (λ s. (s.tables ≡ self.old.tables) × (s.offered ≡ self.old.offered)
            × (s.at_hand ≡ record self.old.at_hand { first = true }))) }
    {
        self.find_first(steps);
        let session = &*self;
        Seen {
            case: session.present(),
            network: session.network(),
            found: session.found_pairs(),
        }
    }

    /// The bound of an energised component of the present case that isn't observable: its live meters that aren't
    /// critical, the rank of what they touch, the number of its other live meters, and its need.
    pub fn bound<L: Ledger>(&mut self, c: u32, steps: &mut Steps<L>) -> Seen<'_, Bound<'_>>
        requires component { c < case_component_count self.old.tables }
        requires energised { is_energised_component self.old.tables c ≡ true }
        requires short { IsObservable self.old.tables c → ⊥ }
        ensures case { result.case.now ≡ self.old.tables }
        ensures network { result.network.now ≡ network_of self.old.tables }
        ensures inside { result.found.inside.now ≡ bound_meters self.old.tables c }
        ensures rank { result.found.rank ≡ bound_rank self.old.tables c }
        ensures outside { result.found.outside ≡ bound_outside self.old.tables c }
        ensures needed { result.found.needed ≡ case_need self.old.tables c }
        ensures* given_back { sem 𝓛 (SessionGivenBack self.entry (λ s. (s.tables ≡ self.old.tables) × (s.offered ≡ self.old.offered)
            × (s.pairs ≡ self.old.pairs) × (s.at_hand ≡ record self.old.at_hand { critical = true; bound = Some c }))) }
    {
        self.find_critical(steps);
        self.find_bound(c);
        let session = &*self;
        Seen {
            case: session.present(),
            network: session.network(),
            found: session.found_bound(c),
        }
    }

    /// The critical meters of the present case, rising.
    pub fn critical<L: Ledger>(&mut self, steps: &mut Steps<L>) -> Seen<'_, &[u32]>
        ensures case { result.case.now ≡ self.old.tables }
        ensures network { result.network.now ≡ network_of self.old.tables }
        ensures found { result.found.now ≡ case_critical_meters self.old.tables }
        ensures* given_back { sem 𝓛 (SessionGivenBack self.entry (λ s. (s.tables ≡ self.old.tables) × (s.offered ≡ self.old.offered)
            × (s.pairs ≡ self.old.pairs) × (s.at_hand ≡ record self.old.at_hand { critical = true }))) }
    {
        self.find_critical(steps);
        let session = &*self;
        Seen {
            case: session.present(),
            network: session.network(),
            found: session.found_critical(),
        }
    }

    /// Of each vertex of the present case the first vertex of its island; of a bus it is a bus.
    pub fn islands<L: Ledger>(&mut self, steps: &mut Steps<L>) -> Seen<'_, &[u32]>
        ensures case { result.case.now ≡ self.old.tables }
        ensures network { result.network.now ≡ network_of self.old.tables }
        ensures found { result.found.now ≡ case_islands self.old.tables }
        ensures* given_back { sem 𝓛 (SessionGivenBack self.entry (λ s. (s.tables ≡ self.old.tables) × (s.offered ≡ self.old.offered)
            × (s.pairs ≡ self.old.pairs) × (s.at_hand ≡ record self.old.at_hand { islands = true }))) }
    {
        self.find_islands(steps);
        let session = &*self;
        Seen {
            case: session.present(),
            network: session.network(),
            found: session.found_islands(),
        }
    }

    /// The cheapest candidates that complete the meters of the present case, with the pairs of the plan, or the bound
    /// that shows that none do. The session was begun with candidates.
    pub fn place<L: Ledger>(&mut self, steps: &mut Steps<L>) -> Seen<'_, Placed<'_>>
        requires candidates { self.old.offered ≡ true }
        ensures case { result.case.now ≡ self.old.tables }
        ensures network { result.network.now ≡ network_of self.old.tables }
        ensures placement { placed_of result.found.placement ≡ case_placement self.old.tables }
        ensures pairs { pairs result.found.pairs.now ≡ case_placed_pairs self.old.tables }
        ensures stands { StandsOver result.found.pairs.now (network_of self.old.tables).graph
            (case_offered self.old.tables) }
        ensures* given_back { sem 𝓛 (SessionGivenBack self.entry (λ s. (s.tables ≡ self.old.tables) × (s.offered ≡ self.old.offered)
            × (s.pairs ≡ self.old.pairs) × (s.at_hand ≡ record self.old.at_hand { placed = true }))) }
    {
        self.find_placement(steps);
        let session = &*self;
        Seen {
            case: session.present(),
            network: session.network(),
            found: Placed {
                placement: session.found_placement(),
                pairs: session.found_plan_pairs(),
            },
        }
    }
}
