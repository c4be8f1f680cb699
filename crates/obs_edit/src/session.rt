//! A session.
ghost use Rattle.std.specs.Prelude.{◌≡◌, ◌+◌, ◌<◌, ◌↔◌, true, Err, IfErr, IfOk, OnErr, IsTrue, length};
ghost use Rattle.obs_case.specs.Tables.{IsValid};
ghost use Rattle.obs_assign.specs.inner.Assignment.{pairs};
ghost use Rattle.obs_network.specs.Network.{case_component_count, case_needed, network_of};
ghost use Rattle.obs_network.specs.Observable.{IsObservable, IsRankOf, case_rank, is_energised_component};
ghost use Rattle.obs_repair.specs.inner.Edits.{HasRow};
ghost use Rattle.obs_edit.specs.inner.Edits.{IsEdited};
ghost use Rattle.obs_repair.specs.Lines.{meant_of};
ghost use Rattle.obs_edit.specs.inner.Lines.{IsDone, searches_of};
ghost use Rattle.obs_kept.specs.inner.Kept.{AreLongest};

use crate::answer_room::{Answers, make_answers};
use crate::applied::{Applied, Done};
use crate::hand::AtHand;
use crate::placing::Placing;
use obs_assign::{Assignment, Steps};
use obs_case::Case;
use obs_network::{Network, Present};
use obs_repair::{
    Edit, Held, Meant, NoMemory, Refusal, fill, has_enough, is_set, make_held, meant, repair,
    set_flag,
};
use std::alloc::Global;
use std::marker::Model;
use std::sync::ledger::Ledger;

/// The rank of a case and its needed number: it is observable where the two are equal.
#[derive(Clone, Copy)]
pub struct State {
    pub rank: u32,
    pub needed: u32,
}

/// A case, its network, a longest assignment of its live meters, and the answers that are at hand. All memory is taken
/// when it begins.
///
/// Each answer is found by a call `find_..`, which lends nothing, and seen by a call on `&self`.
/// What was found stays at hand.
pub struct Session {
    pub(crate) case: Case,
    pub(crate) network: Network,
    pub(crate) held: Held,
    pub(crate) answers: Answers,
    pub(crate) offered: bool,
    pub(crate) placing: Placing,
}

impl Model for Session {
    ghost use Rattle.std.specs.Prelude.{◌≡◌, take};
    ghost use Rattle.obs_case.specs.Tables.{IsValid};
    ghost use Rattle.obs_network.specs.Network.{network_of};
    ghost use Rattle.obs_network.specs.Observable.{case_rank};
    ghost use Rattle.obs_repair.specs.inner.Parts.{BoundsWhereKnown, HasRoomForParts};
    ghost use Rattle.obs_kept.specs.inner.Kept.{AreLongest};
    ghost use Rattle.obs_repair.specs.inner.Kept.{HasRoom};
    ghost use Rattle.obs_edit.specs.Sessions.{Session};
    ghost use Rattle.obs_edit.specs.inner.Sessions.{AreAnswers, HasRoomToAnswer, IsPlacing};

    ghost Value = { Session };

    ghost view = { λ s. record {
      tables = s.case;
      offered = s.offered;
      pairs = s.held.pairs;
      at_hand = s.answers.hand;
    } };

    ghost invariant = { λ s. record {
      valid : IsValid s.case;
      network : s.network ≡ network_of s.case;
      longest : AreLongest s.case s.held.pairs;
      room : HasRoom s.case s.held.pairs s.held.work;
      parts_room : HasRoomForParts s.case s.held.parts;
      bounded : BoundsWhereKnown s.network s.held.parts (case_rank s.case);
      answer_room : HasRoomToAnswer s.case s.answers.marks.items s.answers.critical
          s.answers.islands s.answers.inside.items s.answers.measured.listed;
      answers : AreAnswers s.case s.held.pairs s.answers.marks.items s.answers.critical s.answers.islands
          (record {
            inside = take s.answers.measured.listed s.answers.inside.items;
            rank = s.answers.measured.rank;
            outside = s.answers.measured.outside;
          })
          s.answers.hand;
      placing : IsPlacing s.case s.offered s.answers.hand.placed s.placing;
    } };
}

// Written out: so a caller's proof sees one call, and not the drop of each field.
impl Drop for Session {
    fn drop(self) {
        let Session {
            case: _,
            network: _,
            held: _,
            answers: _,
            offered: _,
            placing: _,
        } = self;
    }
}

impl Session {
    /// Begins a session with a case. `offered` says whether candidates were given.
    /// After want of memory the case is dropped.
    pub fn begin<L: Ledger>(
        alloc: Global,
        case: Case,
        offered: bool,
        steps: &mut Steps<L>,
    ) -> Result<Session, NoMemory>
        ensures case { IfOk result (λ s. s.tables ≡ case) }
        ensures offered { IfOk result (λ s. s.offered ≡ offered) }
        ensures longest { IfOk result (λ s. AreLongest case s.pairs) }
    {
        let Ok(placing) = Placing::make(alloc, &case, offered) else {
            return Err(NoMemory);
        };
        let Ok(network) = Network::make(alloc, &case) else {
            return Err(NoMemory);
        };
        let Ok(mut held) = make_held(alloc, &case) else {
            return Err(NoMemory);
        };
        let Ok(answers) = make_answers(alloc, &case) else {
            return Err(NoMemory);
        };
        let present = Present {
            case: &case,
            network: &network,
        };
        fill(&present, &mut held.pairs, &mut held.work, steps);
        Ok(Session {
            case,
            network,
            held,
            answers,
            offered,
            placing,
        })
    }

    /// The present case.
    pub fn present(&self) -> &Case
        ensures case { result.now ≡ self.now.tables }
        ensures valid { IsValid self.now.tables }
    {
        &self.case
    }

    /// The network of the present case.
    pub fn network(&self) -> &Network
        ensures network { result.now ≡ network_of self.now.tables }
        ensures valid { IsValid self.now.tables }
    {
        &self.network
    }

    /// The kept pairs: a longest assignment over the network's graph and meters, with nothing frozen.
    pub fn pairs(&self) -> &Assignment
        ensures pairs { result.now ≡ self.now.pairs }
        ensures longest { AreLongest self.now.tables self.now.pairs }
    {
        &self.held.pairs
    }

    /// Whether candidates were given when the session began.
    pub fn offered(&self) -> bool
        ensures offered { result ≡ self.now.offered }
    {
        self.offered
    }

    /// The rank and the needed number of the present case.
    pub fn state(&self) -> State
        ensures length { result.rank ≡ length (pairs self.now.pairs) }
        ensures rank { IsRankOf self.now.tables result.rank }
        ensures computed { result.rank ≡ case_rank self.now.tables }
        ensures needed { result.needed ≡ case_needed self.now.tables }
    {
        State {
            rank: self.held.pairs.length(),
            needed: self.network.needed(),
        }
    }

    /// Whether an energised component of the present case is observable.
    pub fn observable(&self, c: u32) -> bool
        requires component { c < case_component_count self.now.tables }
        requires energised { is_energised_component self.now.tables c ≡ true }
        ensures observable { IsTrue result ↔ IsObservable self.now.tables c }
    {
        let present = Present {
            case: &self.case,
            network: &self.network,
        };
        has_enough(&present, &self.held.pairs, c)
    }

    // What is said of an edit that took so many searches.
    fn applied(&self, searches: u32) -> Applied
        ensures rank { IsRankOf self.now.tables result.rank }
        ensures computed { result.rank ≡ case_rank self.now.tables }
        ensures length { result.rank ≡ length (pairs self.now.pairs) }
        ensures needed { result.needed ≡ case_needed self.now.tables }
        ensures searches { result.searches ≡ searches }
    {
        let state = self.state();
        Applied {
            rank: state.rank,
            needed: state.needed,
            searches,
        }
    }

    /// Sets the one flag, which can't be refused, and repairs the pairs. An edit that sets a flag to what it is leaves
    /// the session as it was, with all that is at hand; any other takes away what is at hand, and nothing is found
    /// before it is asked for. No memory is taken.
    pub fn set<L: Ledger>(&mut self, edit: Edit, steps: &mut Steps<L>) -> Applied
        requires row { HasRow self.old.tables edit }
        // The one flag is set, the pairs are repaired within their bounds, and the rank and the needed number are those
        // of the case afterwards.
        ensures edited { IsEdited self.old edit self.new result }
        ensures ticks { steps.new ≡ steps.old + result.searches }
    {
        if is_set(&self.case, edit) {
            return self.applied(0);
        }
        set_flag(&mut self.case, edit);
        self.answers.hand = AtHand::nothing();
        let searches = repair(
            &self.case,
            edit,
            &mut self.network,
            &mut self.held.pairs,
            &mut self.held.work,
            &mut self.held.parts,
            steps,
        );
        self.applied(searches)
    }

    /// Does what a line says. An edit is done as by `set`; an ask changes nothing, and is answered by the calls below.
    /// A line that is refused leaves the session as it was. The line has no line end.
    pub fn apply<L: Ledger>(&mut self, line: &[u8], steps: &mut Steps<L>) -> Result<Done, Refusal>
        ensures refused { IfErr result (λ why. meant_of self.old.tables self.old.offered line.now ≡ Err why) }
        ensures unchanged { OnErr result (self.new ≡ self.old) }
        ensures done { IfOk result (λ done. IsDone self.old line.now self.new done) }
        ensures ticks { steps.new ≡ steps.old + searches_of result }
    {
        match meant(self.present(), self.offered(), line) {
            Ok(Meant::Edits(edit)) => Ok(Done::Edited(self.set(edit, steps))),
            Ok(Meant::Asks(ask)) => Ok(Done::Asked(ask)),
            Err(why) => Err(why),
        }
    }
}
