// The network after the flag of one branch or of one meter was set.
ghost use Rattle.std.specs.Prelude.{◌≡◌, ◌<◌, IsTrue, None, length, slice_index_or, take};
ghost use Rattle.obs_network.specs.inner.Edited.{AreSameBut, ChangesAlone, IsBeforeBranch, IsBeforeMeter};
ghost use Rattle.obs_network.specs.Network.{case_live, network_of};

use super::Network;
use crate::alone::{change_row, changes_alone, live_ends_at};
use crate::following::{Change, follow_items};
use crate::rebuild::{Known, change_item};
use obs_case::Case;

impl Network {
    // Whether nothing but a branch changes, of which the flag was set.
    fn is_alone(&mut self, case: &Case, at: u32) -> bool
        requires branch { at < length case.now.branches }
        requires before { IsBeforeBranch self.old at case.now }
        ensures same { self.new ≡ self.old }
        ensures alone { IsTrue result → ChangesAlone self.old.components
            (take (length case.now.branches) self.old.graph.ends) at (slice_index_or (case_live case.now) at None) }
    {
        let ends = live_ends_at(case, at, &self.buses);
        let rows = case.branches().len() as u32;
        changes_alone(
            &self.components,
            &self.graph,
            rows,
            at,
            ends,
            &mut self.sides,
        )
    }

    // Makes a branch that of the case, and the items, where nothing else changes.
    fn change_branch(&mut self, case: &Case, at: u32)
        requires branch { at < length case.now.branches }
        requires before { IsBeforeBranch self.old at case.now }
        requires alone { ChangesAlone self.old.components (take (length case.now.branches) self.old.graph.ends) at
            (slice_index_or (case_live case.now) at None) }
        ensures whole { self.new ≡ network_of case.now }
        ensures alone { AreSameBut at self.old self.new }
    {
        let rows = case.branches().len() as u32;
        let before = self.graph.ends(at);
        let after = live_ends_at(case, at, &self.buses);
        change_row(at, after, &mut self.kept, &mut self.graph);
        follow_items(
            &self.components,
            &self.graph,
            rows,
            Change { at, before, after },
            &mut self.meters,
            &mut self.offered,
            &mut self.live_meters,
        );
    }

    /// Makes the network that of the case after the flag of one branch was set, where it was that of the case before.
    /// Answers true only where nothing but this branch changed. Takes no memory.
    pub fn refresh_branch(&mut self, case: &Case, at: u32) -> bool
        requires branch { at < length case.now.branches }
        requires before { IsBeforeBranch self.old at case.now }
        ensures whole { self.new ≡ network_of case.now }
        ensures alone { IsTrue result → AreSameBut at self.old self.new }
    {
        let alone = self.is_alone(case, at);
        if alone {
            self.change_branch(case, at);
        } else {
            self.remake(case, Known::TheBuses);
        }
        alone
    }

    /// Makes the network that of the case after the flag of one meter was set, where it was that of the case before.
    /// That meter moves from one list of live meters to another, and nothing else is made anew. Takes no memory.
    pub fn refresh_meter(&mut self, case: &Case, m: u32)
        requires meter { m < length case.now.meters }
        requires before { IsBeforeMeter self.old m case.now }
        ensures whole { self.new ≡ network_of case.now }
    {
        change_item(
            case,
            &self.buses,
            &self.graph,
            m,
            &mut self.meters,
            &mut self.offered,
        );
        let touch = self.meters.kind(m);
        self.live_meters
            .set(&self.components, &self.graph, m, touch);
    }
}
