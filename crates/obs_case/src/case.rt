// The tables together.
ghost use Rattle.std.specs.Prelude.{◌≡◌, ◌≢◌, ◌<◌, ◌≤◌, length, None, Err, IsTrue, IfOk, IfErr, OnOk, OnErr};
ghost use Rattle.obs_text.specs.Names.{is_name};
ghost use Rattle.obs_case.specs.Adds.{branch_of, candidate_of, meter_of, switch_of, with_branch, with_candidate, with_meter, with_node, with_switch};
ghost use Rattle.obs_case.specs.inner.Adds.{Refuses, branch_fault, candidate_fault, meter_fault, node_fault, node_of, place_fault, switch_fault};
ghost use Rattle.obs_case.specs.Flags.{with_branch_inservice, with_closed, with_meter_inservice};
ghost use Rattle.obs_case.specs.inner.Flags.{with_absolute};
ghost use Rattle.obs_case.specs.Items.{is_angle, is_angle_kind};
ghost use Rattle.obs_case.specs.Tables.{IsValid, branch_names, candidate_names, meter_names, most_price, most_rows, no_rows_within, node_names, place_names, place_of, position_of, switch_names};
ghost use Rattle.obs_case.specs.inner.Tables.{no_rows};

use crate::limits::USUAL_ROWS;
use crate::name::Name;
use crate::rows::{Branch, Candidate, Kind, Meter, Node, Switch};
use crate::table::{AddFault, FoundPlace, add, find, find_ends, find_place, let_go, put};
use indexmap::IndexSet;
use std::alloc::Global;
use std::marker::Model;

/// Five tables. Names are unique in each, positions are in range, a table has at most as many rows
/// as the case's limit and a price is at most 1,000,000,000. The limit is given when the case is
/// made, and stays as it is.
pub struct Case {
    nodes: IndexSet<Node>,
    switches: IndexSet<Switch>,
    branches: IndexSet<Branch>,
    meters: IndexSet<Meter>,
    candidates: IndexSet<Candidate>,
    most: u32,
}

impl Model for Case {
    ghost use Rattle.obs_case.specs.Tables.{IsValid, Tables};

    ghost Value = { Tables };

    ghost use Rattle.obs_case.specs.inner.Case.{tables_of};

    ghost view = { tables_of };

    ghost invariant = { λ c. IsValid (tables_of c) };
}

// Written out: so a caller's proof sees one call, and not the drop of each field.
impl Drop for Case {
    fn drop(self) {
        let Case {
            nodes,
            switches,
            branches,
            meters,
            candidates,
            most: _,
        } = self;
        let_go(nodes);
        let_go(switches);
        let_go(branches);
        let_go(meters);
        let_go(candidates);
    }
}

// Whether this is the kind of angle items.
fn is_angle_kind(kind: Kind) -> bool
    ensures angle { result ≡ is_angle_kind kind }
{
    matches!(kind, Kind::Angle)
}

impl Case {
    /// Five empty tables, of which each may have at most 20,000 rows. Takes no memory.
    pub fn new(alloc: Global) -> Case
        ensures empty { result ≡ no_rows }
    {
        Case::within(alloc, USUAL_ROWS as u32)
    }

    /// Five empty tables, of which each may have at most so many rows. Takes no memory.
    pub fn within(alloc: Global, most: u32) -> Case
        requires limit { most ≤ most_rows }
        ensures empty { result ≡ no_rows_within most }
    {
        Case {
            nodes: IndexSet::new(alloc),
            switches: IndexSet::new(alloc),
            branches: IndexSet::new(alloc),
            meters: IndexSet::new(alloc),
            candidates: IndexSet::new(alloc),
            most,
        }
    }

    /// The most rows that each table may have.
    pub fn most(&self) -> u32
        ensures limit { result ≡ self.now.most }
        ensures few { result ≤ most_rows }
    {
        self.most
    }

    pub fn nodes(&self) -> &[Node]
        ensures rows { result.now ≡ self.now.nodes }
        ensures valid { IsValid self.now }
    {
        self.nodes.as_slice()
    }

    pub fn switches(&self) -> &[Switch]
        ensures rows { result.now ≡ self.now.switches }
        ensures valid { IsValid self.now }
    {
        self.switches.as_slice()
    }

    pub fn branches(&self) -> &[Branch]
        ensures rows { result.now ≡ self.now.branches }
        ensures valid { IsValid self.now }
    {
        self.branches.as_slice()
    }

    pub fn meters(&self) -> &[Meter]
        ensures rows { result.now ≡ self.now.meters }
        ensures valid { IsValid self.now }
    {
        self.meters.as_slice()
    }

    pub fn candidates(&self) -> &[Candidate]
        ensures rows { result.now ≡ self.now.candidates }
        ensures valid { IsValid self.now }
    {
        self.candidates.as_slice()
    }

    /// The position of the node of that name; None where there is none.
    pub fn find_node(&self, name: &[u8]) -> Option<u32>
        ensures position { result ≡ position_of (node_names self.now) name.now }
    {
        find(&self.nodes, name)
    }

    /// The position of the switch of that name; None where there is none.
    pub fn find_switch(&self, name: &[u8]) -> Option<u32>
        ensures position { result ≡ position_of (switch_names self.now) name.now }
    {
        find(&self.switches, name)
    }

    /// The position of the branch of that name; None where there is none.
    pub fn find_branch(&self, name: &[u8]) -> Option<u32>
        ensures position { result ≡ position_of (branch_names self.now) name.now }
    {
        find(&self.branches, name)
    }

    /// The position of the meter of that name; None where there is none.
    pub fn find_meter(&self, name: &[u8]) -> Option<u32>
        ensures position { result ≡ position_of (meter_names self.now) name.now }
    {
        find(&self.meters, name)
    }

    /// The position of the candidate of that name; None where there is none.
    pub fn find_candidate(&self, name: &[u8]) -> Option<u32>
        ensures position { result ≡ position_of (candidate_names self.now) name.now }
    {
        find(&self.candidates, name)
    }

    /// Whether an item is a meter or candidate of the kind angle. Items are the meters and then the candidates,
    /// numbered in that order; a number behind them is that of none.
    pub fn is_angle(&self, m: u32) -> bool
        ensures angle { result ≡ is_angle self.now m }
    {
        let meters = self.meters();
        let m = m as usize;
        if m < meters.len() {
            return is_angle_kind(meters[m].kind);
        }
        match self.candidates().get(m - meters.len()) {
            Some(row) => is_angle_kind(row.kind),
            None => false,
        }
    }

    // What a meter of this kind stands at.
    fn find_place(&self, kind: Kind, at: &[u8]) -> FoundPlace
        ensures at { result.at ≡ place_of (place_names self.now kind) at.now }
        ensures fault { result.fault ≡ place_fault self.now kind at.now }
    {
        match kind {
            Kind::Flow => find_place(&self.branches, at),
            Kind::Injection | Kind::Zero | Kind::Angle => find_place(&self.nodes, at),
        }
    }

    /// Adds a node that isn't marked absolute, and answers its position.
    pub fn add_node(&mut self, name: &[u8], source: bool) -> Result<u32, AddFault>
        requires name { IsTrue (is_name name.now) }
        ensures accepted { OnOk result (node_fault self.old name.now ≡ None) }
        ensures refused { IfErr result (Refuses (node_fault self.old name.now)) }
        ensures never_unknown_node { result ≢ Err AddFault.UnknownNode }
        ensures never_unknown_place { result ≢ Err AddFault.UnknownPlace }
        ensures position { IfOk result (λ at. at ≡ length self.old.nodes) }
        ensures added { OnOk result (self.new ≡ with_node self.old (node_of name.now source)) }
        ensures unchanged { OnErr result (self.new ≡ self.old) }
    {
        let row = Node {
            name: Name::new(name),
            source,
            absolute: false,
        };
        add(&mut self.nodes, self.most, row, None)
    }

    /// Adds a switch between two nodes, which may be one, and answers its position.
    pub fn add_switch(
        &mut self,
        name: &[u8],
        from: &[u8],
        to: &[u8],
        closed: bool,
    ) -> Result<u32, AddFault>
        requires name { IsTrue (is_name name.now) }
        ensures accepted { OnOk result (switch_fault self.old name.now from.now to.now ≡ None) }
        ensures refused { IfErr result (Refuses (switch_fault self.old name.now from.now to.now)) }
        ensures never_unknown_place { result ≢ Err AddFault.UnknownPlace }
        ensures position { IfOk result (λ at. at ≡ length self.old.switches) }
        ensures added { OnOk result
            (self.new ≡ with_switch self.old (switch_of self.old name.now from.now to.now closed)) }
        ensures unchanged { OnErr result (self.new ≡ self.old) }
    {
        let ends = find_ends(&self.nodes, from, to);
        let row = Switch {
            name: Name::new(name),
            from: ends.from,
            to: ends.to,
            closed,
        };
        add(&mut self.switches, self.most, row, ends.fault)
    }

    /// Adds a branch between two nodes, which may be one, and answers its position.
    pub fn add_branch(
        &mut self,
        name: &[u8],
        from: &[u8],
        to: &[u8],
        inservice: bool,
    ) -> Result<u32, AddFault>
        requires name { IsTrue (is_name name.now) }
        ensures accepted { OnOk result (branch_fault self.old name.now from.now to.now ≡ None) }
        ensures refused { IfErr result (Refuses (branch_fault self.old name.now from.now to.now)) }
        ensures never_unknown_place { result ≢ Err AddFault.UnknownPlace }
        ensures position { IfOk result (λ at. at ≡ length self.old.branches) }
        ensures added { OnOk result
            (self.new ≡ with_branch self.old (branch_of self.old name.now from.now to.now inservice)) }
        ensures unchanged { OnErr result (self.new ≡ self.old) }
    {
        let ends = find_ends(&self.nodes, from, to);
        let row = Branch {
            name: Name::new(name),
            from: ends.from,
            to: ends.to,
            inservice,
        };
        add(&mut self.branches, self.most, row, ends.fault)
    }

    /// Adds a meter at a branch, where it measures a flow, and else at a node, and answers its position.
    pub fn add_meter(
        &mut self,
        name: &[u8],
        kind: Kind,
        at: &[u8],
        inservice: bool,
    ) -> Result<u32, AddFault>
        requires name { IsTrue (is_name name.now) }
        ensures accepted { OnOk result (meter_fault self.old name.now kind at.now ≡ None) }
        ensures refused { IfErr result (Refuses (meter_fault self.old name.now kind at.now)) }
        ensures never_unknown_node { result ≢ Err AddFault.UnknownNode }
        ensures position { IfOk result (λ at. at ≡ length self.old.meters) }
        ensures added { OnOk result
            (self.new ≡ with_meter self.old (meter_of self.old name.now kind at.now inservice)) }
        ensures unchanged { OnErr result (self.new ≡ self.old) }
    {
        let place = self.find_place(kind, at);
        let row = Meter {
            name: Name::new(name),
            kind,
            at: place.at,
            inservice,
        };
        add(&mut self.meters, self.most, row, place.fault)
    }

    /// Adds a candidate at a branch, where it measures a flow, and else at a node, and answers its position.
    pub fn add_candidate(
        &mut self,
        name: &[u8],
        kind: Kind,
        at: &[u8],
        price: u64,
    ) -> Result<u32, AddFault>
        requires name { IsTrue (is_name name.now) }
        requires price { price ≤ most_price }
        ensures accepted { OnOk result (candidate_fault self.old name.now kind at.now ≡ None) }
        ensures refused { IfErr result (Refuses (candidate_fault self.old name.now kind at.now)) }
        ensures never_unknown_node { result ≢ Err AddFault.UnknownNode }
        ensures position { IfOk result (λ at. at ≡ length self.old.candidates) }
        ensures added { OnOk result
            (self.new ≡ with_candidate self.old (candidate_of self.old name.now kind at.now price)) }
        ensures unchanged { OnErr result (self.new ≡ self.old) }
    {
        let place = self.find_place(kind, at);
        let row = Candidate {
            name: Name::new(name),
            kind,
            at: place.at,
            price,
        };
        add(&mut self.candidates, self.most, row, place.fault)
    }

    /// Marks a node absolute, or takes the mark away. Takes no memory.
    pub fn set_absolute(&mut self, at: u32, absolute: bool)
        requires at { at < length self.old.nodes }
        ensures set { self.new ≡ with_absolute self.old at absolute }
    {
        let row = &self.nodes.as_slice()[at as usize];
        let changed = Node {
            name: Name::new(row.name.bytes()),
            source: row.source,
            absolute,
        };
        put(&mut self.nodes, changed);
    }

    /// Opens or closes a switch.
    pub fn set_switch(&mut self, at: u32, closed: bool)
        requires at { at < length self.old.switches }
        ensures set { self.new ≡ with_closed self.old at closed }
    {
        let row = &self.switches.as_slice()[at as usize];
        let changed = Switch {
            name: Name::new(row.name.bytes()),
            from: row.from,
            to: row.to,
            closed,
        };
        put(&mut self.switches, changed);
    }

    /// Puts a branch in service or takes it out.
    pub fn set_branch(&mut self, at: u32, inservice: bool)
        requires at { at < length self.old.branches }
        ensures set { self.new ≡ with_branch_inservice self.old at inservice }
    {
        let row = &self.branches.as_slice()[at as usize];
        let changed = Branch {
            name: Name::new(row.name.bytes()),
            from: row.from,
            to: row.to,
            inservice,
        };
        put(&mut self.branches, changed);
    }

    /// Puts a meter in service or takes it out.
    pub fn set_meter(&mut self, at: u32, inservice: bool)
        requires at { at < length self.old.meters }
        ensures set { self.new ≡ with_meter_inservice self.old at inservice }
    {
        let row = &self.meters.as_slice()[at as usize];
        let changed = Meter {
            name: Name::new(row.name.bytes()),
            kind: row.kind,
            at: row.at,
            inservice,
        };
        put(&mut self.meters, changed);
    }
}
