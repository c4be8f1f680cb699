// Calls that a caller from outside makes, and no code here: the asks of a session, each lent, the calls of the searches
// below it, and the pieces of a line.
ghost use Rattle.std.specs.Prelude.{◌≡◌, ◌<◌, ◌≤◌, length};
ghost use Rattle.obs_assign.specs.inner.Assignment.{Fits};
ghost use Rattle.obs_meter.specs.inner.Sizes.{HasRoomFor};
ghost use Rattle.obs_meter.specs.inner.Touches.{AreInRange};

use crate::reference_cases::{Tables, tables_of};
use crate::scripts::nth_run;
use obs_assign::{Assignment, Steps};
use obs_case::Case;
use obs_case_csv::read_tables;
use obs_critical::{CriticalWork, critical};
use obs_edit::Session;
use obs_exchange::{Found, Sources, Work, lengthen, search};
use obs_forest::Forest;
use obs_graph::{Ends, Graph};
use obs_io::MemSink;
use obs_islands::{IslandWork, find_islands, islands};
use obs_meter::{Meters, Touch};
use obs_placement::{Layer, PlaceWork, Placement, place};
use obs_rankcut::{CutWork, bound};
use obs_report::{print_end, print_number, print_word};
use std::alloc::Global;
use std::marker::Brand;
use std::process::Abort;
use std::sync::ledger::{Blank, Ledger};
use std::test::Fail;

// Four vertices in a row.
const ROW: [Option<Ends>; 3] = [
    Some(Ends { a: 0, b: 1 }),
    Some(Ends { a: 1, b: 2 }),
    Some(Ends { a: 2, b: 3 }),
];

// The layer of the plan that takes the candidate of price 3.
fn layer(upto: u32) -> Layer {
    Layer {
        from: 0,
        to: 3,
        rank: 2,
        outside: 0,
        upto,
    }
}

fn is_plan(found: Placement<'_>, layers: &[Layer], inside: &[u32]) -> bool {
    match found {
        Placement::Cheapest(plan) => {
            plan.chosen == [1].as_slice()
                && plan.cost == 3
                && plan.layers == layers
                && plan.inside == inside
        }
        Placement::Shortfall(_) => false,
    }
}

// The asks of a path whose first branch has two meters and whose second bus an injection, and of which two buses stand
// apart. Two candidates complete it.
fn critical_of_a_path<L: Ledger>(session: &mut Session, steps: &mut Steps<L>) -> bool {
    let seen = session.critical(steps);
    seen.found == [2].as_slice() && seen.case.meters().len() == 5
}

// The islands are those of the six buses and, behind them, of two reference vertices.
fn islands_of_a_path<L: Ledger>(session: &mut Session, steps: &mut Steps<L>) -> bool {
    let seen = session.islands(steps);
    seen.found == [0, 0, 0, 3, 4, 5, 6, 7].as_slice() && seen.network.components() == 2
}

fn bound_of_a_path<L: Ledger>(rt: &impl Abort, session: &mut Session, steps: &mut Steps<L>) {
    assert!(rt; session.network().components() == 2);
    assert!(rt; session.network().energised(0));
    assert!(rt; !session.observable(0));
    let seen = session.bound(0, steps);
    assert!(rt; seen.found.inside == [0, 1].as_slice() && seen.found.rank == 1);
    assert!(rt; seen.found.outside == 1 && seen.found.needed == 3);
}

fn plan_of_a_path<L: Ledger>(session: &mut Session, steps: &mut Steps<L>) -> bool {
    if !session.offered() {
        return false;
    }
    let seen = session.place(steps);
    is_plan(seen.found.placement, &[layer(4)], &[0, 1, 2, 5]) && seen.found.pairs.length() == 3
}

fn asks_of_a_path<L: Ledger>(rt: &impl Abort, session: &mut Session, steps: &mut Steps<L>) {
    assert!(rt; critical_of_a_path(session, steps));
    assert!(rt; islands_of_a_path(session, steps));
    bound_of_a_path(rt, session, steps);
    assert!(rt; plan_of_a_path(session, steps));
}

// The first pairs of a ring, in which an injection leaves the lowest branch to a flow.
fn pairs_of_a_ring<L: Ledger>(rt: &impl Abort, session: &mut Session, steps: &mut Steps<L>) {
    let seen = session.first_pairs(steps);
    assert!(rt; seen.network.meters().count() == 2);
    assert!(rt; seen.found.branch_of(0) == Some(2) && seen.found.branch_of(1) == Some(0));
}

// A row of four buses and two that stand apart, with a meter out of service; then a ring of three; and a ring of Quay, Mill
// A and Lake with a tail from Lake by Ridge to Mill B, whose coupler to Mill A is open.
const CASES: &[u8] = b"+ n
node,source\na,1\nb,0\nc,0\nd,0\ne,0\nf,0
+ s
switch,from,to,closed
+ b
branch,from,to,inservice\nL1,a,b,1\nL2,b,c,1\nL3,c,d,1\nL4,e,f,1
+ m
meter,kind,at,inservice\nf1,flow,L1,1\nf2,flow,L1,1\nib,injection,b,1\no1,flow,L2,0\nf4,flow,L4,1
+ c
candidate,kind,at,price\np1,flow,L2,0\np2,injection,c,3\np3,flow,L3,5
> 1 session tables n s b m with c
+ n
node,source\na,1\nb,0\nc,0
+ b
branch,from,to,inservice\nL1,a,b,1\nL2,b,c,1\nL3,c,a,1
+ m
meter,kind,at,inservice\nia,injection,a,1\nf1,flow,L1,1
+ c
candidate,kind,at,price
> 0 session tables n s b m with c
+ n
node,source\nQuay,1\nMill A,0\nMill B,0\nRidge,0\nLake,0
+ s
switch,from,to,closed\nMill coupler,Mill A,Mill B,0
+ b
branch,from,to,inservice\nMill-Quay,Mill A,Quay,1\nMill-Ridge,Mill B,Ridge,1\nRidge-Lake,Ridge,Lake,1\nLake-Quay,Lake,Quay,1\nMill-Lake,Mill A,Lake,1
+ m
meter,kind,at,inservice\nQuay P,injection,Quay,1\nQuay line P,flow,Mill-Quay,1\nMill P,injection,Mill B,1\nMill line P,flow,Mill-Ridge,1\nLake P,injection,Lake,1\nLake line P,flow,Lake-Quay,1
> 0 session tables n s b m with c
";

fn read(alloc: Global, tables: Tables<'_>) -> Option<Case> {
    let Tables {
        nodes,
        switches,
        branches,
        meters,
        candidates,
    } = tables;
    read_tables(alloc, nodes, switches, branches, meters, Some(candidates)).ok()
}

// The case of this number.
pub(crate) fn nth_case(alloc: Global, number: u32) -> Option<Case> {
    read(alloc, tables_of(nth_run(CASES, number)?))
}

// Each session is owned by one call, which nothing leaves but at its end.
fn session_of_a_path<L: Ledger>(rt: &impl Abort, alloc: Global, steps: &mut Steps<L>) -> bool {
    let Some(case) = nth_case(alloc, 0) else {
        return false;
    };
    let Ok(mut session) = Session::begin(alloc, case, true, steps) else {
        return false;
    };
    asks_of_a_path(rt, &mut session, steps);
    true
}

fn session_of_a_ring<L: Ledger>(rt: &impl Abort, alloc: Global, steps: &mut Steps<L>) -> bool {
    let Some(case) = nth_case(alloc, 1) else {
        return false;
    };
    let Ok(mut session) = Session::begin(alloc, case, false, steps) else {
        return false;
    };
    pairs_of_a_ring(rt, &mut session, steps);
    true
}

fn session_of<L: Ledger>(rt: &impl Abort, alloc: Global, blank: Blank) -> bool
    requires name { blank.name ≡ L.name }
    requires parts { blank.parts ≡ L.parts }
    requires some { 0 < L.parts }
{
    let mut steps = Steps::<L>::begin(blank);
    session_of_a_path(rt, alloc, &mut steps) && session_of_a_ring(rt, alloc, &mut steps)
}

#[test]
fn asks_are_lent(rt: HostRuntime) {
    assert!(rt; session_of::<Brand>(&rt, rt.alloc(), Blank::new(1)));
}

// The critical meter of a row: the injection, beside two flows on the first branch.
fn finds_critical<L: Ledger>(
    g: &Graph,
    ms: &Meters,
    a: &mut Assignment,
    work: &mut Work,
    list: &mut CriticalWork,
    steps: &mut Steps<L>,
) -> bool
    requires in_range { AreInRange g.now ms.now.touches }
    requires fits { Fits a.old g.now ms.now.touches }
    requires room { HasRoomFor work.old.sizes g.now ms.now.touches }
    requires list { length ms.now.touches ≤ list.old.most_meters }
{
    a.clear(g, ms);
    let grown = lengthen(g, ms, a, 3, work, steps);
    a.unpin_all();
    match search(g, ms, a, Sources::All, work, steps) {
        Found::Grown(_) => false,
        Found::Closed => {
            let found = critical(g, ms, a, work.reached(), list) == [2].as_slice();
            found && grown.closed
        }
    }
}

// Two flows on the first branch, and the injection.
const TOUCHES: [Touch; 3] = [Touch::Edge(0), Touch::Edge(0), Touch::Star(1)];

fn critical_of_a_row<L: Ledger>(alloc: Global, blank: Blank) -> bool
    requires name { blank.name ≡ L.name }
    requires parts { blank.parts ≡ L.parts }
    requires some { 0 < L.parts }
{
    let mut steps = Steps::<L>::begin(blank);
    let Ok(mut g) = Graph::make(alloc, 4, 3) else {
        return false;
    };
    g.refill(4, &ROW);
    let Ok(mut ms) = Meters::make(alloc, 3) else {
        return false;
    };
    ms.refill(&TOUCHES);
    let Ok(mut a) = Assignment::make(alloc, 3, 3, 4) else {
        return false;
    };
    let Ok(mut work) = Work::make(alloc, 3, 3, 4) else {
        return false;
    };
    let Ok(mut list) = CriticalWork::make(alloc, 3) else {
        return false;
    };
    finds_critical(&g, &ms, &mut a, &mut work, &mut list, &mut steps)
}

fn islands_of_a_row<L: Ledger>(alloc: Global, blank: Blank) -> bool
    requires name { blank.name ≡ L.name }
    requires parts { blank.parts ≡ L.parts }
    requires some { 0 < L.parts }
{
    let mut steps = Steps::<L>::begin(blank);
    let Ok(mut g) = Graph::make(alloc, 4, 3) else {
        return false;
    };
    g.refill(4, &ROW);
    let Ok(mut ms) = Meters::make(alloc, 3) else {
        return false;
    };
    ms.refill(&TOUCHES);
    let Ok(mut named) = IslandWork::make(alloc, 3, 3, 4) else {
        return false;
    };
    find_islands(&g, &ms, &mut named, &mut steps);
    let first = named.firsts() == [0, 0, 0, 3].as_slice();
    // with one flow meter alone, the same work finds what that shows
    ms.refill(&[Touch::Edge(2)]);
    first && islands(&g, &ms, &mut named, &mut steps) == [0, 1, 2, 2].as_slice()
}

// The plan of the same row with three candidates.
fn plan_of_a_row<L: Ledger>(alloc: Global, blank: Blank) -> bool
    requires name { blank.name ≡ L.name }
    requires parts { blank.parts ≡ L.parts }
    requires some { 0 < L.parts }
{
    let mut steps = Steps::<L>::begin(blank);
    let Ok(mut g) = Graph::make(alloc, 4, 3) else {
        return false;
    };
    g.refill(4, &ROW);
    let Ok(mut offered) = Meters::make(alloc, 6) else {
        return false;
    };
    offered.refill(&[
        Touch::Edge(0),
        Touch::Edge(0),
        Touch::Star(1),
        Touch::Edge(1),
        Touch::Star(2),
        Touch::Edge(2),
    ]);
    let Ok(mut work) = PlaceWork::make(alloc, 6, 3, 4) else {
        return false;
    };
    let found = place(&g, &offered, 3, &[0, 3, 5], 3, &mut work, &mut steps);
    is_plan(found, &[layer(4)], &[0, 1, 2, 3])
}

// The bound that the two meters of one branch show.
fn bound_of_a_row(alloc: Global) -> bool {
    let Ok(mut g) = Graph::make(alloc, 4, 3) else {
        return false;
    };
    g.refill(4, &ROW);
    let Ok(mut ms) = Meters::make(alloc, 3) else {
        return false;
    };
    ms.refill(&TOUCHES);
    let Ok(mut work) = CutWork::make(alloc, 3, 3, 4) else {
        return false;
    };
    let found = bound(
        &g,
        &ms,
        &[true, true, false],
        &[true, true, true],
        3,
        &mut work,
    );
    found.inside == [0, 1].as_slice() && found.rank == 1 && found.outside == 1 && found.needed == 3
}

#[test]
fn searches_of_a_row(rt: HostRuntime) {
    assert!(rt; critical_of_a_row::<Brand>(rt.alloc(), Blank::new(1)));
    assert!(rt; islands_of_a_row::<Brand>(rt.alloc(), Blank::new(1)));
    assert!(rt; plan_of_a_row::<Brand>(rt.alloc(), Blank::new(1)));
    assert!(rt; bound_of_a_row(rt.alloc()));
}

fn are_printed(output: &mut MemSink) -> bool {
    print_word(output, true, b"count").is_ok()
        && print_word(output, false, b"buses").is_ok()
        && print_number(output, 20).is_ok()
        && print_end(output).is_ok()
        && output.written() == b"count\tbuses\t20\n".as_slice()
}

#[test]
fn words_numbers_and_ends(rt: HostRuntime) -> Result<(), Fail> {
    let mut output = MemSink::with_room(rt.alloc(), 100, 3, Vec::new(rt.alloc()))
        .ok()
        .ok_or("no memory")?;
    assert!(rt; are_printed(&mut output));
    Ok(())
}

#[test]
fn a_forest_holds_its_branches(rt: HostRuntime) -> Result<(), Fail> {
    let mut graph = Graph::make(rt.alloc(), 4, 3)?;
    graph.refill(4, &ROW);
    let mut forest = Forest::make(rt.alloc(), 4, 3)?;
    forest.refill(&graph, &[1]);
    assert!(rt; !forest.holds(0) && forest.holds(1) && !forest.holds(2));
    Ok(())
}
