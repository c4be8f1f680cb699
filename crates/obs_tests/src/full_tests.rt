// The network of a case whose five tables are full.
use obs_case::{Case, Kind};
use obs_network::{Network, NoMemory, buses_of_case};
use obs_text::{Digits, name_of};
use std::alloc::Global;
use std::process::Abort;
use std::test::Fail;

const ROWS: u64 = 20_000;

fn add_nodes(rt: &impl Abort, case: &mut Case) {
    let mut digits = Digits::new();
    for n in 0..ROWS {
        let name = name_of(digits.text(n)).expect(rt, "digits are a name");
        assert!(rt; case.add_node(name, n == 0).is_ok());
    }
}

// The row n of each table but that of nodes: a switch to the next node, closed where n is even, a branch to the node after
// that one, and two flow meters at this branch, of which one is offered. After the last node comes the first one.
fn add_others(rt: &impl Abort, case: &mut Case) {
    let mut own = Digits::new();
    let mut next = Digits::new();
    let mut second = Digits::new();
    for n in 0..ROWS {
        let name = name_of(own.text(n)).expect(rt, "digits are a name");
        let after = next.text((n + 1) % ROWS);
        let other = second.text((n + 2) % ROWS);
        assert!(rt; case.add_switch(name, name, after, n % 2 == 0).is_ok());
        assert!(rt; case.add_branch(name, name, other, true).is_ok());
        assert!(rt; case.add_meter(name, Kind::Flow, name, true).is_ok());
        assert!(rt; case.add_candidate(name, Kind::Flow, name, 1).is_ok());
    }
}

fn full_case(rt: &impl Abort, alloc: Global) -> Case {
    let mut case = Case::new(alloc);
    add_nodes(rt, &mut case);
    add_others(rt, &mut case);
    case
}

fn has_buses(rt: &impl Abort, alloc: Global, case: &Case) -> Result<(), NoMemory> {
    let buses = buses_of_case(alloc, case)?;
    assert!(rt; buses.count() == 10_000);
    Ok(())
}

fn has_network(rt: &impl Abort, alloc: Global, case: &Case) -> Result<(), NoMemory> {
    let network = Network::make(alloc, case)?;
    look(rt, &network);
    Ok(())
}

fn look(rt: &impl Abort, network: &Network) {
    assert!(rt; network.buses().count() == 10_000);
    assert!(rt; network.components() == 1);
    assert!(rt; network.needed() == 9_999);
    assert!(rt; network.graph().positions() == 20_000);
    assert!(rt; network.offered().count() == 40_000);
}

// The buses are the 10,000 pairs of nodes, in a ring with two branches between each bus and the next.
fn full(rt: &impl Abort, alloc: Global) -> Result<(), NoMemory> {
    let case = full_case(rt, alloc);
    has_buses(rt, alloc, &case)?;
    has_network(rt, alloc, &case)
}

#[test]
fn full_tables(rt: HostRuntime) -> Result<(), Fail> {
    full(&rt, rt.alloc())?;
    Ok(())
}
