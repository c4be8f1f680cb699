// Tables that are full of marked nodes, angle meters and angle candidates.

use crate::reference_cases::{Ask, NO_BRANCHES, Tables, ended_in};
use crate::tests::{Outside, QUIET};
use crate::worked::{NO_CANDIDATES, NO_SWITCHES};
use obs_engine::Status;
use obs_text::Digits;
use std::alloc::Global;
use std::process::Abort;
use std::test::Fail;

const ROWS: u64 = 20_000;

// A node table of marked sources.
fn marked_nodes(alloc: Global) -> Result<Vec<u8>, Fail> {
    let mut digits = Digits::new();
    let mut bytes = Vec::from_slice(alloc, b"node,source,absolute\n")?;
    for row in 0..ROWS {
        bytes.extend_from_slice(b"n")?;
        bytes.extend_from_slice(digits.text(row))?;
        bytes.extend_from_slice(b",1,1\n")?;
    }
    Ok(bytes)
}

// An angle item at each of these nodes, behind a header. Its name is a letter and a number, and its row has this end.
fn items(alloc: Global, header: &[u8], letter: &[u8], end: &[u8]) -> Result<Vec<u8>, Fail> {
    let mut digits = Digits::new();
    let mut bytes = Vec::from_slice(alloc, header)?;
    for row in 0..ROWS {
        bytes.extend_from_slice(letter)?;
        bytes.extend_from_slice(digits.text(row))?;
        bytes.extend_from_slice(b",angle,n")?;
        bytes.extend_from_slice(digits.text(row))?;
        bytes.extend_from_slice(end)?;
    }
    Ok(bytes)
}

// All bytes move in long pieces.
const LONG: Outside<'static> = Outside {
    read: 65_536,
    taken: 65_536,
    written: 65_536,
    room: 16_777_216,
    ..QUIET
};

// Each bus is a component that needs its own angle meter.
fn reports_and_certifies(rt: &impl Abort, alloc: Global, tables: Tables<'_>) -> Result<(), Fail> {
    let found = ended_in(alloc, tables, Ask::Report, LONG)?;
    assert!(rt; found.status == Status::Done);
    assert!(rt;
        found.text.starts_with(
            b"count\tbuses\t20000\ncount\tenergised\t20000\ncount\tbranches\t0\ncount\tmeters\t20000\ncount\tneeded\t20000\ncount\trank\t20000\nverdict\tobservable\ntree\tn0\npair\tmeter\tm0\tangle\n"
        )
    );
    let claims = ended_in(alloc, tables, Ask::Session(b"cert\n"), LONG)?;
    let found = ended_in(alloc, tables, Ask::Verify(&claims.text), LONG)?;
    assert!(rt; found.status == Status::Done);
    assert!(rt; found.text.as_slice() == b"valid\t20000\n".as_slice());
    Ok(())
}

// All meters are out of service, so that each bus needs its own candidate.
fn completes(rt: &impl Abort, alloc: Global, tables: Tables<'_>) -> Result<(), Fail> {
    let plan = ended_in(alloc, tables, Ask::Place, LONG)?;
    assert!(rt; plan.status == Status::Done);
    assert!(rt; plan.text.starts_with(b"cost\t20000\nchosen\tc0\n"));
    assert!(rt; plan.text.ends_with(b"pair\tcandidate\tc19999\tangle\nlayer\t0\t1\t0\t0\nend\n"));
    let found = ended_in(alloc, tables, Ask::VerifyWith(&plan.text), LONG)?;
    assert!(rt; found.status == Status::Done);
    assert!(rt; found.text.as_slice() == b"valid\t1\n".as_slice());
    Ok(())
}

#[test]
fn full_tables_are_reported(rt: HostRuntime) -> Result<(), Fail> {
    let nodes = marked_nodes(rt.alloc())?;
    let meters = items(rt.alloc(), b"meter,kind,at,inservice\n", b"m", b",1\n")?;
    let tables = Tables {
        nodes: &nodes,
        switches: NO_SWITCHES,
        branches: NO_BRANCHES,
        meters: &meters,
        candidates: NO_CANDIDATES,
    };
    reports_and_certifies(&rt, rt.alloc(), tables)
}

#[test]
fn full_tables_are_completed(rt: HostRuntime) -> Result<(), Fail> {
    let nodes = marked_nodes(rt.alloc())?;
    let meters = items(rt.alloc(), b"meter,kind,at,inservice\n", b"m", b",0\n")?;
    let candidates = items(rt.alloc(), b"candidate,kind,at,price\n", b"c", b",1\n")?;
    let tables = Tables {
        nodes: &nodes,
        switches: NO_SWITCHES,
        branches: NO_BRANCHES,
        meters: &meters,
        candidates: &candidates,
    };
    completes(&rt, rt.alloc(), tables)
}
