// Files that are read, and the first fault of those that aren't a case.
use crate::matpower_tests::{three, with_tabs};
use crate::rows::{has_branch, has_node};
use crate::scripts::front;
use obs_case::Case;
use obs_case_csv::{RowFault, Table, TableFault};
use obs_matpower::{MatEnd, MatFault, read_matpower};
use obs_text::{Digits, MOST_FILE_BYTES};
use std::alloc::Global;
use std::test::Fail;

const METERS: &[u8] = b"meter,kind,at,inservice\nf1,flow,L1,1\nf2,flow,L2,1\n";

// How a file ends with these tables.
fn end_with(
    alloc: Global,
    matpower: &[u8],
    meters: &[u8],
    candidates: Option<&[u8]>,
) -> Option<MatEnd> {
    read_matpower(alloc, front(matpower, MOST_FILE_BYTES), meters, candidates).err()
}

// How a file ends whose meters are fine.
fn end_of(alloc: Global, matpower: &[u8]) -> Option<MatEnd> {
    end_with(alloc, matpower, b"meter,kind,at,inservice\n", None)
}

fn has_sizes(case: &Case) -> bool {
    case.nodes().len() == 4
        && case.switches().is_empty()
        && case.branches().len() == 4
        && case.meters().len() == 2
        && case.candidates().len() == 1
}

fn has_nodes(case: &Case) -> bool {
    has_node(case, 0, b"1", true)
        && has_node(case, 1, b"2", false)
        && has_node(case, 2, b"3", false)
        && has_node(case, 3, b"4", false)
}

fn has_branches(case: &Case) -> bool {
    has_branch(case, 0, b"L1", (0, 1), true)
        && has_branch(case, 1, b"L2", (1, 2), true)
        && has_branch(case, 2, b"L3", (2, 0), false)
        && has_branch(case, 3, b"L4", (2, 3), false)
}

// Whether a file is read as the worked case.
fn is_worked_case(alloc: Global, matpower: &[u8]) -> bool {
    let candidates = b"candidate,kind,at,price\nC1,zero,4,5\n".as_slice();
    let file = front(matpower, MOST_FILE_BYTES);
    match read_matpower(alloc, file, METERS, Some(candidates)) {
        Ok(case) => has_sizes(&case) && has_nodes(&case) && has_branches(&case),
        Err(_) => false,
    }
}

#[test]
fn worked_case(rt: HostRuntime) {
    assert!(rt; is_worked_case(rt.alloc(), three()));
    assert!(rt; is_worked_case(rt.alloc(), with_tabs()));
}

// A file that is cut anywhere before the `]` of its last table is refused.
#[test]
fn fronts_of_a_file(rt: HostRuntime) {
    for count in 0..three().len() + 1 {
        let refused = match end_of(rt.alloc(), front(three(), count)) {
            Some(MatEnd::Mat(_)) => true,
            Some(_) => false,
            None => false,
        };
        assert!(rt; refused == (count + 2 < three().len()));
    }
}

// Adds so many rows of a bus table.
fn add_bus_rows(file: &mut Vec<u8>, buses: u64) -> Result<(), Fail> {
    let mut digits = Digits::new();
    for number in 0..buses {
        file.extend_from_slice(digits.text(number))?;
        file.extend_from_slice(b" 3\n")?;
    }
    Ok(())
}

// Adds a file with so many rows in each table, the first of which are on the lines 2 and `buses` + 4.
fn add_large(file: &mut Vec<u8>, buses: u64, branches: u64) -> Result<(), Fail> {
    file.extend_from_slice(b"mpc.bus = [\n")?;
    add_bus_rows(file, buses)?;
    file.extend_from_slice(b"]\nmpc.branch = [\n")?;
    for _ in 0..branches {
        file.extend_from_slice(b"1 1 0 0 0 0 0 0 0 0 1\n")?;
    }
    file.extend_from_slice(b"x]\n")?;
    Ok(())
}

// How that file ends.
fn end_of_large(alloc: Global, buses: u64, branches: u64) -> Result<Option<MatEnd>, Fail> {
    let mut file = Vec::new(alloc);
    add_large(&mut file, buses, branches)?;
    Ok(end_of(alloc, file.as_slice()))
}

#[test]
fn full_tables(rt: HostRuntime) -> Result<(), Fail> {
    for i in 0..3u8 {
        let (buses, branches, fault) = match i {
            0 => (20_000, 1, MatFault::ShortRow(20_005)),
            1 => (20_001, 1, MatFault::TooMany(20_002)),
            _ => (2, 20_000, MatFault::TooMany(20_006)),
        };
        assert!(rt; end_of_large(rt.alloc(), buses, branches)? == Some(MatEnd::Mat(fault)));
    }
    Ok(())
}

// The faults of the file come before those of the tables.
fn table_end(table: Table) -> Option<MatEnd> {
    let code = RowFault::UnknownPlace;
    Some(MatEnd::Table(TableFault {
        table,
        row: 1,
        code,
    }))
}

#[test]
fn faults_of_tables(rt: HostRuntime) {
    let file = with_tabs();
    let meters = b"meter,kind,at,inservice\nF1,flow,L5,1\n".as_slice();
    let candidates = b"candidate,kind,at,price\nC1,zero,5,5\n".as_slice();
    let end = end_with(rt.alloc(), file, meters, Some(candidates));
    assert!(rt; end == table_end(Table::Meters));
    let end = end_with(rt.alloc(), file, METERS, Some(candidates));
    assert!(rt; end == table_end(Table::Candidates));
    let end = end_with(rt.alloc(), front(file, 9), meters, None);
    assert!(rt; end == Some(MatEnd::Mat(MatFault::NoBusTable)));
}
