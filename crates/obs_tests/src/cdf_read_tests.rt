// Files that are read, and the first fault of those that are no case.
use crate::rows::{has_branch, has_node};
use crate::scripts::{all_end_so, front};
use obs_case::Case;
use obs_case_csv::{RowFault, Table, TableFault};
use obs_ieee_cdf::{CdfEnd, CdfFault, read_cdf};
use obs_text::MOST_FILE_BYTES;
use std::alloc::Global;
use std::test::Fail;

// The topology of the IEEE 14 bus system.
pub(crate) fn ieee14() -> &'static [u8] {
    b"IEEE 14 BUS TOPOLOGY
BUS DATA FOLLOWS
   1                     3
   2                     2
   3                     2
   4                     0
   5                     0
   6                     2
   7                     0
   8                     2
   9                     0
  10                     0
  11                     0
  12                     0
  13                     0
  14                     0
-999
BRANCH DATA FOLLOWS
   1    2
   1    5
   2    3
   2    4
   2    5
   3    4
   4    5
   4    7
   4    9
   5    6
   6   11
   6   12
   6   13
   7    8
   7    9
   9   10
   9   14
  10   11
  12   13
  13   14
-999
"
}

const METERS: &[u8] = b"meter,kind,at,inservice\nF1,flow,L1,1\nI8,injection,8,1\n";

// Two buses and two branches, with counts in the headings, further columns and further sections.
pub(crate) fn full() -> &'static [u8] {
    b" 01/01/00 TITLE\r\n\r
BUS DATA FOLLOWS                             2 ITEMS\r
   1 Bus 1     HV  1  1  3  1.000    0.0      0.0\r
\r
0007 Bus 7     HV  1  1  1  1.000    0.0      0.0\r
   \r
-999\r
OTHER DATA FOLLOWS                           9 ITEMS\r
BRANCH DATA FOLLOWS                          2 ITEMS\r
   7    1  1 1  1 0       0.0\r
 \r
7       7  1 1  1 0       0.0\r
-999\r
LOSS ZONES FOLLOWS                     1 ITEMS\r
  1 ALL\r
-99\r
BUS DATA FOLLOWS\r
"
}

fn read(alloc: Global, cdf: &[u8], meters: &[u8]) -> Result<Case, CdfEnd> {
    let candidates = b"candidate,kind,at,price\nC1,zero,1,5\n".as_slice();
    read_cdf(alloc, front(cdf, MOST_FILE_BYTES), meters, Some(candidates))
}

// How a file ends with these tables.
fn end_with(alloc: Global, cdf: &[u8], meters: &[u8], candidates: Option<&[u8]>) -> Option<CdfEnd> {
    read_cdf(alloc, front(cdf, MOST_FILE_BYTES), meters, candidates).err()
}

// How a file ends whose meters are fine.
fn end_of(alloc: Global, cdf: &[u8]) -> Option<CdfEnd> {
    end_with(alloc, cdf, b"meter,kind,at,inservice\n", None)
}

// These parts of a file, joined.
fn joined(alloc: Global, parts: &[&[u8]]) -> Result<Vec<u8>, Fail> {
    let mut file = Vec::new(alloc);
    for part in parts {
        file.extend_from_slice(part)?;
    }
    Ok(file)
}

// How a file of these parts ends.
fn end_of_parts(alloc: Global, parts: &[&[u8]]) -> Result<Option<CdfEnd>, Fail> {
    let file = joined(alloc, parts)?;
    Ok(end_of(alloc, file.as_slice()))
}

fn has_sizes(case: &Case, nodes: usize, branches: usize, meters: usize) -> bool {
    case.nodes().len() == nodes
        && case.switches().is_empty()
        && case.branches().len() == branches
        && case.meters().len() == meters
        && case.candidates().len() == 1
}

fn has_usual_nodes(case: &Case) -> bool {
    has_node(case, 0, b"1", true) && has_node(case, 3, b"4", false) && has_node(case, 7, b"8", true)
}

fn has_usual_branches(case: &Case) -> bool {
    has_branch(case, 0, b"L1", (0, 1), true)
        && has_branch(case, 9, b"L10", (4, 5), true)
        && has_branch(case, 19, b"L20", (12, 13), true)
}

fn is_usual_case(alloc: Global) -> bool {
    match read(alloc, ieee14(), METERS) {
        Ok(case) => {
            has_sizes(&case, 14, 20, 2) && has_usual_nodes(&case) && has_usual_branches(&case)
        }
        Err(_) => false,
    }
}

#[test]
fn usual_case(rt: HostRuntime) {
    assert!(rt; is_usual_case(rt.alloc()));
}

fn has_full_rows(case: &Case) -> bool {
    has_node(case, 0, b"1", true)
        && has_node(case, 1, b"7", false)
        && has_branch(case, 0, b"L1", (1, 0), true)
        && has_branch(case, 1, b"L2", (1, 1), true)
}

fn is_full_case(alloc: Global) -> bool {
    let meters = b"inservice,at,kind,meter\n1,L2,flow,m\n";
    match read(alloc, full(), meters) {
        Ok(case) => has_sizes(&case, 2, 2, 1) && has_full_rows(&case),
        Err(_) => false,
    }
}

#[test]
fn all_columns(rt: HostRuntime) {
    assert!(rt; is_full_case(rt.alloc()));
}

// Each front of a file is refused until the whole end of its branch section stands in it.
#[test]
fn fronts_of_a_file(rt: HostRuntime) {
    for count in 0..647usize {
        let refused = match end_of(rt.alloc(), front(ieee14(), count)) {
            Some(CdfEnd::Cdf(_)) => true,
            Some(_) => false,
            None => false,
        };
        assert!(rt; refused == (count < 645));
    }
}

const CASES: &[u8] = b"== Bus faults. Files with one fault, or with two of which the first counts.
+ m
meter,kind,at,inservice
+ c
 BUS DATA\n-999
> 3 session cdf c m
fault\tcdf\t0\t1\tNoBusSection
+ c
BUS DATA\n   1                    2
> 3 session cdf c m
fault\tcdf\t0\t2\tBusSectionOpen
+ c
BUS DATA\n-999\nBRANCH DAT\n-999
> 3 session cdf c m
fault\tcdf\t0\t3\tNoBranchSection
+ c
BUS DATA\n-999\nBRANCH DATA
> 3 session cdf c m
fault\tcdf\t0\t4\tBranchSectionOpen
+ c
BUS DATA\n    1                    3
> 3 session cdf c m
fault\tcdf\t2\t5\tBadBusNumber
+ c
BUS DATA\n 1 2                     3
> 3 session cdf c m
fault\tcdf\t2\t5\tBadBusNumber
+ c
BUS DATA\n\t  1                     3
> 3 session cdf c m
fault\tcdf\t2\t5\tBadBusNumber
+ c
BUS DATA\n   1                    10
> 3 session cdf c m
fault\tcdf\t2\t6\tBadType
+ c
BUS DATA\n   1                     4
> 3 session cdf c m
fault\tcdf\t2\t6\tBadType
+ c
BUS DATA\n   1                      3
> 3 session cdf c m
fault\tcdf\t2\t6\tBadType
+ c
BUS DATA\n   1                     3\n\n 001                     0
> 3 session cdf c m
fault\tcdf\t4\t7\tBusTwice
+ c
BUS DATA\n   x                     9
> 3 session cdf c m
fault\tcdf\t2\t5\tBadBusNumber
+ c
BUS DATA\n   1                     9\n   x                     3
> 3 session cdf c m
fault\tcdf\t2\t6\tBadType
+ c
BUS DATA\n   1                     3\n   1                     9
> 3 session cdf c m
fault\tcdf\t3\t6\tBadType
== Branch faults. Branch lines after two buses, and their fault. The first bus is `12345`, of which four columns are
= read. Without a fault the case is short.
+ m
meter,kind,at,inservice
+ c
BUS DATA\n12345                    3\n   0                     0\n-999\nBRANCH DATA\n1234    0\n-999
> 1 session cdf c m
+ unended c
BUS DATA\n12345                    3\n   0                     0\n-999\nBRANCH DATA\n1234 0\n-999
> 1 session cdf c m
+ c
BUS DATA\n12345                    3\n   0                     0\n-999\nBRANCH DATA\n   0\n-999
> 3 session cdf c m
fault\tcdf\t6\t5\tBadBusNumber
+ c
BUS DATA\n12345                    3\n   0                     0\n-999\nBRANCH DATA\n1234    9\n-999
> 3 session cdf c m
fault\tcdf\t6\t8\tUnknownBus
+ c
BUS DATA\n12345                    3\n   0                     0\n-999\nBRANCH DATA\n   9    x\n-999
> 3 session cdf c m
fault\tcdf\t6\t5\tBadBusNumber
+ c
BUS DATA\n12345                    3\n   0                     0\n-999\nBRANCH DATA\n   0 0000\n\n   9    0
> 3 session cdf c m
fault\tcdf\t8\t8\tUnknownBus
+ unended c
BUS DATA\n12345                    3\n   0                     0\n-999\nBRANCH DATA\n   0    0\n   0    0
> 3 session cdf c m
fault\tcdf\t0\t4\tBranchSectionOpen
";

#[test]
fn faults_of_files(rt: HostRuntime) -> Result<(), Fail> {
    all_end_so(&rt, rt.alloc(), 21, CASES)
}

// What follows 20,000 branch lines, of which the first is line 5, and the fault.
fn last_case(i: u8) -> (&'static [u8], Option<CdfFault>) {
    match i {
        0 => (b"-999\n", None),
        1 => (b"   1    1\n-999\n", Some(CdfFault::TooMany(20_005))),
        2 => (b"\n   1    x\n", Some(CdfFault::TooMany(20_006))),
        _ => (b"\n   \n", Some(CdfFault::BranchSectionOpen)),
    }
}

// Adds the front of a file: one bus and 20,000 branch lines.
fn add_full(file: &mut Vec<u8>) -> Result<(), Fail> {
    file.extend_from_slice(b"BUS DATA\n   1                     3\n-999\nBRANCH DATA\n")?;
    for _ in 0..20_000 {
        file.extend_from_slice(b"   1    1\n")?;
    }
    Ok(())
}

#[test]
fn a_branch_too_many(rt: HostRuntime) -> Result<(), Fail> {
    let mut file = Vec::new(rt.alloc());
    add_full(&mut file)?;
    for i in 0..4u8 {
        let (last, fault) = last_case(i);
        let parts = [file.as_slice(), last];
        assert!(rt; end_of_parts(rt.alloc(), &parts)? == fault.map(CdfEnd::Cdf));
    }
    Ok(())
}

// The faults of the file come before those of the tables.
fn table_end(table: Table, row: u32, code: RowFault) -> Option<CdfEnd> {
    Some(CdfEnd::Table(TableFault { table, row, code }))
}

#[test]
fn faults_of_tables(rt: HostRuntime) {
    let meters = b"meter,kind,at,inservice\nF1,flow,L21,1\n".as_slice();
    let candidates = b"candidate,kind,at,price\nC1,zero,1,5\n".as_slice();
    let end = end_with(rt.alloc(), ieee14(), meters, Some(candidates));
    assert!(rt; end == table_end(Table::Meters, 1, RowFault::UnknownPlace));
    let end = end_with(rt.alloc(), front(ieee14(), 641), meters, Some(candidates));
    assert!(rt; end == Some(CdfEnd::Cdf(CdfFault::BranchSectionOpen)));
    let candidates = b"candidate,kind,at,price\nC1,zero,15,5\n".as_slice();
    let end = end_with(rt.alloc(), ieee14(), METERS, Some(candidates));
    assert!(rt; end == table_end(Table::Candidates, 1, RowFault::UnknownPlace));
}
