use obs_case::{Case, Kind};
use obs_case_csv::{RowFault, Table, TableEnd, TableFault, read_table, read_tables};
use obs_text::Digits;
use std::alloc::Global;
use std::process::Abort;

const SWITCHES: &[u8] = b"switch,from,to,closed\n";

const TABLES: &[(&[u8], usize, &[u8])] = &[
    (b"node,source\na,1\nb,0\n", 2, b"b"),
    (
        b"\xEF\xBB\xBFsource,node,zone\r\n1,a,x\r\n0,\"b\",y\r\n",
        2,
        b"b",
    ),
    (b"node,source\n\"a,b\",1\n\"c\"\"d\",0", 2, b"c\"d"),
    (b"node,source,note\na,1,\"two\nlines\"\n\n\nb,0\n", 2, b"b"),
    (b"node,source\na,1,more,and more\nb,0\n", 2, b"b"),
    (b"node,source\n", 0, b"node"),
];

// Whether a table of nodes has so many rows, and a row of that name where it has any.
fn has_rows(alloc: Global, bytes: &[u8], count: usize, last: &[u8]) -> bool {
    let mut case = Case::new(alloc);
    read_table(alloc, &mut case, Table::Nodes, bytes).is_ok()
        && case.nodes().len() == count
        && case.find_node(last).is_some() == (count > 0)
}

#[test]
fn rows_are_what_the_reader_gives(rt: HostRuntime) {
    for case in TABLES {
        let (bytes, count, last) = *case;
        assert!(rt; has_rows(rt.alloc(), bytes, count, last));
    }
}

// Whether a case has one node, one meter and nothing else.
fn has_one_meter(case: &Case) -> bool {
    case.nodes().len() == 1
        && case.meters().len() == 1
        && case.switches().is_empty()
        && case.branches().is_empty()
        && case.candidates().is_empty()
}

// Whether a case's first meter has this name, and measures the injection at the first node.
fn has_injection(case: &Case, name: &[u8]) -> bool {
    case.find_meter(name) == Some(0)
        && match case.meters().first() {
            Some(meter) => meter.kind == Kind::Injection && meter.at == 0,
            None => false,
        }
}

fn is_read_without_candidates(alloc: Global) -> bool {
    let nodes = b"node,source\na,1\n";
    let branches = b"branch,from,to,inservice\n";
    let meters = b"meter,kind,at,inservice\ni1,injection,a,1\n";
    match read_tables(alloc, nodes, SWITCHES, branches, meters, None) {
        Ok(case) => has_one_meter(&case) && has_injection(&case, b"i1"),
        Err(_) => false,
    }
}

#[test]
fn tables_that_are_not_given_are_empty(rt: HostRuntime) {
    assert!(rt; is_read_without_candidates(rt.alloc()));
}

fn append(rt: &impl Abort, text: &mut Vec<u8>, bytes: &[u8]) {
    assert!(rt; text.extend_from_slice(bytes).is_ok());
}

// A table's text with this header and rows that begin with numbers from 0 on.
fn numbered(rt: &impl Abort, alloc: Global, header: &[u8], count: u32, rest: &[u8]) -> Vec<u8> {
    let mut text = Vec::new(alloc);
    let mut digits = Digits::new();
    append(rt, &mut text, header);
    for n in 0..count {
        append(rt, &mut text, digits.text(u64::from(n)));
        append(rt, &mut text, rest);
    }
    text
}

#[test]
fn a_table_has_at_most_20000_rows(rt: HostRuntime) {
    let nodes = numbered(&rt, rt.alloc(), b"node,source\n", 20000, b",1\n");
    let switches = numbered(
        &rt,
        rt.alloc(),
        b"switch,from,to,closed\n",
        20000,
        b",0,19999,1\n",
    );
    let branches = numbered(
        &rt,
        rt.alloc(),
        b"branch,from,to,inservice\n",
        20000,
        b",7,8,1\n",
    );
    let meters = numbered(
        &rt,
        rt.alloc(),
        b"meter,kind,at,inservice\n",
        20000,
        b",flow,19999,1\n",
    );
    let more = numbered(
        &rt,
        rt.alloc(),
        b"candidate,kind,at,price\n",
        20001,
        b",zero,7,5\n",
    );
    match read_tables(
        rt.alloc(),
        &nodes,
        &switches,
        &branches,
        &meters,
        Some(&more),
    ) {
        Err(TableEnd::Fault(fault)) => {
            assert_eq!(rt;
                fault,
                TableFault {
                    table: Table::Candidates,
                    row: 20001,
                    code: RowFault::TooMany
                }
            );
        }
        _ => assert!(rt; false, "the candidates are too many"),
    }
}
