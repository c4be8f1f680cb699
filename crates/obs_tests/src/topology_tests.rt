// What `topology` prints, and the faults of its tables.
use crate::scripts::{Run, all_end_so, ended, is_as_said};
use crate::tests::{
    Ended, Outside, QUIET, answers, failing_reads, failing_writes, outcome, outcome_over,
};
use crate::worked::{NO_SWITCHES, many_nodes, too_long};
use obs_engine::Status;
use obs_io::Entry;
use obs_text::{Digits, lines};
use std::alloc::Global;
use std::test::Fail;

const TOPOLOGY: [&str; 3] = ["topology", "n", "s"];

// Three nodes, of which two are one bus.
const NODES: &[u8] = b"node,source\na,0\nb,0\nc,0\n";

const SWITCHES: &[u8] = b"switch,from,to,closed\nS1,a,b,1\nS2,b,c,0\n";

const CASES: &[u8] = b"== Topology names the bus of each node.
+ n
node,source\na,0\nb,0\nc,0
+ s
switch,from,to,closed\nS1,a,b,1\nS2,b,c,0
> 0 topology n s
node\ta\ta\nnode\tb\ta\nnode\tc\tc\ncount\tbuses\t2\nend
= A bus is named by its first node in the order of the table.
+ n
node,source\nz,0\nm,0\na,0\nk,0
+ s
switch,from,to,closed\nS1,a,m,1\nS2,k,a,1\nS3,z,z,1
> 0 topology n s
node\tz\tz\nnode\tm\tm\nnode\ta\tm\nnode\tk\tm\ncount\tbuses\t2\nend
= A byte order mark, columns in another order, one that isn't needed, and other line ends.
+ n
\xEF\xBB\xBFsource,node,zone\r\n1,a,x\r\n0,\"b\",y\r
+ s
switch,from,to,closed
> 0 topology n s
node\ta\ta\nnode\tb\tb\ncount\tbuses\t2\nend
== The first fault is printed.
+ n
node,source\na,0\na,0
+ s
switch,from,to,closed
> 3 topology n s
fault\tnodes\t2\t9\tNameTwice
+ n
node,source,node
> 3 topology n s
fault\tnodes\t0\t3\tColumnTwice
+ n
node,source\na,2
> 3 topology n s
fault\tnodes\t1\t6\tBadFlag
+ n
> 3 topology n s
fault\tnodes\t0\t1\tNoHeader
+ n
node,source\na,1
+ s
switch,from,to,closed\nS1,a,z,7
> 3 topology n s
fault\tswitches\t1\t6\tBadFlag
== An absent file is a read fault.
+ n
node,source\na,0\nb,0\nc,0
> 4 topology n s
";

#[test]
fn worked_topologies(rt: HostRuntime) -> Result<(), Fail> {
    all_end_so(&rt, rt.alloc(), 9, CASES)
}

// A run over a node table of so many rows, and no switches.
fn outcome_of_rows(alloc: Global, rows: u32) -> Result<Ended, Fail> {
    let nodes = many_nodes(alloc, rows)?;
    outcome(alloc, &TOPOLOGY, &[nodes.as_slice(), NO_SWITCHES], QUIET)
}

#[test]
fn a_table_has_many_rows(rt: HostRuntime) -> Result<(), Fail> {
    let some = outcome_of_rows(rt.alloc(), 300)?;
    assert!(rt; some.status == Status::Done);
    assert!(rt; some.text.starts_with(b"node\tn0\tn0\nnode\tn1\tn1\n"));
    assert!(rt;
        some.text
            .ends_with(b"node\tn299\tn299\ncount\tbuses\t300\nend\n")
    );
    Ok(())
}

// A switch table of so many rows, each between the first node and another one or itself.
fn many_switches(alloc: Global, rows: u32) -> Result<Vec<u8>, Fail> {
    let mut digits = Digits::new();
    let mut bytes = Vec::from_slice(alloc, b"switch,from,to,closed\n")?;
    for row in 0..rows {
        bytes.extend_from_slice(b"s")?;
        bytes.extend_from_slice(digits.text(u64::from(row)))?;
        bytes.extend_from_slice(b",n0,n")?;
        bytes.extend_from_slice(digits.text(u64::from(row)))?;
        bytes.extend_from_slice(b",1\n")?;
    }
    Ok(bytes)
}

#[test]
fn full_tables_have_buses(rt: HostRuntime) -> Result<(), Fail> {
    let nodes = many_nodes(rt.alloc(), 20000)?;
    let switches = many_switches(rt.alloc(), 20000)?;
    let files = [nodes.as_slice(), switches.as_slice()];
    let full = outcome(rt.alloc(), &TOPOLOGY, &files, QUIET)?;
    assert!(rt; full.status == Status::Done);
    assert!(rt;
        full.text
            .ends_with(b"node\tn19999\tn0\ncount\tbuses\t1\nend\n")
    );
    Ok(())
}

#[test]
fn a_table_has_at_most_20000_rows(rt: HostRuntime) -> Result<(), Fail> {
    let many = outcome_of_rows(rt.alloc(), 20001)?;
    assert!(rt; many.status == Status::InputFault);
    assert!(rt; many.text.as_slice() == b"fault\tnodes\t20001\t12\tTooMany\n".as_slice());
    Ok(())
}

// Pieces of seven bytes are read, with one read more at the end of each file.
#[test]
fn each_read_may_fail(rt: HostRuntime) -> Result<(), Fail> {
    let reads = failing_reads(&rt, rt.alloc(), &TOPOLOGY, &[NODES, SWITCHES])?;
    assert!(rt; reads == 12);
    Ok(())
}

// Pieces of five bytes are written.
#[test]
fn each_write_may_fail(rt: HostRuntime) -> Result<(), Fail> {
    let files = [NODES, SWITCHES];
    let text = b"node\ta\ta\nnode\tb\ta\nnode\tc\tc\ncount\tbuses\t2\nend\n";
    let writes = failing_writes(&rt, rt.alloc(), &TOPOLOGY, &files, text)?;
    assert!(rt; writes == 10);
    Ok(())
}

// No file of switches is held.
#[test]
fn nodes_are_judged_before_switches_are_read(rt: HostRuntime) -> Result<(), Fail> {
    let nodes = too_long(rt.alloc())?;
    let text = b"fault\tnodes\t0\t14\tTooLong\n";
    let status = Status::InputFault;
    answers(&rt, rt.alloc(), &TOPOLOGY, &[&nodes], status, text)
}

// The file of switches would be too long.
#[test]
fn nodes_are_read_before_switches(rt: HostRuntime) -> Result<(), Fail> {
    let bytes = too_long(rt.alloc())?;
    let mut entries = Vec::new(rt.alloc());
    entries.push(Entry { word: 2, bytes })?;
    let found = outcome_over(rt.alloc(), &TOPOLOGY, entries, QUIET)?;
    assert!(rt; found.status == Status::ReadFault);
    assert!(rt; found.text.is_empty());
    Ok(())
}

fn usage() -> &'static [u8] {
    b"usage: obs topology N S | report FORM | place FORM CAND | session FORM | verify FORM CERT | trial N SEED \
| outages FORM | pairs FORM | stations FORM\n"
}

// The last line has no word.
fn other_words() -> &'static [u8] {
    b"report tables n
trial 0 5
topology n
topology n s b
Topology n s
report cdf c
report tables n s b m c
session tables n s b m c
session cdf c m with
session cdf c m With k
verify cdf c m
verify cdf c m with k
verify cdf c m k cert more
outages cdf c m k
pairs cdf c
stations cdf c m with k
station cdf c m

"
}

#[test]
fn other_words_get_the_usage_line(rt: HostRuntime) -> Result<(), Fail> {
    let mut count = 0_u32;
    for words in lines(other_words()) {
        let run = Run {
            before: b"",
            words,
            status: b"2",
            text: usage(),
        };
        assert!(rt; is_as_said(run, &ended(rt.alloc(), run, QUIET)?));
        count = count.wrapping_add(1);
    }
    assert!(rt; count == 18);
    Ok(())
}

#[test]
fn a_usage_line_may_be_unwritten(rt: HostRuntime) -> Result<(), Fail> {
    let failing = Outside {
        write_fails: &[0],
        ..QUIET
    };
    let stuck = outcome(rt.alloc(), &["help"], &[], failing)?;
    assert!(rt; stuck.status == Status::WriteFault);
    assert!(rt; stuck.text.is_empty());
    Ok(())
}
