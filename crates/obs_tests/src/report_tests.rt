// The printed text of worked reports.

use crate::reference_cases::NO_BRANCHES;
use crate::scripts::all_end_so;
use crate::tests::{QUIET, answers, failing_reads, failing_writes, outcome_over};
use crate::worked::{
    NO_METERS, NO_SWITCHES, PATH_BRANCHES, PATH_METERS, PATH_NODES, many_nodes, too_long,
};
use obs_engine::Status;
use obs_io::Entry;
use std::alloc::Global;
use std::process::Abort;
use std::test::Fail;

const TABLES: [&str; 6] = ["report", "tables", "n", "s", "b", "m"];

// The files of the path, and what is reported of them.
const PATH: [&[u8]; 5] = [b"", PATH_NODES, NO_SWITCHES, PATH_BRANCHES, PATH_METERS];

const PATH_TEXT: &[u8] =
    b"count\tbuses\t4\ncount\tenergised\t4\ncount\tbranches\t3\ncount\tmeters\t3\ncount\tneeded\t3\ncount\trank\t2\nverdict\tshort\nbound\ta\t1\t1\ninside\tmeter\tf1\ninside\tmeter\tf2\nisland\ta\ta\nisland\ta\tb\nisland\ta\tc\nisland\td\td\ncritical\tib\nend\n";

const CASES: &[u8] = b"== A report shows what falls short.
= Four buses in a row, two meters on the first branch, and an injection at the second bus.
+ n
node,source\na,1\nb,0\nc,0\nd,0
+ s
switch,from,to,closed
+ b
branch,from,to,inservice\nL1,a,b,1\nL2,b,c,1\nL3,c,d,1
+ m
meter,kind,at,inservice\nf1,flow,L1,1\nf2,flow,L1,1\nib,injection,b,1
> 1 report tables n s b m
count\tbuses\t4\ncount\tenergised\t4\ncount\tbranches\t3\ncount\tmeters\t3\ncount\tneeded\t3\ncount\trank\t2\nverdict\tshort\nbound\ta\t1\t1\ninside\tmeter\tf1\ninside\tmeter\tf2\nisland\ta\ta\nisland\ta\tb\nisland\ta\tc\nisland\td\td\ncritical\tib\nend
= An injection has one branch of the three at its bus.
+ n
node,source\nh,1\nx,0\ny,0\nz,0
+ b
branch,from,to,inservice\nL1,h,x,1\nL2,h,y,1\nL3,h,z,1
+ m
meter,kind,at,inservice\nih,injection,h,1
> 1 report tables n s b m
count\tbuses\t4\ncount\tenergised\t4\ncount\tbranches\t3\ncount\tmeters\t1\ncount\tneeded\t3\ncount\trank\t1\nverdict\tshort\nbound\th\t0\t1\nisland\th\th\nisland\tx\tx\nisland\ty\ty\nisland\tz\tz\ncritical\tih\nend
= Two injections beside one another.
+ n
node,source\na,1\nb,0\nc,0\nd,0\ne,0
+ b
branch,from,to,inservice\nL1,a,b,1\nL2,b,c,1\nL3,c,d,1\nL4,d,e,1
+ m
meter,kind,at,inservice\nib,injection,b,1\nic,injection,c,1
> 1 report tables n s b m
count\tbuses\t5\ncount\tenergised\t5\ncount\tbranches\t4\ncount\tmeters\t2\ncount\tneeded\t4\ncount\trank\t2\nverdict\tshort\nbound\ta\t0\t2\nisland\ta\ta\nisland\tb\tb\nisland\tc\tc\nisland\td\td\nisland\te\te\ncritical\tib\ncritical\tic\nend
== Observable cases have the good status.
= Nothing is energised.
+ n
node,source\na,0\nb,0
+ s
switch,from,to,closed
+ b
branch,from,to,inservice\nL1,a,b,1
+ m
meter,kind,at,inservice\nf1,flow,L1,1
> 0 report tables n s b m
count\tbuses\t2\ncount\tenergised\t0\ncount\tbranches\t0\ncount\tmeters\t0\ncount\tneeded\t0\ncount\trank\t0\nverdict\tobservable\nend
= One bus needs nothing.
+ n
node,source\na,1
+ b
branch,from,to,inservice
+ m
meter,kind,at,inservice
> 0 report tables n s b m
count\tbuses\t1\ncount\tenergised\t1\ncount\tbranches\t0\ncount\tmeters\t0\ncount\tneeded\t0\ncount\trank\t0\nverdict\tobservable\ntree\ta\nisland\ta\ta\nend
= The injection leaves the first branch to the flow.
+ n
node,source\na,1\nb,0\nc,0
+ b
branch,from,to,inservice\nL1,a,b,1\nL2,b,c,1\nL3,c,a,1
+ m
meter,kind,at,inservice\nia,injection,a,1\nf1,flow,L1,1
> 0 report tables n s b m
count\tbuses\t3\ncount\tenergised\t3\ncount\tbranches\t3\ncount\tmeters\t2\ncount\tneeded\t2\ncount\trank\t2\nverdict\tobservable\ntree\ta\npair\tmeter\tia\tL3\npair\tmeter\tf1\tL1\nisland\ta\ta\nisland\ta\tb\nisland\ta\tc\ncritical\tia\ncritical\tf1\nend
= Of two meters on parallel branches neither is critical.
+ n
node,source\na,1\nb,0
+ b
branch,from,to,inservice\nL1,a,b,1\nL2,a,b,1
+ m
meter,kind,at,inservice\nf1,flow,L1,1\nf2,flow,L2,1
> 0 report tables n s b m
count\tbuses\t2\ncount\tenergised\t2\ncount\tbranches\t2\ncount\tmeters\t2\ncount\tneeded\t1\ncount\trank\t1\nverdict\tobservable\ntree\ta\npair\tmeter\tf1\tL1\nisland\ta\ta\nisland\ta\tb\nend
= Two components with a source each, whose meters stand in another order than their branches.
+ n
node,source\na,1\nb,0\nc,1\nd,0
+ b
branch,from,to,inservice\nL1,a,b,1\nL2,c,d,1
+ m
meter,kind,at,inservice\ng2,flow,L2,1\nf1,flow,L1,1
> 0 report tables n s b m
count\tbuses\t4\ncount\tenergised\t4\ncount\tbranches\t2\ncount\tmeters\t2\ncount\tneeded\t2\ncount\trank\t2\nverdict\tobservable\ntree\ta\npair\tmeter\tf1\tL1\ntree\tc\npair\tmeter\tg2\tL2\nisland\ta\ta\nisland\ta\tb\nisland\tc\tc\nisland\tc\td\ncritical\tg2\ncritical\tf1\nend
= A branch without a source, before one with a source.
+ n
node,source\nh,0\nd,0\nb,1\nc,0
+ b
branch,from,to,inservice\nL1,h,d,1\nL2,b,c,1
+ m
meter,kind,at,inservice\nf1,flow,L1,1\nf2,flow,L2,1
> 0 report tables n s b m
count\tbuses\t4\ncount\tenergised\t2\ncount\tbranches\t1\ncount\tmeters\t1\ncount\tneeded\t1\ncount\trank\t1\nverdict\tobservable\ntree\tb\npair\tmeter\tf2\tL2\nisland\tb\tb\nisland\tb\tc\ncritical\tf2\nend
== The first fault of four tables is printed.
+ n
node,source\na,2
+ s
switch,from,to,closed
+ b
branch,from,to,inservice\nL1,a,b,1\nL2,b,c,1\nL3,c,d,1
+ m
meter,kind,at,inservice\nf1,flow,L1,1\nf2,flow,L1,1\nib,injection,b,1
> 3 report tables n s b m
fault\tnodes\t1\t6\tBadFlag
+ n
node,source\na,1\nb,0\nc,0\nd,0
+ m
meter,kind,at,inservice\nf1,flow,L9,1
> 3 report tables n s b m
fault\tmeters\t1\t11\tUnknownPlace
+ n
+ m
meter,kind,at,inservice\nf1,flow,L1,1\nf2,flow,L1,1\nib,injection,b,1
> 3 report tables n s b m
fault\tnodes\t0\t1\tNoHeader
== A fault of nodes alone is printed. The other tables have headers alone.
+ n
node,source\na,2
+ s
switch,from,to,closed
+ b
branch,from,to,inservice
+ m
meter,kind,at,inservice
> 3 report tables n s b m
fault\tnodes\t1\t6\tBadFlag
+ n
> 3 report tables n s b m
fault\tnodes\t0\t1\tNoHeader
== The short example is reported.
= A ring of six buses, of which one is two bars with a closed coupler between them. Two meters on one line, a flow and an injection count; a meter on a line that is out of service doesn't, and neither does a meter that is.
+ n
node,source\nAlder,1\nBirch,0\nCedar,0\nDune,0\nElm,0\nFern,0\nFern bar 2,0
+ s
switch,from,to,closed\nFern coupler,Fern,Fern bar 2,1
+ b
branch,from,to,inservice\nAlder-Birch,Alder,Birch,1\nBirch-Cedar,Birch,Cedar,1\nCedar-Dune,Cedar,Dune,1\nDune-Elm,Dune,Elm,1\nElm-Fern,Elm,Fern,1\nFern-Alder,Fern bar 2,Alder,1\nBirch-Elm,Birch,Elm,0
+ m
meter,kind,at,inservice\nAlder line P,flow,Alder-Birch,1\nBirch line P,flow,Alder-Birch,1\nCedar line P,flow,Cedar-Dune,1\nElm bus P,injection,Elm,1\nBirch tie P,flow,Birch-Elm,1\nFern bus P,injection,Fern,0
> 1 report tables n s b m
count\tbuses\t6\ncount\tenergised\t6\ncount\tbranches\t6\ncount\tmeters\t4\ncount\tneeded\t5\ncount\trank\t3\nverdict\tshort\nbound\tAlder\t1\t2\ninside\tmeter\tAlder line P\ninside\tmeter\tBirch line P\nisland\tAlder\tAlder\nisland\tAlder\tBirch\nisland\tCedar\tCedar\nisland\tCedar\tDune\nisland\tElm\tElm\nisland\tFern\tFern\ncritical\tCedar line P\ncritical\tElm bus P\nend
";

#[test]
fn worked_reports(rt: HostRuntime) -> Result<(), Fail> {
    all_end_so(&rt, rt.alloc(), 15, CASES)
}

fn has_too_many_nodes(
    rt: &impl Abort,
    alloc: Global,
    branches: &'static [u8],
    meters: &'static [u8],
) -> Result<(), Fail> {
    let nodes = many_nodes(alloc, 20001)?;
    let text = b"fault\tnodes\t20001\t12\tTooMany\n";
    let files = [b"".as_slice(), &nodes, NO_SWITCHES, branches, meters];
    answers(rt, alloc, &TABLES, &files, Status::InputFault, text)
}

#[test]
fn too_many_nodes_are_not_reported(rt: HostRuntime) -> Result<(), Fail> {
    has_too_many_nodes(&rt, rt.alloc(), PATH_BRANCHES, PATH_METERS)?;
    has_too_many_nodes(&rt, rt.alloc(), NO_BRANCHES, NO_METERS)
}

// The files of 28, 22, 52 and 67 bytes are read in pieces of seven bytes, with one read more at the end of each.
#[test]
fn each_read_of_a_report_may_fail(rt: HostRuntime) -> Result<(), Fail> {
    let reads = failing_reads(&rt, rt.alloc(), &TABLES, &PATH)?;
    assert!(rt; reads == 30);
    Ok(())
}

// Pieces of at most five bytes are written.
#[test]
fn each_write_of_a_report_may_fail(rt: HostRuntime) -> Result<(), Fail> {
    let writes = failing_writes(&rt, rt.alloc(), &TABLES, &PATH, PATH_TEXT)?;
    assert!(rt; writes >= 34);
    Ok(())
}

// No other file is held.
#[test]
fn nodes_are_judged_before_the_other_tables_are_read(rt: HostRuntime) -> Result<(), Fail> {
    let long = too_long(rt.alloc())?;
    let files = [b"".as_slice(), &long];
    let text = b"fault\tnodes\t0\t14\tTooLong\n";
    let status = Status::InputFault;
    answers(&rt, rt.alloc(), &TABLES, &files, status, text)
}

// No file of meters is held.
#[test]
fn branches_are_judged_before_meters_are_read(rt: HostRuntime) -> Result<(), Fail> {
    let long = too_long(rt.alloc())?;
    let files = [b"".as_slice(), PATH_NODES, NO_SWITCHES, &long];
    let text = b"fault\tbranches\t0\t14\tTooLong\n";
    let status = Status::InputFault;
    answers(&rt, rt.alloc(), &TABLES, &files, status, text)
}

// No file of switches is held, and that of branches would be too long.
#[test]
fn tables_are_read_in_the_order_of_their_words(rt: HostRuntime) -> Result<(), Fail> {
    let mut entries = Vec::new(rt.alloc());
    entries.push(Entry {
        word: 2,
        bytes: Vec::from_slice(rt.alloc(), PATH_NODES)?,
    })?;
    entries.push(Entry {
        word: 4,
        bytes: too_long(rt.alloc())?,
    })?;
    let found = outcome_over(rt.alloc(), &TABLES, entries, QUIET)?;
    assert!(rt; found.status == Status::ReadFault);
    assert!(rt; found.text.is_empty());
    Ok(())
}
