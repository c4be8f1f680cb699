// The printed text of worked placements.

use crate::scripts::all_end_so;
use crate::tests::{QUIET, failing_reads, failing_writes, outcome_over};
use crate::worked::{PATH_CANDIDATES, PATH_PLAN, path, too_long_behind};
use obs_engine::Status;
use std::test::Fail;

const TABLES: [&str; 7] = ["place", "tables", "n", "s", "b", "m", "c"];

const CASES: &[u8] = b"== Placements of a path.
= The path, whose cheapest plan takes the candidate of price 3.
+ n
node,source\na,1\nb,0\nc,0\nd,0
+ s
switch,from,to,closed
+ b
branch,from,to,inservice\nL1,a,b,1\nL2,b,c,1\nL3,c,d,1
+ m
meter,kind,at,inservice\nf1,flow,L1,1\nf2,flow,L1,1\nib,injection,b,1
+ c
candidate,kind,at,price\np1,flow,L2,0\np2,injection,c,3\np3,flow,L3,5
> 0 place tables n s b m c
cost\t3\nchosen\tp2\npair\tmeter\tf1\tL1\npair\tmeter\tib\tL2\npair\tcandidate\tp2\tL3\nlayer\t0\t3\t2\t0\ninside\tmeter\tf1\ninside\tmeter\tf2\ninside\tmeter\tib\ninside\tcandidate\tp1\nend
+ c
candidate,kind,at,price\np1,flow,L2,0
> 1 place tables n s b m c
shortfall\t2\t0\ninside\tmeter\tf1\ninside\tmeter\tf2\ninside\tmeter\tib\ninside\tcandidate\tp1\nend
= What costs nothing makes no layer.
+ c
candidate,kind,at,price\np1,flow,L3,0
> 0 place tables n s b m c
cost\t0\nchosen\tp1\npair\tmeter\tf1\tL1\npair\tmeter\tib\tL2\npair\tcandidate\tp1\tL3\nend
+ c
candidate,kind,at,price\np1,flow,L3,1000000001
> 3 place tables n s b m c
fault\tcandidates\t1\t8\tBadPrice
== An observable case needs no candidate.
+ n
node,source\na,1\nb,0\nc,0
+ s
switch,from,to,closed
+ b
branch,from,to,inservice\nL1,a,b,1\nL2,b,c,1\nL3,c,a,1
+ m
meter,kind,at,inservice\nia,injection,a,1\nf1,flow,L1,1
+ c
candidate,kind,at,price\np1,flow,L2,9
> 0 place tables n s b m c
cost\t0\npair\tmeter\tia\tL3\npair\tmeter\tf1\tL1\nend
== A cdf file has candidates too. Two buses with a branch between them, and one meter that is to be bought.
+ d
BUS DATA FOLLOWS\n   1                     3\n   2                     0\n-999\nBRANCH DATA FOLLOWS\n   1    2\n-999
+ m
meter,kind,at,inservice
+ c
candidate,kind,at,price\nk1,flow,L1,20\nk2,injection,2,10
> 0 place cdf d m c
cost\t10\nchosen\tk2\npair\tcandidate\tk2\tL1\nlayer\t0\t10\t0\t0\nend
== Faults of tables behind a file are printed.
+ d
BUS DATA FOLLOWS\n   1                     3\n   2                     0\n-999\nBRANCH DATA FOLLOWS\n   1    2\n-999
+ p
mpc.bus = [1 3; 2 1];\nmpc.branch = [1 2 0 0 0 0 0 0 0 0 1];
+ m
meter,kind,at,inservice\nf1,flow,L9,1
+ c
candidate,kind,at,price
> 3 place cdf d m c
fault\tmeters\t1\t11\tUnknownPlace
> 3 place matpower p m c
fault\tmeters\t1\t11\tUnknownPlace
+ m
meter,kind,at,inservice
+ c
candidate,kind,at,price\nk1,flow,L1,1000000001
> 3 place cdf d m c
fault\tcandidates\t1\t8\tBadPrice
> 3 place matpower p m c
fault\tcandidates\t1\t8\tBadPrice
";

#[test]
fn placements_of_worked_cases(rt: HostRuntime) -> Result<(), Fail> {
    all_end_so(&rt, rt.alloc(), 10, CASES)
}

// The files of 28, 22, 52, 67 and 67 bytes are read in pieces of seven bytes, with one read more at the end of each.
#[test]
fn each_read_of_a_placement_may_fail(rt: HostRuntime) -> Result<(), Fail> {
    let files = path(PATH_CANDIDATES);
    let reads = failing_reads(&rt, rt.alloc(), &TABLES, &files)?;
    assert!(rt; reads == 41);
    Ok(())
}

// Pieces of at most five bytes are written.
#[test]
fn each_write_of_a_placement_may_fail(rt: HostRuntime) -> Result<(), Fail> {
    let files = path(PATH_CANDIDATES);
    let writes = failing_writes(&rt, rt.alloc(), &TABLES, &files, PATH_PLAN)?;
    assert!(rt; writes > 30);
    Ok(())
}

// No table before them is one, which isn't looked at before all files are read.
#[test]
fn candidates_are_read_before_a_table_is_parsed(rt: HostRuntime) -> Result<(), Fail> {
    let entries = too_long_behind(rt.alloc())?;
    let found = outcome_over(rt.alloc(), &TABLES, entries, QUIET)?;
    assert!(rt; found.status == Status::InputFault);
    assert!(rt; found.text.as_slice() == b"fault\tcandidates\t0\t14\tTooLong\n".as_slice());
    Ok(())
}
