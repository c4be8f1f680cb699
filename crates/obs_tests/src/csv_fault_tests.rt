// The faults of the five tables, each among others that have none.

use crate::scripts::all_end_so;
use std::test::Fail;

const CASES: &[u8] = b"== Each fault comes where it is.
+ n
node,source\na,1\nb,0\nc,0\nd,0
+ s
switch,from,to,closed
+ b
branch,from,to,inservice\nL1,a,b,1\nL2,b,c,1\nL3,c,d,1
+ m
meter,kind,at,inservice\nf1,flow,L1,1\nib,injection,b,1
+ c
candidate,kind,at,price\np1,flow,L2,0\np2,zero,c,1000000000
+ n
> 3 place tables n s b m c
fault\tnodes\t0\t1\tNoHeader
+ n
node\na
> 3 place tables n s b m c
fault\tnodes\t0\t2\tColumnMissing
+ n
node,node\na
> 3 place tables n s b m c
fault\tnodes\t0\t2\tColumnMissing
+ n
node,source,node
> 3 place tables n s b m c
fault\tnodes\t0\t3\tColumnTwice
+ n
source,zone,node\n1,x
> 3 place tables n s b m c
fault\tnodes\t1\t4\tShortRow
+ n
node,source\na,1\n,1
> 3 place tables n s b m c
fault\tnodes\t2\t5\tBadName
+ n
node,source\na,1\n\"b\nb\",1
> 3 place tables n s b m c
fault\tnodes\t2\t5\tBadName
+ n
node,source\na,2
> 3 place tables n s b m c
fault\tnodes\t1\t6\tBadFlag
+ n
node,source\na, 1
> 3 place tables n s b m c
fault\tnodes\t1\t6\tBadFlag
+ n
node,source\na,1\na,0
> 3 place tables n s b m c
fault\tnodes\t2\t9\tNameTwice
+ n
node,source\na,1\nb,0\nc,0\nd,0
+ s
switch,from,to,closed\nS1,a,z,7
> 3 place tables n s b m c
fault\tswitches\t1\t6\tBadFlag
+ s
switch,from,to,closed\nS1,a,z,1
> 3 place tables n s b m c
fault\tswitches\t1\t10\tUnknownNode
+ s
switch,from,to,closed\nS1,a,b,1\nS1,z,b,1
> 3 place tables n s b m c
fault\tswitches\t2\t9\tNameTwice
+ s
switch,from,to,closed
+ b
branch,from,to,inservice\nL1,z,b,1
> 3 place tables n s b m c
fault\tbranches\t1\t10\tUnknownNode
+ b
branch,from,to,inservice\nL1,a,b,1\nL2,b,c,1\nL3,c,d,1
+ m
meter,kind,at,inservice\nf1,Flow,L1,1
> 3 place tables n s b m c
fault\tmeters\t1\t7\tBadKind
+ m
meter,kind,at,inservice\nf1,flow,L9,1
> 3 place tables n s b m c
fault\tmeters\t1\t11\tUnknownPlace
+ m
meter,kind,at,inservice\nz1,zero,L1,1
> 3 place tables n s b m c
fault\tmeters\t1\t11\tUnknownPlace
+ m
meter,kind,at,inservice\nf1,flow,L1,1\nib,injection,b,1
+ c
candidate,kind,at,price\np,flow,L1,1000000001
> 3 place tables n s b m c
fault\tcandidates\t1\t8\tBadPrice
+ c
candidate,kind,at,price\np,flow,L1,00000000000000000001
> 3 place tables n s b m c
fault\tcandidates\t1\t8\tBadPrice
+ c
candidate,kind,at,price\np,flow,a,5
> 3 place tables n s b m c
fault\tcandidates\t1\t11\tUnknownPlace
== Each fault of a row comes for each table. The fault of a table is met in its one row, or in its second after a good
= one.
+ n
node,source\na,1\nb,0\nc,0\nd,0
+ s
switch,from,to,closed
+ b
branch,from,to,inservice\nL1,a,b,1\nL2,b,c,1\nL3,c,d,1
+ m
meter,kind,at,inservice\nf1,flow,L1,1\nib,injection,b,1
+ c
candidate,kind,at,price\np1,flow,L2,0\np2,zero,c,1000000000
+ s
switch,from,to,closed\n,a,b,1
> 3 place tables n s b m c
fault\tswitches\t1\t5\tBadName
+ s
switch,from,to,closed
+ b
branch,from,to,inservice\n\x7f,a,b,1
> 3 place tables n s b m c
fault\tbranches\t1\t5\tBadName
+ b
branch,from,to,inservice\nL1,a,b,1\nL2,b,c,1\nL3,c,d,1
+ m
meter,kind,at,inservice\n,flow,L1,1
> 3 place tables n s b m c
fault\tmeters\t1\t5\tBadName
+ m
meter,kind,at,inservice\nf1,flow,L1,1\nib,injection,b,1
+ c
candidate,kind,at,price\n,flow,L1,1
> 3 place tables n s b m c
fault\tcandidates\t1\t5\tBadName
+ c
candidate,kind,at,price\np1,flow,L2,0\np2,zero,c,1000000000
+ b
branch,from,to,inservice\nL1,a,b,
> 3 place tables n s b m c
fault\tbranches\t1\t6\tBadFlag
+ b
branch,from,to,inservice\nL1,a,b,1\nL2,b,c,1\nL3,c,d,1
+ m
meter,kind,at,inservice\nf1,flow,L1,yes
> 3 place tables n s b m c
fault\tmeters\t1\t6\tBadFlag
+ m
meter,kind,at,inservice\nf1,flow,L1,1\nib,injection,b,1
+ c
candidate,kind,at,price\np,,L1,1
> 3 place tables n s b m c
fault\tcandidates\t1\t7\tBadKind
+ c
candidate,kind,at,price\np1,flow,L2,0\np2,zero,c,1000000000
+ b
branch,from,to,inservice\nL1,a,b,1\nL1,b,c,1
> 3 place tables n s b m c
fault\tbranches\t2\t9\tNameTwice
+ b
branch,from,to,inservice\nL1,a,b,1\nL2,b,c,1\nL3,c,d,1
+ m
meter,kind,at,inservice\nf1,flow,L1,1\nf1,flow,L2,1
> 3 place tables n s b m c
fault\tmeters\t2\t9\tNameTwice
+ m
meter,kind,at,inservice\nf1,flow,L1,1\nib,injection,b,1
+ c
candidate,kind,at,price\np,flow,L1,1\np,flow,L2,1
> 3 place tables n s b m c
fault\tcandidates\t2\t9\tNameTwice
+ c
candidate,kind,at,price\np1,flow,L2,0\np2,zero,c,1000000000
+ s
switch,from,to,closed\nS1,a,b
> 3 place tables n s b m c
fault\tswitches\t1\t4\tShortRow
+ s
switch,from,to,closed
+ m
meter,kind,at,inservice\nf1,flow
> 3 place tables n s b m c
fault\tmeters\t1\t4\tShortRow
+ m
meter,kind,at,inservice\nf1,flow,L1,1\nib,injection,b,1
+ b
branch,from,to,from,inservice\nL1,a,b,c,1
> 3 place tables n s b m c
fault\tbranches\t0\t3\tColumnTwice
+ b
branch,from,to,inservice\nL1,a,b,1\nL2,b,c,1\nL3,c,d,1
+ c
candidate,kind,at\np,flow,L1
> 3 place tables n s b m c
fault\tcandidates\t0\t2\tColumnMissing
+ c
> 3 place tables n s b m c
fault\tcandidates\t0\t1\tNoHeader
+ c
candidate,kind,at,price\np1,flow,L2,0\np2,zero,c,1000000000
+ m
meter,kind,at,inservice\ni1,injection,z,1
> 3 place tables n s b m c
fault\tmeters\t1\t11\tUnknownPlace
== The first table with a fault is named. Each of these tables has a fault.
+ n
node,source\na,1\na,1
+ s
switch,from,to
+ b
+ m
meter
+ c
> 3 place tables n s b m c
fault\tnodes\t2\t9\tNameTwice
+ n
node,source\na,1\nb,0\nc,0\nd,0
> 3 place tables n s b m c
fault\tswitches\t0\t2\tColumnMissing
";

#[test]
fn faults_of_five_tables(rt: HostRuntime) -> Result<(), Fail> {
    all_end_so(&rt, rt.alloc(), 38, CASES)
}
