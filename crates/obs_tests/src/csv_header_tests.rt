// The faults of the header and of short rows, for the tables whose other faults csv_fault_tests.rt has.

use crate::scripts::all_end_so;
use std::test::Fail;

#[test]
fn each_fault_of_a_header_comes_for_each_table(rt: HostRuntime) -> Result<(), Fail> {
    all_end_so(
        &rt,
        rt.alloc(),
        10,
        b"+ n
node,source\na,1\nb,0
+ s
switch,from,to,closed
+ b
branch,from,to,inservice\nL1,a,b,1
+ m
meter,kind,at,inservice\nf1,flow,L1,1
+ c
candidate,kind,at,price\np1,flow,L1,0
+ s
> 3 place tables n s b m c
fault\tswitches\t0\t1\tNoHeader
+ s
switch,from,to,closed,from
> 3 place tables n s b m c
fault\tswitches\t0\t3\tColumnTwice
+ s
switch,from,to,closed
+ b
> 3 place tables n s b m c
fault\tbranches\t0\t1\tNoHeader
+ b
branch,from,to
> 3 place tables n s b m c
fault\tbranches\t0\t2\tColumnMissing
+ b
branch,from,to,inservice\nL1,a,b
> 3 place tables n s b m c
fault\tbranches\t1\t4\tShortRow
+ b
branch,from,to,inservice\nL1,a,b,1
+ m
> 3 place tables n s b m c
fault\tmeters\t0\t1\tNoHeader
+ m
meter,kind,at
> 3 place tables n s b m c
fault\tmeters\t0\t2\tColumnMissing
+ m
meter,kind,at,inservice,at
> 3 place tables n s b m c
fault\tmeters\t0\t3\tColumnTwice
+ m
meter,kind,at,inservice\nf1,flow,L1,1
+ c
candidate,kind,at,price,candidate
> 3 place tables n s b m c
fault\tcandidates\t0\t3\tColumnTwice
+ c
candidate,kind,at,price\np1,flow,L1
> 3 place tables n s b m c
fault\tcandidates\t1\t4\tShortRow
",
    )
}
