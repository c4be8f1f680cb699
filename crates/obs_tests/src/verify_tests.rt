// The answers to worked certificates.

use crate::scripts::all_end_so;
use crate::tests::{QUIET, failing_reads, failing_writes, outcome_over};
use crate::worked::{VERIFY, path, too_long_behind};
use obs_engine::Status;
use std::test::Fail;

// A bound of the path that holds.
const BOUND: &[u8] = b"bound\ta\t1\t1\ninside\tmeter\tf1\ninside\tmeter\tf2\nend\n";

const CASES: &[u8] = b"== Claims on a path.
+ n
node,source\na,1\nb,0\nc,0\nd,0
+ s
switch,from,to,closed
+ b
branch,from,to,inservice\nL1,a,b,1\nL2,b,c,1\nL3,c,d,1
+ m
meter,kind,at,inservice\nf1,flow,L1,1\nf2,flow,L1,1\nib,injection,b,1
+ cert
bound\ta\t1\t1\ninside\tmeter\tf1\ninside\tmeter\tf2\nend
> 0 verify tables n s b m cert
valid\t1
+ cert
end
> 0 verify tables n s b m cert
valid\t0
+ cert
bound\ta\t1\t1\ninside\tmeter\tf1\ninside\tmeter\tf1\nend
> 1 verify tables n s b m cert
flaw\t1\t5\tTwice
+ cert
tree\ta\npair\tmeter\tf1\tL1\npair\tmeter\tf2\tL1\nend
> 1 verify tables n s b m cert
flaw\t1\t5\tTwice
= The second claim is a bound without a list: no branch is touched, and three meters are outside.
+ cert
bound\ta\t1\t1\ninside\tmeter\tf1\ninside\tmeter\tf2\nbound\ta\t0\t3\nend
> 1 verify tables n s b m cert
flaw\t2\t10\tNotBelow
= Claims may come again.
+ cert
bound\ta\t1\t1\r\ninside\tmeter\tf1\r\ninside\tmeter\tf2\r\nbound\ta\t1\t1\r\ninside\tmeter\tf2\r\ninside\tmeter\tf1\r\nend\r
> 0 verify tables n s b m cert
valid\t2
== Bytes that are no certificate.
+ n
node,source\na,1\nb,0\nc,0\nd,0
+ s
switch,from,to,closed
+ b
branch,from,to,inservice\nL1,a,b,1\nL2,b,c,1\nL3,c,d,1
+ m
meter,kind,at,inservice\nf1,flow,L1,1\nf2,flow,L1,1\nib,injection,b,1
+ cert
bound\ta\t1\t1\ninside\tmeter\tf1\ninside\tmeter\tf2
> 3 verify tables n s b m cert
fault\tcertificate\t0\t3\tNoEnd
+ cert
inside\tmeter\tf1\nend
> 3 verify tables n s b m cert
fault\tcertificate\t1\t2\tOutOfPlace
+ cert
end\nend
> 3 verify tables n s b m cert
fault\tcertificate\t2\t4\tAfterEnd
+ cert
tree\ta\n\nend
> 3 verify tables n s b m cert
fault\tcertificate\t2\t1\tBadLine
+ cert
> 3 verify tables n s b m cert
fault\tcertificate\t0\t3\tNoEnd
== Claims on a triangle.
+ n
node,source\na,1\nb,0\nc,0
+ s
switch,from,to,closed
+ b
branch,from,to,inservice\nL1,a,b,1\nL2,b,c,1\nL3,c,a,1
+ m
meter,kind,at,inservice\nia,injection,a,1\nf1,flow,L1,1
+ cert
tree\ta\npair\tmeter\tia\tL3\npair\tmeter\tf1\tL1\nend
> 0 verify tables n s b m cert
valid\t1
+ cert
bound\ta\t2\t0\ninside\tmeter\tia\ninside\tmeter\tf1\nend
> 1 verify tables n s b m cert
flaw\t1\t10\tNotBelow
== Claims on candidates.
+ n
node,source\na,1\nb,0\nc,0\nd,0
+ s
switch,from,to,closed
+ b
branch,from,to,inservice\nL1,a,b,1\nL2,b,c,1\nL3,c,d,1
+ m
meter,kind,at,inservice\nf1,flow,L1,1\nf2,flow,L1,1\nib,injection,b,1
+ c
candidate,kind,at,price\np1,flow,L2,0\np2,injection,c,3\np3,flow,L3,5
+ cert
cost\t3\nchosen\tp2\npair\tmeter\tf1\tL1\npair\tmeter\tib\tL2\npair\tcandidate\tp2\tL3\nlayer\t0\t3\t2\t0\ninside\tmeter\tf1\ninside\tmeter\tf2\ninside\tmeter\tib\ninside\tcandidate\tp1\nend
> 0 verify tables n s b m with c cert
valid\t1
+ cert
cost\t2\nchosen\tp2\npair\tmeter\tf1\tL1\npair\tmeter\tib\tL2\npair\tcandidate\tp2\tL3\nlayer\t0\t3\t2\t0\ninside\tmeter\tf1\ninside\tmeter\tf2\ninside\tmeter\tib\ninside\tcandidate\tp1\nend
> 1 verify tables n s b m with c cert
flaw\t1\t12\tWrongCost
+ cert
cost\t3\nchosen\tp2\npair\tmeter\tf1\tL1\npair\tmeter\tib\tL2\npair\tcandidate\tp2\tL3\nlayer\t0\t3\t1\t0\ninside\tmeter\tf1\ninside\tmeter\tf2\ninside\tmeter\tib\ninside\tcandidate\tp1\nend
> 1 verify tables n s b m with c cert
flaw\t1\t8\tWrongRank
= A higher rank would leave nothing that is below the need.
+ cert
cost\t3\nchosen\tp2\npair\tmeter\tf1\tL1\npair\tmeter\tib\tL2\npair\tcandidate\tp2\tL3\nlayer\t0\t3\t3\t0\ninside\tmeter\tf1\ninside\tmeter\tf2\ninside\tmeter\tib\ninside\tcandidate\tp1\nend
> 1 verify tables n s b m with c cert
flaw\t1\t8\tWrongRank
== Layers show a cost together.
= The path with one meter, two candidates and a certificate that has a layer for each: (3 - 1) * 2 and (3 - 2) * 3.
+ n
node,source\na,1\nb,0\nc,0\nd,0
+ s
switch,from,to,closed
+ b
branch,from,to,inservice\nL1,a,b,1\nL2,b,c,1\nL3,c,d,1
+ m
meter,kind,at,inservice\nf1,flow,L1,1
+ c
candidate,kind,at,price\nq1,flow,L2,2\nq2,flow,L3,5
+ cert
cost\t7\nchosen\tq1\nchosen\tq2\npair\tmeter\tf1\tL1\npair\tcandidate\tq1\tL2\npair\tcandidate\tq2\tL3\nlayer\t0\t2\t1\t0\ninside\tmeter\tf1\nlayer\t2\t5\t2\t0\ninside\tcandidate\tq1\nend
> 0 verify tables n s b m with c cert
valid\t1
== Candidates that were not given are unknown. Without a table of candidates no name is that of one.
+ n
node,source\na,1\nb,0\nc,0\nd,0
+ s
switch,from,to,closed
+ b
branch,from,to,inservice\nL1,a,b,1\nL2,b,c,1\nL3,c,d,1
+ m
meter,kind,at,inservice\nf1,flow,L1,1\nf2,flow,L1,1\nib,injection,b,1
+ cert
shortfall\t2\t0\ninside\tmeter\tf1\ninside\tmeter\tf2\ninside\tmeter\tib\ninside\tcandidate\tp1\nend
> 1 verify tables n s b m cert
flaw\t1\t1\tUnknownName
== Certificates on files of other forms. The other two forms of a case.
+ d
BUS DATA FOLLOWS\n   1                     3\n   2                     0\n-999\nBRANCH DATA FOLLOWS\n   1    2\n-999
+ m
meter,kind,at,inservice\nf1,flow,L1,1
+ cert
tree\t1\npair\tmeter\tf1\tL1\nend
> 0 verify cdf d m cert
valid\t1
+ p
mpc.bus = [\n1 3;\n2 1;\n];\nmpc.branch = [\n1 2 0 0 0 0 0 0 0 0 1;\n];
+ m
meter,kind,at,inservice
+ c
candidate,kind,at,price\nk1,flow,L1,2
+ cert
cost\t2\nchosen\tk1\npair\tcandidate\tk1\tL1\nlayer\t0\t2\t0\t0\nend
> 0 verify matpower p m with c cert
valid\t1
== A case is judged before a certificate. The bytes are no certificate either.
+ n
node,source\na,2
+ s
switch,from,to,closed
+ b
branch,from,to,inservice\nL1,a,b,1\nL2,b,c,1\nL3,c,d,1
+ m
meter,kind,at,inservice\nf1,flow,L1,1\nf2,flow,L1,1\nib,injection,b,1
+ cert
end\nend
> 3 verify tables n s b m cert
fault\tnodes\t1\t6\tBadFlag
== An absent certificate is a read fault.
+ n
node,source\na,1\nb,0\nc,0\nd,0
+ s
switch,from,to,closed
+ b
branch,from,to,inservice\nL1,a,b,1\nL2,b,c,1\nL3,c,d,1
+ m
meter,kind,at,inservice\nf1,flow,L1,1\nf2,flow,L1,1\nib,injection,b,1
> 4 verify tables n s b m cert
";

#[test]
fn worked_certificates(rt: HostRuntime) -> Result<(), Fail> {
    all_end_so(&rt, rt.alloc(), 23, CASES)
}

// The files of 28, 22, 52, 67 and 48 bytes are read in pieces of seven bytes, with one read more at the end of each.
#[test]
fn each_read_of_a_certificate_may_fail(rt: HostRuntime) -> Result<(), Fail> {
    let files = path(BOUND);
    let reads = failing_reads(&rt, rt.alloc(), &VERIFY, &files)?;
    assert!(rt; reads == 38);
    Ok(())
}

// Pieces of at most five bytes are written.
#[test]
fn each_write_of_a_verdict_may_fail(rt: HostRuntime) -> Result<(), Fail> {
    let files = path(BOUND);
    let writes = failing_writes(&rt, rt.alloc(), &VERIFY, &files, b"valid\t1\n")?;
    assert!(rt; writes == 2);
    Ok(())
}

// No table before it is one, which isn't looked at before all files are read.
#[test]
fn a_certificate_is_read_before_a_table_is_parsed(rt: HostRuntime) -> Result<(), Fail> {
    let entries = too_long_behind(rt.alloc())?;
    let found = outcome_over(rt.alloc(), &VERIFY, entries, QUIET)?;
    assert!(rt; found.status == Status::InputFault);
    assert!(rt; found.text.as_slice() == b"fault\tcertificate\t0\t14\tTooLong\n".as_slice());
    Ok(())
}
