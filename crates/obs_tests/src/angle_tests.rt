// The column `absolute` and the kind `angle`: their faults, and idle angle meters, which change no answer.

use crate::scripts::all_end_so;
use std::test::Fail;

const CASES: &[u8] = b"== Idle angle meters change no answer.
= Four buses in a row of which none is marked, two meters on the first branch, an injection at the second bus,
= and angle meters among them.
+ n
node,absolute,source\na,0,1\nb,0,0\nc,0,0\nd,0,0
+ s
switch,from,to,closed
+ b
branch,from,to,inservice\nL1,a,b,1\nL2,b,c,1\nL3,c,d,1
+ m
meter,kind,at,inservice\ng1,angle,a,1\nf1,flow,L1,1\nf2,flow,L1,1\ng2,angle,d,0\nib,injection,b,1\ng3,angle,b,1
> 1 report tables n s b m
count\tbuses\t4\ncount\tenergised\t4\ncount\tbranches\t3\ncount\tmeters\t3\ncount\tneeded\t3\ncount\trank\t2\nverdict\tshort\nbound\ta\t1\t1\ninside\tmeter\tf1\ninside\tmeter\tf2\nisland\ta\ta\nisland\ta\tb\nisland\ta\tc\nisland\td\td\ncritical\tib\nend
+ c
candidate,kind,at,price\nq1,angle,d,0\np1,flow,L2,0\np2,injection,c,3\nq2,angle,c,1\np3,flow,L3,5
> 0 place tables n s b m c
cost\t3\nchosen\tp2\npair\tmeter\tf1\tL1\npair\tmeter\tib\tL2\npair\tcandidate\tp2\tL3\nlayer\t0\t3\t2\t0\ninside\tmeter\tf1\ninside\tmeter\tf2\ninside\tmeter\tib\ninside\tcandidate\tp1\nend
= A bound lists live meters alone.
+ cert
bound\ta\t1\t1\ninside\tmeter\tf1\ninside\tmeter\tf2\ninside\tmeter\tg1\nend
> 1 verify tables n s b m cert
flaw\t1\t3\tNotInside
== An idle angle meter is lost and regained.
+ n
node,absolute,source\na,0,1\nb,0,0\nc,0,0\nd,0,0
+ s
switch,from,to,closed
+ b
branch,from,to,inservice\nL1,a,b,1\nL2,b,c,1\nL3,c,d,1
+ m
meter,kind,at,inservice\ng1,angle,a,1\nf1,flow,L1,1\nf2,flow,L1,1\ng2,angle,d,0\nib,injection,b,1\ng3,angle,b,1
+ input
lose g1\nregain g2\nregain g1\nlose ib\nregain ib\ncritical
> 1 session tables n s b m
ok\t2\t3\nok\t2\t3\nok\t2\t3\nok\t1\t3\nok\t2\t3\ncritical\tib\nend
== An angle meter is idle there. The component isn't absolute, or it is dead.
= Two buses with a flow on the branch between them, and an angle meter.
+ s
switch,from,to,closed
+ b
branch,from,to,inservice\nL1,a,b,1
+ m
meter,kind,at,inservice\nf1,flow,L1,1\ng1,angle,b,1
+ n
node,source\na,1\nb,0
> 0 report tables n s b m
count\tbuses\t2\ncount\tenergised\t2\ncount\tbranches\t1\ncount\tmeters\t1\ncount\tneeded\t1\ncount\trank\t1\nverdict\tobservable\ntree\ta\npair\tmeter\tf1\tL1\nisland\ta\ta\nisland\ta\tb\ncritical\tf1\nend
+ n
node,source\na,1,1\nb,0,1
> 0 report tables n s b m
count\tbuses\t2\ncount\tenergised\t2\ncount\tbranches\t1\ncount\tmeters\t1\ncount\tneeded\t1\ncount\trank\t1\nverdict\tobservable\ntree\ta\npair\tmeter\tf1\tL1\nisland\ta\ta\nisland\ta\tb\ncritical\tf1\nend
+ n
node,source,Absolute\na,1,1\nb,0,1
> 0 report tables n s b m
count\tbuses\t2\ncount\tenergised\t2\ncount\tbranches\t1\ncount\tmeters\t1\ncount\tneeded\t1\ncount\trank\t1\nverdict\tobservable\ntree\ta\npair\tmeter\tf1\tL1\nisland\ta\ta\nisland\ta\tb\ncritical\tf1\nend
+ n
absolute,node,source\n0,a,1\n0,b,0
> 0 report tables n s b m
count\tbuses\t2\ncount\tenergised\t2\ncount\tbranches\t1\ncount\tmeters\t1\ncount\tneeded\t1\ncount\trank\t1\nverdict\tobservable\ntree\ta\npair\tmeter\tf1\tL1\nisland\ta\ta\nisland\ta\tb\ncritical\tf1\nend
+ n
node,source,absolute\na,0,1\nb,0,0
> 0 report tables n s b m
count\tbuses\t2\ncount\tenergised\t0\ncount\tbranches\t0\ncount\tmeters\t0\ncount\tneeded\t0\ncount\trank\t0\nverdict\tobservable\nend
== An angle meter is idle behind a file. A file of another form has no absolute node, and angle meters behind it are
= idle.
+ d
BUS DATA FOLLOWS\n   1                     3\n   2                     0\n-999\nBRANCH DATA FOLLOWS\n   1    2\n-999
+ p
mpc.bus = [\n1 3;\n2 1;\n];\nmpc.branch = [\n1 2 0 0 0 0 0 0 0 0 1;\n];
+ m
meter,kind,at,inservice\nf1,flow,L1,1
> 0 report cdf d m
count\tbuses\t2\ncount\tenergised\t2\ncount\tbranches\t1\ncount\tmeters\t1\ncount\tneeded\t1\ncount\trank\t1\nverdict\tobservable\ntree\t1\npair\tmeter\tf1\tL1\nisland\t1\t1\nisland\t1\t2\ncritical\tf1\nend
> 0 report matpower p m
count\tbuses\t2\ncount\tenergised\t2\ncount\tbranches\t1\ncount\tmeters\t1\ncount\tneeded\t1\ncount\trank\t1\nverdict\tobservable\ntree\t1\npair\tmeter\tf1\tL1\nisland\t1\t1\nisland\t1\t2\ncritical\tf1\nend
+ m
meter,kind,at,inservice\ng1,angle,1,1\nf1,flow,L1,1\ng2,angle,2,1
> 0 report cdf d m
count\tbuses\t2\ncount\tenergised\t2\ncount\tbranches\t1\ncount\tmeters\t1\ncount\tneeded\t1\ncount\trank\t1\nverdict\tobservable\ntree\t1\npair\tmeter\tf1\tL1\nisland\t1\t1\nisland\t1\t2\ncritical\tf1\nend
> 0 report matpower p m
count\tbuses\t2\ncount\tenergised\t2\ncount\tbranches\t1\ncount\tmeters\t1\ncount\tneeded\t1\ncount\trank\t1\nverdict\tobservable\ntree\t1\npair\tmeter\tf1\tL1\nisland\t1\t1\nisland\t1\t2\ncritical\tf1\nend
+ m
meter,kind,at,inservice\nf1,flow,L1,1
+ c
candidate,kind,at,price\nc1,angle,2,7\nc2,angle,L1,4
> 3 place cdf d m c
fault\tcandidates\t2\t11\tUnknownPlace
== Faults of the column absolute are printed.
= The same fault is met by a report and by `topology`.
+ s
switch,from,to,closed
+ b
branch,from,to,inservice\nL1,a,b,1\nL2,b,c,1\nL3,c,d,1
+ m
meter,kind,at,inservice\ng1,angle,a,1\nf1,flow,L1,1\nf2,flow,L1,1\ng2,angle,d,0\nib,injection,b,1\ng3,angle,b,1
+ n
absolute,node,source,absolute\n1,a,1,1
> 3 topology n s
fault\tnodes\t0\t3\tColumnTwice
> 3 report tables n s b m
fault\tnodes\t0\t3\tColumnTwice
+ n
absolute,node,absolute\n1,a,1
> 3 topology n s
fault\tnodes\t0\t2\tColumnMissing
> 3 report tables n s b m
fault\tnodes\t0\t2\tColumnMissing
+ n
node,source,absolute\na,1,1\nb,0
> 3 topology n s
fault\tnodes\t2\t4\tShortRow
> 3 report tables n s b m
fault\tnodes\t2\t4\tShortRow
+ n
node,source,absolute\n,1,2
> 3 topology n s
fault\tnodes\t1\t5\tBadName
> 3 report tables n s b m
fault\tnodes\t1\t5\tBadName
+ n
node,source,absolute\na,1, 1
> 3 topology n s
fault\tnodes\t1\t6\tBadFlag
> 3 report tables n s b m
fault\tnodes\t1\t6\tBadFlag
+ n
node,source,absolute\na,1,0\na,1,
> 3 topology n s
fault\tnodes\t2\t6\tBadFlag
> 3 report tables n s b m
fault\tnodes\t2\t6\tBadFlag
+ n
node,source,absolute\na,1,0\na,1,1
> 3 topology n s
fault\tnodes\t2\t9\tNameTwice
> 3 report tables n s b m
fault\tnodes\t2\t9\tNameTwice
== Marked nodes have their buses. Of a switch table the column is passed over, however often it is there.
+ n
node,absolute,source\na,1,1\nb,1,0\nc,0,0
+ s
absolute,switch,from,to,closed,absolute\n2,S1,a,c,1
> 0 topology n s
node\ta\ta\nnode\tb\tb\nnode\tc\ta\ncount\tbuses\t2\nend
== Faults of the kind angle are printed.
+ n
node,absolute,source\na,0,1\nb,0,0\nc,0,0\nd,0,0
+ s
switch,from,to,closed
+ b
branch,from,to,inservice\nL1,a,b,1\nL2,b,c,1\nL3,c,d,1
+ m
meter,kind,at,inservice\ng1,angle,L1,1
> 3 report tables n s b m
fault\tmeters\t1\t11\tUnknownPlace
+ m
meter,kind,at,inservice\ng1,Angle,a,1
> 3 report tables n s b m
fault\tmeters\t1\t7\tBadKind
+ m
meter,kind,at,inservice\ng1,Angle,a,2
> 3 report tables n s b m
fault\tmeters\t1\t6\tBadFlag
== Branch words of pairs are read. In a pair of an angle item the branch is `angle` and nothing else. In one of a flow
= it is the name of a branch, which may be `angle` too.
= Two buses with a flow meter on the branch between them, an idle angle meter and an idle angle candidate.
+ n
node,source\na,1\nb,0
+ s
switch,from,to,closed
+ c
candidate,kind,at,price\nq1,angle,a,0
+ b
branch,from,to,inservice\nL1,a,b,1
+ m
meter,kind,at,inservice\nf1,flow,L1,1\ng1,angle,b,1
+ cert
tree\ta\npair\tmeter\tf1\tL1\nend
> 0 verify tables n s b m with c cert
valid\t1
+ cert
tree\ta\npair\tmeter\tf1\tangle\nend
> 1 verify tables n s b m with c cert
flaw\t1\t1\tUnknownName
+ cert
tree\ta\npair\tmeter\tg1\tL1\nend
> 1 verify tables n s b m with c cert
flaw\t1\t1\tUnknownName
+ cert
tree\ta\npair\tmeter\tg1\tAngle\nend
> 1 verify tables n s b m with c cert
flaw\t1\t1\tUnknownName
+ cert
tree\ta\npair\tmeter\tg1\tangle\nend
> 1 verify tables n s b m with c cert
flaw\t1\t3\tNotInside
+ cert
tree\ta\npair\tcandidate\tq1\tL1\nend
> 1 verify tables n s b m with c cert
flaw\t1\t1\tUnknownName
+ cert
tree\ta\npair\tcandidate\tq1\tangle\nend
> 1 verify tables n s b m with c cert
flaw\t1\t3\tNotInside
+ cert
cost\t0\nchosen\tq1\npair\tcandidate\tq1\tL1\nend
> 1 verify tables n s b m with c cert
flaw\t1\t1\tUnknownName
+ cert
cost\t0\nchosen\tq1\npair\tcandidate\tq1\tangle\nend
> 1 verify tables n s b m with c cert
flaw\t1\t3\tNotInside
= The branch has another name.
+ b
branch,from,to,inservice\nangle,a,b,1
+ m
meter,kind,at,inservice\nf1,flow,angle,1\ng1,angle,b,1
+ cert
tree\ta\npair\tmeter\tf1\tangle\nend
> 0 verify tables n s b m with c cert
valid\t1
+ cert
tree\ta\npair\tmeter\tf1\tL1\nend
> 1 verify tables n s b m with c cert
flaw\t1\t1\tUnknownName
+ cert
tree\ta\npair\tmeter\tg1\tangle\nend
> 1 verify tables n s b m with c cert
flaw\t1\t3\tNotInside
";

#[test]
fn angle_meters(rt: HostRuntime) -> Result<(), Fail> {
    all_end_so(&rt, rt.alloc(), 44, CASES)
}
