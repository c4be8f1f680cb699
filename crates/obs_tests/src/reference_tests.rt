// Reference vertices and angle branches: worked cases, with the answers that the definitions give.

use crate::scripts::all_end_so;
use std::test::Fail;

const CASES: &[u8] = b"== An angle meter completes a tree.
= A bus with a source and a mark, and another that a flow meter ties to it; an angle meter stands at the other.
+ n
node,source,absolute\na,1,1\nb,0,0
+ s
switch,from,to,closed
+ b
branch,from,to,inservice\nL1,a,b,1
+ m
meter,kind,at,inservice\nf1,flow,L1,1\ng1,angle,b,1
> 0 report tables n s b m
count\tbuses\t2\ncount\tenergised\t2\ncount\tbranches\t1\ncount\tmeters\t2\ncount\tneeded\t2\ncount\trank\t2\nverdict\tobservable\ntree\ta\npair\tmeter\tf1\tL1\npair\tmeter\tg1\tangle\nisland\ta\ta\nisland\ta\tb\ncritical\tf1\ncritical\tg1\nend
+ cert
tree\ta\npair\tmeter\tf1\tL1\npair\tmeter\tg1\tangle\nend
> 0 verify tables n s b m cert
valid\t1
+ cert
tree\ta\npair\tmeter\tf1\tL1\npair\tmeter\tg1\tL1\nend
> 1 verify tables n s b m cert
flaw\t1\t1\tUnknownName
+ cert
tree\ta\npair\tmeter\tf1\tangle\npair\tmeter\tg1\tangle\nend
> 1 verify tables n s b m cert
flaw\t1\t1\tUnknownName
+ cert
tree\ta\npair\tmeter\tf1\tL1\nend
> 1 verify tables n s b m cert
flaw\t1\t7\tWrongLength
+ cert
tree\ta\npair\tmeter\tf1\tL1\npair\tmeter\tg1\tangle\npair\tmeter\tg1\tangle\nend
> 1 verify tables n s b m cert
flaw\t1\t5\tTwice
+ cert
bound\ta\t1\t1\ninside\tmeter\tf1\nend
> 1 verify tables n s b m cert
flaw\t1\t10\tNotBelow
= The same without the angle meter, and candidates for it.
+ m
meter,kind,at,inservice\nf1,flow,L1,1
> 1 report tables n s b m
count\tbuses\t2\ncount\tenergised\t2\ncount\tbranches\t1\ncount\tmeters\t1\ncount\tneeded\t2\ncount\trank\t1\nverdict\tshort\nbound\ta\t0\t1\nisland\ta\ta\nisland\ta\tb\ncritical\tf1\nend
+ c
candidate,kind,at,price\nc1,angle,a,7\nc2,angle,b,4
> 0 place tables n s b m c
cost\t4\nchosen\tc2\npair\tmeter\tf1\tL1\npair\tcandidate\tc2\tangle\nlayer\t0\t4\t0\t1\nend
+ cert
bound\ta\t0\t1\nend
> 0 verify tables n s b m cert
valid\t1
+ cert
cost\t4\nchosen\tc2\npair\tmeter\tf1\tL1\npair\tcandidate\tc2\tangle\nlayer\t0\t4\t0\t1\nend
> 0 verify tables n s b m with c cert
valid\t1
+ cert
cost\t7\nchosen\tc1\npair\tmeter\tf1\tL1\npair\tcandidate\tc1\tangle\nlayer\t0\t7\t0\t1\nend
> 1 verify tables n s b m with c cert
flaw\t1\t9\tWrongOutside
+ cert
tree\ta\npair\tmeter\tf1\tL1\npair\tcandidate\tc2\tangle\nend
> 1 verify tables n s b m with c cert
flaw\t1\t3\tNotInside
= The branch has the name that stands for angle branches.
+ b
branch,from,to,inservice\nangle,a,b,1
+ m
meter,kind,at,inservice\nf1,flow,angle,1\ng1,angle,b,1
+ c
candidate,kind,at,price
+ input
tree
> 0 session tables n s b m with c
tree\ta\npair\tmeter\tf1\tangle\npair\tmeter\tg1\tangle\nend
+ cert
tree\ta\npair\tmeter\tf1\tangle\npair\tmeter\tg1\tangle\nend
> 0 verify tables n s b m cert
valid\t1
== Marked components need one more. Whichever node of whichever bus has the mark, it counts for the component, where
= that has a source.
= A marked bus alone.
+ n
absolute,node,source\n1,a,1
+ s
switch,from,to,closed
+ b
branch,from,to,inservice
+ m
meter,kind,at,inservice
> 1 report tables n s b m
count\tbuses\t1\ncount\tenergised\t1\ncount\tbranches\t0\ncount\tmeters\t0\ncount\tneeded\t1\ncount\trank\t0\nverdict\tshort\nbound\ta\t0\t0\nisland\ta\ta\nend
= A marked bus without a source, and an unmarked one with a source.
+ n
node,\"absolute\",source\na,1,0\nb,0,1
> 0 report tables n s b m
count\tbuses\t2\ncount\tenergised\t1\ncount\tbranches\t0\ncount\tmeters\t0\ncount\tneeded\t0\ncount\trank\t0\nverdict\tobservable\ntree\tb\nisland\tb\tb\nend
= The marked one has an angle meter at the other.
+ n
node,source,absolute\na,1,0\nb,0,1
+ m
meter,kind,at,inservice\ng1,angle,b,1
> 0 report tables n s b m
count\tbuses\t2\ncount\tenergised\t1\ncount\tbranches\t0\ncount\tmeters\t0\ncount\tneeded\t0\ncount\trank\t0\nverdict\tobservable\ntree\ta\nisland\ta\ta\nend
= A marked bus alone, with an angle meter.
+ n
node,source,absolute\na,1,1
+ m
meter,kind,at,inservice\ng1,angle,a,1
> 0 report tables n s b m
count\tbuses\t1\ncount\tenergised\t1\ncount\tbranches\t0\ncount\tmeters\t1\ncount\tneeded\t1\ncount\trank\t1\nverdict\tobservable\ntree\ta\npair\tmeter\tg1\tangle\nisland\ta\ta\ncritical\tg1\nend
= Its angle meter is out of service, and an injection touches nothing there.
+ m
meter,kind,at,inservice\ni1,injection,a,1\ng1,angle,a,0
> 1 report tables n s b m
count\tbuses\t1\ncount\tenergised\t1\ncount\tbranches\t0\ncount\tmeters\t0\ncount\tneeded\t1\ncount\trank\t0\nverdict\tshort\nbound\ta\t0\t0\nisland\ta\ta\nend
= The second node of a bus is marked.
+ n
node,source,absolute\na,1,0\nb,0,1
+ s
switch,from,to,closed\nS1,a,b,1
+ m
meter,kind,at,inservice\ng1,angle,a,1
> 0 report tables n s b m
count\tbuses\t1\ncount\tenergised\t1\ncount\tbranches\t0\ncount\tmeters\t1\ncount\tneeded\t1\ncount\trank\t1\nverdict\tobservable\ntree\ta\npair\tmeter\tg1\tangle\nisland\ta\ta\ncritical\tg1\nend
= The last bus of a component is marked.
+ n
node,source,absolute\na,1,0\nb,0,0\nc,0,1
+ s
switch,from,to,closed
+ b
branch,from,to,inservice\nL1,a,b,1\nL2,b,c,1
+ m
meter,kind,at,inservice\nf1,flow,L1,1\nf2,flow,L2,1
> 1 report tables n s b m
count\tbuses\t3\ncount\tenergised\t3\ncount\tbranches\t2\ncount\tmeters\t2\ncount\tneeded\t3\ncount\trank\t2\nverdict\tshort\nbound\ta\t0\t2\nisland\ta\ta\nisland\ta\tb\nisland\ta\tc\ncritical\tf1\ncritical\tf2\nend
== Angle meters measure against the reference.
= Two injections and an angle meter at one bus.
+ n
node,source,absolute\na,1,1\nb,0,0
+ s
switch,from,to,closed
+ b
branch,from,to,inservice\nL1,a,b,1
+ m
meter,kind,at,inservice\ni1,injection,a,1\ni2,injection,a,1\ng1,angle,a,1
> 0 report tables n s b m
count\tbuses\t2\ncount\tenergised\t2\ncount\tbranches\t1\ncount\tmeters\t3\ncount\tneeded\t2\ncount\trank\t2\nverdict\tobservable\ntree\ta\npair\tmeter\ti1\tL1\npair\tmeter\tg1\tangle\nisland\ta\ta\nisland\ta\tb\ncritical\tg1\nend
= Angle meters at both ends of a chain, and no other meter.
+ n
node,source,absolute\na,1,1\nb,0,0\nc,0,0
+ b
branch,from,to,inservice\nL1,a,b,1\nL2,b,c,1
+ m
meter,kind,at,inservice\ng1,angle,a,1\ng2,angle,c,1
> 1 report tables n s b m
count\tbuses\t3\ncount\tenergised\t3\ncount\tbranches\t2\ncount\tmeters\t2\ncount\tneeded\t3\ncount\trank\t2\nverdict\tshort\nbound\ta\t0\t2\nisland\ta\ta\nisland\tb\tb\nisland\ta\tc\ncritical\tg1\ncritical\tg2\nend
= An angle meter at one of two buses, and no other meter.
+ n
node,source,absolute\na,1,1\nb,0,0
+ b
branch,from,to,inservice\nL1,a,b,1
+ m
meter,kind,at,inservice\ng1,angle,a,1
> 1 report tables n s b m
count\tbuses\t2\ncount\tenergised\t2\ncount\tbranches\t1\ncount\tmeters\t1\ncount\tneeded\t2\ncount\trank\t1\nverdict\tshort\nbound\ta\t0\t1\nisland\ta\ta\nisland\tb\tb\ncritical\tg1\nend
= An injection over the branch, and an angle candidate at its bus.
+ m
meter,kind,at,inservice\ni1,injection,a,1
> 1 report tables n s b m
count\tbuses\t2\ncount\tenergised\t2\ncount\tbranches\t1\ncount\tmeters\t1\ncount\tneeded\t2\ncount\trank\t1\nverdict\tshort\nbound\ta\t0\t1\nisland\ta\ta\nisland\ta\tb\ncritical\ti1\nend
+ c
candidate,kind,at,price\nc1,angle,a,3
> 0 place tables n s b m c
cost\t3\nchosen\tc1\npair\tmeter\ti1\tL1\npair\tcandidate\tc1\tangle\nlayer\t0\t3\t0\t1\nend
= Two angle meters at one bus, and a flow meter.
+ m
meter,kind,at,inservice\ng1,angle,a,1\ng2,angle,a,1\nf1,flow,L1,1
+ c
candidate,kind,at,price
+ input
critical\ntree\nlose g1\ncritical
> 0 session tables n s b m with c
critical\tf1\nend\ntree\ta\npair\tmeter\tg1\tangle\npair\tmeter\tf1\tL1\nend\nok\t2\t2\ncritical\tg2\ncritical\tf1\nend
+ cert
tree\ta\npair\tmeter\tg1\tangle\npair\tmeter\tg2\tangle\nend
> 1 verify tables n s b m cert
flaw\t1\t6\tCycle
= Angle meters at two buses that a flow meter joins.
+ m
meter,kind,at,inservice\nf1,flow,L1,1\ng1,angle,a,1\ng2,angle,b,1
+ input
critical\ntree
> 0 session tables n s b m with c
end\ntree\ta\npair\tmeter\tf1\tL1\npair\tmeter\tg1\tangle\nend
= Candidates stand behind the meters, and the first of them lies in a component that isn't absolute.
+ n
node,source,absolute\na,1,0\nb,0,0\nc,1,1
+ m
meter,kind,at,inservice\nm1,zero,c,1\nm2,angle,a,1
+ c
candidate,kind,at,price\nc1,angle,a,0\nc2,flow,L1,5\nc3,angle,c,6
> 0 place tables n s b m c
cost\t11\nchosen\tc2\nchosen\tc3\npair\tcandidate\tc2\tL1\npair\tcandidate\tc3\tangle\nlayer\t0\t5\t0\t0\nlayer\t5\t6\t0\t1\nend
= Two angle candidates for a bus, and none for the branch.
+ n
node,source,absolute\na,1,1\nb,0,0
+ m
meter,kind,at,inservice
+ c
candidate,kind,at,price\nc1,angle,a,1\nc2,angle,a,2
> 1 place tables n s b m c
shortfall\t1\t0\ninside\tcandidate\tc1\ninside\tcandidate\tc2\nend
";

#[test]
fn reference_vertices_and_angle_branches(rt: HostRuntime) -> Result<(), Fail> {
    all_end_so(&rt, rt.alloc(), 32, CASES)
}
