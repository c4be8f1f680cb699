// The printed text of worked studies: outages, pairs and stations.

use crate::scripts::all_end_so;
use std::test::Fail;

const CASES: &[u8] = b"== Outages that are borne.
= Parallel branches.
+ n
node,source\na,1\nb,0
+ s
switch,from,to,closed
+ b
branch,from,to,inservice\nL1,a,b,1\nL2,a,b,1
+ m
meter,kind,at,inservice\nf1,flow,L1,1\nf2,flow,L2,1
> 0 outages tables n s b m
outage\tL1\t1\t1\tobservable\noutage\tL2\t1\t1\tobservable\nend
= No branch.
+ n
node,source\na,1
+ b
branch,from,to,inservice
+ m
meter,kind,at,inservice
> 0 outages tables n s b m
end
= Two sources.
+ n
node,source\na,1\nb,0\nc,1
+ b
branch,from,to,inservice\nL1,a,b,1\nL2,b,c,1
+ m
meter,kind,at,inservice\nf1,flow,L1,1\nib,injection,b,1
> 0 outages tables n s b m
outage\tL1\t1\t1\tobservable\noutage\tL2\t1\t1\tobservable\nend
= Several pairs fall.
+ n
node,source\na,1\nb,0\nc,0\nd,0
+ b
branch,from,to,inservice\nL1,a,b,1\nL2,b,c,1\nL3,c,d,1
+ m
meter,kind,at,inservice\nib,injection,b,1\nic,injection,c,1\njc,injection,c,1
> 0 outages tables n s b m
outage\tL1\t0\t0\tobservable\noutage\tL2\t1\t1\tobservable\noutage\tL3\t2\t2\tobservable\nend
= An owner moves.
+ n
node,source\na,1\nb,0\nc,0\nd,0\ne,0
+ b
branch,from,to,inservice\nL1,a,b,1\nL2,b,c,1\nL3,c,d,1\nL4,d,b,1\nL5,d,e,1
+ m
meter,kind,at,inservice\nf1,flow,L1,1\nic,injection,c,1\nid,injection,d,1\nzd,zero,d,1
> 0 outages tables n s b m
outage\tL1\t0\t0\tobservable\noutage\tL2\t4\t4\tobservable\noutage\tL3\t4\t4\tobservable\noutage\tL4\t4\t4\tobservable\noutage\tL5\t3\t3\tobservable\nend
= A dead part.
+ n
node,source\na,1\nb,0\nc,0\nd,0
+ b
branch,from,to,inservice\nL1,a,b,1\nL2,c,d,1
+ m
meter,kind,at,inservice\nf1,flow,L1,1\nf2,flow,L2,1
> 0 outages tables n s b m
outage\tL1\t0\t0\tobservable\nend
== Outages that are short.
= Two injections of a ring.
+ n
node,source\na,1\nb,0\nc,0
+ s
switch,from,to,closed
+ b
branch,from,to,inservice\nL1,a,b,1\nL2,b,c,1\nL3,c,a,1
+ m
meter,kind,at,inservice\nia,injection,a,1\nf1,flow,L1,1
> 1 outages tables n s b m
outage\tL1\t1\t2\tshort\noutage\tL2\t2\t2\tobservable\noutage\tL3\t1\t2\tshort\nend
= A short case.
+ n
node,source\na,1\nb,0\nc,0\nd,0
+ b
branch,from,to,inservice\nL1,a,b,1\nL2,b,c,1\nL3,c,d,1
+ m
meter,kind,at,inservice\nf1,flow,L1,1\nf2,flow,L1,1\nib,injection,b,1
> 1 outages tables n s b m
outage\tL1\t0\t0\tobservable\noutage\tL2\t1\t1\tobservable\noutage\tL3\t2\t2\tobservable\nend
= An angle behind a front.
+ n
node,source,absolute\na,1,1\nb,0,0\nc,0,0
+ b
branch,from,to,inservice\nL1,a,b,1\nL2,a,c,1\nL3,b,c,1
+ m
meter,kind,at,inservice\nia,injection,a,1\nf2,flow,L2,1\nga,angle,a,0
> 1 outages tables n s b m
outage\tL1\t1\t3\tshort\noutage\tL2\t1\t3\tshort\noutage\tL3\t2\t3\tshort\nend
= Angles fall.
+ n
node,source,absolute\na,1,1\nb,1,0\nc,0,0
+ b
branch,from,to,inservice\nL1,a,b,1\nL2,b,c,1
+ m
meter,kind,at,inservice\nf1,flow,L1,1\nf2,flow,L2,1\ngb,angle,b,1\ngc,angle,c,1
> 1 outages tables n s b m
outage\tL1\t1\t2\tshort\noutage\tL2\t2\t2\tobservable\nend
== Pairs that are borne.
= No class of three.
+ n
node,source\na,1\nb,0
+ s
switch,from,to,closed
+ b
branch,from,to,inservice\nL1,a,b,1
+ m
meter,kind,at,inservice\nf1,flow,L1,1\nf2,flow,L1,1\nf3,flow,L1,1
> 0 pairs tables n s b m
end
= A class of a ring.
+ n
node,source\na,1\nb,0\nc,0
+ b
branch,from,to,inservice\nL1,a,b,1\nL2,b,c,1\nL3,c,a,1
+ m
meter,kind,at,inservice\nia,injection,a,1\nib,injection,b,1\nic,injection,c,1
> 0 pairs tables n s b m
class\tia\tia\nclass\tia\tib\nclass\tia\tic\nend
= One meter more.
+ m
meter,kind,at,inservice\nia,injection,a,1\nib,injection,b,1\nic,injection,c,1\nf1,flow,L1,1
> 0 pairs tables n s b m
end
= Parallel paths.
+ b
branch,from,to,inservice\nL1,a,b,1\nL2,b,c,1\nL3,a,c,1\nL4,a,c,1
+ m
meter,kind,at,inservice\nf1,flow,L1,1\nf2,flow,L2,1\nf3,flow,L3,1\nf4,flow,L4,1
> 0 pairs tables n s b m
class\tf1\tf1\nclass\tf1\tf2\nend
= Classes interleave.
+ b
branch,from,to,inservice\nL1,a,b,1\nL2,b,c,1
+ m
meter,kind,at,inservice\nf1,flow,L1,1\nf2,flow,L2,1\ng1,flow,L1,1\ng2,flow,L2,1
> 0 pairs tables n s b m
class\tf1\tf1\nclass\tf2\tf2\nclass\tf1\tg1\nclass\tf2\tg2\nend
= An idle meter is first.
+ n
node,source\na,1\nb,0\nc,0\nd,0
+ b
branch,from,to,inservice\nL1,a,b,1\nL2,b,c,1\nL3,c,d,1
+ m
meter,kind,at,inservice\ng,injection,d,0\nf1,flow,L1,1\nib,injection,b,1\nic,injection,c,1\nf3,flow,L3,1\nf2,flow,L2,1
> 0 pairs tables n s b m
class\tf1\tf1\nclass\tf1\tib\nclass\tic\tic\nclass\tic\tf3\nend
== Pairs that are short.
= A class of a short case.
+ n
node,source\na,1\nb,0\nc,0\nd,0
+ s
switch,from,to,closed
+ b
branch,from,to,inservice\nL1,a,b,1\nL2,b,c,1\nL3,c,d,1
+ m
meter,kind,at,inservice\nf1,flow,L1,1\nf2,flow,L1,1\nib,injection,b,1
> 1 pairs tables n s b m
class\tf1\tf1\nclass\tf1\tf2\nend
== Stations that are borne.
= Flows belong to their first ends.
+ n
node,source\na,1\nb,0
+ s
switch,from,to,closed
+ b
branch,from,to,inservice\nL1,a,b,1\nL2,b,a,1
+ m
meter,kind,at,inservice\nf1,flow,L1,1\nf2,flow,L2,1
> 0 stations tables n s b m
station\ta\t1\t1\t1\tobservable\nstation\tb\t1\t1\t1\tobservable\nend
= What is lost is there again.
+ n
node,source\na,1\nb,0\nc,0
+ b
branch,from,to,inservice\nL1,a,b,1\nL2,b,c,1\nL3,c,a,1
+ m
meter,kind,at,inservice\nia,injection,a,1\nja,injection,a,1\nib,injection,b,1\njb,injection,b,1
> 0 stations tables n s b m
station\ta\t2\t2\t2\tobservable\nstation\tb\t2\t2\t2\tobservable\nend
== Stations that are short.
= Stations of a path.
+ n
node,source\na,1\nb,0\nc,0\nd,0
+ s
switch,from,to,closed
+ b
branch,from,to,inservice\nL1,a,b,1\nL2,b,c,1\nL3,c,d,1
+ m
meter,kind,at,inservice\nf1,flow,L1,1\nf2,flow,L1,1\nib,injection,b,1
> 1 stations tables n s b m
station\ta\t2\t1\t3\tshort\nstation\tb\t1\t1\t3\tshort\nend
= An open switch joins a station.
+ n
node,source\na,1\nb,0
+ s
switch,from,to,closed\nS1,a,b,0
+ b
branch,from,to,inservice\nL1,a,b,1
+ m
meter,kind,at,inservice\nf1,flow,L1,1\nib,injection,b,1
> 1 stations tables n s b m
station\ta\t2\t0\t1\tshort\nend
= A station over a third node.
+ n
node,source\na,1\nb,0\nc,0\nd,0
+ s
switch,from,to,closed\nS1,d,b,0\nS2,d,c,0
+ b
branch,from,to,inservice\nL1,a,b,1\nL2,b,c,1
+ m
meter,kind,at,inservice\nf1,flow,L1,1\nf2,flow,L2,1\ng2,flow,L2,1\nid,injection,d,1
> 1 stations tables n s b m
station\ta\t1\t1\t2\tshort\nstation\tb\t2\t1\t2\tshort\nend
= A station without a live meter.
+ n
node,source\na,1\nb,0\nc,0
+ s
switch,from,to,closed
+ m
meter,kind,at,inservice\nf1,flow,L1,0\ni1,injection,c,1\ni2,injection,c,1\nf2,flow,L2,0\ng1,flow,L1,1
> 1 stations tables n s b m
station\ta\t1\t1\t2\tshort\nstation\tc\t2\t1\t2\tshort\nend
";

#[test]
fn worked_studies(rt: HostRuntime) -> Result<(), Fail> {
    all_end_so(&rt, rt.alloc(), 23, CASES)
}
