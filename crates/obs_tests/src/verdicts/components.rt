// Claims on components, and what is said of them.

use crate::scripts::all_end_so;
use std::test::Fail;

// Of six buses in two rows, of which one is energised, with a meter out of service and one where nothing is energised beside three
// live ones. Four candidates are offered.
#[test]
fn trees(rt: HostRuntime) -> Result<(), Fail> {
    all_end_so(
        &rt,
        rt.alloc(),
        17,
        b"+ n
node,source\na,1\nb,0\nc,0\nd,0\ne,0\nf,0
+ s
switch,from,to,closed
+ b
branch,from,to,inservice\nL1,a,b,1\nL2,b,c,1\nL3,c,d,1\nL4,e,f,1
+ m
meter,kind,at,inservice\nf1,flow,L1,1\nf2,flow,L1,1\nib,injection,b,1\no1,flow,L2,0\nf4,flow,L4,1
+ c
candidate,kind,at,price\np1,flow,L2,0\np2,injection,c,3\np3,flow,L3,5\nq4,flow,L4,1
+ cert
end
> 0 verify tables n s b m with c cert
valid\t0
+ cert
inside\tmeter\tf1\nend
> 3 verify tables n s b m with c cert
fault\tcertificate\t1\t2\tOutOfPlace
+ cert
end\nend
> 3 verify tables n s b m with c cert
fault\tcertificate\t2\t4\tAfterEnd
+ cert
tree\tz\nend
> 1 verify tables n s b m with c cert
flaw\t1\t1\tUnknownName
+ cert
tree\ta\npair\tmeter\tzz\tL1\nend
> 1 verify tables n s b m with c cert
flaw\t1\t1\tUnknownName
+ cert
tree\ta\npair\tcandidate\tf1\tL1\nend
> 1 verify tables n s b m with c cert
flaw\t1\t1\tUnknownName
+ cert
tree\tb\npair\tmeter\tf1\tL9\nend
> 1 verify tables n s b m with c cert
flaw\t1\t1\tUnknownName
+ cert
tree\tb\npair\tmeter\tf1\tL2\nend
> 1 verify tables n s b m with c cert
flaw\t1\t2\tNotComponent
+ cert
tree\te\npair\tmeter\tf4\tL4\nend
> 1 verify tables n s b m with c cert
flaw\t1\t2\tNotComponent
+ cert
tree\ta\npair\tmeter\to1\tL2\nend
> 1 verify tables n s b m with c cert
flaw\t1\t3\tNotInside
+ cert
tree\ta\npair\tmeter\tf4\tL4\nend
> 1 verify tables n s b m with c cert
flaw\t1\t3\tNotInside
+ cert
tree\ta\npair\tcandidate\tp1\tL3\nend
> 1 verify tables n s b m with c cert
flaw\t1\t3\tNotInside
+ cert
tree\ta\npair\tmeter\tf1\tL2\npair\tmeter\tf1\tL1\nend
> 1 verify tables n s b m with c cert
flaw\t1\t4\tNotTouched
+ cert
tree\ta\npair\tmeter\tf1\tL1\npair\tmeter\tf2\tL1\nend
> 1 verify tables n s b m with c cert
flaw\t1\t5\tTwice
+ cert
tree\ta\npair\tmeter\tib\tL1\npair\tmeter\tib\tL2\nend
> 1 verify tables n s b m with c cert
flaw\t1\t5\tTwice
+ cert
tree\ta\npair\tmeter\tf1\tL1\npair\tmeter\tib\tL2\nend
> 1 verify tables n s b m with c cert
flaw\t1\t7\tWrongLength
+ cert
tree\ta\nend
> 1 verify tables n s b m with c cert
flaw\t1\t7\tWrongLength
",
    )
}

// Of three buses in a ring, with two meters and then three.
#[test]
fn rings(rt: HostRuntime) -> Result<(), Fail> {
    all_end_so(
        &rt,
        rt.alloc(),
        6,
        b"+ n
node,source\na,1\nb,0\nc,0
+ s
switch,from,to,closed
+ b
branch,from,to,inservice\nL1,a,b,1\nL2,b,c,1\nL3,c,a,1
+ c
candidate,kind,at,price
+ m
meter,kind,at,inservice\nia,injection,a,1\nf1,flow,L1,1
+ cert
tree\ta\npair\tmeter\tia\tL3\npair\tmeter\tf1\tL1\nend
> 0 verify tables n s b m with c cert
valid\t1
+ cert
bound\ta\t2\t0\ninside\tmeter\tia\ninside\tmeter\tf1\nend
> 1 verify tables n s b m with c cert
flaw\t1\t10\tNotBelow
+ cert
cost\t0\nchosen\tp2\nend
> 1 verify tables n s b m with c cert
flaw\t1\t1\tUnknownName
+ cert
cost\t0\npair\tmeter\tia\tL3\npair\tmeter\tf1\tL1\nend
> 0 verify tables n s b m with c cert
valid\t1
+ m
meter,kind,at,inservice\nia,injection,a,1\nf1,flow,L1,1\nf2,flow,L2,1
+ cert
tree\ta\npair\tmeter\tia\tL3\npair\tmeter\tf1\tL1\npair\tmeter\tf2\tL2\nend
> 1 verify tables n s b m with c cert
flaw\t1\t6\tCycle
+ cert
cost\t0\npair\tmeter\tia\tL3\npair\tmeter\tf1\tL1\npair\tmeter\tf2\tL2\nend
> 1 verify tables n s b m with c cert
flaw\t1\t6\tCycle
",
    )
}

#[test]
fn bounds(rt: HostRuntime) -> Result<(), Fail> {
    all_end_so(
        &rt,
        rt.alloc(),
        14,
        b"+ n
node,source\na,1\nb,0\nc,0\nd,0\ne,0\nf,0
+ s
switch,from,to,closed
+ b
branch,from,to,inservice\nL1,a,b,1\nL2,b,c,1\nL3,c,d,1\nL4,e,f,1
+ m
meter,kind,at,inservice\nf1,flow,L1,1\nf2,flow,L1,1\nib,injection,b,1\no1,flow,L2,0\nf4,flow,L4,1
+ c
candidate,kind,at,price\np1,flow,L2,0\np2,injection,c,3\np3,flow,L3,5\nq4,flow,L4,1
+ cert
bound\ta\t1\t1\ninside\tmeter\tf1\ninside\tmeter\tf2\nend
> 0 verify tables n s b m with c cert
valid\t1
+ cert
bound\ta\t01\t001\ninside\tmeter\tf1\ninside\tmeter\tf2\nend
> 0 verify tables n s b m with c cert
valid\t1
+ cert
bound\ta\t1\t1\ninside\tmeter\tf1\ninside\tmeter\tf2
> 3 verify tables n s b m with c cert
fault\tcertificate\t0\t3\tNoEnd
+ cert
bound\tz\t1\t1\ninside\tmeter\tf1\ninside\tmeter\tf2\nend
> 1 verify tables n s b m with c cert
flaw\t1\t1\tUnknownName
+ cert
bound\tb\t1\t1\ninside\tmeter\tzz\nend
> 1 verify tables n s b m with c cert
flaw\t1\t1\tUnknownName
+ cert
bound\tb\t1\t1\ninside\tmeter\to1\nend
> 1 verify tables n s b m with c cert
flaw\t1\t2\tNotComponent
+ cert
bound\ta\t1\t1\ninside\tmeter\to1\ninside\tmeter\to1\nend
> 1 verify tables n s b m with c cert
flaw\t1\t3\tNotInside
+ cert
bound\ta\t1\t1\ninside\tcandidate\tp1\nend
> 1 verify tables n s b m with c cert
flaw\t1\t3\tNotInside
+ cert
bound\ta\t9\t9\ninside\tmeter\tf1\ninside\tmeter\tf1\nend
> 1 verify tables n s b m with c cert
flaw\t1\t5\tTwice
+ cert
bound\ta\t9\t9\ninside\tmeter\tf1\ninside\tmeter\tf2\nend
> 1 verify tables n s b m with c cert
flaw\t1\t8\tWrongRank
+ cert
bound\ta\t1\t9\ninside\tmeter\tf1\ninside\tmeter\tf2\nend
> 1 verify tables n s b m with c cert
flaw\t1\t9\tWrongOutside
+ cert
bound\ta\t2\t1\ninside\tmeter\tf1\ninside\tmeter\tib\nend
> 1 verify tables n s b m with c cert
flaw\t1\t10\tNotBelow
+ cert
bound\ta\t1\t1\ninside\tmeter\tf1\ninside\tmeter\tf2\ntree\tb\nbound\tz\t1\t1\nend
> 1 verify tables n s b m with c cert
flaw\t2\t2\tNotComponent
+ cert
bound\ta\t1\t1\ninside\tmeter\tf1\ninside\tmeter\tf2\nbound\ta\t1\t1\ninside\tmeter\tf1\ninside\tmeter\tf2\nend
> 0 verify tables n s b m with c cert
valid\t2
",
    )
}
