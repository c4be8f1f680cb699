// Claims on candidates, and what is said of them: of six buses in two rows, of which one is energised.

use crate::scripts::all_end_so;
use std::test::Fail;

// One candidate is offered, and then four.
#[test]
fn shortfalls(rt: HostRuntime) -> Result<(), Fail> {
    all_end_so(
        &rt,
        rt.alloc(),
        9,
        b"+ n
node,source\na,1\nb,0\nc,0\nd,0\ne,0\nf,0
+ s
switch,from,to,closed
+ b
branch,from,to,inservice\nL1,a,b,1\nL2,b,c,1\nL3,c,d,1\nL4,e,f,1
+ m
meter,kind,at,inservice\nf1,flow,L1,1\nf2,flow,L1,1\nib,injection,b,1\no1,flow,L2,0\nf4,flow,L4,1
+ c
candidate,kind,at,price\np1,flow,L2,0
+ cert
shortfall\t2\t0\ninside\tmeter\tf1\ninside\tmeter\tf2\ninside\tmeter\tib\ninside\tcandidate\tp1\nend
> 0 verify tables n s b m with c cert
valid\t1
+ cert
shortfall\t9\t9\ninside\tmeter\tf1\ninside\tmeter\tf2\ninside\tmeter\tib\ninside\tcandidate\tp1\ninside\tmeter\tzz\nend
> 1 verify tables n s b m with c cert
flaw\t1\t1\tUnknownName
+ cert
shortfall\t9\t9\ninside\tmeter\tf1\ninside\tmeter\tf2\ninside\tmeter\tib\ninside\tcandidate\tp1\ninside\tmeter\to1\nend
> 1 verify tables n s b m with c cert
flaw\t1\t3\tNotInside
+ cert
shortfall\t9\t9\ninside\tmeter\tf1\ninside\tmeter\tf2\ninside\tmeter\tib\ninside\tcandidate\tp1\ninside\tmeter\tf2\nend
> 1 verify tables n s b m with c cert
flaw\t1\t5\tTwice
+ cert
shortfall\t9\t9\ninside\tmeter\tf1\ninside\tmeter\tf2\ninside\tmeter\tib\ninside\tcandidate\tp1\nend
> 1 verify tables n s b m with c cert
flaw\t1\t8\tWrongRank
+ cert
shortfall\t2\t9\ninside\tmeter\tf1\ninside\tmeter\tf2\ninside\tmeter\tib\ninside\tcandidate\tp1\nend
> 1 verify tables n s b m with c cert
flaw\t1\t9\tWrongOutside
+ c
candidate,kind,at,price\np1,flow,L2,0\np2,injection,c,3\np3,flow,L3,5\nq4,flow,L4,1
+ cert
shortfall\t3\t0\ninside\tmeter\tf1\ninside\tmeter\tf2\ninside\tmeter\tib\ninside\tcandidate\tp1\ninside\tcandidate\tp2\ninside\tcandidate\tp3\nend
> 1 verify tables n s b m with c cert
flaw\t1\t10\tNotBelow
+ cert
shortfall\t3\t0\ninside\tmeter\tf1\ninside\tmeter\tf2\ninside\tmeter\tib\ninside\tcandidate\tp1\ninside\tcandidate\tq4\nend
> 1 verify tables n s b m with c cert
flaw\t1\t3\tNotInside
+ cert
shortfall\t2\t2\ninside\tmeter\tf1\ninside\tmeter\tf2\ninside\tmeter\tib\ninside\tcandidate\tp1\nend
> 1 verify tables n s b m with c cert
flaw\t1\t10\tNotBelow
",
    )
}

#[test]
fn costs(rt: HostRuntime) -> Result<(), Fail> {
    all_end_so(
        &rt,
        rt.alloc(),
        22,
        b"+ n
node,source\na,1\nb,0\nc,0\nd,0\ne,0\nf,0
+ s
switch,from,to,closed
+ b
branch,from,to,inservice\nL1,a,b,1\nL2,b,c,1\nL3,c,d,1\nL4,e,f,1
+ m
meter,kind,at,inservice\nf1,flow,L1,1\nf2,flow,L1,1\nib,injection,b,1\no1,flow,L2,0\nf4,flow,L4,1
+ c
candidate,kind,at,price\np1,flow,L2,0\np2,injection,c,3\np3,flow,L3,5\nq4,flow,L4,1
+ cert
cost\t3\nchosen\tp2\npair\tmeter\tf1\tL1\npair\tmeter\tib\tL2\npair\tcandidate\tp2\tL3\nlayer\t0\t3\t2\t0\ninside\tmeter\tf1\ninside\tmeter\tf2\ninside\tmeter\tib\ninside\tcandidate\tp1\nend
> 0 verify tables n s b m with c cert
valid\t1
+ cert
cost\t003\nchosen\tp2\npair\tmeter\tf1\tL1\npair\tmeter\tib\tL2\npair\tcandidate\tp2\tL3\nlayer\t00\t03\t02\t00\ninside\tmeter\tf1\ninside\tmeter\tf2\ninside\tmeter\tib\ninside\tcandidate\tp1\nend
> 0 verify tables n s b m with c cert
valid\t1
+ cert
cost\t2\nchosen\tp2\npair\tmeter\tf1\tL1\npair\tmeter\tib\tL2\npair\tcandidate\tp2\tL3\nlayer\t0\t3\t2\t0\ninside\tmeter\tf1\ninside\tmeter\tf2\ninside\tmeter\tib\ninside\tcandidate\tp1\nend
> 1 verify tables n s b m with c cert
flaw\t1\t12\tWrongCost
+ cert
cost\t4\nchosen\tp2\nchosen\tq4\npair\tmeter\tf1\tL1\npair\tmeter\tib\tL2\npair\tcandidate\tp2\tL3\nlayer\t0\t3\t2\t0\ninside\tmeter\tf1\ninside\tmeter\tf2\ninside\tmeter\tib\ninside\tcandidate\tp1\nend
> 1 verify tables n s b m with c cert
flaw\t1\t12\tWrongCost
+ cert
cost\t3\nchosen\tzz\npair\tmeter\tf1\tL1\npair\tmeter\tib\tL2\npair\tcandidate\tp2\tL3\nlayer\t0\t3\t2\t0\ninside\tmeter\tf1\ninside\tmeter\tf2\ninside\tmeter\tib\ninside\tcandidate\tp1\nend
> 1 verify tables n s b m with c cert
flaw\t1\t1\tUnknownName
+ cert
cost\t3\nchosen\tp2\npair\tmeter\tf1\tL1\npair\tmeter\tib\tL2\npair\tcandidate\tp2\tL3\nlayer\t0\t3\t2\t0\ninside\tmeter\tf1\ninside\tmeter\tf2\ninside\tmeter\tib\ninside\tcandidate\tzz\nend
> 1 verify tables n s b m with c cert
flaw\t1\t1\tUnknownName
+ cert
cost\t3\npair\tmeter\tf1\tL1\npair\tmeter\tib\tL2\npair\tcandidate\tp2\tL3\nlayer\t0\t3\t2\t0\ninside\tmeter\tf1\ninside\tmeter\tf2\ninside\tmeter\tib\ninside\tcandidate\tp1\nend
> 1 verify tables n s b m with c cert
flaw\t1\t3\tNotInside
+ cert
cost\t3\nchosen\tp2\npair\tmeter\to1\tL2\nlayer\t0\t3\t2\t0\ninside\tmeter\tf1\ninside\tmeter\tf2\ninside\tmeter\tib\ninside\tcandidate\tp1\nend
> 1 verify tables n s b m with c cert
flaw\t1\t3\tNotInside
+ cert
cost\t3\nchosen\tp2\npair\tmeter\tf1\tL1\npair\tmeter\tib\tL2\npair\tcandidate\tp2\tL3\nlayer\t0\t3\t2\t0\ninside\tmeter\tf1\ninside\tmeter\tf2\ninside\tmeter\tib\ninside\tcandidate\tp2\nend
> 1 verify tables n s b m with c cert
flaw\t1\t3\tNotInside
+ cert
cost\t3\nchosen\tp2\npair\tmeter\tf1\tL1\npair\tmeter\tib\tL2\npair\tcandidate\tp2\tL3\nlayer\t0\t3\t2\t0\ninside\tmeter\tf1\ninside\tmeter\tf2\ninside\tmeter\tib\ninside\tcandidate\tq4\nend
> 1 verify tables n s b m with c cert
flaw\t1\t3\tNotInside
+ cert
cost\t3\nchosen\tp2\npair\tmeter\tf1\tL1\npair\tmeter\tib\tL2\npair\tcandidate\tp2\tL3\nlayer\t0\t6\t3\t0\ninside\tcandidate\tp3\ninside\tmeter\tf1\ninside\tmeter\tf2\ninside\tmeter\tib\nlayer\t6\t4\t0\t0\nend
> 1 verify tables n s b m with c cert
flaw\t1\t3\tNotInside
+ cert
cost\t3\nchosen\tp2\npair\tcandidate\tp2\tL1\npair\tmeter\tf1\tL1\nlayer\t0\t3\t2\t0\ninside\tmeter\tf1\ninside\tmeter\tf2\ninside\tmeter\tib\ninside\tcandidate\tp1\nend
> 1 verify tables n s b m with c cert
flaw\t1\t4\tNotTouched
+ cert
cost\t9\nchosen\tp2\nchosen\tp2\npair\tmeter\tf1\tL1\npair\tmeter\tib\tL2\npair\tcandidate\tp2\tL3\nlayer\t0\t3\t2\t0\ninside\tmeter\tf1\ninside\tmeter\tf2\ninside\tmeter\tib\ninside\tcandidate\tp1\nend
> 1 verify tables n s b m with c cert
flaw\t1\t5\tTwice
+ cert
cost\t3\nchosen\tp2\npair\tmeter\tf1\tL1\npair\tmeter\tib\tL2\npair\tcandidate\tp2\tL3\nlayer\t0\t3\t2\t0\ninside\tmeter\tf1\ninside\tmeter\tf2\ninside\tmeter\tib\nlayer\t3\t9\t2\t0\ninside\tmeter\tf1\nend
> 1 verify tables n s b m with c cert
flaw\t1\t5\tTwice
+ cert
cost\t3\nchosen\tp2\npair\tmeter\tf1\tL1\npair\tmeter\tf2\tL1\nlayer\t0\t3\t2\t0\ninside\tmeter\tf1\ninside\tmeter\tf2\ninside\tmeter\tib\ninside\tcandidate\tp1\nend
> 1 verify tables n s b m with c cert
flaw\t1\t5\tTwice
+ cert
cost\t3\nchosen\tp2\npair\tmeter\tf1\tL1\nlayer\t0\t3\t9\t9\ninside\tmeter\tf1\ninside\tmeter\tf2\ninside\tmeter\tib\ninside\tcandidate\tp1\nend
> 1 verify tables n s b m with c cert
flaw\t1\t7\tWrongLength
+ cert
cost\t3\nchosen\tp2\npair\tmeter\tf1\tL1\npair\tmeter\tib\tL2\npair\tcandidate\tp2\tL3\nlayer\t0\t3\t1\t0\ninside\tmeter\tf1\ninside\tmeter\tf2\ninside\tmeter\tib\ninside\tcandidate\tp1\nend
> 1 verify tables n s b m with c cert
flaw\t1\t8\tWrongRank
+ cert
cost\t3\nchosen\tp2\npair\tmeter\tf1\tL1\npair\tmeter\tib\tL2\npair\tcandidate\tp2\tL3\nlayer\t0\t3\t2\t9\ninside\tmeter\tf1\ninside\tmeter\tf2\ninside\tmeter\tib\ninside\tcandidate\tp1\nend
> 1 verify tables n s b m with c cert
flaw\t1\t9\tWrongOutside
+ cert
cost\t3\nchosen\tp2\npair\tmeter\tf1\tL1\npair\tmeter\tib\tL2\npair\tcandidate\tp2\tL3\nlayer\t0\t6\t3\t0\ninside\tmeter\tf1\ninside\tmeter\tf2\ninside\tmeter\tib\ninside\tcandidate\tp1\ninside\tcandidate\tp2\ninside\tcandidate\tp3\nend
> 1 verify tables n s b m with c cert
flaw\t1\t10\tNotBelow
+ cert
cost\t3\nchosen\tp2\npair\tmeter\tf1\tL1\npair\tmeter\tib\tL2\npair\tcandidate\tp2\tL3\nlayer\t1\t3\t2\t0\ninside\tmeter\tf1\ninside\tmeter\tf2\ninside\tmeter\tib\ninside\tcandidate\tp1\nend
> 1 verify tables n s b m with c cert
flaw\t1\t11\tWrongLayers
+ cert
cost\t3\nchosen\tp2\npair\tmeter\tf1\tL1\npair\tmeter\tib\tL2\npair\tcandidate\tp2\tL3\nlayer\t0\t0\t2\t0\ninside\tmeter\tf1\ninside\tmeter\tf2\ninside\tmeter\tib\nend
> 1 verify tables n s b m with c cert
flaw\t1\t11\tWrongLayers
+ cert
cost\t3\nchosen\tp2\npair\tmeter\tf1\tL1\npair\tmeter\tib\tL2\npair\tcandidate\tp2\tL3\nlayer\t0\t3\t2\t0\ninside\tmeter\tf1\ninside\tmeter\tf2\ninside\tmeter\tib\ninside\tcandidate\tp1\nlayer\t2\t3\t2\t0\nend
> 1 verify tables n s b m with c cert
flaw\t1\t11\tWrongLayers
",
    )
}
