// Sessions over reference vertices and angle branches: what each edit of a worked case answers, and that each present
// case answers as a session that begins with it.

use crate::reference_cases::{answers_anew, certifies, tables_of};
use crate::scripts::{all_end_so, input_of, nth_run};
use std::test::Fail;

#[test]
fn edits_merge_reference_vertices(rt: HostRuntime) -> Result<(), Fail> {
    all_end_so(
        &rt,
        rt.alloc(),
        7,
        b"= A switch between two marked buses, each with an angle meter.
+ n
node,source,absolute\na,1,1\nb,1,1
+ s
switch,from,to,closed\nS1,a,b,0
+ b
branch,from,to,inservice
+ m
meter,kind,at,inservice\ng1,angle,a,1\ng2,angle,b,1
+ c
candidate,kind,at,price
+ input
close S1\ntree
> 0 session tables n s b m with c
ok\t1\t1\ntree\ta\npair\tmeter\tg1\tangle\nend
+ input
status\nclose S1\ncritical\nopen S1\ncert\nlose g2\nregain g2
> 0 session tables n s b m with c
count\tbuses\t2\ncount\tenergised\t2\ncount\tbranches\t0\ncount\tmeters\t2\ncount\tneeded\t2\ncount\trank\t2\nverdict\tobservable\nend\nok\t1\t1\nend\nok\t2\t2\ntree\ta\npair\tmeter\tg1\tangle\ntree\tb\npair\tmeter\tg2\tangle\nend\nok\t1\t2\nok\t2\t2
= Two closed switches between the two.
+ s
switch,from,to,closed\nS1,a,b,1\nS2,b,a,1
+ input
open S1\ntree\nclose S1\nopen S2\ntree\nopen S1\nclose S2
> 0 session tables n s b m with c
ok\t1\t1\ntree\ta\npair\tmeter\tg1\tangle\nend\nok\t1\t1\nok\t1\t1\ntree\ta\npair\tmeter\tg1\tangle\nend\nok\t2\t2\nok\t1\t1
= One switch, before a third such bus.
+ n
node,source,absolute\na,1,1\nb,1,1\nc,1,1
+ s
switch,from,to,closed\nS1,a,b,0
+ m
meter,kind,at,inservice\ng1,angle,a,1\ng2,angle,b,1\ng3,angle,c,1
+ input
close S1\ntree\nopen S1\ntree\nlose g3\nbound\nregain g3
> 0 session tables n s b m with c
ok\t2\t2\ntree\ta\npair\tmeter\tg1\tangle\ntree\tc\npair\tmeter\tg3\tangle\nend\nok\t3\t3\ntree\ta\npair\tmeter\tg1\tangle\ntree\tb\npair\tmeter\tg2\tangle\ntree\tc\npair\tmeter\tg3\tangle\nend\nok\t2\t3\nbound\tc\t0\t0\nend\nok\t3\t3
= A branch between two marked buses, each with an angle meter.
+ n
node,source,absolute\na,1,1\nb,1,1
+ s
switch,from,to,closed
+ b
branch,from,to,inservice\nL1,a,b,0
+ m
meter,kind,at,inservice\ng1,angle,a,1\ng2,angle,b,1
+ c
candidate,kind,at,price\nc1,angle,a,2\nc2,flow,L1,1\nc3,angle,b,1\nc4,injection,b,4
+ input
restore L1\ntree\nislands\ntrip L1\ntree
> 0 session tables n s b m with c
ok\t2\t2\ntree\ta\npair\tmeter\tg1\tangle\npair\tmeter\tg2\tangle\nend\nisland\ta\ta\nisland\ta\tb\nend\nok\t2\t2\ntree\ta\npair\tmeter\tg1\tangle\ntree\tb\npair\tmeter\tg2\tangle\nend
= One of the two isn't marked.
+ n
node,source,absolute\na,1,1\nb,1,0
+ input
status\nrestore L1\nstatus
> 0 session tables n s b m with c
count\tbuses\t2\ncount\tenergised\t2\ncount\tbranches\t0\ncount\tmeters\t1\ncount\tneeded\t1\ncount\trank\t1\nverdict\tobservable\nend\nok\t2\t2\ncount\tbuses\t2\ncount\tenergised\t2\ncount\tbranches\t1\ncount\tmeters\t2\ncount\tneeded\t2\ncount\trank\t2\nverdict\tobservable\nend
= And the marked one has no source.
+ n
node,source,absolute\na,0,1\nb,1,0
+ input
status\nrestore L1\ntree\ntrip L1\nstatus
> 0 session tables n s b m with c
count\tbuses\t2\ncount\tenergised\t1\ncount\tbranches\t0\ncount\tmeters\t0\ncount\tneeded\t0\ncount\trank\t0\nverdict\tobservable\nend\nok\t2\t2\ntree\ta\npair\tmeter\tg1\tangle\npair\tmeter\tg2\tangle\nend\nok\t0\t0\ncount\tbuses\t2\ncount\tenergised\t1\ncount\tbranches\t0\ncount\tmeters\t0\ncount\tneeded\t0\ncount\trank\t0\nverdict\tobservable\nend
",
    )
}

// Each second run begins with the case that is present after the edits of the run before it. What they print isn't written.
const PRESENT: &[u8] = b"= A switch between two marked buses, each with an angle meter.
+ n
node,source,absolute\na,1,1\nb,1,1
+ s
switch,from,to,closed\nS1,a,b,0
+ b
branch,from,to,inservice
+ m
meter,kind,at,inservice\ng1,angle,a,1\ng2,angle,b,1
+ c
candidate,kind,at,price
+ input
close S1
> 0 session tables n s b m with c
+ s
switch,from,to,closed\nS1,a,b,1
+ input
> 0 session tables n s b m with c
+ s
switch,from,to,closed\nS1,a,b,0
+ input
close S1\nopen S1
> 0 session tables n s b m with c
+ input
> 0 session tables n s b m with c
= One switch, before a third such bus.
+ n
node,source,absolute\na,1,1\nb,1,1\nc,1,1
+ m
meter,kind,at,inservice\ng1,angle,a,1\ng2,angle,b,1\ng3,angle,c,1
+ input
close S1
> 0 session tables n s b m with c
+ s
switch,from,to,closed\nS1,a,b,1
+ input
> 0 session tables n s b m with c
+ s
switch,from,to,closed\nS1,a,b,0
+ input
lose g2\nclose S1\nregain g2\nopen S1
> 0 session tables n s b m with c
+ input
> 0 session tables n s b m with c
= A branch between two marked buses, each with an angle meter.
+ n
node,source,absolute\na,1,1\nb,1,1
+ s
switch,from,to,closed
+ b
branch,from,to,inservice\nL1,a,b,0
+ m
meter,kind,at,inservice\ng1,angle,a,1\ng2,angle,b,1
+ c
candidate,kind,at,price\nc1,angle,a,2\nc2,flow,L1,1\nc3,angle,b,1\nc4,injection,b,4
+ input
restore L1
> 0 session tables n s b m with c
+ b
branch,from,to,inservice\nL1,a,b,1
+ input
> 0 session tables n s b m with c
+ b
branch,from,to,inservice\nL1,a,b,0
+ input
restore L1\nlose g1\ntrip L1\nregain g1
> 0 session tables n s b m with c
+ input
> 0 session tables n s b m with c
= One of the two isn't marked.
+ n
node,source,absolute\na,1,1\nb,1,0
+ input
restore L1
> 0 session tables n s b m with c
+ b
branch,from,to,inservice\nL1,a,b,1
+ input
> 0 session tables n s b m with c
+ b
branch,from,to,inservice\nL1,a,b,0
+ input
restore L1\ntrip L1
> 0 session tables n s b m with c
+ input
> 0 session tables n s b m with c
= And the marked one has no source.
+ n
node,source,absolute\na,0,1\nb,1,0
+ input
restore L1
> 0 session tables n s b m with c
+ b
branch,from,to,inservice\nL1,a,b,1
+ input
> 0 session tables n s b m with c
+ b
branch,from,to,inservice\nL1,a,b,0
+ input
lose g2\nrestore L1\nregain g2\ntrip L1
> 0 session tables n s b m with c
+ input
> 0 session tables n s b m with c
";

#[test]
fn present_cases_are_answered_as_at_first(rt: HostRuntime) -> Result<(), Fail> {
    for number in 0..10 {
        let at = 2_u32.wrapping_mul(number);
        let edited = nth_run(PRESENT, at).ok_or("no run")?;
        let begun = nth_run(PRESENT, at.wrapping_add(1)).ok_or("no run")?;
        let (tables, now) = (tables_of(edited), tables_of(begun));
        answers_anew(&rt, rt.alloc(), tables, input_of(edited), now)?;
    }
    assert!(rt; nth_run(PRESENT, 20).is_none());
    Ok(())
}

// Cases alone.
const PRINTED: &[u8] = b"+ n
node,source,absolute\na,1,1\nb,1,1
+ s
switch,from,to,closed\nS1,a,b,0
+ b
branch,from,to,inservice
+ m
meter,kind,at,inservice\ng1,angle,a,1\ng2,angle,b,1
+ c
candidate,kind,at,price
> 0 session tables n s b m with c
+ n
node,source,absolute\na,1,1\nb,1,1\nc,1,1
+ m
meter,kind,at,inservice\ng1,angle,a,1\ng2,angle,b,1\ng3,angle,c,1
> 0 session tables n s b m with c
+ n
node,source,absolute\na,1,1\nb,1,0
+ s
switch,from,to,closed
+ b
branch,from,to,inservice\nL1,a,b,0
+ m
meter,kind,at,inservice\ng1,angle,a,1\ng2,angle,b,1
+ c
candidate,kind,at,price\nc1,angle,a,2\nc2,flow,L1,1\nc3,angle,b,1\nc4,injection,b,4
> 0 session tables n s b m with c
+ n
node,source,absolute\na,0,1\nb,1,0
> 0 session tables n s b m with c
+ n
node,source,absolute\na,1,1\nb,1,1
+ b
branch,from,to,inservice\nL1,a,b,1
> 0 session tables n s b m with c
+ n
node,source,absolute\na,0,1\nb,1,0
> 0 session tables n s b m with c
+ n
node,source,absolute\na,1,1\nb,1,1
+ m
meter,kind,at,inservice
> 0 session tables n s b m with c
";

#[test]
fn printed_certificates_hold(rt: HostRuntime) -> Result<(), Fail> {
    for number in 0..7 {
        let run = nth_run(PRINTED, number).ok_or("no run")?;
        certifies(&rt, rt.alloc(), tables_of(run))?;
    }
    assert!(rt; nth_run(PRINTED, 7).is_none());
    Ok(())
}
