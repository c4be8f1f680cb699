// A failure at each call of each command over each form of a case.

use crate::scripts::{Run, ended, input_of, is_as_said, nth_run};
use crate::tests::{Ended, Outside, QUIET, is_front};
use obs_engine::Status;
use std::alloc::Global;
use std::process::Abort;
use std::test::Fail;

// A run in which all bytes move in pieces of this length.
fn outcome(alloc: Global, run: Run<'_>, piece: usize, failing: Outside<'_>) -> Result<Ended, Fail> {
    let outside = Outside {
        input: input_of(run),
        read: piece,
        taken: piece,
        written: piece,
        room: 10_000,
        ..failing
    };
    ended(alloc, run, outside)
}

// Whether a run fails where this read does: then nothing is written.
fn read_fails(
    rt: &impl Abort,
    alloc: Global,
    run: Run<'_>,
    piece: usize,
    call: u64,
) -> Result<bool, Fail> {
    let reads = Outside {
        read_fails: &[call],
        ..QUIET
    };
    let found = outcome(alloc, run, piece, reads)?;
    let fails = found.status == Status::ReadFault;
    assert!(rt; !fails || found.text.is_empty());
    Ok(fails)
}

// Each read fails in turn.
fn each_read_fails(rt: &impl Abort, alloc: Global, run: Run<'_>, piece: usize) -> Result<(), Fail> {
    for call in 0..2000 {
        if !read_fails(rt, alloc, run, piece, call)? {
            assert!(rt; call > 1);
            return Ok(());
        }
    }
    Ok(())
}

// Whether a run fails where this take of the input does: what is written is the answer to the lines before it.
fn take_fails(
    rt: &impl Abort,
    alloc: Global,
    run: Run<'_>,
    piece: usize,
    call: u64,
) -> Result<bool, Fail> {
    let takes = Outside {
        take_fails: &[call],
        ..QUIET
    };
    let found = outcome(alloc, run, piece, takes)?;
    let fails = found.status == Status::ReadFault;
    assert!(rt; !fails || run.text.starts_with(&found.text));
    Ok(fails)
}

// Each take of the input fails in turn.
fn each_take_fails(rt: &impl Abort, alloc: Global, run: Run<'_>, piece: usize) -> Result<(), Fail> {
    for call in 0..2000 {
        if !take_fails(rt, alloc, run, piece, call)? {
            assert!(rt; input_of(run).is_empty() || call > 0);
            return Ok(());
        }
    }
    Ok(())
}

// Whether a run fails where this write does: what is written is a front of the text, and no more than the calls before could take.
fn write_fails(
    rt: &impl Abort,
    alloc: Global,
    run: Run<'_>,
    piece: usize,
    call: u64,
) -> Result<bool, Fail> {
    let writes = Outside {
        write_fails: &[call],
        ..QUIET
    };
    let found = outcome(alloc, run, piece, writes)?;
    let fails = found.status == Status::WriteFault;
    let most = (call as usize).saturating_mul(piece);
    assert!(rt; !fails || is_front(&found.text, run.text, most));
    Ok(fails)
}

// Each write fails in turn.
fn each_write_fails(
    rt: &impl Abort,
    alloc: Global,
    run: Run<'_>,
    piece: usize,
) -> Result<(), Fail> {
    for call in 0..2000 {
        if !write_fails(rt, alloc, run, piece, call)? {
            assert!(rt; call > 0);
            return Ok(());
        }
    }
    Ok(())
}

// Each call of a run fails in turn, and then none.
fn each_fails(rt: &impl Abort, alloc: Global, run: Run<'_>, piece: usize) -> Result<(), Fail> {
    each_read_fails(rt, alloc, run, piece)?;
    each_take_fails(rt, alloc, run, piece)?;
    each_write_fails(rt, alloc, run, piece)?;
    assert!(rt; is_as_said(run, &outcome(alloc, run, piece, QUIET)?));
    Ok(())
}

// So does each of the runs of a text, of which there are so many, in pieces of several lengths.
fn each_call_fails(rt: &impl Abort, alloc: Global, runs: u32, text: &[u8]) -> Result<(), Fail> {
    for number in 0..runs {
        let run = nth_run(text, number).ok_or("no such run")?;
        for piece in [1, 5, 64] {
            each_fails(rt, alloc, run, piece)?;
        }
    }
    assert!(rt; nth_run(text, runs).is_none());
    Ok(())
}

#[test]
fn each_call_of_a_report_may_fail(rt: HostRuntime) -> Result<(), Fail> {
    each_call_fails(
        &rt,
        rt.alloc(),
        3,
        b"+ n
node,source\n1,1\n2,0
+ s
switch,from,to,closed
+ b
branch,from,to,inservice\nL1,1,2,1
+ m
meter,kind,at,inservice\nf1,flow,L1,1
> 0 report tables n s b m
count\tbuses\t2\ncount\tenergised\t2\ncount\tbranches\t1\ncount\tmeters\t1\ncount\tneeded\t1\ncount\trank\t1\nverdict\tobservable\ntree\t1\npair\tmeter\tf1\tL1\nisland\t1\t1\nisland\t1\t2\ncritical\tf1\nend
+ d
BUS DATA FOLLOWS\n   1                     3\n   2                     0\n-999\nBRANCH DATA FOLLOWS\n   1    2\n-999
> 0 report cdf d m
count\tbuses\t2\ncount\tenergised\t2\ncount\tbranches\t1\ncount\tmeters\t1\ncount\tneeded\t1\ncount\trank\t1\nverdict\tobservable\ntree\t1\npair\tmeter\tf1\tL1\nisland\t1\t1\nisland\t1\t2\ncritical\tf1\nend
+ p
mpc.bus = [\n1 3;\n2 1;\n];\nmpc.branch = [\n1 2 0 0 0 0 0 0 0 0 1;\n];
> 0 report matpower p m
count\tbuses\t2\ncount\tenergised\t2\ncount\tbranches\t1\ncount\tmeters\t1\ncount\tneeded\t1\ncount\trank\t1\nverdict\tobservable\ntree\t1\npair\tmeter\tf1\tL1\nisland\t1\t1\nisland\t1\t2\ncritical\tf1\nend
",
    )
}

#[test]
fn each_call_of_a_placement_may_fail(rt: HostRuntime) -> Result<(), Fail> {
    each_call_fails(
        &rt,
        rt.alloc(),
        3,
        b"+ n
node,source\n1,1\n2,0
+ s
switch,from,to,closed
+ b
branch,from,to,inservice\nL1,1,2,1
+ m
meter,kind,at,inservice\nf1,flow,L1,0
+ k
candidate,kind,at,price\nk1,flow,L1,2
> 0 place tables n s b m k
cost\t2\nchosen\tk1\npair\tcandidate\tk1\tL1\nlayer\t0\t2\t0\t0\nend
+ d
BUS DATA FOLLOWS\n   1                     3\n   2                     0\n-999\nBRANCH DATA FOLLOWS\n   1    2\n-999
> 0 place cdf d m k
cost\t2\nchosen\tk1\npair\tcandidate\tk1\tL1\nlayer\t0\t2\t0\t0\nend
+ p
mpc.bus = [\n1 3;\n2 1;\n];\nmpc.branch = [\n1 2 0 0 0 0 0 0 0 0 1;\n];
> 0 place matpower p m k
cost\t2\nchosen\tk1\npair\tcandidate\tk1\tL1\nlayer\t0\t2\t0\t0\nend
",
    )
}

#[test]
fn each_call_of_a_session_may_fail(rt: HostRuntime) -> Result<(), Fail> {
    each_call_fails(
        &rt,
        rt.alloc(),
        3,
        b"+ n
node,source\n1,1\n2,0
+ s
switch,from,to,closed
+ b
branch,from,to,inservice\nL1,1,2,1
+ m
meter,kind,at,inservice\nf1,flow,L1,1
+ input
bound\nlose f1\nbound
> 1 session tables n s b m
end\nok\t0\t1\nbound\t1\t0\t0\nend
+ d
BUS DATA FOLLOWS\n   1                     3\n   2                     0\n-999\nBRANCH DATA FOLLOWS\n   1    2\n-999
> 1 session cdf d m
end\nok\t0\t1\nbound\t1\t0\t0\nend
+ p
mpc.bus = [\n1 3;\n2 1;\n];\nmpc.branch = [\n1 2 0 0 0 0 0 0 0 0 1;\n];
> 1 session matpower p m
end\nok\t0\t1\nbound\t1\t0\t0\nend
",
    )
}

#[test]
fn each_call_of_a_session_with_candidates_may_fail(rt: HostRuntime) -> Result<(), Fail> {
    each_call_fails(
        &rt,
        rt.alloc(),
        3,
        b"+ n
node,source\n1,1\n2,0
+ s
switch,from,to,closed
+ b
branch,from,to,inservice\nL1,1,2,1
+ m
meter,kind,at,inservice\nf1,flow,L1,1
+ k
candidate,kind,at,price\nk1,flow,L1,2
+ unended input
lose f1\nplace
> 1 session tables n s b m with k
ok\t0\t1\ncost\t2\nchosen\tk1\npair\tcandidate\tk1\tL1\nlayer\t0\t2\t0\t0\nend
+ d
BUS DATA FOLLOWS\n   1                     3\n   2                     0\n-999\nBRANCH DATA FOLLOWS\n   1    2\n-999
> 1 session cdf d m with k
ok\t0\t1\ncost\t2\nchosen\tk1\npair\tcandidate\tk1\tL1\nlayer\t0\t2\t0\t0\nend
+ p
mpc.bus = [\n1 3;\n2 1;\n];\nmpc.branch = [\n1 2 0 0 0 0 0 0 0 0 1;\n];
> 1 session matpower p m with k
ok\t0\t1\ncost\t2\nchosen\tk1\npair\tcandidate\tk1\tL1\nlayer\t0\t2\t0\t0\nend
",
    )
}

#[test]
fn each_call_of_a_verdict_may_fail(rt: HostRuntime) -> Result<(), Fail> {
    each_call_fails(
        &rt,
        rt.alloc(),
        3,
        b"+ n
node,source\n1,1\n2,0
+ s
switch,from,to,closed
+ b
branch,from,to,inservice\nL1,1,2,1
+ m
meter,kind,at,inservice\nf1,flow,L1,1
+ t
tree\t1\npair\tmeter\tf1\tL1\nend
> 0 verify tables n s b m t
valid\t1
+ d
BUS DATA FOLLOWS\n   1                     3\n   2                     0\n-999\nBRANCH DATA FOLLOWS\n   1    2\n-999
> 0 verify cdf d m t
valid\t1
+ p
mpc.bus = [\n1 3;\n2 1;\n];\nmpc.branch = [\n1 2 0 0 0 0 0 0 0 0 1;\n];
> 0 verify matpower p m t
valid\t1
",
    )
}

#[test]
fn each_call_of_a_verdict_with_candidates_may_fail(rt: HostRuntime) -> Result<(), Fail> {
    each_call_fails(
        &rt,
        rt.alloc(),
        3,
        b"+ n
node,source\n1,1\n2,0
+ s
switch,from,to,closed
+ b
branch,from,to,inservice\nL1,1,2,1
+ m
meter,kind,at,inservice\nf1,flow,L1,0
+ k
candidate,kind,at,price\nk1,flow,L1,2
+ t
cost\t2\nchosen\tk1\npair\tcandidate\tk1\tL1\nlayer\t0\t2\t0\t0\nend
> 0 verify tables n s b m with k t
valid\t1
+ d
BUS DATA FOLLOWS\n   1                     3\n   2                     0\n-999\nBRANCH DATA FOLLOWS\n   1    2\n-999
> 0 verify cdf d m with k t
valid\t1
+ p
mpc.bus = [\n1 3;\n2 1;\n];\nmpc.branch = [\n1 2 0 0 0 0 0 0 0 0 1;\n];
> 0 verify matpower p m with k t
valid\t1
",
    )
}

#[test]
fn each_call_of_a_study_may_fail(rt: HostRuntime) -> Result<(), Fail> {
    each_call_fails(
        &rt,
        rt.alloc(),
        3,
        b"+ n
node,source\n1,1\n2,0
+ s
switch,from,to,closed
+ b
branch,from,to,inservice\nL1,1,2,1
+ m
meter,kind,at,inservice\nf1,flow,L1,1
> 0 outages tables n s b m
outage\tL1\t0\t0\tobservable\nend
+ d
BUS DATA FOLLOWS\n   1                     3\n   2                     0\n-999\nBRANCH DATA FOLLOWS\n   1    2\n-999
> 0 pairs cdf d m
end
+ p
mpc.bus = [\n1 3;\n2 1;\n];\nmpc.branch = [\n1 2 0 0 0 0 0 0 0 0 1;\n];
> 1 stations matpower p m
station\t1\t1\t0\t1\tshort\nend
",
    )
}
