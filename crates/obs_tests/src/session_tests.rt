// The answers to the lines of worked sessions.

use crate::scripts::all_end_so;
use crate::tests::{Ended, Outside, outcome, taking};
use crate::worked::{NO_SWITCHES, PATH_BRANCHES, PATH_METERS, PATH_NODES, SESSION};
use obs_engine::Status;
use std::alloc::Global;
use std::process::Abort;
use std::test::Fail;

// The files of the path with these switches.
fn path(switches: &'static [u8]) -> [&'static [u8]; 5] {
    [b"", PATH_NODES, switches, PATH_BRANCHES, PATH_METERS]
}

// The state of the path.
const PATH_STATE: &[u8] =
    b"count\tbuses\t4\ncount\tenergised\t4\ncount\tbranches\t3\ncount\tmeters\t3\ncount\tneeded\t3\ncount\trank\t2\nverdict\tshort\nend\n";

const CASES: &[u8] =
    b"== Switches make buses. Three nodes in a ring of closed switches are one bus, and with two of them open two.
+ n
node,source\na,1\nb,0\nc,0
+ s
switch,from,to,closed\nS1,a,b,1\nS2,b,c,1\nS3,c,a,1
+ b
branch,from,to,inservice
+ m
meter,kind,at,inservice
+ input
open S3\nstatus\nopen S1\nstatus
> 0 session tables n s b m
ok\t0\t0\ncount\tbuses\t1\ncount\tenergised\t1\ncount\tbranches\t0\ncount\tmeters\t0\ncount\tneeded\t0\ncount\trank\t0\nverdict\tobservable\nend\nok\t0\t0\ncount\tbuses\t2\ncount\tenergised\t1\ncount\tbranches\t0\ncount\tmeters\t0\ncount\tneeded\t0\ncount\trank\t0\nverdict\tobservable\nend
== A closed switch takes a branch out.
+ n
node,source\na,1\nb,0
+ s
switch,from,to,closed\nS1,a,b,0
+ b
branch,from,to,inservice\nL1,a,b,1
+ m
meter,kind,at,inservice\nf1,flow,L1,1
+ input
close S1\nstatus
> 0 session tables n s b m
ok\t0\t0\ncount\tbuses\t1\ncount\tenergised\t1\ncount\tbranches\t0\ncount\tmeters\t0\ncount\tneeded\t0\ncount\trank\t0\nverdict\tobservable\nend
== A switch joins a source to a hub. The rank rises by four in one edit.
+ n
node,source\nx,1\nh,1\ny,0\np,0\nq,0\nr,0\ns,0
+ s
switch,from,to,closed\nS1,x,h,0
+ b
branch,from,to,inservice\nL1,h,p,1\nL2,h,q,1\nL3,h,r,1\nL4,h,s,1\nL5,x,y,1
+ m
meter,kind,at,inservice\ni1,injection,x,1\ni2,injection,x,1\ni3,injection,x,1\ni4,injection,x,1\ni5,injection,x,1
+ input
close S1\ntree
> 0 session tables n s b m
ok\t5\t5\ntree\tx\npair\tmeter\ti1\tL1\npair\tmeter\ti2\tL2\npair\tmeter\ti3\tL3\npair\tmeter\ti4\tL4\npair\tmeter\ti5\tL5\nend
== The order of edits is forgotten. Edits in another order that lead to one present case: each ask has one answer.
+ n
node,source\na,1\nb,0\nc,0\nd,0
+ s
switch,from,to,closed
+ b
branch,from,to,inservice\nL1,a,b,1\nL2,b,c,1\nL3,c,d,1
+ m
meter,kind,at,inservice\nf1,flow,L1,1\nf2,flow,L1,1\nib,injection,b,1
+ input
lose f2\ntrip L3\ntree\nislands\ncritical
> 0 session tables n s b m
ok\t2\t3\nok\t2\t2\ntree\ta\npair\tmeter\tf1\tL1\npair\tmeter\tib\tL2\nend\nisland\ta\ta\nisland\ta\tb\nisland\ta\tc\nend\ncritical\tf1\ncritical\tib\nend
+ input
trip L3\nlose f1\nlose f2\nregain f1\ntree\nislands\ncritical
> 0 session tables n s b m
ok\t2\t2\nok\t2\t2\nok\t1\t2\nok\t2\t2\ntree\ta\npair\tmeter\tf1\tL1\npair\tmeter\tib\tL2\nend\nisland\ta\ta\nisland\ta\tb\nisland\ta\tc\nend\ncritical\tf1\ncritical\tib\nend
== Edits go forth and back. Switches within a bus and between components, of which one is energised; meters and
= branches that count and that don't.
+ n
node,source\na,1\nb,0\nc,0\nd,0\ne,0\ng,0
+ s
switch,from,to,closed\nT,b,c,1\nU,b,c,1\nV,c,e,0
+ b
branch,from,to,inservice\nL1,a,c,1\nL2,c,d,1\nL3,b,c,1\nL4,e,g,1
+ m
meter,kind,at,inservice\nf,flow,L1,1\nh,flow,L2,1\ni,injection,c,1\nk,flow,L3,1\nm,flow,L4,1
= One of two parallel switches changes no bus, and a flag that is set to what it is changes nothing. The last of them
= parts the bus, and the branch within it counts. Then another component is energised, and an idle meter goes.
+ input
open U\nopen U\nopen T\nclose U\nclose V\nopen V\nlose k\nregain k\ntrip L3\nrestore L3\nlose f\nlose h\nregain f\ntrip L1\nrestore L1\nregain h\nclose T
> 0 session tables n s b m
ok\t2\t2\nok\t2\t2\nok\t3\t3\nok\t2\t2\nok\t3\t3\nok\t2\t2\nok\t2\t2\nok\t2\t2\nok\t2\t2\nok\t2\t2\nok\t2\t2\nok\t1\t2\nok\t2\t2\nok\t0\t0\nok\t2\t2\nok\t2\t2\nok\t2\t2
+ n
node,source\na,1\nb,0\nc,0\nd,0
+ s
switch,from,to,closed
+ b
branch,from,to,inservice\nL1,a,b,1\nL2,b,c,1\nL3,c,d,1
+ m
meter,kind,at,inservice\nf1,flow,L1,1\nf2,flow,L1,1\nib,injection,b,1
+ input
lose f2\nlose f1\ntrip L3\nregain f1\nregain f2
> 0 session tables n s b m
ok\t2\t3\nok\t1\t3\nok\t1\t2\nok\t2\t2\nok\t2\t2
== Each refusal has its line.
+ n
node,source\na,1\nb,0\nc,0\nd,0
+ s
switch,from,to,closed
+ b
branch,from,to,inservice\nL1,a,b,1\nL2,b,c,1\nL3,c,d,1
+ m
meter,kind,at,inservice\nf1,flow,L1,1\nf2,flow,L1,1\nib,injection,b,1
+ input
place\ntrip\ntrip \nreport x\ntrip L9\nlose z\n\n# note
> 1 session tables n s b m
refused\t8\tNoCandidates\nrefused\t4\tWordMissing\nrefused\t3\tBadName\nrefused\t1\tUnknownCommand\nrefused\t6\tUnknownBranch\nrefused\t7\tUnknownMeter
== A branch goes and comes back. Without its first branch only the bus of the source is energised.
+ n
node,source\na,1\nb,0\nc,0\nd,0
+ s
switch,from,to,closed
+ b
branch,from,to,inservice\nL1,a,b,1\nL2,b,c,1\nL3,c,d,1
+ m
meter,kind,at,inservice\nf1,flow,L1,1\nf2,flow,L1,1\nib,injection,b,1
+ input
trip L1\r\nrestore L1\r
> 1 session tables n s b m
ok\t0\t0\nok\t2\t3
== Candidates stand behind the word with. The status is that of the present case, though there is a plan.
+ n
node,source\na,1\nb,0\nc,0\nd,0
+ s
switch,from,to,closed
+ b
branch,from,to,inservice\nL1,a,b,1\nL2,b,c,1\nL3,c,d,1
+ m
meter,kind,at,inservice\nf1,flow,L1,1\nf2,flow,L1,1\nib,injection,b,1
+ c
candidate,kind,at,price\np1,flow,L2,0\np2,injection,c,3\np3,flow,L3,5
+ input
place
> 1 session tables n s b m with c
cost\t3\nchosen\tp2\npair\tmeter\tf1\tL1\npair\tmeter\tib\tL2\npair\tcandidate\tp2\tL3\nlayer\t0\t3\t2\t0\ninside\tmeter\tf1\ninside\tmeter\tf2\ninside\tmeter\tib\ninside\tcandidate\tp1\nend
== The first tree is printed. The pair of the second meter may still be kept when the first comes back.
+ n
node,source\na,1\nb,0
+ s
switch,from,to,closed
+ b
branch,from,to,inservice\nL1,a,b,1\nL2,a,b,1
+ m
meter,kind,at,inservice\nf1,flow,L1,1\nf2,flow,L2,1
+ input
lose f1\ntree\nregain f1\ntree
> 0 session tables n s b m
ok\t1\t1\ntree\ta\npair\tmeter\tf2\tL2\nend\nok\t1\t1\ntree\ta\npair\tmeter\tf1\tL1\nend
== Sessions of files of other forms. The other two forms of a case.
+ d
BUS DATA FOLLOWS\n   1                     3\n   2                     0\n-999\nBRANCH DATA FOLLOWS\n   1    2\n-999
+ m
meter,kind,at,inservice\nf1,flow,L1,1
+ input
bound\nlose f1\nbound
> 1 session cdf d m
end\nok\t0\t1\nbound\t1\t0\t0\nend
+ p
mpc.bus = [\n1 3;\n2 1;\n];\nmpc.branch = [\n1 2 0 0 0 0 0 0 0 0 1;\n];
+ c
candidate,kind,at,price\nk1,flow,L1,2
+ input
lose f1\nplace
> 1 session matpower p m with c
ok\t0\t1\ncost\t2\nchosen\tk1\npair\tcandidate\tk1\tL1\nlayer\t0\t2\t0\t0\nend
";

#[test]
fn worked_sessions(rt: HostRuntime) -> Result<(), Fail> {
    all_end_so(&rt, rt.alloc(), 13, CASES)
}

// A line that is too long is refused, and the last line has no line feed.
#[test]
fn refused_lines_end_nothing(rt: HostRuntime) -> Result<(), Fail> {
    let mut input = Vec::from_slice(rt.alloc(), b"open S9\n")?;
    input.extend_from_slice(&[b'x'; 257])?;
    input.extend_from_slice(b"\nopen S1\nstatus")?;
    let mut text = Vec::from_slice(
        rt.alloc(),
        b"refused\t5\tUnknownSwitch\nrefused\t2\tLineTooLong\nok\t2\t3\n",
    )?;
    text.extend_from_slice(PATH_STATE)?;
    let files = path(b"switch,from,to,closed\nS1,c,d,0\n");
    for piece in [1, 3, 7, 5000] {
        let found = outcome(rt.alloc(), &SESSION, &files, taking(&input, piece))?;
        assert!(rt; found.status == Status::Short);
        assert!(rt; found.text.as_slice() == text.as_slice());
    }
    Ok(())
}

// The state of the path, asked for twice in pieces of seven bytes, so that each but the last is a line. These calls fail.
fn asked_twice(alloc: Global, take_fails: &[u64], write_fails: &[u64]) -> Result<Ended, Fail> {
    let outside = Outside {
        take_fails,
        write_fails,
        ..taking(b"status\nstatus\n", 7)
    };
    outcome(alloc, &SESSION, &path(NO_SWITCHES), outside)
}

// A failed take leaves the answers to the lines before it.
#[test]
fn each_take_may_fail(rt: HostRuntime) -> Result<(), Fail> {
    for call in 0..3 {
        let found = asked_twice(rt.alloc(), &[call], &[])?;
        assert!(rt; found.status == Status::ReadFault);
        assert!(rt; found.text.len() == PATH_STATE.len().saturating_mul(call as usize));
        assert!(rt; call != 1 || found.text.as_slice() == PATH_STATE);
    }
    let found = asked_twice(rt.alloc(), &[3], &[])?;
    assert!(rt; found.status == Status::Short);
    Ok(())
}

// Five bytes are written at once.
#[test]
fn each_write_may_fail(rt: HostRuntime) -> Result<(), Fail> {
    let whole = asked_twice(rt.alloc(), &[], &[])?;
    assert!(rt; whole.status == Status::Short);
    let mut calls = 0;
    for call in 0..1000 {
        let found = asked_twice(rt.alloc(), &[], &[call])?;
        if found.status != Status::WriteFault {
            break;
        }
        assert!(rt; found.text.len() < whole.text.len());
        assert!(rt; whole.text.as_slice().starts_with(&found.text));
        calls = call.saturating_add(1);
    }
    assert!(rt; calls > 40);
    Ok(())
}

// So many empty lines, which get no answer.
fn empty_lines(rt: &impl Abort, alloc: Global, lines: usize, status: Status) -> Result<(), Fail> {
    let bytes = vec![in alloc; b'\n'; lines]?;
    let files = path(NO_SWITCHES);
    let found = outcome(alloc, &SESSION, &files, taking(&bytes, 5000))?;
    assert!(rt; found.status == status);
    assert!(rt; found.text.is_empty());
    Ok(())
}

#[test]
fn an_input_has_a_greatest_length(rt: HostRuntime) -> Result<(), Fail> {
    empty_lines(&rt, rt.alloc(), 16_777_217, Status::SessionTooLong)?;
    empty_lines(&rt, rt.alloc(), 16_777_216, Status::Short)
}
