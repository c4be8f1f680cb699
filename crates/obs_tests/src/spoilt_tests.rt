// Files that are cut, or in which a byte is another one.

use crate::scripts::{Run, entries_of, nth_run, outcome_with};
use crate::tests::{Outside, QUIET};
use obs_engine::Status;
use obs_io::Entry;
use std::alloc::Global;
use std::process::Abort;
use std::test::Fail;

// All bytes move in pieces of this length.
const OUTSIDE: Outside<'static> = Outside {
    read: 64,
    taken: 64,
    written: 64,
    room: 10_000,
    ..QUIET
};

// What a file is after its byte at this place went, with all behind it, or is another one.
fn spoilt(alloc: Global, bytes: &[u8], at: usize, other: Option<u8>) -> Result<Vec<u8>, Fail> {
    let mut text = Vec::new(alloc);
    let mut k = 0_usize;
    for byte in bytes {
        if k == at {
            let Some(other) = other else {
                break;
            };
            text.push(other)?;
        } else {
            text.push(*byte)?;
        }
        k = k.wrapping_add(1);
    }
    Ok(text)
}

// The files of a run, of which one is spoilt.
fn with_spoilt(
    alloc: Global,
    run: Run<'_>,
    which: usize,
    at: usize,
    other: Option<u8>,
) -> Result<Vec<Entry>, Fail> {
    let mut all = entries_of(alloc, run)?;
    if let Some(entry) = all.get_mut(which) {
        let text = spoilt(alloc, &entry.bytes, at, other)?;
        entry.bytes = text;
    }
    Ok(all)
}

// A spoilt file is answered with a fault line and its status, or with neither.
fn is_answered(
    rt: &impl Abort,
    alloc: Global,
    run: Run<'_>,
    which: usize,
    at: usize,
    other: Option<u8>,
) -> Result<(), Fail> {
    let files = with_spoilt(alloc, run, which, at, other)?;
    let found = outcome_with(alloc, run, files, OUTSIDE)?;
    let refused = found.text.as_slice().starts_with(b"fault\t");
    assert!(rt; refused == (found.status == Status::InputFault));
    assert!(rt; refused || found.status == Status::Done || found.status == Status::Short);
    Ok(())
}

const OTHERS: &[Option<u8>] = &[
    None,
    Some(b'\t'),
    Some(b'"'),
    Some(b'\n'),
    Some(0),
    Some(255),
];

// Each front of a file, and the file with each of its bytes exchanged for five others.
fn is_answered_where_spoilt(
    rt: &impl Abort,
    alloc: Global,
    run: Run<'_>,
    which: usize,
    length: usize,
) -> Result<(), Fail> {
    for at in 0..length {
        for other in OTHERS {
            is_answered(rt, alloc, run, which, at, *other)?;
        }
    }
    Ok(())
}

// Each file of the one run of a text.
fn spoilt_files_are_answered(rt: &impl Abort, alloc: Global, text: &[u8]) -> Result<(), Fail> {
    let run = nth_run(text, 0).ok_or("no run")?;
    let files = entries_of(alloc, run)?;
    let mut which = 0_usize;
    for file in &files {
        is_answered_where_spoilt(rt, alloc, run, which, file.bytes.len())?;
        which = which.wrapping_add(1);
    }
    Ok(())
}

#[test]
fn spoilt_tables_are_answered(rt: HostRuntime) -> Result<(), Fail> {
    spoilt_files_are_answered(
        &rt,
        rt.alloc(),
        b"+ n
node,source\n1,1\n2,0
+ s
switch,from,to,closed
+ b
branch,from,to,inservice\nL1,1,2,1
+ m
meter,kind,at,inservice\nf1,flow,L1,1
> 0 report tables n s b m
count\tbuses\t2\ncount\tenergised\t2\ncount\tbranches\t1\ncount\tmeters\t1\ncount\tneeded\t1\ncount\trank\t1\nverdict\tobservable\ntree\t1\npair\tmeter\tf1\tL1\nisland\t1\t1\nisland\t1\t2\ncritical\tf1\nend
",
    )
}

#[test]
fn spoilt_cdf_files_and_certificates_are_answered(rt: HostRuntime) -> Result<(), Fail> {
    spoilt_files_are_answered(
        &rt,
        rt.alloc(),
        b"+ d
BUS DATA FOLLOWS\n   1                     3\n   2                     0\n-999\nBRANCH DATA FOLLOWS\n   1    2\n-999
+ m
meter,kind,at,inservice\nf1,flow,L1,0
+ k
candidate,kind,at,price\nk1,flow,L1,2
+ t
cost\t2\nchosen\tk1\npair\tcandidate\tk1\tL1\nlayer\t0\t2\t0\t0\nend
> 0 verify cdf d m with k t
valid\t1
",
    )
}

#[test]
fn spoilt_matpower_files_and_candidates_are_answered(rt: HostRuntime) -> Result<(), Fail> {
    spoilt_files_are_answered(
        &rt,
        rt.alloc(),
        b"+ p
mpc.bus = [\n1 3;\n2 1;\n];\nmpc.branch = [\n1 2 0 0 0 0 0 0 0 0 1;\n];
+ m
meter,kind,at,inservice\nf1,flow,L1,0
+ k
candidate,kind,at,price\nk1,flow,L1,2
> 0 place matpower p m k
cost\t2\nchosen\tk1\npair\tcandidate\tk1\tL1\nlayer\t0\t2\t0\t0\nend
",
    )
}
