// Reports and placements of MATPOWER cases.

use crate::tests::answers;
use crate::worked::{METER, too_long};
use obs_engine::Status;
use std::alloc::Global;
use std::process::Abort;
use std::test::Fail;

const MATPOWER: [&str; 4] = ["report", "matpower", "c", "m"];

const METERS: &[u8] = b"meter,kind,at,inservice\nf1,flow,L1,1\nf2,flow,L2,1\n";

// Four buses, of which the last one is isolated, and four branches, of which one is out of service and one ends at that bus.
pub(crate) fn three() -> &'static [u8] {
    b"function mpc = three
mpc.version = '2';
mpc.bus = [
 1 3 0 0;
 2 1 0 0; 3,1,0,0
 4 4 0 0;
];
mpc.branch = [
 1 2 0 0 0 0 0 0 0 0 1;
 2 3 0 0 0 0 0 0 0 0 1; % second
 3 1 0 0 0 0 0 0 0 0 0;
 3 4 0 0 0 0 0 0 0 0 1
];
"
}

// The same with tabs, carriage returns and comments.
pub(crate) fn with_tabs() -> &'static [u8] {
    b"function mpc = three\r
mpc.version = '2';\r
%% bus data\r
%\tbus_i\ttype\r
mpc.bus = [\r
\t1\t3\t0\t0;\r
\t2\t1\t0\t0;\t3,1,0,0\r
\t4\t4\t0\t0;\r
];\r
mpc.branch = [\r
\t1\t2\t0\t0\t0\t0\t0\t0\t0\t0\t1;\r
\t2\t3\t0\t0\t0\t0\t0\t0\t0\t0\t1;\t%\tsecond\r
\t3\t1\t0\t0\t0\t0\t0\t0\t0\t0\t0;\r
\t3\t4\t0\t0\t0\t0\t0\t0\t0\t0\t1\r
];\r
"
}

// A branch has ten values.
fn short_row() -> &'static [u8] {
    b"function mpc = three
mpc.version = '2';
mpc.bus = [
 1 3 0 0;
 2 1 0 0; 3,1,0,0
 4 4 0 0;
];
mpc.branch = [
 1 2 0 0 0 0 0 0 0 0;
];
"
}

// A bus stands twice.
fn bus_twice() -> &'static [u8] {
    b"function mpc = three
mpc.version = '2';
mpc.bus = [
 1 3 0 0;
 2 1 0 0; 1,1,0,0
 4 4 0 0;
];
mpc.branch = [
];
"
}

fn reports(
    rt: &impl Abort,
    alloc: Global,
    case: &[u8],
    status: Status,
    text: &[u8],
) -> Result<(), Fail> {
    let files = [b"".as_slice(), case, METERS];
    answers(rt, alloc, &MATPOWER, &files, status, text)
}

// The report of that case.
fn report() -> &'static [u8] {
    b"count\tbuses\t4\ncount\tenergised\t3\ncount\tbranches\t2\ncount\tmeters\t2\ncount\tneeded\t2\ncount\trank\t2\nverdict\tobservable\ntree\t1\npair\tmeter\tf1\tL1\npair\tmeter\tf2\tL2\nisland\t1\t1\nisland\t1\t2\nisland\t1\t3\ncritical\tf1\ncritical\tf2\nend\n"
}

#[test]
fn a_matpower_case_is_reported(rt: HostRuntime) -> Result<(), Fail> {
    for case in [three(), with_tabs()] {
        reports(&rt, rt.alloc(), case, Status::Done, report())?;
    }
    Ok(())
}

// With blanks behind it up to the greatest length.
#[test]
fn a_matpower_file_has_at_most_16777216_bytes(rt: HostRuntime) -> Result<(), Fail> {
    let mut case = Vec::from_slice(rt.alloc(), three())?;
    case.resize(16_777_216, b' ')?;
    reports(&rt, rt.alloc(), &case, Status::Done, report())
}

#[test]
fn the_first_fault_of_a_matpower_case_is_printed(rt: HostRuntime) -> Result<(), Fail> {
    let fault = Status::InputFault;
    // The last line is absent.
    let cut = three()
        .strip_suffix(b"];\n".as_slice())
        .ok_or("another line")?;
    let text = b"fault\tmatpower\t0\t4\tBranchTableOpen\n".as_slice();
    reports(&rt, rt.alloc(), cut, fault, text)?;
    let text = b"fault\tmatpower\t9\t10\tShortRow\n".as_slice();
    reports(&rt, rt.alloc(), short_row(), fault, text)?;
    let text = b"fault\tmatpower\t5\t7\tBusTwice\n".as_slice();
    reports(&rt, rt.alloc(), bus_twice(), fault, text)?;
    let long = too_long(rt.alloc())?;
    let text = b"fault\tmatpower\t0\t14\tTooLong\n".as_slice();
    reports(&rt, rt.alloc(), &long, fault, text)
}

// The branch that is out of service can't be metered.
#[test]
fn a_matpower_case_has_candidates_too(rt: HostRuntime) -> Result<(), Fail> {
    let words = ["place", "matpower", "c", "m", "k"];
    let candidates =
        b"candidate,kind,at,price\nk1,flow,L3,1\nk2,injection,2,7\nk3,flow,L2,9\n".as_slice();
    let files = [b"".as_slice(), three(), METER, candidates];
    let text =
        b"cost\t7\nchosen\tk2\npair\tmeter\tf1\tL1\npair\tcandidate\tk2\tL2\nlayer\t0\t7\t0\t1\nend\n";
    answers(&rt, rt.alloc(), &words, &files, Status::Done, text)
}
