// Runs with other limits than the usual ones: each form takes as many rows and bytes as the limits allow, and no more.
use crate::reference_cases::NO_BRANCHES;
use crate::tests::{Ended, Outside, QUIET, entries, kept, outcome, sink, source, texts};
use crate::worked::{NO_METERS, NO_SWITCHES, PATH_BRANCHES, PATH_NODES, SESSION, many_nodes, path};
use obs_engine::{Limits, Status, begin_session_within, run_within};
use obs_io::{MemFiles, MemSink, MemSource};
use std::alloc::Global;
use std::process::Abort;
use std::test::Fail;

const TOPOLOGY: [&str; 3] = ["topology", "n", "s"];

const TABLES: [&str; 6] = ["report", "tables", "n", "s", "b", "m"];

const CDF: [&str; 4] = ["report", "cdf", "c", "m"];

const MATPOWER: [&str; 4] = ["report", "matpower", "c", "m"];

const VERIFY: [&str; 5] = ["verify", "cdf", "c", "m", "cert"];

// A file of two buses, without its branches and its end.
const CDF_HEAD: &[u8] =
    b"BUS DATA\n   1                     3\n   2                     0\n-999\nBRANCH DATA\n";

const MATPOWER_HEAD: &[u8] = b"mpc.bus = [\n1 3\n2 1\n]\nmpc.branch = [\n";

// Large pieces, and no call fails.
const WIDE: Outside<'static> = Outside {
    read: 65_536,
    taken: 65_536,
    written: 1000,
    ..QUIET
};

// Files in memory are read as far as this place.
const FURTHEST: usize = 1_073_741_824;

fn run_with_output(
    alloc: Global,
    limits: Limits,
    words: &[String],
    files: &mut MemFiles,
    input: &mut MemSource,
    outside: Outside<'_>,
) -> Result<Ended, Fail> {
    let mut output = sink(alloc, outside)?;
    if limits.bytes() > FURTHEST {
        return Err(Fail::from("too far"));
    }
    let status = run_within(alloc, limits, words, files, input, &mut output);
    kept(alloc, status, output.written())
}

fn run_with_input(
    alloc: Global,
    limits: Limits,
    words: &[String],
    files: &mut MemFiles,
    outside: Outside<'_>,
) -> Result<Ended, Fail> {
    let mut input = source(alloc, outside)?;
    run_with_output(alloc, limits, words, files, &mut input, outside)
}

// Files of the words behind the first one.
fn held(alloc: Global, files: &[&[u8]]) -> Result<MemFiles, Fail> {
    let entries = entries(alloc, files)?;
    Ok(MemFiles::new(entries, WIDE.read, Vec::new(alloc)))
}

fn run_with_files(
    alloc: Global,
    limits: Limits,
    words: &[&str],
    files: &mut MemFiles,
    outside: Outside<'_>,
) -> Result<Ended, Fail> {
    let words = texts(alloc, words)?;
    run_with_input(alloc, limits, &words, files, outside)
}

// A run with these limits.
fn outcome_within(
    alloc: Global,
    limits: Limits,
    words: &[&str],
    files: &[&[u8]],
    outside: Outside<'_>,
) -> Result<Ended, Fail> {
    let mut files = held(alloc, files)?;
    run_with_files(alloc, limits, words, &mut files, outside)
}

// A file of so many equal lines between others.
fn repeated(
    alloc: Global,
    head: &[u8],
    line: &[u8],
    count: u32,
    tail: &[u8],
) -> Result<Vec<u8>, Fail> {
    let mut bytes = Vec::from_slice(alloc, head)?;
    for _ in 0..count {
        bytes.extend_from_slice(line)?;
    }
    bytes.extend_from_slice(tail)?;
    Ok(bytes)
}

// Bytes with such a byte behind them up to this length.
fn padded(alloc: Global, bytes: &[u8], by: u8, length: usize) -> Result<Vec<u8>, Fail> {
    let mut all = Vec::from_slice(alloc, bytes)?;
    all.resize(length, by)?;
    Ok(all)
}

// With the usual limits the files have this fault.
fn is_refused(
    rt: &impl Abort,
    alloc: Global,
    words: &[&str],
    files: &[&[u8]],
    fault: &[u8],
) -> Result<(), Fail> {
    let found = outcome(alloc, words, files, WIDE)?;
    assert!(rt; found.status == Status::InputFault);
    assert!(rt; found.text.as_slice() == fault);
    Ok(())
}

// With these limits they are answered by a text that begins so.
fn is_answered(
    rt: &impl Abort,
    alloc: Global,
    limits: Limits,
    words: &[&str],
    files: &[&[u8]],
    front: &[u8],
) -> Result<(), Fail> {
    let found = outcome_within(alloc, limits, words, files, WIDE)?;
    assert!(rt; found.status == Status::Done || found.status == Status::Short);
    assert!(rt; found.text.starts_with(front));
    Ok(())
}

// The usual limits refuse the files, and the large ones don't.
fn are_large(
    rt: &impl Abort,
    alloc: Global,
    words: &[&str],
    files: &[&[u8]],
    fault: &[u8],
    front: &[u8],
) -> Result<(), Fail> {
    is_refused(rt, alloc, words, files, fault)?;
    is_answered(rt, alloc, Limits::large(), words, files, front)
}

// Whether a session begins with these limits.
fn begins(
    alloc: Global,
    limits: Limits,
    words: &[String],
    files: &mut MemFiles,
    output: &mut MemSink,
) -> bool {
    if limits.bytes() > FURTHEST {
        return false;
    }
    begin_session_within(alloc, limits, words, files, output).is_ok()
}

fn begins_with_files(
    alloc: Global,
    limits: Limits,
    words: &[String],
    files: &mut MemFiles,
) -> Result<bool, Fail> {
    let mut output = sink(alloc, WIDE)?;
    Ok(begins(alloc, limits, words, files, &mut output))
}

fn begins_with_words(
    alloc: Global,
    limits: Limits,
    words: &[String],
    files: &[&[u8]],
) -> Result<bool, Fail> {
    let mut files = held(alloc, files)?;
    begins_with_files(alloc, limits, words, &mut files)
}

fn begins_over(alloc: Global, limits: Limits, files: &[&[u8]]) -> Result<bool, Fail> {
    let words = texts(alloc, &SESSION)?;
    begins_with_words(alloc, limits, &words, files)
}

fn nodes_are_large(rt: &impl Abort, alloc: Global) -> Result<(), Fail> {
    let nodes = many_nodes(alloc, 20_001)?;
    let files = [b"".as_slice(), &nodes, NO_SWITCHES, NO_BRANCHES, NO_METERS];
    let fault = b"fault\tnodes\t20001\t12\tTooMany\n";
    let counts = b"count\tbuses\t20001\ncount\tenergised\t0\n";
    are_large(rt, alloc, &TABLES, &files, fault, counts)?;
    let switching = [nodes.as_slice(), NO_SWITCHES];
    are_large(rt, alloc, &TOPOLOGY, &switching, fault, b"node\tn0\tn0\n")?;
    are_large(rt, alloc, &SESSION, &files, fault, b"")?;
    assert!(rt; !begins_over(alloc, Limits::usual(), &files)?);
    assert!(rt; begins_over(alloc, Limits::large(), &files)?);
    Ok(())
}

fn branches_are_large(
    rt: &impl Abort,
    alloc: Global,
    words: &[&str],
    file: &[u8],
    fault: &[u8],
) -> Result<(), Fail> {
    let files = [b"".as_slice(), file, NO_METERS];
    let counts = b"count\tbuses\t2\ncount\tenergised\t2\ncount\tbranches\t20001\n";
    are_large(rt, alloc, words, &files, fault, counts)
}

#[test]
fn each_form_has_the_rows_of_its_limits(rt: HostRuntime) -> Result<(), Fail> {
    let alloc = rt.alloc();
    nodes_are_large(&rt, alloc)?;
    let cdf = repeated(alloc, CDF_HEAD, b"   1    2\n", 20_001, b"-999\n")?;
    let fault = b"fault\tcdf\t20006\t9\tTooMany\n";
    branches_are_large(&rt, alloc, &CDF, &cdf, fault)?;
    let row = b"1 2 0 0 0 0 0 0 0 0 1\n";
    let matpower = repeated(alloc, MATPOWER_HEAD, row, 20_001, b"]\n")?;
    let fault = b"fault\tmatpower\t20006\t9\tTooMany\n";
    branches_are_large(&rt, alloc, &MATPOWER, &matpower, fault)
}

// The files of two buses, with this case, and a last file.
fn two_are_large(
    rt: &impl Abort,
    alloc: Global,
    words: &[&str],
    file: &[u8],
    last: &[u8],
    fault: &[u8],
) -> Result<(), Fail> {
    let files = [b"".as_slice(), file, NO_METERS, last];
    let found = outcome_within(alloc, Limits::large(), words, &files, WIDE)?;
    assert!(rt; found.text.as_slice() != fault);
    is_refused(rt, alloc, words, &files, fault)
}

// The input is so many empty lines, which get no answer.
fn ends_with(
    rt: &impl Abort,
    alloc: Global,
    limits: Limits,
    lines: usize,
    status: Status,
) -> Result<(), Fail> {
    let input = vec![in alloc; b'\n'; lines]?;
    let outside = Outside {
        input: &input,
        ..WIDE
    };
    let found = outcome_within(alloc, limits, &SESSION, &path(NO_SWITCHES), outside)?;
    assert!(rt; found.status == status);
    assert!(rt; found.text.is_empty());
    Ok(())
}

// A case of two buses and a branch, with blanks behind it.
fn long_case(alloc: Global, head: &[u8], row: &[u8], tail: &[u8]) -> Result<Vec<u8>, Fail> {
    let case = repeated(alloc, head, row, 1, tail)?;
    padded(alloc, &case, b' ', 16_777_217)
}

#[test]
fn each_form_has_the_bytes_of_its_limits(rt: HostRuntime) -> Result<(), Fail> {
    let alloc = rt.alloc();
    let nodes = padded(alloc, b"node,source\na,1\n", b'\n', 16_777_217)?;
    let files = [b"".as_slice(), &nodes, NO_SWITCHES, NO_BRANCHES, NO_METERS];
    let fault = b"fault\tnodes\t0\t14\tTooLong\n";
    are_large(&rt, alloc, &TABLES, &files, fault, b"count\tbuses\t1\n")?;
    let two = b"count\tbuses\t2\n";
    let cdf = long_case(alloc, CDF_HEAD, b"   1    2\n", b"-999\n")?;
    let fault = b"fault\tcdf\t0\t14\tTooLong\n";
    are_large(&rt, alloc, &CDF, &[b"", &cdf, NO_METERS], fault, two)?;
    let none = b"BUS DATA\n-999\nBRANCH DATA\n-999\n";
    let fault = b"fault\tcertificate\t0\t14\tTooLong\n";
    two_are_large(&rt, alloc, &VERIFY, none, &cdf, fault)?;
    let row = b"1 2 0 0 0 0 0 0 0 0 1\n";
    let matpower = long_case(alloc, MATPOWER_HEAD, row, b"]\n")?;
    let fault = b"fault\tmatpower\t0\t14\tTooLong\n";
    are_large(
        &rt,
        alloc,
        &MATPOWER,
        &[b"", &matpower, NO_METERS],
        fault,
        two,
    )?;
    ends_with(
        &rt,
        alloc,
        Limits::usual(),
        16_777_217,
        Status::SessionTooLong,
    )?;
    ends_with(&rt, alloc, Limits::large(), 16_777_217, Status::Short)
}

fn limits_of(rows: u32, bytes: usize) -> Result<Limits, Fail> {
    Ok(Limits::of(rows, bytes).ok_or("no limits")?)
}

// A run with these limits has this fault.
fn has_fault(
    rt: &impl Abort,
    alloc: Global,
    limits: Limits,
    words: &[&str],
    files: &[&[u8]],
    fault: &[u8],
) -> Result<(), Fail> {
    let found = outcome_within(alloc, limits, words, files, WIDE)?;
    assert!(rt; found.status == Status::InputFault);
    assert!(rt; found.text.as_slice() == fault);
    Ok(())
}

// The path has four nodes.
#[test]
fn few_rows_and_bytes_may_be_the_limits(rt: HostRuntime) -> Result<(), Fail> {
    let alloc = rt.alloc();
    let three = limits_of(3, 1878)?;
    let four = limits_of(4, 2494)?;
    let files = path(NO_SWITCHES);
    let fault = b"fault\tnodes\t4\t12\tTooMany\n";
    has_fault(&rt, alloc, three, &TABLES, &files, fault)?;
    is_answered(&rt, alloc, four, &TABLES, &files, b"count\tbuses\t4\n")?;
    let fits = padded(alloc, NO_METERS, b'\n', 2494)?;
    let fitting = [
        b"".as_slice(),
        PATH_NODES,
        NO_SWITCHES,
        PATH_BRANCHES,
        &fits,
    ];
    is_answered(&rt, alloc, four, &TABLES, &fitting, b"count\tbuses\t4\n")?;
    let long = padded(alloc, NO_METERS, b'\n', 2495)?;
    let longer = [
        b"".as_slice(),
        PATH_NODES,
        NO_SWITCHES,
        PATH_BRANCHES,
        &long,
    ];
    let fault = b"fault\tmeters\t0\t14\tTooLong\n";
    has_fault(&rt, alloc, four, &TABLES, &longer, fault)?;
    ends_with(&rt, alloc, four, 2494, Status::Short)?;
    ends_with(&rt, alloc, four, 2495, Status::SessionTooLong)
}

fn are_limits(rows: u32, bytes: usize) -> bool {
    match Limits::of(rows, bytes) {
        Some(limits) => limits.rows() == rows && limits.bytes() == bytes,
        None => false,
    }
}

#[test]
fn limits_have_edges(rt: HostRuntime) {
    for (rows, bytes, expected) in [
        (1_000_000, 1_073_741_824, true),
        (1_000_001, 1_073_741_824, false),
        (1_000_000, 1_073_741_825, false),
        (1_000_000, 616_000_030, true),
        (1_000_000, 616_000_029, false),
        (20_000, 16_777_216, true),
        (20_000, 12_320_029, false),
        (0, 30, true),
        (0, 29, false),
        (4_294_967_295, 1_073_741_824, false),
        (0, 18_446_744_073_709_551_615, false),
    ] {
        assert!(rt; are_limits(rows, bytes) == expected);
    }
    assert!(rt; Limits::usual().rows() == 20_000 && Limits::usual().bytes() == 16_777_216);
    assert!(rt; Limits::large().rows() == 1_000_000 && Limits::large().bytes() == 1_073_741_824);
}
