// Reports on cases in the IEEE Common Data Format.

use crate::cdf_read_tests::ieee14;
use crate::scripts::{Run, front, is_as_said, nth_run};
use crate::tests::{QUIET, answers, failing_reads, outcome};
use crate::worked::NO_METERS;
use obs_engine::Status;
use obs_text::whole;
use std::alloc::Global;
use std::process::Abort;
use std::test::Fail;

const CDF: [&str; 4] = ["report", "cdf", "c", "m"];

// The IEEE 14 bus system with counts in the headings, other line ends, and a section that isn't needed.
fn full14() -> &'static [u8] {
    b"IEEE 14 BUS TOPOLOGY\r
BUS DATA FOLLOWS                            14 ITEMS\r
   1                     3\r
   2                     2\r
   3                     2\r
   4                     0\r
   5                     0\r
   6                     2\r
   7                     0\r
   8                     2\r
   9                     0\r
  10                     0\r
  11                     0\r
  12                     0\r
  13                     0\r
  14                     0\r
-999\r
BRANCH DATA FOLLOWS                     20 ITEMS\r
   1    2\r
   1    5\r
   2    3\r
   2    4\r
   2    5\r
   3    4\r
   4    5\r
   4    7\r
   4    9\r
   5    6\r
   6   11\r
   6   12\r
   6   13\r
   7    8\r
   7    9\r
   9   10\r
   9   14\r
  10   11\r
  12   13\r
  13   14\r
-999\r
LOSS ZONES FOLLOWS\r
  1 ALL\r
-99\r
"
}

const METERS14: &[u8] =
    b"meter,kind,at,inservice\nF1,flow,L1,1\nF3,flow,L3,1\nF4,flow,L4,1\nF5,flow,L5,1\nF8,flow,L8,1\nF10,flow,L10,1\nF11,flow,L11,1\nF12,flow,L12,1\nF13,flow,L13,1\nF15,flow,L15,1\nF16,flow,L16,1\nF17,flow,L17,1\nI8,injection,8,1\n";

fn report14() -> &'static [u8] {
    b"count\tbuses\t14\ncount\tenergised\t14\ncount\tbranches\t20\ncount\tmeters\t13\ncount\tneeded\t13\ncount\trank\t13\nverdict\tobservable\ntree\t1\npair\tmeter\tF1\tL1\npair\tmeter\tF3\tL3\npair\tmeter\tF4\tL4\npair\tmeter\tF5\tL5\npair\tmeter\tF8\tL8\npair\tmeter\tF10\tL10\npair\tmeter\tF11\tL11\npair\tmeter\tF12\tL12\npair\tmeter\tF13\tL13\npair\tmeter\tF15\tL15\npair\tmeter\tF16\tL16\npair\tmeter\tF17\tL17\npair\tmeter\tI8\tL14\nisland\t1\t1\nisland\t1\t2\nisland\t1\t3\nisland\t1\t4\nisland\t1\t5\nisland\t1\t6\nisland\t1\t7\nisland\t1\t8\nisland\t1\t9\nisland\t1\t10\nisland\t1\t11\nisland\t1\t12\nisland\t1\t13\nisland\t1\t14\ncritical\tF1\ncritical\tF3\ncritical\tF4\ncritical\tF5\ncritical\tF8\ncritical\tF10\ncritical\tF11\ncritical\tF12\ncritical\tF13\ncritical\tF15\ncritical\tF16\ncritical\tF17\ncritical\tI8\nend\n"
}

// A file in the IEEE Common Data Format and the table of meters, behind a word that names no file.
fn with_meters(cdf: &[u8]) -> [&[u8]; 3] {
    [b"".as_slice(), cdf, METERS14]
}

fn reports_cdf(
    rt: &impl Abort,
    alloc: Global,
    cdf: &[u8],
    status: Status,
    text: &[u8],
) -> Result<(), Fail> {
    answers(rt, alloc, &CDF, &with_meters(cdf), status, text)
}

#[test]
fn a_cdf_file_is_reported(rt: HostRuntime) -> Result<(), Fail> {
    for cdf in [ieee14(), full14()] {
        reports_cdf(&rt, rt.alloc(), cdf, Status::Done, report14())?;
    }
    Ok(())
}

// One meter more than the rank, so that meters which can stand in for one another aren't critical.
#[test]
fn a_further_meter_leaves_fewer_critical(rt: HostRuntime) -> Result<(), Fail> {
    let meters =
        b"meter,kind,at,inservice\nF1,flow,L1,1\nF3,flow,L3,1\nF4,flow,L4,1\nF5,flow,L5,1\nF8,flow,L8,1\nF10,flow,L10,1\nF11,flow,L11,1\nF12,flow,L12,1\nF13,flow,L13,1\nF15,flow,L15,1\nF16,flow,L16,1\nF17,flow,L17,1\nI8,injection,8,1\nI7,injection,7,1\n".as_slice();
    let text =
        b"count\tbuses\t14\ncount\tenergised\t14\ncount\tbranches\t20\ncount\tmeters\t14\ncount\tneeded\t13\ncount\trank\t13\nverdict\tobservable\ntree\t1\npair\tmeter\tF1\tL1\npair\tmeter\tF3\tL3\npair\tmeter\tF4\tL4\npair\tmeter\tF5\tL5\npair\tmeter\tF8\tL8\npair\tmeter\tF10\tL10\npair\tmeter\tF11\tL11\npair\tmeter\tF12\tL12\npair\tmeter\tF13\tL13\npair\tmeter\tF15\tL15\npair\tmeter\tF16\tL16\npair\tmeter\tF17\tL17\npair\tmeter\tI8\tL14\nisland\t1\t1\nisland\t1\t2\nisland\t1\t3\nisland\t1\t4\nisland\t1\t5\nisland\t1\t6\nisland\t1\t7\nisland\t1\t8\nisland\t1\t9\nisland\t1\t10\nisland\t1\t11\nisland\t1\t12\nisland\t1\t13\nisland\t1\t14\ncritical\tF1\ncritical\tF3\ncritical\tF4\ncritical\tF5\ncritical\tF10\ncritical\tF11\ncritical\tF12\ncritical\tF13\ncritical\tF16\ncritical\tF17\nend\n";
    let files = [b"".as_slice(), ieee14(), meters];
    answers(&rt, rt.alloc(), &CDF, &files, Status::Done, text)
}

// A run over the first bytes of the file, whose words are their number.
fn ends_so_where_cut(rt: &impl Abort, alloc: Global, run: Run<'_>) -> Result<(), Fail> {
    let length = whole(run.words).ok_or("no length")?;
    let files = with_meters(front(ieee14(), length as usize));
    let found = outcome(alloc, &CDF, &files, QUIET)?;
    assert!(rt; is_as_said(run, &found));
    Ok(())
}

// The title and a heading have 38 bytes, a bus line 27 and a branch line 10.
const CUTS: &[u8] = b"> 3 0
fault\tcdf\t0\t1\tNoBusSection
> 3 254
fault\tcdf\t0\t2\tBusSectionOpen
> 3 112
fault\tcdf\t5\t6\tBadType
> 3 421
fault\tcdf\t0\t3\tNoBranchSection
> 3 447
fault\tcdf\t19\t5\tBadBusNumber
> 3 641
fault\tcdf\t0\t4\tBranchSectionOpen
> 3 644
fault\tcdf\t39\t5\tBadBusNumber
";

#[test]
fn the_first_fault_of_a_cut_file_is_printed(rt: HostRuntime) -> Result<(), Fail> {
    for number in 0..7 {
        ends_so_where_cut(&rt, rt.alloc(), nth_run(CUTS, number).ok_or("no run")?)?;
    }
    assert!(rt; nth_run(CUTS, 7).is_none());
    Ok(())
}

#[test]
fn the_last_line_end_may_be_absent(rt: HostRuntime) -> Result<(), Fail> {
    let cdf = front(ieee14(), 645);
    reports_cdf(&rt, rt.alloc(), cdf, Status::Done, report14())
}

// The file in which the second bus has the number of the first.
fn bus_twice(alloc: Global) -> Result<Vec<u8>, Fail> {
    let mut bytes = Vec::from_slice(alloc, front(ieee14(), 65))?;
    bytes.extend_from_slice(b"   1                     2\n")?;
    bytes.extend_from_slice(ieee14().get(92..).ok_or("a shorter file")?)?;
    Ok(bytes)
}

#[test]
fn a_bus_stands_once_in_a_cdf_file(rt: HostRuntime) -> Result<(), Fail> {
    let cdf = bus_twice(rt.alloc())?;
    let text = b"fault\tcdf\t4\t7\tBusTwice\n";
    reports_cdf(&rt, rt.alloc(), &cdf, Status::InputFault, text)
}

// The file up to its branch lines, and then the same line so many times.
fn with_branch_lines(alloc: Global, lines: u32, line: &[u8]) -> Result<Vec<u8>, Fail> {
    let mut bytes = Vec::from_slice(alloc, front(ieee14(), 441))?;
    for _ in 0..lines {
        bytes.extend_from_slice(line)?;
    }
    Ok(bytes)
}

// The first branch line is line 19 of the file.
#[test]
fn the_first_fault_of_branch_lines_is_printed(rt: HostRuntime) -> Result<(), Fail> {
    let unknown = with_branch_lines(rt.alloc(), 1, b"   1   99\n")?;
    let text = b"fault\tcdf\t19\t8\tUnknownBus\n";
    reports_cdf(&rt, rt.alloc(), &unknown, Status::InputFault, text)?;
    let many = with_branch_lines(rt.alloc(), 20001, b"   1    2\n")?;
    let text = b"fault\tcdf\t20019\t9\tTooMany\n";
    reports_cdf(&rt, rt.alloc(), &many, Status::InputFault, text)
}

// The file with blanks behind it up to this length.
fn padded(alloc: Global, length: usize) -> Result<Vec<u8>, Fail> {
    let mut bytes = Vec::from_slice(alloc, ieee14())?;
    bytes.resize(length, b' ')?;
    Ok(bytes)
}

#[test]
fn a_file_has_at_most_16777216_bytes(rt: HostRuntime) -> Result<(), Fail> {
    let cdf = padded(rt.alloc(), 16_777_216)?;
    reports_cdf(&rt, rt.alloc(), &cdf, Status::Done, report14())
}

#[test]
fn a_longer_file_is_too_long(rt: HostRuntime) -> Result<(), Fail> {
    let cdf = padded(rt.alloc(), 16_777_217)?;
    let text = b"fault\tcdf\t0\t14\tTooLong\n";
    reports_cdf(&rt, rt.alloc(), &cdf, Status::InputFault, text)
}

// No file of meters is held.
#[test]
fn a_cdf_file_is_judged_before_its_meters_are_read(rt: HostRuntime) -> Result<(), Fail> {
    let cdf = padded(rt.alloc(), 16_777_217)?;
    let text = b"fault\tcdf\t0\t14\tTooLong\n";
    let status = Status::InputFault;
    answers(&rt, rt.alloc(), &CDF, &[b"", &cdf], status, text)
}

// Each read of a short file of this form fails in turn.
#[test]
fn each_read_of_a_cdf_report_may_fail(rt: HostRuntime) -> Result<(), Fail> {
    let files = [
        b"".as_slice(),
        b"BUS DATA\n-999\nBRANCH DATA\n-999\n",
        NO_METERS,
    ];
    let reads = failing_reads(&rt, rt.alloc(), &CDF, &files)?;
    assert!(rt; reads > 2);
    Ok(())
}
