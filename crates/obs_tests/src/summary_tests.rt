// What is said on standard error beside a whole answer: how many buses are energised, where not all are, and at how many more than one
// live injection or zero stands.

ghost use Rattle.std.specs.Prelude.{◌≡◌, ℕ, slice_index};

use crate::tests::{QUIET, entries, sink, source, texts};
use crate::worked::{NO_CANDIDATES, NO_METERS, NO_SWITCHES, PATH_CANDIDATES, path};
use obs_engine::{Limits, Status, serve};
use obs_io::{MemFiles, MemSink, MemSource};
use obs_notice::Noted;
use std::alloc::Global;
use std::process::Abort;
use std::test::Fail;

// The commands whose answers have a summary.
const SUMMED: [&[&str]; 5] = [
    &["report", "tables", "n", "s", "b", "m"],
    &["outages", "tables", "n", "s", "b", "m"],
    &["pairs", "tables", "n", "s", "b", "m"],
    &["stations", "tables", "n", "s", "b", "m"],
    &["place", "tables", "n", "s", "b", "m", "c"],
];

// Those whose answers have none, over the same files.
const OTHERS: [&[&str]; 4] = [
    &["session", "tables", "n", "s", "b", "m"],
    &["session", "tables", "n", "s", "b", "m", "with", "c"],
    &["verify", "tables", "n", "s", "b", "m", "cert"],
    &["trial", "2", "1"],
];

const NOTHING_FED: &[u8] =
    b"obs: no bus is energised, since no node is a source. So there is nothing to observe.\n";

// Two lines of two buses each, with a source on the first.
const LINES: &[u8] = b"branch,from,to,inservice\nL1,a,b,1\nL2,c,d,1\n";

const FIRST_FED: &[u8] = b"node,source\na,1\nb,0\nc,0\nd,0\n";

const NONE_FED: &[u8] = b"node,source\na,0\nb,0\nc,0\nd,0\n";

const ALL_FED: &[u8] = b"node,source\na,1\nb,0\nc,0\nd,1\n";

// Two at the bus of a, two at the bus of b by a switch; at d a second one is out of service.
const TWICE: &[u8] =
    b"meter,kind,at,inservice\nia,injection,a,1\nza,zero,a,1\nf1,flow,L1,1\nf2,flow,L1,1\n\
ib,injection,b,1\nie,zero,e,1\nid,injection,d,1\njd,injection,d,0\n";

// What is said of a run, in which no call fails.
fn said(
    alloc: Global,
    words: &[String],
    files: &mut Noted<MemFiles>,
    input: &mut MemSource,
    output: &mut MemSink,
    errors: &mut MemSink,
) -> Status
    requires fresh { (w : ℕ) → slice_index files.old.faults w ≡ 0 }
{
    serve(alloc, Limits::usual(), words, files, input, output, errors)
}

// This is said of a run over these files, which gives its whole answer.
fn says(
    rt: &impl Abort,
    alloc: Global,
    words: &[&str],
    files: &[&[u8]],
    notice: &[u8],
) -> Result<(), Fail> {
    let words = texts(alloc, words)?;
    let mut files = Noted::new(MemFiles::new(entries(alloc, files)?, 7, Vec::new(alloc)));
    let mut input = source(alloc, QUIET)?;
    let mut output = sink(alloc, QUIET)?;
    let mut errors = sink(alloc, QUIET)?;
    let status = said(
        alloc,
        &words,
        &mut files,
        &mut input,
        &mut output,
        &mut errors,
    );
    assert!(rt; status == Status::Done || status == Status::Short);
    assert!(rt; errors.written() == notice);
    Ok(())
}

// This is said of a run of each of these commands.
fn all_say(
    rt: &impl Abort,
    alloc: Global,
    commands: &[&[&str]],
    files: &[&[u8]],
    notice: &[u8],
) -> Result<(), Fail> {
    for words in commands {
        says(rt, alloc, words, files, notice)?;
    }
    Ok(())
}

#[test]
fn where_no_bus_is_energised_that_is_said(rt: HostRuntime) -> Result<(), Fail> {
    let alloc = rt.alloc();
    let files: [&[u8]; 6] = [b"", NONE_FED, NO_SWITCHES, LINES, NO_METERS, NO_CANDIDATES];
    all_say(&rt, alloc, &SUMMED, &files, NOTHING_FED)?;
    let empty: [&[u8]; 6] = [
        b"",
        b"node,source\n",
        NO_SWITCHES,
        b"branch,from,to,inservice\n",
        NO_METERS,
        NO_CANDIDATES,
    ];
    all_say(&rt, alloc, &SUMMED, &empty, NOTHING_FED)
}

#[test]
fn where_some_buses_are_energised_their_number_is_said(rt: HostRuntime) -> Result<(), Fail> {
    let files: [&[u8]; 6] = [b"", FIRST_FED, NO_SWITCHES, LINES, NO_METERS, NO_CANDIDATES];
    let notice = b"obs: buses that are energised: 2 of 4. The others are left out.\n";
    all_say(&rt, rt.alloc(), &SUMMED, &files, notice)
}

#[test]
fn buses_with_two_injections_are_counted(rt: HostRuntime) -> Result<(), Fail> {
    let files: [&[u8]; 6] = [
        b"",
        b"node,source\na,1\nb,0\nc,0\nd,1\ne,0\n",
        b"switch,from,to,closed\ns,b,e,1\n",
        LINES,
        TWICE,
        NO_CANDIDATES,
    ];
    let notice =
        b"obs: buses at which more than one live injection or zero stands: 2. An estimator has one equation at each.\n";
    all_say(&rt, rt.alloc(), &SUMMED, &files, notice)
}

// With the switch open the node e is a bus that isn't energised, and the zero there is idle.
#[test]
fn both_are_said_in_two_lines(rt: HostRuntime) -> Result<(), Fail> {
    let files: [&[u8]; 6] = [
        b"",
        b"node,source\na,1\nb,0\nc,0\nd,1\ne,0\n",
        b"switch,from,to,closed\ns,b,e,0\n",
        LINES,
        TWICE,
        NO_CANDIDATES,
    ];
    let notice = b"obs: buses that are energised: 4 of 5. The others are left out.\n\
obs: buses at which more than one live injection or zero stands: 1. An estimator has one equation at each.\n";
    all_say(&rt, rt.alloc(), &SUMMED, &files, notice)
}

#[test]
fn where_all_is_well_nothing_is_said(rt: HostRuntime) -> Result<(), Fail> {
    let alloc = rt.alloc();
    all_say(&rt, alloc, &SUMMED, &path(PATH_CANDIDATES), b"")?;
    let files: [&[u8]; 6] = [b"", ALL_FED, NO_SWITCHES, LINES, NO_METERS, NO_CANDIDATES];
    all_say(&rt, alloc, &SUMMED, &files, b"")
}

#[test]
fn other_commands_say_nothing_of_it(rt: HostRuntime) -> Result<(), Fail> {
    let alloc = rt.alloc();
    let fed: [&[u8]; 7] = [
        b"",
        FIRST_FED,
        NO_SWITCHES,
        LINES,
        b"meter,kind,at,inservice\nia,injection,a,1\nja,injection,a,1\n",
        b"end\n",
        NO_CANDIDATES,
    ];
    all_say(&rt, alloc, &OTHERS, &fed, b"")?;
    says(
        &rt,
        alloc,
        &["topology", "n", "s"],
        &[NONE_FED, NO_SWITCHES],
        b"",
    )
}
