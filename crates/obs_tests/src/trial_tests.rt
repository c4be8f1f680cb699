// What trials print.

use crate::grids::{Grid, make_grid};
use crate::scripts::{Run, ended};
use crate::tests::{Ended, QUIET, answers, failing_writes, outcome, taking};
use crate::worked::{NO_SWITCHES, SESSION};
use obs_engine::Status;
use obs_text::{lines, whole};
use std::alloc::Global;
use std::process::Abort;
use std::test::Fail;

fn trial(alloc: Global, rows: &str, seed: &str) -> Result<Ended, Fail> {
    outcome(alloc, &["trial", rows, seed], &[], QUIET)
}

// The number behind these bytes, which one line of a text begins with.
fn number_behind(text: &[u8], front: &[u8]) -> Option<u64> {
    for line in lines(text) {
        if let Some(rest) = line.strip_prefix(front) {
            return whole(rest);
        }
    }
    None
}

// One node has nothing to be measured.
#[test]
fn one_row_has_no_meters(rt: HostRuntime) -> Result<(), Fail> {
    let text =
        b"trial\t1\t0\ncount\tbuses\t1\ncount\tenergised\t1\ncount\tbranches\t0\ncount\tmeters\t0\ncount\tneeded\t0\ncount\trank\t0\nverdict\tobservable\nislands\t1\ndips\t0\nedits\t0\nsearches\t0\nend\n";
    let words = ["trial", "1", "0"];
    answers(&rt, rt.alloc(), &words, &[], Status::Done, text)
}

// Four nodes in a ring have a meter to spare, so no loss lowers the rank.
#[test]
fn two_rows_are_a_ring(rt: HostRuntime) -> Result<(), Fail> {
    let front =
        b"trial\t2\t1\ncount\tbuses\t4\ncount\tenergised\t4\ncount\tbranches\t4\ncount\tmeters\t4\ncount\tneeded\t3\ncount\trank\t3\nverdict\tobservable\nislands\t1\ndips\t0\nedits\t8\nsearches\t";
    let found = trial(rt.alloc(), "2", "1")?;
    assert!(rt; found.status == Status::Done);
    assert!(rt; found.text.starts_with(front));
    assert!(rt; found.text.ends_with(b"\nend\n"));
    assert!(rt; number_behind(&found.text, b"searches\t").is_some_and(|count| count <= 8));
    Ok(())
}

#[test]
fn other_numbers_are_no_trial(rt: HostRuntime) -> Result<(), Fail> {
    let words = b"trial 0 5
trial 101 5
trial two 5
trial 2 -5
trial 2 99999999999999999999
trial 2
trial 2 5 5
";
    let mut count = 0_u32;
    for words in lines(words) {
        let run = Run {
            before: b"",
            words,
            status: b"2",
            text: b"",
        };
        let found = ended(rt.alloc(), run, QUIET)?;
        assert!(rt; found.status == Status::Usage);
        count = count.wrapping_add(1);
    }
    assert!(rt; count == 7);
    let seeded = trial(rt.alloc(), "2", "9999999999999999999")?;
    assert!(rt; seeded.text.starts_with(b"trial\t2\t9999999999999999999\n"));
    Ok(())
}

#[test]
fn each_write_may_fail(rt: HostRuntime) -> Result<(), Fail> {
    let words = ["trial", "1", "0"];
    let whole = outcome(rt.alloc(), &words, &[], QUIET)?;
    let writes = failing_writes(&rt, rt.alloc(), &words, &[], &whole.text)?;
    assert!(rt; writes >= 10);
    Ok(())
}

// The session over a grid, without its switches.
fn session(alloc: Global, grid: &Grid) -> Result<Ended, Fail> {
    let files = [
        b"".as_slice(),
        &grid.nodes,
        NO_SWITCHES,
        &grid.branches,
        &grid.meters,
    ];
    outcome(alloc, &SESSION, &files, taking(&grid.input, 4096))
}

// The rank that an ok line says.
fn rank_of(line: &[u8]) -> Option<u64> {
    let rest = line.strip_prefix(b"ok\t".as_slice())?;
    let end = rest.iter().position(|byte| *byte == b'\t')?;
    whole(rest.get(..end)?)
}

// How many of a session's lines say a lower rank than at first, where each second line says that one again.
fn count_dips(text: &[u8], rank: u64, edits: u64) -> Option<u64> {
    let mut dips = 0_u64;
    let mut count = 0_u64;
    for line in lines(text) {
        let now = rank_of(line)?;
        if count % 2 == 1 && now != rank {
            return None;
        }
        if now < rank {
            dips = dips.wrapping_add(1);
        }
        count = count.wrapping_add(1);
    }
    (count == edits).then_some(dips)
}

// The counts of a trial of thirty rows, which have 1,740 meters.
fn is_counted(text: &[u8]) -> bool {
    number_behind(text, b"count\tbuses\t") == Some(900)
        && number_behind(text, b"count\tbranches\t") == Some(1740)
        && number_behind(text, b"count\tmeters\t") == Some(1740)
        && number_behind(text, b"edits\t") == Some(3480)
}

fn has_searches(text: &[u8]) -> bool {
    match (
        number_behind(text, b"dips\t"),
        number_behind(text, b"searches\t"),
    ) {
        (Some(dips), Some(searches)) => dips <= searches && searches <= 3480,
        _ => false,
    }
}

// Whether the lines of a session have the dips that a trial says.
fn has_dips(answered: &[u8], text: &[u8]) -> bool {
    match (
        number_behind(text, b"count\trank\t"),
        number_behind(text, b"dips\t"),
    ) {
        (Some(rank), Some(dips)) => count_dips(answered, rank, 3480) == Some(dips),
        _ => false,
    }
}

fn is_a_session(rt: &impl Abort, alloc: Global, trial: &Ended) -> Result<(), Fail> {
    let grid = make_grid(alloc, 30, 1, 0)?;
    let answered = session(alloc, &grid)?;
    assert!(rt; answered.status == trial.status);
    assert!(rt; has_dips(&answered.text, &trial.text));
    Ok(())
}

// A trial is what the session over its tables comes to, and the same again.
#[test]
fn a_trial_is_a_session(rt: HostRuntime) -> Result<(), Fail> {
    let found = trial(rt.alloc(), "30", "1")?;
    assert!(rt; is_counted(&found.text) && has_searches(&found.text));
    is_a_session(&rt, rt.alloc(), &found)?;
    let again = trial(rt.alloc(), "30", "1")?;
    assert!(rt; again.text.as_slice() == found.text.as_slice());
    Ok(())
}
