// What is said on standard error of a run that gave no answer or not the whole one.

use crate::tests::{Ended, Outside, QUIET, entries, run_with_input, sink, texts};
use obs_engine::{Limits, Status};
use obs_io::MemFiles;
use obs_notice::{Noted, say};
use std::alloc::Global;
use std::process::Abort;
use std::test::Fail;

const NODES: &[u8] = b"node,source\na,1\n";

const WORDS: [&str; 3] = ["topology", "nodes.csv", "swiches.csv"];

// How a run ended, and what was said of it.
#[derive(Drop)]
struct Heard {
    ended: Ended,
    notice: Vec<u8>,
}

// Outputs take nine bytes at once.
const NINE: Outside<'static> = Outside {
    written: 9,
    ..QUIET
};

// A run over the node table, and what is said of it over a standard error of which these writes fail.
fn run_and_say(
    alloc: Global,
    words: &[&str],
    outside: Outside<'_>,
    say_fails: &[u64],
) -> Result<Heard, Fail> {
    let words = texts(alloc, words)?;
    let fails = Vec::from_slice(alloc, outside.read_fails)?;
    let mut files = Noted::new(MemFiles::new(entries(alloc, &[NODES])?, 7, fails));
    let ended = run_with_input(alloc, &words, &mut files, outside)?;
    let mut errors = sink(alloc, failing_to_write(say_fails))?;
    let _said = say(
        &mut errors,
        Limits::usual(),
        &words,
        ended.status,
        files.failed(),
        None,
    );
    let notice = Vec::from_slice(alloc, errors.written())?;
    Ok(Heard { ended, notice })
}

fn failing_to_write(calls: &[u64]) -> Outside<'_> {
    Outside {
        write_fails: calls,
        ..NINE
    }
}

// A run over the node table ends so, with nothing written, and this is said of it.
fn says(
    rt: &impl Abort,
    alloc: Global,
    words: &[&str],
    outside: Outside<'_>,
    notice: &[u8],
) -> Result<(), Fail> {
    let found = run_and_say(alloc, words, outside, &[])?;
    assert!(rt; found.ended.status == Status::ReadFault);
    assert!(rt; found.ended.text.is_empty());
    assert!(rt; found.notice.as_slice() == notice);
    Ok(())
}

#[test]
fn a_file_that_is_not_there_is_named(rt: HostRuntime) -> Result<(), Fail> {
    let notice =
        b"obs: this file could not be read: swiches.csv\nobs: is it spelt right, and may you read it? It must be a plain file, no folder or pipe: it is opened more than once.\n";
    says(&rt, rt.alloc(), &WORDS, NINE, notice)
}

// The file is there: a read of it fails once, at its start, in its middle or at its end, and would give all when asked again.
#[test]
fn a_read_that_fails_once_is_told(rt: HostRuntime) -> Result<(), Fail> {
    let notice =
        b"obs: this file could not be read: nodes.csv\nobs: is it spelt right, and may you read it? It must be a plain file, no folder or pipe: it is opened more than once.\n";
    for call in [0, 1, 3] {
        let failing = Outside {
            read_fails: &[call],
            ..NINE
        };
        says(&rt, rt.alloc(), &WORDS, failing, notice)?;
    }
    Ok(())
}

#[test]
fn a_name_is_said_without_what_a_terminal_acts_on(rt: HostRuntime) -> Result<(), Fail> {
    let words = [
        "topology",
        "nodes.csv",
        "a\n\u{1b}[2J\u{7f}\\ M\u{fc}ller.csv",
    ];
    let notice =
        b"obs: this file could not be read: a\\x0a\\x1b[2J\\x7f\\x5c M\xc3\xbcller.csv\nobs: is it spelt right, and may you read it? It must be a plain file, no folder or pipe: it is opened more than once.\n";
    says(&rt, rt.alloc(), &words, NINE, notice)
}

#[test]
fn what_cannot_be_said_changes_nothing(rt: HostRuntime) -> Result<(), Fail> {
    let found = run_and_say(rt.alloc(), &WORDS, NINE, &[1])?;
    assert!(rt; found.ended.status == Status::ReadFault);
    assert!(rt; found.notice.as_slice() == b"obs: this".as_slice());
    let usage = run_and_say(rt.alloc(), &["topologie", "nodes.csv"], NINE, &[0])?;
    assert!(rt; usage.ended.status == Status::Usage);
    assert!(rt; usage.ended.text.len() == 149);
    assert!(rt; usage.notice.is_empty());
    Ok(())
}

#[test]
fn a_full_output_is_told(rt: HostRuntime) -> Result<(), Fail> {
    let words = ["topologie", "nodes.csv"];
    let found = run_and_say(rt.alloc(), &words, failing_to_write(&[1]), &[])?;
    assert!(rt; found.ended.status == Status::WriteFault);
    assert!(rt; found.ended.text.as_slice() == b"usage: ob".as_slice());
    let notice =
        b"obs: the answer could not be written whole: at most a front of it was. Is the disk full, or did the reader stop, as head does?\n";
    assert!(rt; found.notice.as_slice() == notice.as_slice());
    Ok(())
}
