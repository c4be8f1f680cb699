// How often a run calls the outside: no more behind a call that failed, and the input not before the files are a case.

use crate::tests::{Outside, QUIET, entries, sink, texts};
use obs_engine::{Status, run};
use obs_io::{Failed, Files, MemFiles, MemSource, Sink, Source};
use std::alloc::Global;
use std::process::Abort;
use std::test::Fail;

const TABLES: [&[u8]; 5] = [
    b"",
    b"node,source\na,1\nb,0\n",
    b"switch,from,to,closed\n",
    b"branch,from,to,inservice\nL,a,b,1\n",
    b"meter,kind,at,inservice\nf,flow,L,1\n",
];

const FAULTY: [&[u8]; 5] = [
    b"",
    b"node,source\na,1\nb,0\n",
    b"switch,from,to,closed\n",
    b"branch,from,to,inservice\nL,a,c,1\n",
    b"meter,kind,at,inservice\nf,flow,L,1\n",
];

const SESSION: [&str; 6] = ["session", "tables", "n", "s", "b", "m"];

// An input of five lines, of which one is taken at once.
const ASKED: Outside<'static> = Outside {
    input: b"status\nstatus\nstatus\nstatus\nstatus\n",
    read: 11,
    taken: 7,
    written: 7,
    ..QUIET
};

// A part of the outside, and how many calls were made on it.
#[derive(Drop)]
struct Counted<T> {
    inner: T,
    calls: u64,
}

impl<F: Files> Files for Counted<F> {
    ghost content = { λ s w. F.content s.inner w };

    ghost faults = { λ s w. F.faults s.inner w };

    ghost steady = { λ s w. F.steady s.inner w };

    ghost furthest = { F.furthest };

    ghost usual = { F.usual };

    fn part(&mut self, word: usize, at: u64, into: &mut [u8]) -> Result<usize, Failed> {
        self.calls = self.calls.saturating_add(1);
        self.inner.part(word, at, into)
    }
}

impl<S: Source> Source for Counted<S> {
    ghost left = { λ s. S.left s.inner };

    ghost faults = { λ s. S.faults s.inner };

    ghost steady = { λ s. S.steady s.inner };

    fn take(&mut self, into: &mut [u8]) -> Result<usize, Failed> {
        self.calls = self.calls.saturating_add(1);
        self.inner.take(into)
    }
}

impl<W: Sink> Sink for Counted<W> {
    ghost written = { λ s. W.written s.inner };

    ghost faults = { λ s. W.faults s.inner };

    ghost has_room = { λ s n. W.has_room s.inner n };

    fn put(&mut self, bytes: &[u8]) -> Result<usize, Failed> {
        self.calls = self.calls.saturating_add(1);
        self.inner.put(bytes)
    }
}

// How a run ended, how many calls it made, and how many lines it wrote.
#[derive(Clone, Copy)]
struct Tally {
    status: Status,
    reads: u64,
    takes: u64,
    puts: u64,
    lines: u64,
}

fn count_lines(text: &[u8]) -> u64 {
    let mut lines = 0_u64;
    for byte in text {
        if *byte == b'\n' {
            lines = lines.saturating_add(1);
        }
    }
    lines
}

fn counts_over<F: Files, S: Source>(
    alloc: Global,
    words: &[String],
    files: &mut Counted<F>,
    input: &mut Counted<S>,
    outside: Outside<'_>,
) -> Result<Tally, Fail> {
    let mut output = Counted {
        inner: sink(alloc, outside)?,
        calls: 0,
    };
    let status = run(alloc, words, files, input, &mut output);
    Ok(Tally {
        status,
        reads: files.calls,
        takes: input.calls,
        puts: output.calls,
        lines: count_lines(output.inner.written()),
    })
}

fn counts_with_input<F: Files>(
    alloc: Global,
    words: &[String],
    files: &mut Counted<F>,
    outside: Outside<'_>,
) -> Result<Tally, Fail> {
    let bytes = Vec::from_slice(alloc, outside.input)?;
    let fails = Vec::from_slice(alloc, outside.take_fails)?;
    let inner = MemSource::new(bytes, outside.taken.max(1), fails);
    counts_over(
        alloc,
        words,
        files,
        &mut Counted { inner, calls: 0 },
        outside,
    )
}

fn counts(alloc: Global, tables: &[&[u8]], outside: Outside<'_>) -> Result<Tally, Fail> {
    let words = texts(alloc, &SESSION)?;
    let fails = Vec::from_slice(alloc, outside.read_fails)?;
    let inner = MemFiles::new(entries(alloc, tables)?, outside.read.max(1), fails);
    counts_with_input(alloc, &words, &mut Counted { inner, calls: 0 }, outside)
}

// Whether the run ends so where this call fails, after as many calls of its kind as that needs.
fn ends_at(call: u64, calls: u64, found: Status, status: Status) -> bool {
    found == status && calls == call.saturating_add(1)
}

#[test]
fn no_read_behind_a_failed_one(rt: HostRuntime) -> Result<(), Fail> {
    for call in 0..100 {
        let found = counts(
            rt.alloc(),
            &TABLES,
            Outside {
                read_fails: &[call],
                ..ASKED
            },
        )?;
        if found.status != Status::ReadFault {
            assert!(rt; call > 8 && found.status == Status::Done);
            return Ok(());
        }
        assert!(rt; ends_at(call, found.reads, found.status, Status::ReadFault));
        assert!(rt; found.takes == 0 && found.puts == 0);
    }
    Ok(())
}

#[test]
fn no_take_behind_a_failed_one(rt: HostRuntime) -> Result<(), Fail> {
    for call in 0..100 {
        let found = counts(
            rt.alloc(),
            &TABLES,
            Outside {
                take_fails: &[call],
                ..ASKED
            },
        )?;
        if found.status != Status::ReadFault {
            assert!(rt; call == 6 && found.status == Status::Done);
            return Ok(());
        }
        assert!(rt; ends_at(call, found.takes, found.status, Status::ReadFault));
    }
    Ok(())
}

// Of the input only the lines up to the one whose answer wasn't written are taken: an answer has eight lines.
#[test]
fn no_write_and_no_take_behind_a_failed_write(rt: HostRuntime) -> Result<(), Fail> {
    for call in 0..200 {
        let found = counts(
            rt.alloc(),
            &TABLES,
            Outside {
                write_fails: &[call],
                ..ASKED
            },
        )?;
        if found.status != Status::WriteFault {
            assert!(rt; call > 50 && found.status == Status::Done && found.lines == 40);
            return Ok(());
        }
        assert!(rt; ends_at(call, found.puts, found.status, Status::WriteFault));
        assert!(rt; found.takes == (found.lines / 8).saturating_add(1));
    }
    Ok(())
}

// The fault's line is written, and the input isn't asked for.
#[test]
fn no_take_where_a_file_is_no_case(rt: HostRuntime) -> Result<(), Fail> {
    let found = counts(rt.alloc(), &FAULTY, ASKED)?;
    assert!(rt; found.status == Status::InputFault);
    assert!(rt; found.takes == 0 && found.lines == 1);
    Ok(())
}
