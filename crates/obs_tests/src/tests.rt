// Runs over the forms in memory, and how they end.
use obs_engine::{Status, run};
use obs_io::{Entry, Files, MemFiles, MemSink, MemSource};
use std::alloc::Global;
use std::process::Abort;
use std::test::Fail;

// How many bytes the output takes at once.
const MOVED: usize = 5;

pub(crate) fn texts(alloc: Global, words: &[&str]) -> Result<Vec<String>, Fail> {
    let mut all = Vec::new(alloc);
    for word in words {
        all.push(String::from_str(alloc, word)?)?;
    }
    Ok(all)
}

pub(crate) fn entries(alloc: Global, files: &[&[u8]]) -> Result<Vec<Entry>, Fail> {
    let mut all = Vec::new(alloc);
    for (i, bytes) in files.iter().enumerate() {
        all.push(Entry {
            word: i.saturating_add(1),
            bytes: Vec::from_slice(alloc, bytes)?,
        })?;
    }
    Ok(all)
}

#[derive(Drop)]
pub(crate) struct Ended {
    pub(crate) status: Status,
    pub(crate) text: Vec<u8>,
}

// What a run meets beside its files: an input, how many bytes are read, taken and written at once, the room of the output, and
// the numbers of the calls that fail.
#[derive(Clone, Copy)]
pub(crate) struct Outside<'a> {
    pub(crate) input: &'a [u8],
    pub(crate) read: usize,
    pub(crate) taken: usize,
    pub(crate) written: usize,
    pub(crate) room: usize,
    pub(crate) read_fails: &'a [u64],
    pub(crate) take_fails: &'a [u64],
    pub(crate) write_fails: &'a [u64],
}

// No input, and no call fails.
pub(crate) const QUIET: Outside<'static> = Outside {
    input: &[],
    read: 7,
    taken: 1,
    written: MOVED,
    room: 1_000_000,
    read_fails: &[],
    take_fails: &[],
    write_fails: &[],
};

// An input in pieces of so many bytes, and no call fails.
pub(crate) fn taking(input: &[u8], taken: usize) -> Outside<'_> {
    Outside {
        input,
        taken,
        ..QUIET
    }
}

pub(crate) fn source(alloc: Global, outside: Outside<'_>) -> Result<MemSource, Fail> {
    let bytes = Vec::from_slice(alloc, outside.input)?;
    let fails = Vec::from_slice(alloc, outside.take_fails)?;
    Ok(MemSource::new(bytes, outside.taken.max(1), fails))
}

pub(crate) fn sink(alloc: Global, outside: Outside<'_>) -> Result<MemSink, Fail> {
    let fails = Vec::from_slice(alloc, outside.write_fails)?;
    let sink = MemSink::with_room(alloc, outside.room, outside.written.max(1), fails);
    Ok(sink.ok().ok_or("no room")?)
}

// What a run wrote, with its status.
pub(crate) fn kept(alloc: Global, status: Status, text: &[u8]) -> Result<Ended, Fail> {
    let text = Vec::from_slice(alloc, text)?;
    Ok(Ended { status, text })
}

// A run is begun piece by piece: each of these calls owns one value, and has one place where it ends early.
fn run_with_output<F: Files>(
    alloc: Global,
    words: &[String],
    files: &mut F,
    input: &mut MemSource,
    outside: Outside<'_>,
) -> Result<Ended, Fail> {
    let mut output = sink(alloc, outside)?;
    let status = run(alloc, words, files, input, &mut output);
    kept(alloc, status, output.written())
}

pub(crate) fn run_with_input<F: Files>(
    alloc: Global,
    words: &[String],
    files: &mut F,
    outside: Outside<'_>,
) -> Result<Ended, Fail> {
    let mut input = source(alloc, outside)?;
    run_with_output(alloc, words, files, &mut input, outside)
}

// A run over these files in memory.
pub(crate) fn outcome_of(
    alloc: Global,
    words: &[String],
    entries: Vec<Entry>,
    outside: Outside<'_>,
) -> Result<Ended, Fail> {
    let fails = Vec::from_slice(alloc, outside.read_fails)?;
    let mut files = MemFiles::new(entries, outside.read.max(1), fails);
    run_with_input(alloc, words, &mut files, outside)
}

pub(crate) fn outcome_over(
    alloc: Global,
    words: &[&str],
    entries: Vec<Entry>,
    outside: Outside<'_>,
) -> Result<Ended, Fail> {
    let words = texts(alloc, words)?;
    outcome_of(alloc, &words, entries, outside)
}

// A run whose files are those of the words behind the first one.
pub(crate) fn outcome(
    alloc: Global,
    words: &[&str],
    files: &[&[u8]],
    outside: Outside<'_>,
) -> Result<Ended, Fail> {
    outcome_over(alloc, words, entries(alloc, files)?, outside)
}

// A run in which no call fails ends so.
pub(crate) fn answers(
    rt: &impl Abort,
    alloc: Global,
    words: &[&str],
    files: &[&[u8]],
    status: Status,
    text: &[u8],
) -> Result<(), Fail> {
    let found = outcome(alloc, words, files, QUIET)?;
    assert!(rt; found.status == status);
    assert!(rt; found.text.as_slice() == text);
    Ok(())
}

// Whether a run fails where this read does. Then nothing is written.
fn read_fails(
    rt: &impl Abort,
    alloc: Global,
    words: &[&str],
    files: &[&[u8]],
    call: u64,
) -> Result<bool, Fail> {
    let failing = Outside {
        read_fails: &[call],
        ..QUIET
    };
    let found = outcome(alloc, words, files, failing)?;
    let fails = found.status == Status::ReadFault;
    assert!(rt; !fails || found.text.is_empty());
    Ok(fails)
}

// How many reads a run makes, of which each has failed in turn.
pub(crate) fn failing_reads(
    rt: &impl Abort,
    alloc: Global,
    words: &[&str],
    files: &[&[u8]],
) -> Result<u64, Fail> {
    for call in 0..1000 {
        if !read_fails(rt, alloc, words, files, call)? {
            return Ok(call);
        }
    }
    Ok(1000)
}

// A front of a text that isn't all of it, and no more than so many bytes.
pub(crate) fn is_front(text: &[u8], whole: &[u8], most: usize) -> bool {
    text.len() < whole.len() && text.len() <= most && whole.starts_with(text)
}

// Whether a run fails where this write does. Then a front of the text is written, and no more of it than the calls before could
// take: nothing where the first one failed.
fn write_fails(
    rt: &impl Abort,
    alloc: Global,
    words: &[&str],
    files: &[&[u8]],
    text: &[u8],
    call: u64,
) -> Result<bool, Fail> {
    let failing = Outside {
        write_fails: &[call],
        ..QUIET
    };
    let found = outcome(alloc, words, files, failing)?;
    let fails = found.status == Status::WriteFault;
    let most = (call as usize).saturating_mul(MOVED);
    assert!(rt; !fails || is_front(&found.text, text, most));
    Ok(fails)
}

// How many writes a run makes, of which each has failed in turn.
pub(crate) fn failing_writes(
    rt: &impl Abort,
    alloc: Global,
    words: &[&str],
    files: &[&[u8]],
    text: &[u8],
) -> Result<u64, Fail> {
    for call in 0..1000 {
        if !write_fails(rt, alloc, words, files, text, call)? {
            return Ok(call);
        }
    }
    Ok(1000)
}
