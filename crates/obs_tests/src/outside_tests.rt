// What no contract says: what the real things give, that calls succeed, and which calls fail.
use obs_io::{
    DirFiles, Entry, Failed, Files, FromRead, MemFiles, MemSink, MemSource, ReadEnd, Sink, Source,
    ToWrite, read_all, write_all,
};
use std::alloc::Global;
use std::io::{Cursor, Read, Write};
use std::process::Abort;
use std::test::Fail;
use std::{fs, io};

fn listed(alloc: Global, calls: &[u64]) -> Result<Vec<u64>, Fail> {
    Ok(Vec::from_slice(alloc, calls)?)
}

fn entries(alloc: Global, files: &[(usize, &[u8])]) -> Result<Vec<Entry>, Fail> {
    let mut all = Vec::new(alloc);
    for (word, bytes) in files {
        all.push(Entry {
            word: *word,
            bytes: Vec::from_slice(alloc, bytes)?,
        })?;
    }
    Ok(all)
}

// Whether reading a file of at most so many bytes ends so.
fn is_read(
    alloc: Global,
    files: &mut impl Files,
    word: usize,
    limit: u64,
    end: Result<&[u8], ReadEnd>,
) -> bool {
    if word >= 16 || limit > 16_777_216 {
        return false;
    }
    match (read_all(alloc, files, word, limit), end) {
        (Ok(found), Ok(bytes)) => found.as_slice() == bytes,
        (Err(found), Err(why)) => found == why,
        _ => false,
    }
}

// An input gives these pieces, call by call, and fails where there is none.
fn comes(rt: &impl Abort, input: &mut impl Source, pieces: &[Option<&[u8]>]) {
    for piece in pieces {
        let mut into = [0; 5];
        let right = match (input.take(&mut into), piece) {
            (Ok(count), Some(bytes)) => count == bytes.len() && into.starts_with(bytes),
            (Err(_), None) => true,
            _ => false,
        };
        assert!(rt; right);
    }
}

// Each of these bytes is written whole, or fails.
fn goes(rt: &impl Abort, output: &mut impl Sink, writes: &[(&[u8], bool)]) {
    for (bytes, well) in writes {
        assert!(rt; write_all(output, bytes).is_ok() == *well);
    }
}

#[test]
fn files_in_memory_are_read_whole(rt: HostRuntime) -> Result<(), Fail> {
    let held = entries(rt.alloc(), &[(1, b"north"), (2, b""), (1, b"south")])?;
    let mut files = MemFiles::new(held, 2, listed(rt.alloc(), &[5])?);
    let ends = [
        (1, 5, Ok(b"north".as_slice())),
        (2, 5, Ok(b"")),
        (1, 4, Err(ReadEnd::Failed)),
        (1, 4, Err(ReadEnd::TooLong)),
        (3, 4, Err(ReadEnd::Failed)),
    ];
    for (word, limit, end) in ends {
        assert!(rt; is_read(rt.alloc(), &mut files, word, limit, end));
    }
    Ok(())
}

#[test]
fn input_in_memory_comes_in_pieces(rt: HostRuntime) -> Result<(), Fail> {
    let bytes = Vec::from_slice(rt.alloc(), b"status")?;
    let mut input = MemSource::new(bytes, 4, listed(rt.alloc(), &[1])?);
    let pieces = [Some(b"stat".as_slice()), None, Some(b"us"), Some(b"")];
    comes(&rt, &mut input, &pieces);
    Ok(())
}

#[test]
fn output_in_memory_goes_in_pieces(rt: HostRuntime) -> Result<(), Fail> {
    let fail = listed(rt.alloc(), &[3])?;
    let mut output = MemSink::with_room(rt.alloc(), 8, 3, fail)
        .ok()
        .ok_or("no sink")?;
    assert!(rt; output.put(b"nodes") == Ok(3));
    goes(&rt, &mut output, &[(b"es", true), (b"abcd", false)]);
    assert!(rt; output.written() == b"nodesabc".as_slice());
    goes(&rt, &mut output, &[(b"d", false)]);
    Ok(())
}

const PATH: &str = "obs_io_pieces.txt";

// Longer than what is asked for at once.
const LONG: usize = 150_000;

fn add_long(bytes: &mut Vec<u8>) -> Result<(), Fail> {
    for at in 0..LONG {
        bytes.push((at % 251) as u8)?;
    }
    Ok(())
}

fn add_paths(alloc: Global, words: &mut Vec<String>) -> Result<(), Fail> {
    for word in [PATH, "no_such_file.txt"] {
        words.push(String::from_str(alloc, word)?)?;
    }
    Ok(())
}

// Whether the first of two files has these bytes, and the second isn't there.
fn are_read(alloc: Global, files: &mut impl Files, bytes: &[u8]) -> bool {
    let mut into = [0; 4];
    is_read(alloc, files, 0, 16_777_216, Ok(bytes))
        && is_read(alloc, files, 0, 149_999, Err(ReadEnd::TooLong))
        && is_read(alloc, files, 1, 16_777_216, Err(ReadEnd::Failed))
        && files.part(9, 0, &mut into).is_err()
}

// The same of a file that is written for it.
fn are_read_back(rt: &HostRuntime, words: &[String], bytes: &[u8]) -> Result<bool, Fail> {
    fs::write(rt, PATH, bytes)?;
    let read = are_read(rt.alloc(), &mut DirFiles::new(rt, words), bytes);
    fs::remove_file(rt, PATH)?;
    Ok(read)
}

#[test]
fn a_real_file_is_read_whole(rt: HostRuntime) -> Result<(), Fail> {
    let mut words = Vec::new(rt.alloc());
    add_paths(rt.alloc(), &mut words)?;
    let mut bytes = Vec::new(rt.alloc());
    add_long(&mut bytes)?;
    let read = are_read_back(&rt, &words, &bytes)?;
    assert!(rt; read);
    Ok(())
}

#[test]
fn a_reader_and_a_writer_stand_under_the_traits(rt: HostRuntime) {
    let mut input = FromRead::new(b"close S1\n".as_slice());
    comes(&rt, &mut input, &[Some(b"close".as_slice())]);
    let mut buffer = [0; 6];
    let mut output = ToWrite::new(Cursor::new(buffer.as_mut_slice()));
    goes(&rt, &mut output, &[(b"end\n", true), (b"more", false)]);
}

#[test]
fn a_word_that_is_not_held_fails(rt: HostRuntime) -> Result<(), Fail> {
    let held = entries(rt.alloc(), &[(2, b"north")])?;
    let mut files = MemFiles::new(held, 8, Vec::new(rt.alloc()));
    let mut into = [0; 8];
    assert!(rt; files.part(1, 0, &mut into).is_err());
    assert!(rt; files.part(3, 16_777_216, &mut into).is_err());
    assert!(rt; files.part(2, 0, &mut into) == Ok(5));
    Ok(())
}

// Gives its bytes, but the calls with these numbers fail.
#[derive(Drop)]
struct Unreadable<'a> {
    bytes: &'a [u8],
    fail: &'a [u64],
    calls: u64,
}

impl Read for Unreadable<'_> {
    fn read(&mut self, buf: &mut [u8]) -> io::Result<usize> {
        let call = self.calls;
        self.calls = call.saturating_add(1);
        if self.fail.contains(&call) {
            return Err(io::Error::from(io::ErrorKind::BrokenPipe));
        }
        self.bytes.read(buf)
    }
}

// What a source gives is no end of its bytes where its reader failed before: the reader is asked anew.
#[test]
fn a_reader_that_failed_is_asked_anew(rt: HostRuntime) {
    let mut input = FromRead::new(Unreadable {
        bytes: b"close S1\n",
        fail: &[1, 2],
        calls: 0,
    });
    let pieces = [
        Some(b"close".as_slice()),
        None,
        None,
        Some(b" S1\n"),
        Some(b""),
    ];
    comes(&rt, &mut input, &pieces);
}

// Takes all bytes, and can't flush them.
#[derive(Drop)]
struct Unflushed;

impl Write for Unflushed {
    fn write(&mut self, buf: &[u8]) -> io::Result<usize> {
        Ok(buf.len())
    }

    fn flush(&mut self) -> io::Result<()> {
        Err(io::Error::from(io::ErrorKind::BrokenPipe))
    }
}

#[test]
fn a_writer_that_cannot_flush_fails(rt: HostRuntime) {
    let mut output = ToWrite::new(Unflushed);
    assert!(rt; output.put(b"end\n") == Err(Failed));
    goes(&rt, &mut output, &[(b"end\n", false), (b"", true)]);
}
