// Cases of runs, written as one text.
//
// A line `+ WORD` begins the file of a word, and `+ input` the input; with `unended` before the word its last line feed is left
// out. A line `> NUMBER WORDS` asks for a run with these words, which ends with this exit status, and begins the text that it
// prints. A line that begins with `=` says what comes, and one with `==` begins a case of its own. What a line begins goes on up to
// the next of these lines. A run has of each word the file that stands last before it in its case.

ghost use Rattle.std.specs.Prelude.{◌≤◌, length};

use crate::tests::{Ended, Outside, outcome_of, taking};
use obs_io::Entry;
use obs_text::whole;
use std::alloc::Global;
use std::process::Abort;
use std::test::Fail;

// What stands before a byte and behind it, or all where it isn't there.
pub(crate) fn cut_at(text: &[u8], byte: u8) -> (&[u8], &[u8]) {
    let mut at = 0_usize;
    for other in text {
        if *other == byte {
            break;
        }
        at = at.wrapping_add(1);
    }
    if at < text.len() {
        (&text[..at], &text[at + 1..])
    } else {
        (text, &[])
    }
}

// The first bytes.
pub(crate) fn front(bytes: &[u8], count: usize) -> &[u8]
    ensures short { length result.now ≤ count }
{
    if count <= bytes.len() {
        &bytes[..count]
    } else {
        bytes
    }
}

// How many bytes stand before the next line that begins something.
fn body_length(text: &[u8]) -> usize {
    let mut length = 0_usize;
    let mut begins = true;
    for byte in text {
        if begins && (*byte == b'+' || *byte == b'>' || *byte == b'=') {
            break;
        }
        begins = *byte == b'\n';
        length = length.wrapping_add(1);
    }
    length
}

// A line that begins something, what it begins, and all behind that.
#[derive(Clone, Copy)]
struct Part<'a> {
    line: &'a [u8],
    body: &'a [u8],
    rest: &'a [u8],
}

// The first bytes, and those behind them.
fn cut(text: &[u8], length: usize) -> (&[u8], &[u8]) {
    if length < text.len() {
        (&text[..length], &text[length..])
    } else {
        (text, &[])
    }
}

fn first_part(text: &[u8]) -> Part<'_> {
    let (line, behind) = cut_at(text, b'\n');
    let (body, rest) = cut(behind, body_length(behind));
    Part { line, body, rest }
}

// What a part has as the file of a word, if it has it.
fn body_of<'a>(part: Part<'a>, word: &[u8]) -> Option<&'a [u8]> {
    let name = part.line.strip_prefix(b"+ ".as_slice())?;
    if name == word {
        return Some(part.body);
    }
    if name.strip_prefix(b"unended ".as_slice()) == Some(word) {
        return part.body.strip_suffix(b"\n".as_slice());
    }
    None
}

// The last file of a word.
pub(crate) fn file_of<'a>(text: &'a [u8], word: &[u8]) -> Option<&'a [u8]> {
    let mut found = None;
    let mut rest = text;
    for _ in text {
        if rest.is_empty() {
            break;
        }
        let part = first_part(rest);
        if let Some(body) = body_of(part, word) {
            found = Some(body);
        }
        rest = part.rest;
    }
    found
}

// A run: its words, behind the text that has its files, its exit status, and the text that it prints.
#[derive(Clone, Copy)]
pub(crate) struct Run<'a> {
    pub(crate) before: &'a [u8],
    pub(crate) words: &'a [u8],
    pub(crate) status: &'a [u8],
    pub(crate) text: &'a [u8],
}

// The run of this number, from 0 on.
pub(crate) fn nth_run(text: &[u8], number: u32) -> Option<Run<'_>> {
    let mut case = text;
    let mut rest = text;
    let mut count = 0_u32;
    for _ in text {
        let part = first_part(rest);
        if part.line.starts_with(b"==") {
            case = part.rest;
        }
        if let Some(line) = part.line.strip_prefix(b"> ".as_slice()) {
            if count == number {
                let (status, words) = cut_at(line, b' ');
                return Some(Run {
                    before: front(case, case.len().saturating_sub(rest.len())),
                    words,
                    status,
                    text: part.body,
                });
            }
            count = count.wrapping_add(1);
        }
        rest = part.rest;
    }
    None
}

pub(crate) fn input_of<'a>(run: Run<'a>) -> &'a [u8] {
    file_of(run.before, b"input").unwrap_or(b"")
}

fn words_of(alloc: Global, line: &[u8]) -> Result<Vec<String>, Fail> {
    let mut words = Vec::new(alloc);
    let mut rest = line;
    for _ in line {
        let (word, behind) = cut_at(rest, b' ');
        if !word.is_empty() {
            let word = str::from_utf8(word).ok().ok_or("no text")?;
            words.push(String::from_str(alloc, word)?)?;
        }
        rest = behind;
    }
    Ok(words)
}

fn files_of(alloc: Global, text: &[u8], words: &[String]) -> Result<Vec<Entry>, Fail> {
    let mut all = Vec::new(alloc);
    for (word, name) in words.iter().enumerate() {
        if let Some(bytes) = file_of(text, name.as_str().as_bytes()) {
            let bytes = Vec::from_slice(alloc, bytes)?;
            all.push(Entry { word, bytes })?;
        }
    }
    Ok(all)
}

pub(crate) fn entries_of(alloc: Global, run: Run<'_>) -> Result<Vec<Entry>, Fail> {
    let words = words_of(alloc, run.words)?;
    files_of(alloc, run.before, &words)
}

// A run over these files.
pub(crate) fn outcome_with(
    alloc: Global,
    run: Run<'_>,
    entries: Vec<Entry>,
    outside: Outside<'_>,
) -> Result<Ended, Fail> {
    let words = words_of(alloc, run.words)?;
    outcome_of(alloc, &words, entries, outside)
}

pub(crate) fn ended(alloc: Global, run: Run<'_>, outside: Outside<'_>) -> Result<Ended, Fail> {
    outcome_with(alloc, run, entries_of(alloc, run)?, outside)
}

// A run that ended so, as it is to.
pub(crate) fn is_as_said(run: Run<'_>, found: &Ended) -> bool {
    let status = u64::from(found.status.code());
    whole(run.status) == Some(status) && found.text.as_slice() == run.text
}

// However the input is cut into pieces.
fn ends_so(rt: &impl Abort, alloc: Global, run: Run<'_>) -> Result<(), Fail> {
    for piece in [1, 3, 7, 5000] {
        let found = ended(alloc, run, taking(input_of(run), piece))?;
        assert!(rt; is_as_said(run, &found));
    }
    Ok(())
}

// Each run of a text ends so, and there are so many of them.
pub(crate) fn all_end_so(
    rt: &impl Abort,
    alloc: Global,
    runs: u32,
    text: &[u8],
) -> Result<(), Fail> {
    for number in 0..runs {
        ends_so(rt, alloc, nth_run(text, number).ok_or("no such run")?)?;
    }
    assert!(rt; nth_run(text, runs).is_none());
    Ok(())
}
