// What is said on standard error of a run.
ghost use Rattle.std.specs.Prelude.{◌≡◌, ◌<◌, ◌+◌, ◌++◌, ℕ, [], length, map, string_bytes, slice_index_or, IsOk};
ghost use Rattle.obs_io.specs.inner.Bytes.{Writes};
ghost use Rattle.obs_notice.specs.Notices.{byte_said, digit_code, name_said, notice, read_notice, too_long_notice};

use crate::numbers::write_around;
use crate::summary::{Summary, say_summary};
use obs_files::{Limits, Status};
use obs_io::{Failed, Sink, write_all};
use obs_text::Digits;

const USAGE: &[u8] =
    b"obs: these words are none of: topology N S, report FORM, place FORM CAND, session FORM, verify FORM CERT, trial N SEED,\n\
obs: outages FORM, pairs FORM, stations FORM.\n\
obs: FORM is: tables N S B M, or cdf C M, or matpower C M; session and verify also take FORM with CAND. Names of files are UTF-8.\n";

const INPUT_FAULT: &[u8] =
    b"obs: a file has a fault. The line on standard output has its part, row, code and name; docs/GUIDE.md has likely causes.\n\
obs: of a table row 0 is the header and row k line k + 1 of a spreadsheet, empty lines not counted; of other files it is the line.\n";

const FILE: &[u8] = b"obs: this file could not be read: ";

const FILE_END: &[u8] =
    b"\nobs: is it spelt right, and may you read it? It must be a plain file, no folder or pipe: it is opened more than once.\n";

const INPUT: &[u8] =
    b"obs: the standard input could not be read. The lines that had ended before were answered.\n";

const WRITE_FAULT: &[u8] =
    b"obs: the answer could not be written whole: at most a front of it was. Is the disk full, or did the reader stop, as head does?\n";

const NO_MEMORY: &[u8] =
    b"obs: there was no memory, and nothing was written. Allow more (see ulimit -v), or give a smaller case.\n";

const SESSION_TOO_LONG: &[u8] = b"obs: the session's input has more than ";

const SESSION_END: &[u8] = b" bytes. Only the lines that ended within these were answered.\n\
obs: begin a new session for the rest, and repeat the edits that are to hold there.\n";

// The bytes of the word at a position, and none behind the last.
fn word_bytes(words: &[String], at: usize) -> &[u8]
    ensures bytes { result.now ≡ slice_index_or (map string_bytes words.now) at [] }
{
    match words.get(at) {
        Some(word) => word.as_bytes(),
        None => b"",
    }
}

// A digit of a number in base 16.
fn digit(value: u8) -> u8
    requires value { value < 16 }
    ensures digit { result ≡ digit_code value }
{
    if value < 10 { 48 + value } else { 87 + value }
}

// Writes a byte of a name, by its number where a terminal would act on it or a number could be meant.
fn write_byte<E: Sink>(errors: &mut E, byte: u8) -> Result<(), Failed>
    ensures writes { Writes (E.written errors.old) (E.written errors.new) result (byte_said byte) }
    ensures succeeds { (rest : ℕ) → E.has_room errors.old (length (byte_said byte) + rest) → IsOk result }
    ensures room { (rest : ℕ) → E.has_room errors.old (length (byte_said byte) + rest) → E.has_room errors.new rest }
{
    if byte < 32 || byte == 92 || byte == 127 {
        let text = [92, 120, digit(byte / 16), digit(byte % 16)];
        return write_all(errors, &text);
    }
    write_all(errors, &[byte])
}

// Writes a name.
fn write_name<E: Sink>(errors: &mut E, name: &[u8]) -> Result<(), Failed>
    ensures writes { Writes (E.written errors.old) (E.written errors.new) result (name_said name.now) }
    ensures succeeds { (rest : ℕ) → E.has_room errors.old (length (name_said name.now) + rest) → IsOk result }
    ensures room { (rest : ℕ) → E.has_room errors.old (length (name_said name.now) + rest) → E.has_room errors.new rest }
{
    let mut at = 0;
    while at < name.len() {
        write_byte(errors, name[at])?;
        at += 1;
    }
    Ok(())
}

// Writes a name and then a text.
fn write_two<E: Sink>(errors: &mut E, name: &[u8], second: &[u8]) -> Result<(), Failed>
    ensures writes { Writes (E.written errors.old) (E.written errors.new) result (name_said name.now ++ second.now) }
    ensures succeeds { (rest : ℕ) → E.has_room errors.old (length (name_said name.now ++ second.now) + rest)
        → IsOk result }
{
    match write_name(errors, name) {
        Ok(()) => write_all(errors, second),
        Err(Failed) => Err(Failed),
    }
}

// Writes a text, then a name and then a text.
fn write_three<E: Sink>(
    errors: &mut E,
    first: &[u8],
    name: &[u8],
    third: &[u8],
) -> Result<(), Failed>
    ensures writes { Writes (E.written errors.old) (E.written errors.new) result
        (first.now ++ (name_said name.now ++ third.now)) }
    ensures succeeds { (rest : ℕ) → E.has_room errors.old (length (first.now ++ (name_said name.now ++ third.now)) + rest)
        → IsOk result }
{
    match write_all(errors, first) {
        Ok(()) => write_two(errors, name, third),
        Err(Failed) => Err(Failed),
    }
}

// Says that the file of this word could not be read, or the input where none is given.
fn say_unread<E: Sink>(
    errors: &mut E,
    words: &[String],
    failed: Option<usize>,
) -> Result<(), Failed>
    ensures says { Writes (E.written errors.old) (E.written errors.new) result
        (read_notice (map string_bytes words.now) failed) }
    ensures succeeds { (rest : ℕ)
        → E.has_room errors.old (length (read_notice (map string_bytes words.now) failed) + rest) → IsOk result }
{
    match failed {
        Some(word) => write_three(errors, FILE, word_bytes(words, word), FILE_END),
        None => write_all(errors, INPUT),
    }
}

// Says that the session's input has more bytes than are taken.
fn say_too_long<E: Sink>(errors: &mut E, limits: Limits) -> Result<(), Failed>
    ensures says { Writes (E.written errors.old) (E.written errors.new) result (too_long_notice limits) }
    ensures succeeds { (rest : ℕ) → E.has_room errors.old (length (too_long_notice limits) + rest) → IsOk result }
{
    let mut digits = Digits::new();
    let text = digits.text(limits.bytes() as u64);
    write_around(errors, SESSION_TOO_LONG, text, SESSION_END)
}

/// Says what happened in a run that ended with this status, and what to do, where no answer was given or not the whole
/// one. The word is that of the file of which a read failed, and the limits are those of the run. Of a whole answer it
/// says what the summary of the case says, where there is one.
pub fn say<E: Sink>(
    errors: &mut E,
    limits: Limits,
    words: &[String],
    status: Status,
    failed: Option<usize>,
    summary: Option<Summary>,
) -> Result<(), Failed>
    ensures says { Writes (E.written errors.old) (E.written errors.new) result
        (notice limits (map string_bytes words.now) status failed summary) }
    ensures succeeds { (rest : ℕ)
        → E.has_room errors.old (length (notice limits (map string_bytes words.now) status failed summary) + rest)
        → IsOk result }
{
    match status {
        Status::Done | Status::Short => say_summary(errors, summary),
        Status::Usage => write_all(errors, USAGE),
        Status::InputFault => write_all(errors, INPUT_FAULT),
        Status::ReadFault => say_unread(errors, words, failed),
        Status::WriteFault => write_all(errors, WRITE_FAULT),
        Status::NoMemory => write_all(errors, NO_MEMORY),
        Status::SessionTooLong => say_too_long(errors, limits),
    }
}
