// What the lines of a session say, and how they are gathered.

use crate::scripts::{cut_at, front};
use obs_script::{Ask, Command, Gather, LineFault, read_line};
use obs_text::whole;
use std::process::Abort;

fn ask_word(ask: Ask) -> &'static [u8] {
    match ask {
        Ask::Status => b"status",
        Ask::Tree => b"tree",
        Ask::Bound => b"bound",
        Ask::Islands => b"islands",
        Ask::Critical => b"critical",
        Ask::Report => b"report",
        Ask::Place => b"place",
        Ask::Cert => b"cert",
    }
}

// The word of a command, and the name behind it.
fn words_of(command: Command<'_>) -> (&[u8], &[u8]) {
    match command {
        Command::OpenSwitch(name) => (b"open", name),
        Command::CloseSwitch(name) => (b"close", name),
        Command::TripBranch(name) => (b"trip", name),
        Command::RestoreBranch(name) => (b"restore", name),
        Command::LoseMeter(name) => (b"lose", name),
        Command::RegainMeter(name) => (b"regain", name),
        Command::Asked(ask) => (ask_word(ask), b""),
    }
}

// Whether a line is refused with this number, or, where that is 0, says the command of its own word, of all behind its first blank.
fn is_said(line: &[u8], number: &[u8]) -> bool {
    match read_line(line) {
        Ok(command) => {
            let (word, name) = cut_at(line, b' ');
            let (said, named) = words_of(command);
            whole(number) == Some(0) && said == word && named == name
        }
        Err(fault) => whole(number) == Some(u64::from(fault.code())),
    }
}

// Each line of a text is said so, and there are so many of them. Before a line stand its number and a bar.
fn all_are_said(rt: &impl Abort, lines: u32, text: &[u8]) {
    let mut rest = text;
    for _ in 0..lines {
        let (case, behind) = cut_at(rest, b'\n');
        let (number, line) = cut_at(case, b'|');
        assert!(rt; is_said(line, number));
        rest = behind;
    }
    assert!(rt; rest.is_empty());
}

// Asks, edits, names of 64 bytes and of 65, and refusals.
#[test]
fn lines_are_read(rt: HostRuntime) {
    all_are_said(
        &rt,
        30,
        b"0|status
0|tree
0|bound
0|islands
0|critical
0|report
0|place
0|cert
0|open S9
0|close S1
0|trip L9
0|restore L1
0|lose z
0|regain f1
0|lose Bus 1 P\x20
0|trip \x20
0|open open
0|trip xxxxxxxxxxxxxxxxxxxxxxxxxxxxxxxxxxxxxxxxxxxxxxxxxxxxxxxxxxxxxxxx
3|trip xxxxxxxxxxxxxxxxxxxxxxxxxxxxxxxxxxxxxxxxxxxxxxxxxxxxxxxxxxxxxxxxx
4|trip
3|trip\x20
3|trip a\tb
3|trip L1\r
1|report x
1|status\x20
1|Status
1| open S1
1|opens S1
1|
1|# note
",
    );
    let bytes = [b'x'; 257];
    assert!(rt; is_said(front(&bytes, 256), b"1"));
    assert!(rt; is_said(&bytes, b"2"));
}

const FAULTS: &[LineFault] = &[
    LineFault::UnknownCommand,
    LineFault::LineTooLong,
    LineFault::BadName,
    LineFault::WordMissing,
];

// Whether the fault has this number and this name, which a blank parts.
fn is_told(fault: LineFault, want: &[u8]) -> bool {
    let (number, name) = cut_at(want, b' ');
    whole(number) == Some(u64::from(fault.code()))
        && fault as u32 == fault.code()
        && fault.name() == name
}

#[test]
fn faults(rt: HostRuntime) {
    let mut rest = b"1 UnknownCommand\n2 LineTooLong\n3 BadName\n4 WordMissing\n".as_slice();
    for fault in FAULTS {
        let (want, behind) = cut_at(rest, b'\n');
        assert!(rt; is_told(*fault, want));
        rest = behind;
    }
    assert!(rt; rest.is_empty());
}

// Gathers the bytes behind what came before.
fn gather(line: &mut Gather, bytes: &[u8]) {
    for byte in bytes {
        line.feed(*byte);
    }
}

// Whether a line has this content, or is too long where there is none.
fn has_content(line: &Gather, content: Option<&[u8]>) -> bool {
    match (line.line(), content) {
        (Some(found), Some(wanted)) => found == wanted,
        (None, None) => true,
        _ => false,
    }
}

// Whether what came before and these bytes have this content, also behind the line feed; then the line is cleared.
fn is_gathered(line: &mut Gather, bytes: &[u8], content: Option<&[u8]>) -> bool {
    gather(line, bytes);
    let before = has_content(line, content);
    let ends = line.feed(b'\n');
    let behind = has_content(line, content);
    line.clear();
    before && ends && behind
}

// Whether bytes have this content, and get no answer exactly where it is empty.
fn is_line(bytes: &[u8], content: &[u8]) -> bool {
    let mut line = Gather::new();
    gather(&mut line, bytes);
    let passed = line.passed();
    line.clear();
    passed == content.is_empty()
        && is_gathered(&mut line, bytes, Some(content))
        && has_content(&line, Some(b"".as_slice()))
}

#[test]
fn gathered_lines(rt: HostRuntime) {
    let mut rest = b"status|status
status\r|status
status\r\r|status\r
\rstatus|\rstatus
 a\tb | a\tb\x20
|
\r|
"
        .as_slice();
    for _ in 0..7 {
        let (case, behind) = cut_at(rest, b'\n');
        let (bytes, content) = cut_at(case, b'|');
        assert!(rt; is_line(bytes, content));
        rest = behind;
    }
    assert!(rt; rest.is_empty());
}

// Whether the first bytes are a line with as many of them, or one that is too long; it gets an answer.
fn is_kept(bytes: &[u8], many: usize, content: Option<usize>) -> bool {
    let mut line = Gather::new();
    gather(&mut line, front(bytes, many));
    let wanted = match content {
        Some(count) => Some(front(bytes, count)),
        None => None,
    };
    has_content(&line, wanted) && !line.passed()
}

#[test]
fn long_lines(rt: HostRuntime) {
    let mut bytes = [b'x'; 300];
    assert!(rt; is_kept(&bytes, 256, Some(256)));
    for many in [257, 258, 300] {
        assert!(rt; is_kept(&bytes, many, None));
    }
    bytes[256] = b'\r';
    bytes[257] = b'\r';
    assert!(rt; is_kept(&bytes, 257, Some(256)));
    for many in [258, 259] {
        assert!(rt; is_kept(&bytes, many, None));
    }
}

#[test]
fn comments(rt: HostRuntime) {
    let mut bytes = [b'x'; 300];
    bytes[0] = b'#';
    for many in [1, 2, 257, 300] {
        let mut line = Gather::new();
        gather(&mut line, &bytes[..many]);
        assert!(rt; line.passed());
    }
    let mut line = Gather::new();
    gather(&mut line, b" #");
    assert!(rt; !line.passed());
}

// A line behind another one, one that was too long, and a comment.
fn are_lines_in_a_row() -> bool {
    let mut line = Gather::new();
    let name = is_gathered(&mut line, b"open S9", Some(b"open S9".as_slice()));
    let long = is_gathered(&mut line, &[b'x'; 257], None);
    let hash = !line.feed(b'#') && line.passed();
    line.clear();
    name && long && hash && is_gathered(&mut line, b"status", Some(b"status".as_slice()))
}

#[test]
fn lines_in_a_row(rt: HostRuntime) {
    assert!(rt; are_lines_in_a_row());
}
