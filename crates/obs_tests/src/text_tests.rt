// Names, numbers and lines of text.

use crate::read_cert_tests::first_case;
use crate::scripts::cut_at;
use obs_text::{Digits, InputFault, Lines, bare, columns, lines, name_of, whole};
use std::process::Abort;

// Whether bytes are a name, and given back as they are.
fn is_name(bytes: &[u8]) -> bool {
    match name_of(bytes) {
        Some(name) => name == bytes,
        None => false,
    }
}

// Whether a number is printed so.
fn is_text(digits: &mut Digits, number: u64, text: &[u8]) -> bool {
    digits.text(number) == text
}

// Whether bytes are a number that is printed so.
fn is_whole(bytes: &[u8], text: &[u8]) -> bool {
    match whole(bytes) {
        Some(number) => is_text(&mut Digits::new(), number, text),
        None => false,
    }
}

// Whether bytes have so many lines.
fn has_lines(bytes: &[u8], count: &[u8]) -> bool {
    let mut found = 0_u64;
    for _ in lines(bytes) {
        found = found.wrapping_add(1);
    }
    whole(count) == Some(found)
}

// Whether bytes are what the word says, with the value behind it.
fn is_so(bytes: &[u8], want: &[u8]) -> bool {
    let (word, value) = cut_at(want, b' ');
    match word.first() {
        Some(b'n') => is_name(bytes),
        Some(b'N') => name_of(bytes).is_none(),
        Some(b'w') => is_whole(bytes, value),
        Some(b'W') => whole(bytes).is_none(),
        Some(b'b') => bare(bytes) == value,
        Some(b'l') => has_lines(bytes, value),
        _ => false,
    }
}

fn all_are_so(rt: &impl Abort, cases: u32, text: &[u8]) {
    let mut rest = text;
    for _ in 0..cases {
        let (want, bytes, behind) = first_case(rest);
        assert!(rt; is_so(bytes, want));
        rest = behind;
    }
    assert!(rt; rest.is_empty());
}

// Names (`name`) and none (`None`), whole numbers and none (`Whole not`), what is bare, and numbers of lines.
#[test]
fn names_numbers_and_lines(rt: HostRuntime) {
    all_are_so(
        &rt,
        25,
        b"name|a|
name| |
name|~\x80\xff|
None||
None|a\x1f|
None|\x7f|
whole 0|0|
whole 7|007|
whole 1234567890123456789|1234567890123456789|
whole 9999999999999999999|9999999999999999999|
Whole not||
Whole not|00000000000000000000|
Whole not|+1|
Whole not|1 |
Whole not|1:|
bare a b|  a b |
bare \ta\t|\ta\t|
bare a|a|
bare |   |
bare ||
lines 0||
lines 1|a|
lines 1|a\n|
lines 2|\n\n|
lines 1|\r|
",
    );
    assert!(rt; is_name(&[b'x'; 64]));
    assert!(rt; name_of(&[b'x'; 65]).is_none());
}

#[test]
fn digits(rt: HostRuntime) {
    let mut digits = Digits::new();
    assert!(rt; is_text(&mut digits, 0, b"0"));
    assert!(rt; is_text(&mut digits, 20_000, b"20000"));
    assert!(rt; is_text(&mut digits, u64::MAX, b"18446744073709551615"));
}

// Whether the columns of a line of a case are these.
fn has_columns(from: usize, to: usize, part: &[u8]) -> bool {
    let line = b"   1 Bus 1     HV  1  1  3".as_slice();
    1 <= from && from <= to && columns(line, from, to) == part
}

#[test]
fn parts_of_a_line(rt: HostRuntime) {
    assert!(rt; has_columns(1, 4, b"   1"));
    assert!(rt; has_columns(25, 26, b" 3"));
    assert!(rt; has_columns(26, 30, b"3"));
    assert!(rt; has_columns(27, 30, b""));
    assert!(rt; has_columns(2, 2, b" "));
}

// Whether the next line is this one.
fn comes(some: &mut Lines<'_>, line: &[u8]) -> bool {
    match some.next() {
        Some(found) => found == line,
        None => false,
    }
}

#[test]
fn lines_of_bytes(rt: HostRuntime) {
    let mut some = lines(b"a\r\n\n\r\r\nb\rc\nd\r");
    assert!(rt; comes(&mut some, b"a"));
    assert!(rt; comes(&mut some, b""));
    assert!(rt; comes(&mut some, b"\r"));
    assert!(rt; some.rest() == b"b\rc\nd\r".as_slice());
    assert!(rt; comes(&mut some, b"b\rc"));
    assert!(rt; comes(&mut some, b"d"));
    assert!(rt; some.next().is_none());
}

// Whether this is the fault of a file that is too long.
fn is_too_long(fault: InputFault) -> bool {
    fault.part == b"nodes".as_slice()
        && fault.name == b"TooLong".as_slice()
        && fault.place == 0
        && fault.code == 14
}

#[test]
fn a_file_that_is_too_long(rt: HostRuntime) {
    assert!(rt; is_too_long(InputFault::too_long(b"nodes")));
}
