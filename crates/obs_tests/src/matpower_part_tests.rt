// What is borrowed from a file.

use crate::matpower_tests::with_tabs;
use crate::scripts::front;
use obs_matpower::{MatFault, MatPart, MatRow, MatTable, rows, table, values};
use obs_text::MOST_FILE_BYTES;

// Whether a table of a file has this text and starts on this line.
fn is_part(bytes: &[u8], of: MatTable, text: &[u8], line: u32) -> bool {
    let part = table(front(bytes, MOST_FILE_BYTES), of);
    part.text == text && part.line == line && part.end.is_none()
}

#[test]
fn borrowed_tables(rt: HostRuntime) {
    let text = b"\r\n\t1\t3\t0\t0;\r\n\t2\t1\t0\t0;\t3,1,0,0\r\n\t4\t4\t0\t0;\r\n".as_slice();
    assert!(rt; is_part(with_tabs(), MatTable::Bus, text, 5));
    let bytes = b"a\nmpc.branch=[ 1,2 % ]\n\n3\t;;4\r]\n".as_slice();
    let text = b" 1,2 % ]\n\n3\t;;4\r".as_slice();
    assert!(rt; is_part(bytes, MatTable::Branch, text, 2));
    let missing = table(front(bytes, MOST_FILE_BYTES), MatTable::Bus);
    assert!(rt; missing.text.is_empty() && missing.line == 0);
    assert!(rt; missing.end == Some(MatFault::NoBusTable));
}

fn is_row(row: Option<MatRow>, line: u32, bytes: &[u8]) -> bool {
    match row {
        Some(row) => row.line == line && row.bytes == bytes,
        None => false,
    }
}

// Whether a table whose text starts on line 2 has these rows, and no more.
fn are_rows(text: &[u8], wanted: &[(u32, &[u8])]) -> bool {
    let part = MatPart {
        text: front(text, MOST_FILE_BYTES),
        line: 2,
        end: None,
    };
    let mut all = rows(&part);
    for (line, bytes) in wanted {
        if !is_row(all.next(), *line, bytes) {
            return false;
        }
    }
    all.next().is_none()
}

// Whether a row has these values, and no more.
fn are_values(row: &[u8], wanted: &[&[u8]]) -> bool {
    let mut all = values(row);
    for value in wanted {
        if all.next() != Some(*value) {
            return false;
        }
    }
    all.next().is_none()
}

#[test]
fn borrowed_rows(rt: HostRuntime) {
    let wanted = [(2, b" 1,2 ".as_slice()), (4, b"3\t"), (4, b"4\r")];
    assert!(rt; are_rows(b" 1,2 % ]\n\n3\t;;4\r", &wanted));
    assert!(rt; are_values(b", 1,2 \t3", &[b"1".as_slice(), b"2", b"3"]));
}
