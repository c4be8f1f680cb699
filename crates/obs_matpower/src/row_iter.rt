// The rows of a table.
ghost use Rattle.std.specs.Prelude.{◌≡◌, ◌<◌, ◌+◌, ◌^◌, length};
ghost use Rattle.obs_text.specs.inner.Lines.{after_line};
ghost use Rattle.obs_matpower.specs.Rows.{has_value};
ghost use Rattle.obs_matpower.specs.inner.Rows.{first_code};

use crate::cut::{cut_at, without_comment};
use obs_text::lines;

const LINE_FEED: u8 = b'\n';

const SEMICOLON: u8 = b';';

/// A row of a table.
#[derive(Clone, Copy)]
pub struct MatRow<'a> {
    /// The number of its line, from 1.
    pub line: u32,
    /// The row without a comment.
    pub bytes: &'a [u8],
}

/// The rows of a table, in order.
#[derive(Clone, Copy)]
pub struct Rows<'a> {
    // What is left of the line, without its comment.
    pub(crate) code: &'a [u8],
    pub(crate) line: u32,
    // The lines after it.
    pub(crate) rest: &'a [u8],
    // Whether a `]` follows the text.
    pub(crate) ended: bool,
    // So that the numbers of the lines fit.
    pub ghost fits: { line + length rest.now < 2 ^ 32 },
}

// Whether a row has anything but blanks, tabs and commas.
fn has_value(row: &[u8]) -> bool
    ensures some { result ≡ has_value row.now }
{
    row.iter()
        .any(|byte| !(*byte == b' ' || *byte == b'\t' || *byte == b','))
}

// The first line of a text without its comment, and the lines after it.
pub(crate) fn next_line(text: &[u8], ended: bool) -> (&[u8], &[u8])
    ensures code { result.0.now ≡ first_code ended text.now }
    ensures rest { result.1.now ≡ after_line text.now }
{
    if ended && !text.contains(&LINE_FEED) {
        return (without_comment(text), &[]);
    }
    let mut rest = lines(text);
    match rest.next() {
        Some(line) => (without_comment(line), rest.rest()),
        None => (&[], &[]),
    }
}

impl<'a> Iterator for Rows<'a> {
    ghost use Rattle.std.specs.Iterator.{YieldsFirstBy, item_count};
    ghost use Rattle.obs_matpower.specs.inner.Left.{row_of, rows_left};

    type Item = MatRow<'a>;

    ghost next_gives = { YieldsFirstBy row_of rows_left };

    ghost remaining = { item_count rows_left };

    fn next(&mut self) -> Option<MatRow<'a>> {
        while !(self.code.is_empty() && self.rest.is_empty()) {
            if self.code.is_empty() {
                let (code, rest) = next_line(self.rest, self.ended);
                self.code = code;
                self.rest = rest;
                self.line += 1;
            } else {
                let (row, code) = cut_at(self.code, SEMICOLON);
                self.code = code;
                if has_value(row) {
                    return Some(MatRow {
                        line: self.line,
                        bytes: row,
                    });
                }
            }
        }
        None
    }
}
