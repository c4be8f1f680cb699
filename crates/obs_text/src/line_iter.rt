// The iterator over lines.
ghost use Rattle.std.specs.Prelude.{◌≡◌, List, ℕ};
ghost use Rattle.std.specs.Iterator.{item_count};
ghost use Rattle.std.specs.List.{before_first};
ghost use Rattle.std.specs.Str.Lines.{strip_carriage_return};
ghost use Rattle.obs_text.specs.Lines.{is_feed, lines_of};
ghost use Rattle.obs_text.specs.inner.Lines.{GivesLine, after_line};

use std::marker::Model;

const LINE_FEED: u8 = 0x0A;

const CARRIAGE_RETURN: u8 = 0x0D;

/// The lines of some bytes, in order. A contract sees the bytes that are still to come.
#[derive(Drop)]
pub struct Lines<'a> {
    pub(crate) rest: &'a [u8],
}

impl<'a> Model for Lines<'a> {
    ghost Value = { List ℕ };

    ghost view = { λ lines. lines.rest.now };
}

impl<'a> Lines<'a> {
    /// The bytes after the lines that were given so far.
    pub fn rest(&self) -> &'a [u8]
        ensures rest { result.now ≡ self.now }
    {
        self.rest
    }
}

fn without_return(line: &[u8]) -> &[u8]
    ensures stripped { result.now ≡ strip_carriage_return line.now }
{
    match line {
        [rest @ .., CARRIAGE_RETURN] => rest,
        _ => line,
    }
}

// The first line without its end, and the bytes after it.
fn split_line(bytes: &[u8]) -> (&[u8], &[u8])
    ensures line { result.0.now ≡ strip_carriage_return (before_first is_feed bytes.now) }
    ensures rest { result.1.now ≡ after_line bytes.now }
{
    match bytes.iter().position(|byte| *byte == LINE_FEED) {
        Some(end) => (without_return(&bytes[..end]), &bytes[end + 1..]),
        None => (without_return(bytes), &[]),
    }
}

impl<'a> Iterator for Lines<'a> {
    type Item = &'a [u8];

    ghost next_gives = { GivesLine };

    ghost remaining = { item_count lines_of };

    /// The next line, without its end.
    fn next(&mut self) -> Option<&'a [u8]> {
        if self.rest.is_empty() {
            return None;
        }
        let (line, rest) = split_line(self.rest);
        self.rest = rest;
        Some(line)
    }
}
