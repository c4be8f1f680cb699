// Whole lines that stand in several answers.
ghost use Rattle.obs_report.specs.Lines.{count_line, fault_line, last_line, ok_line, refused_line};
ghost use Rattle.obs_report.specs.inner.Printed.{Appends, Prints};

use crate::line_buffer::LineBuffer;
use obs_io::{Failed, Sink, write_all};
use obs_text::Digits;

/// Prints the line of a number of something.
pub(crate) fn print_count_line<W: Sink>(lines: &mut LineBuffer, output: &mut W, what: &[u8], n: u64)
    ensures printed { Prints W.written W.faults W.has_room output.old output.new lines.old lines.new
        (count_line what.now n) }
{
    let mut digits = Digits::new();
    lines.line(output, &[b"count", what, digits.text(n)]);
}

/// Appends the line of a number of something, as `count`, `buses` and the number.
pub fn print_count<W: Sink>(output: &mut W, what: &[u8], n: u64) -> Result<(), Failed>
    ensures appends { Appends W.written W.faults W.has_room output.old output.new result (count_line what.now n) }
{
    let mut lines = LineBuffer::new();
    print_count_line(&mut lines, output, what, n);
    lines.finish(output)
}

/// Appends the line on a fault in an input: the part of the input, the place in it (a row or a line,
/// or 0 where there is none), and the fault's code and name.
pub fn print_fault<W: Sink>(
    output: &mut W,
    part: &[u8],
    place: u64,
    code: u64,
    name: &[u8],
) -> Result<(), Failed>
    ensures appends { Appends W.written W.faults W.has_room output.old output.new result
        (fault_line part.now place code name.now) }
{
    let mut place_digits = Digits::new();
    let mut code_digits = Digits::new();
    let mut lines = LineBuffer::new();
    let words: [&[u8]; 5] = [
        b"fault",
        part,
        place_digits.text(place),
        code_digits.text(code),
        name,
    ];
    lines.line(output, &words);
    lines.finish(output)
}

/// Appends the line on an edit that is done: the rank and the needed number of the case after it.
pub fn print_ok<W: Sink>(output: &mut W, rank: u64, needed: u64) -> Result<(), Failed>
    ensures appends { Appends W.written W.faults W.has_room output.old output.new result (ok_line rank needed) }
{
    let mut rank_digits = Digits::new();
    let mut needed_digits = Digits::new();
    let mut lines = LineBuffer::new();
    let words: [&[u8]; 3] = [b"ok", rank_digits.text(rank), needed_digits.text(needed)];
    lines.line(output, &words);
    lines.finish(output)
}

/// Appends the line on a line that is refused: the refusal's code and its name.
pub fn print_refused<W: Sink>(output: &mut W, code: u64, name: &[u8]) -> Result<(), Failed>
    ensures appends { Appends W.written W.faults W.has_room output.old output.new result
        (refused_line code name.now) }
{
    let mut digits = Digits::new();
    let mut lines = LineBuffer::new();
    lines.line(output, &[b"refused", digits.text(code), name]);
    lines.finish(output)
}

/// Appends the line `end`, the last one of an answer.
pub fn print_last_line<W: Sink>(output: &mut W) -> Result<(), Failed>
    ensures appends { Appends W.written W.faults W.has_room output.old output.new result last_line }
{
    write_all(output, b"end\n")
}
