// Words of a line, one call for each.
ghost use Rattle.obs_report.specs.inner.Lines.{end_text, number_text, word_text};
ghost use Rattle.obs_report.specs.inner.Printed.{Appends};

use crate::line_buffer::LineBuffer;
use obs_io::{Failed, Sink, write_all};
use obs_text::Digits;

/// Appends the word, with a tab before it where it isn't the first of its line.
pub fn print_word<W: Sink>(output: &mut W, first: bool, word: &[u8]) -> Result<(), Failed>
    ensures appends { Appends W.written W.faults W.has_room output.old output.new result (word_text first word.now) }
{
    let mut lines = LineBuffer::new();
    lines.word(output, first, word);
    lines.finish(output)
}

/// Appends a tab and the number's decimal text.
pub fn print_number<W: Sink>(output: &mut W, n: u64) -> Result<(), Failed>
    ensures appends { Appends W.written W.faults W.has_room output.old output.new result (number_text n) }
{
    let mut digits = Digits::new();
    print_word(output, false, digits.text(n))
}

/// Appends the line feed that ends a line.
pub fn print_end<W: Sink>(output: &mut W) -> Result<(), Failed>
    ensures appends { Appends W.written W.faults W.has_room output.old output.new result end_text }
{
    write_all(output, b"\n")
}
