// Lines of whole commands: what a certificate comes to, and what a generated case does.
ghost use Rattle.obs_report.specs.Lines.{last_line};
ghost use Rattle.obs_report.specs.inner.Printed.{Appends, Prints};
ghost use Rattle.obs_report.specs.Totals.{flaw_line, total_line, totals_text, trial_line, valid_line};

use crate::line_buffer::LineBuffer;
use obs_io::{Failed, Sink};
use obs_text::Digits;

/// Prints the line of a word and a number.
pub(crate) fn print_total<W: Sink>(lines: &mut LineBuffer, output: &mut W, what: &[u8], n: u64)
    ensures printed { Prints W.written W.faults W.has_room output.old output.new lines.old lines.new
        (total_line what.now n) }
{
    let mut digits = Digits::new();
    lines.line(output, &[what, digits.text(n)]);
}

// Prints the line `end`.
fn print_closing<W: Sink>(lines: &mut LineBuffer, output: &mut W)
    ensures printed { Prints W.written W.faults W.has_room output.old output.new lines.old lines.new last_line }
{
    lines.line(output, &[b"end"]);
}

/// Appends the line on a certificate whose claims hold: how many they are.
pub fn print_valid<W: Sink>(output: &mut W, claims: u64) -> Result<(), Failed>
    ensures appends { Appends W.written W.faults W.has_room output.old output.new result (valid_line claims) }
{
    let mut lines = LineBuffer::new();
    print_total(&mut lines, output, b"valid", claims);
    lines.finish(output)
}

/// Appends the line on the first claim that fails: its number, and the flaw's code and name.
pub fn print_flaw<W: Sink>(output: &mut W, claim: u64, code: u64, name: &[u8]) -> Result<(), Failed>
    ensures appends { Appends W.written W.faults W.has_room output.old output.new result
        (flaw_line claim code name.now) }
{
    let mut claim_digits = Digits::new();
    let mut code_digits = Digits::new();
    let mut lines = LineBuffer::new();
    let words: [&[u8]; 4] = [
        b"flaw",
        claim_digits.text(claim),
        code_digits.text(code),
        name,
    ];
    lines.line(output, &words);
    lines.finish(output)
}

/// Appends the line of a generated case: its number of rows and its seed.
pub fn print_trial<W: Sink>(output: &mut W, rows: u64, seed: u64) -> Result<(), Failed>
    ensures appends { Appends W.written W.faults W.has_room output.old output.new result (trial_line rows seed) }
{
    let mut row_digits = Digits::new();
    let mut seed_digits = Digits::new();
    let mut lines = LineBuffer::new();
    let words: [&[u8]; 3] = [b"trial", row_digits.text(rows), seed_digits.text(seed)];
    lines.line(output, &words);
    lines.finish(output)
}

/// Appends how many islands a case has, and what losing and regaining its meters came to: the dips of the rank, the
/// edits and their searches. The line `end` stands behind them.
pub fn print_totals<W: Sink>(
    output: &mut W,
    islands: u64,
    dips: u64,
    edits: u64,
    searches: u64,
) -> Result<(), Failed>
    ensures appends { Appends W.written W.faults W.has_room output.old output.new result
        (totals_text islands dips edits searches) }
{
    let mut lines = LineBuffer::new();
    print_total(&mut lines, output, b"islands", islands);
    print_total(&mut lines, output, b"dips", dips);
    print_total(&mut lines, output, b"edits", edits);
    print_total(&mut lines, output, b"searches", searches);
    print_closing(&mut lines, output);
    lines.finish(output)
}
