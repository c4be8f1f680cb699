// The answers to the lines of a session.
ghost use Rattle.std.specs.Prelude.{◌≡◌, ℕ, List, [], ◌∷◌, Err, IfOk};
ghost use Rattle.obs_case.specs.Tables.{Tables};
ghost use Rattle.obs_report.specs.inner.Printed.{Appends};
ghost use Rattle.obs_script.specs.Gathered.{content_of};
ghost use Rattle.obs_script.specs.inner.Gathered.{Holds};
ghost use Rattle.obs_repair.specs.Lines.{meant_of};
ghost use Rattle.obs_engine.specs.Lines.{answer_to, case_after, ended_after, line_case, line_text, lines_case, lines_text};
ghost use Rattle.obs_engine.specs.inner.Lines.{open_after};

use crate::print_asks::print_ask;
use obs_assign::Steps;
use obs_edit::{Done, Refusal, Session};
use obs_io::{Failed, Sink};
use obs_report::{print_ok, print_refused};
use obs_script::Gather;
use std::sync::ledger::Ledger;

// Prints why a line is refused.
fn print_refusal<W: Sink>(output: &mut W, why: Refusal) -> Result<(), Failed>
    ensures appends { (tables : Tables)
        → Appends W.written W.faults W.has_room output.old output.new result (answer_to tables (Err why)) }
{
    print_refused(output, u64::from(why.code()), why.name())
}

/// Does what a line of this content says, and answers it.
pub(crate) fn answer_content<W: Sink, L: Ledger>(
    output: &mut W,
    session: &mut Session,
    line: &[u8],
    steps: &mut Steps<L>,
) -> Result<(), Failed>
    ensures offered { session.new.offered ≡ session.old.offered }
    ensures tables { session.new.tables ≡ case_after session.old.tables
        (meant_of session.old.tables session.old.offered line.now) }
    ensures appends { Appends W.written W.faults W.has_room output.old output.new result
        (answer_to session.old.tables (meant_of session.old.tables session.old.offered line.now)) }
{
    match session.apply(line, steps) {
        Ok(Done::Edited(said)) => { print_ok(output, u64::from(said.rank), u64::from(said.needed)) }
        Ok(Done::Asked(ask)) => print_ask(output, session, ask, steps),
        Err(why) => print_refusal(output, why),
    }
}

/// Does what a gathered line says, and answers it. A line that is passed changes nothing and has no answer.
pub(crate) fn answer_line<W: Sink, L: Ledger>(
    output: &mut W,
    session: &mut Session,
    gather: &Gather,
    steps: &mut Steps<L>,
) -> Result<(), Failed>
    ensures offered { session.new.offered ≡ session.old.offered }
    ensures tables { (line : List ℕ) → Holds gather.now line
        → session.new.tables ≡ line_case session.old.offered session.old.tables (content_of line) }
    ensures appends { (line : List ℕ) → Holds gather.now line
        → Appends W.written W.faults W.has_room output.old output.new result
        (line_text session.old.offered session.old.tables (content_of line)) }
{
    if gather.passed() {
        return Ok(());
    }
    let Some(line) = gather.line() else {
        return print_refusal(output, Refusal::LineTooLong);
    };
    answer_content(output, session, line, steps)
}

// Takes a byte of the input. A line feed ends the line: it is answered, and an empty one begins.
fn answer_byte<W: Sink, L: Ledger>(
    output: &mut W,
    session: &mut Session,
    gather: &mut Gather,
    byte: u8,
    steps: &mut Steps<L>,
) -> Result<(), Failed>
    ensures offered { session.new.offered ≡ session.old.offered }
    ensures held { (line : List ℕ) → Holds gather.old line
        → IfOk result (λ _. Holds gather.new (open_after line (byte ∷ []))) }
    ensures tables { (line : List ℕ) → Holds gather.old line
        → session.new.tables ≡ lines_case session.old.offered session.old.tables (ended_after line (byte ∷ [])) }
    ensures appends { (line : List ℕ) → Holds gather.old line
        → Appends W.written W.faults W.has_room output.old output.new result
        (lines_text session.old.offered session.old.tables (ended_after line (byte ∷ []))) }
{
    if gather.feed(byte) {
        match answer_line(output, session, gather, steps) {
            Ok(()) => {
                gather.clear();
                Ok(())
            }
            Err(Failed) => Err(Failed),
        }
    } else {
        Ok(())
    }
}

/// Takes bytes of the input, and answers each line that they end.
pub(crate) fn answer_bytes<W: Sink, L: Ledger>(
    output: &mut W,
    session: &mut Session,
    gather: &mut Gather,
    bytes: &[u8],
    steps: &mut Steps<L>,
) -> Result<(), Failed>
    ensures offered { session.new.offered ≡ session.old.offered }
    ensures held { (line : List ℕ) → Holds gather.old line
        → IfOk result (λ _. Holds gather.new (open_after line bytes.now)) }
    ensures tables { (line : List ℕ) → Holds gather.old line
        → IfOk result
        (λ _. session.new.tables ≡ lines_case session.old.offered session.old.tables (ended_after line bytes.now)) }
    ensures appends { (line : List ℕ) → Holds gather.old line
        → Appends W.written W.faults W.has_room output.old output.new result
        (lines_text session.old.offered session.old.tables (ended_after line bytes.now)) }
{
    for k in 0..bytes.len() {
        match answer_byte(output, session, gather, bytes[k], steps) {
            Ok(()) => {}
            Err(Failed) => return Err(Failed),
        }
    }
    Ok(())
}
