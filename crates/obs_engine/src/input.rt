// The lines of the input.
ghost use Rattle.std.specs.Prelude.{◌≡◌, ◌<◌, ◌≤◌, length, IfOk, IsOk};
ghost use Rattle.obs_io.specs.Bytes.{TakesFront};
ghost use Rattle.obs_io.specs.Causes.{HasCause};
ghost use Rattle.obs_text.specs.Limits.{most_file_bytes};
ghost use Rattle.obs_engine.specs.inner.Sessions.{IsSession};

use crate::ask_answers::verdict;
use crate::line_answers::{answer_bytes, answer_line};
use obs_assign::Steps;
use obs_edit::Session;
use obs_files::Status;
use obs_io::{Failed, Sink, Source};
use obs_script::Gather;
use std::sync::ledger::Ledger;

/// How many bytes are taken at once.
const PIECE: usize = 4096;

// Takes bytes of the input, at most so many.
fn take_piece<S: Source>(input: &mut S, piece: &mut [u8], most: usize) -> Result<usize, Failed>
    requires some { 0 < most }
    requires room { most ≤ length piece.old }
    ensures size { length piece.new ≡ length piece.old }
    ensures bound { IfOk result (λ n. n ≤ most) }
    ensures bytes { TakesFront (S.left input.old) (S.left input.new) result piece.new }
    ensures cause { HasCause (S.faults input.old) (S.faults input.new) result }
    ensures quiet { IfOk result (λ _. S.faults input.new ≡ S.faults input.old) }
    ensures steady { S.steady input.old → S.steady input.new }
    ensures succeeds { S.steady input.old → IsOk result }
{
    input.take(&mut piece[..most])
}

/// Answers the lines of the input, which may have so many bytes.
/// It is taken piece by piece, and each line that ended is answered before more is taken.
pub(crate) fn answer_lines<S: Source, W: Sink, L: Ledger>(
    session: &mut Session,
    input: &mut S,
    output: &mut W,
    most_bytes: usize,
    steps: &mut Steps<L>,
) -> Status
    requires few { most_bytes ≤ most_file_bytes }
    ensures session { IsSession S.left S.faults S.steady W.written W.faults W.has_room
        most_bytes session.old.offered session.old.tables input.old input.new output.old output.new result }
{
    let mut piece = [0; PIECE];
    let mut gather = Gather::new();
    let mut taken = 0;
    while taken <= most_bytes {
        let most = PIECE.min(most_bytes + 1 - taken);
        let Ok(count) = take_piece(input, &mut piece, most) else {
            return Status::ReadFault;
        };
        if count == 0 {
            return match answer_line(output, session, &gather, steps) {
                Ok(()) => verdict(session),
                Err(Failed) => Status::WriteFault,
            };
        }
        // The byte behind the last that an input may have is taken, and not answered.
        let kept = count.min(most_bytes - taken);
        let Ok(()) = answer_bytes(output, session, &mut gather, &piece[..kept], steps) else {
            return Status::WriteFault;
        };
        taken += count;
    }
    Status::SessionTooLong
}
