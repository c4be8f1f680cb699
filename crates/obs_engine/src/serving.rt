// A run, and what is said of it on standard error.
ghost use Rattle.std.specs.Prelude.{◌≡◌, ◌≢◌, ◌≤◌, ℕ, map, slice_index, string_bytes};
ghost use Rattle.obs_engine.specs.Forms.{TakesInput};
ghost use Rattle.obs_engine.specs.Runs.{IsRun};
ghost use Rattle.obs_files.specs.Words.{form_of};
ghost use Rattle.obs_engine.specs.Summaries.{IsSaid};
ghost use Rattle.obs_notice.specs.Notices.{NamesFailure, failed_word};

use crate::program::run_with_summary;
use obs_files::{Limits, Status};
use obs_io::{Files, Sink, Source};
use obs_notice::{Noted, say};
use std::alloc::Global;

/// Runs the words within these limits, and says on `errors` what happened where no answer was given or not the whole one, and beside a
/// whole one what the summary of the case says. What is said, or that it could not be said, changes nothing of the run.
pub fn serve<F: Files, S: Source, W: Sink, E: Sink>(
    alloc: Global,
    limits: Limits,
    words: &[String],
    files: &mut Noted<F>,
    input: &mut S,
    output: &mut W,
    errors: &mut E,
) -> Status
    requires furthest { limits.bytes ≤ F.furthest }
    requires fresh { (w : ℕ) → slice_index files.old.faults w ≡ 0 }
    // it is a run of the words, whatever becomes of what is said
    ensures ran { IsRun ⟦<Noted<F> as Files>⟧.content ⟦<Noted<F> as Files>⟧.faults ⟦<Noted<F> as Files>⟧.steady
        S.left S.faults S.steady W.written W.faults W.has_room
        limits (form_of (map string_bytes words.now)) files.old files.new input.old input.new output.old output.new result }
    ensures input { (TakesInput (form_of (map string_bytes words.now)) → ⊥) → input.new ≡ input.old }
    // a front of the notice is said, and all of it where there is room; beside a whole answer it says what the summary of
    // the case does
    ensures says { IsSaid limits (map string_bytes words.now) (⟦<Noted<F> as Files>⟧.content files.old) result
        (failed_word files.new.faults) (E.written errors.old) (E.written errors.new) (E.has_room errors.old) }
    // after a failed read the named word is one of whose file a read failed beneath,
    // and none is named only where one of the input failed
    ensures named { result ≡ Status.ReadFault
        → NamesFailure (F.faults files.new.inner) (S.faults input.old) (S.faults input.new) (failed_word files.new.faults) }
    // where a run doesn't end for a failed read, no read of the files beneath has failed since they were noted
    ensures beneath { result ≢ Status.ReadFault → (w : ℕ) → F.faults files.new.inner w ≡ 0 }
{
    let (status, summary) = run_with_summary(alloc, limits, words, files, input, output);
    let _said = say(errors, limits, words, status, files.failed(), summary);
    status
}
