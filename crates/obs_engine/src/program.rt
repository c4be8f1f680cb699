// The top call.
ghost use Rattle.std.specs.Prelude.{◌≡◌, ◌≢◌, ◌≤◌, ◌⊎◌, ℕ, List, Some, map, string_bytes};
ghost use Rattle.obs_io.specs.Causes.{Rose};
ghost use Rattle.obs_engine.specs.Ending.{Answers, Ends, HasRoomForText};
ghost use Rattle.obs_engine.specs.Forms.{AnyReadFailed, CanAnswer, TakesInput};
ghost use Rattle.obs_files.specs.Limits.{usual_limits};
ghost use Rattle.obs_files.specs.Outside.{IsFileWord};
ghost use Rattle.obs_engine.specs.Runs.{IsRun};
ghost use Rattle.obs_engine.specs.Sessions.{IsTakenFront};
ghost use Rattle.obs_engine.specs.Stated.{Told, Tells};
ghost use Rattle.obs_engine.specs.Summaries.{IsSummed, IsWholeAnswer};
ghost use Rattle.obs_files.specs.Words.{form_of};

use crate::command::command;
use crate::refused::refuse_words;
use obs_files::{Limits, Status, form_of_words};
use obs_io::{Files, Sink, Source};
use obs_notice::Summary;
use std::alloc::Global;

/// Does all that the program does, with these limits, and hands back what is said of the case beside the answer: a report's,
/// a placement's and a study's has a summary. The words are those behind the program's own name; `files` numbers a file by
/// the position of its word. The input is taken by sessions alone, and has as many bytes as a file at the most.
pub fn run_with_summary<F: Files, S: Source, W: Sink>(
    alloc: Global,
    limits: Limits,
    words: &[String],
    files: &mut F,
    input: &mut S,
    output: &mut W,
) -> (Status, Option<Summary>)
    // Files can be read as far as the limit.
    requires furthest { limits.bytes ≤ F.furthest }

    // It is a run of the words.
    ensures ran { IsRun F.content F.faults F.steady S.left S.faults S.steady W.written W.faults W.has_room
        limits (form_of (map string_bytes words.now)) files.old files.new input.old input.new output.old output.new result.0 }
    ensures input { (TakesInput (form_of (map string_bytes words.now)) → ⊥) → input.new ≡ input.old }

    // The summary that goes with a whole answer is that of the case which the files are.
    ensures summary { IsWholeAnswer result.0
        → IsSummed limits (form_of (map string_bytes words.now)) (F.content files.old) result.1 }
{
    let Some(form) = form_of_words(words) else {
        return (refuse_words(output), None);
    };
    command(alloc, limits, form, files, input, output)
}

/// Does all that the program does, with these limits. The words are those behind the program's own name; `files` numbers
/// a file by the position of its word. The input is taken by sessions alone, and has as many bytes as a file at the most.
pub fn run_within<F: Files, S: Source, W: Sink>(
    alloc: Global,
    limits: Limits,
    words: &[String],
    files: &mut F,
    input: &mut S,
    output: &mut W,
) -> Status
    // Files can be read as far as the limit.
    requires furthest { limits.bytes ≤ F.furthest }

    // What is written and answered is what is stated for the words and the contents of the files.
    ensures stated { let form = form_of (map string_bytes words.now) in
        (told : Told) → Tells limits form (F.content files.old) (S.left input.old) told
        → Ends form told (S.left input.new) result (W.written output.old) (W.written output.new) }

    // With files and an input that don't fail and room for the text, all of it is answered, or there is no memory.
    ensures complete { let form = form_of (map string_bytes words.now) in
        (told : Told) → Tells limits form (F.content files.old) (S.left input.old) told
        → ((w : ℕ) → IsFileWord form w → F.steady files.old w) → (TakesInput form → S.steady input.old)
        → HasRoomForText form told (W.has_room output.old)
        → (result ≡ Status.NoMemory) ⊎ Answers form told result (W.written output.old) (W.written output.new) }

    // Which answers the words can have, and the cause of each that says that something failed. Files are read in the
    // order of their words, and no word is asked behind the first whose file fails or is too long. After a file that
    // failed nothing is written and nothing of the input taken.
    ensures statuses { CanAnswer (form_of (map string_bytes words.now)) result }
    ensures read { result ≡ Status.ReadFault
        → AnyReadFailed limits (form_of (map string_bytes words.now)) (F.content files.old)
        (F.faults files.old) (F.faults files.new) (S.left input.old) (S.left input.new)
        (S.faults input.old) (S.faults input.new) (W.written output.old) (W.written output.new) }
    ensures write { result ≡ Status.WriteFault → Rose (W.faults output.old) (W.faults output.new) }

    // A call that fails isn't passed over: with another answer the counts are as they were.
    ensures quiet_files { result ≢ Status.ReadFault → (w : ℕ) → F.faults files.new w ≡ F.faults files.old w }
    ensures quiet_input { result ≢ Status.ReadFault → S.faults input.new ≡ S.faults input.old }
    ensures quiet_output { result ≢ Status.WriteFault → W.faults output.new ≡ W.faults output.old }

    // What a run leaves of the input, and what it leaves that found no memory.
    ensures memory { result ≡ Status.NoMemory → W.written output.new ≡ W.written output.old }
    ensures memory_input { result ≡ Status.NoMemory → S.left input.new ≡ S.left input.old }
    ensures taken { TakesInput (form_of (map string_bytes words.now)) → (bytes : List ℕ) → S.left input.old ≡ Some bytes
        → IsTakenFront limits.bytes bytes (S.left input.new) result }
    ensures input { (TakesInput (form_of (map string_bytes words.now)) → ⊥) → input.new ≡ input.old }
{
    run_with_summary(alloc, limits, words, files, input, output).0
}

/// Does all that the program does, with the usual limits. The words are those behind the program's own name; `files` numbers
/// a file by the position of its word. The input is taken by sessions alone.
pub fn run<F: Files, S: Source, W: Sink>(
    alloc: Global,
    words: &[String],
    files: &mut F,
    input: &mut S,
    output: &mut W,
) -> Status
    // What is written and answered is what is stated for the words and the contents of the files.
    ensures stated { let form = form_of (map string_bytes words.now) in
        (told : Told) → Tells usual_limits form (F.content files.old) (S.left input.old) told
        → Ends form told (S.left input.new) result (W.written output.old) (W.written output.new) }

    // With files and an input that don't fail and room for the text, all of it is answered, or there is no memory.
    ensures complete { let form = form_of (map string_bytes words.now) in
        (told : Told) → Tells usual_limits form (F.content files.old) (S.left input.old) told
        → ((w : ℕ) → IsFileWord form w → F.steady files.old w) → (TakesInput form → S.steady input.old)
        → HasRoomForText form told (W.has_room output.old)
        → (result ≡ Status.NoMemory) ⊎ Answers form told result (W.written output.old) (W.written output.new) }

    // Which answers the words can have, and the cause of each that says that something failed. Files are read in the
    // order of their words, and no word is asked behind the first whose file fails or is too long. After a file that
    // failed nothing is written and nothing of the input taken.
    ensures statuses { CanAnswer (form_of (map string_bytes words.now)) result }
    ensures read { result ≡ Status.ReadFault
        → AnyReadFailed usual_limits (form_of (map string_bytes words.now)) (F.content files.old)
        (F.faults files.old) (F.faults files.new) (S.left input.old) (S.left input.new)
        (S.faults input.old) (S.faults input.new) (W.written output.old) (W.written output.new) }
    ensures write { result ≡ Status.WriteFault → Rose (W.faults output.old) (W.faults output.new) }

    // A call that fails isn't passed over: with another answer the counts are as they were.
    ensures quiet_files { result ≢ Status.ReadFault → (w : ℕ) → F.faults files.new w ≡ F.faults files.old w }
    ensures quiet_input { result ≢ Status.ReadFault → S.faults input.new ≡ S.faults input.old }
    ensures quiet_output { result ≢ Status.WriteFault → W.faults output.new ≡ W.faults output.old }

    // What a run leaves of the input, and what it leaves that found no memory.
    ensures memory { result ≡ Status.NoMemory → W.written output.new ≡ W.written output.old }
    ensures memory_input { result ≡ Status.NoMemory → S.left input.new ≡ S.left input.old }
    ensures taken { TakesInput (form_of (map string_bytes words.now)) → (bytes : List ℕ) → S.left input.old ≡ Some bytes
        → IsTakenFront usual_limits.bytes bytes (S.left input.new) result }
    ensures input { (TakesInput (form_of (map string_bytes words.now)) → ⊥) → input.new ≡ input.old }
{
    run_within(alloc, Limits::usual(), words, files, input, output)
}
