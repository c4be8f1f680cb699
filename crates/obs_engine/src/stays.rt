// A session that stays between calls.
ghost use Rattle.std.specs.Prelude.{◌≡◌, ◌<◌, ◌≤◌, ◌+◌, ◌⊎◌, ℕ, List, IfErr, IfOk, IsErrOf, length, map, string_bytes};
ghost use Rattle.obs_io.specs.Causes.{Rose};
ghost use Rattle.obs_script.specs.Gathered.{is_comment};
ghost use Rattle.obs_report.specs.inner.Printed.{Appends};
ghost use Rattle.obs_engine.specs.Asks.{report_status};
ghost use Rattle.obs_files.specs.Limits.{usual_limits};
ghost use Rattle.obs_files.specs.Outside.{AreFiles, IsFileWord, ReadFailed};
ghost use Rattle.obs_engine.specs.inner.Forms.{CanRefuse};
ghost use Rattle.obs_engine.specs.Lines.{line_case, line_text};
ghost use Rattle.obs_engine.specs.Replies.{Reply};
ghost use Rattle.obs_engine.specs.inner.Replies.{IsReplied};
ghost use Rattle.obs_engine.specs.Stays.{IsNotBegun, line_reply};
ghost use Rattle.obs_engine.specs.inner.Stays.{Begins};
ghost use Rattle.obs_files.specs.Words.{file_words, form_of, offers};

use crate::ask_answers::verdict;
use crate::judged::printed_status;
use crate::line_answers::answer_content;
use crate::refused::{refuse_files, refuse_words};
use obs_assign::Steps;
use obs_case::Case;
use obs_edit::Session;
use obs_files::{Limits, Status, form_of_words, take_case};
use obs_io::{Failed, Files, Sink};
use std::alloc::Global;
use std::marker::Brand;
use std::sync::ledger::{Blank, Ledger};

// Begins a session with a case. Searches are counted in a ledger of its own.
fn begin_counted<L: Ledger>(
    alloc: Global,
    case: Case,
    offered: bool,
    blank: Blank,
) -> Result<Session, Status>
    requires name { blank.name ≡ L.name }
    requires parts { blank.parts ≡ L.parts }
    requires some { 0 < L.parts }
    ensures case { IfOk result (λ s. s.tables ≡ case) }
    ensures offered { IfOk result (λ s. s.offered ≡ offered) }
    ensures memory { IfErr result (λ status. status ≡ Status.NoMemory) }
{
    let mut steps = Steps::<L>::begin(blank);
    match Session::begin(alloc, case, offered, &mut steps) {
        Ok(session) => Ok(session),
        Err(_) => Err(Status::NoMemory),
    }
}

/// Begins a session, where the words are a session's and the files are its case, with these limits. Where none begins,
/// that is answered.
pub fn begin_session_within<F: Files, W: Sink>(
    alloc: Global,
    limits: Limits,
    words: &[String],
    files: &mut F,
    output: &mut W,
) -> Result<Session, Status>
    // Files can be read as far as the limit.
    requires furthest { limits.bytes ≤ F.furthest }

    // With contents that are told it ends as is stated, and behind room for the reply no write fails.
    ensures begins { let form = form_of (map string_bytes words.now) in
        (file : ℕ → List ℕ) → AreFiles limits form (F.content files.old) file
        → Begins limits form file result (W.written output.old) (W.written output.new) }
    ensures room { let form = form_of (map string_bytes words.now) in
        (file : ℕ → List ℕ) → AreFiles limits form (F.content files.old) file
        → (reply : Reply) (rest : ℕ) → IsNotBegun limits form file reply
        → W.has_room output.old (length reply.text + rest) → IsErrOf result Status.WriteFault → ⊥ }

    // What words of no session can be answered, and what the others, where none begins.
    ensures statuses { IfErr result (CanRefuse (offers (form_of (map string_bytes words.now)))) }

    // Where it has begun, a read failed or there was no memory, nothing is written.
    ensures silent { IfOk result (λ _. W.written output.new ≡ W.written output.old) }
    ensures unread { IsErrOf result Status.ReadFault → W.written output.new ≡ W.written output.old }
    ensures memory { IsErrOf result Status.NoMemory → W.written output.new ≡ W.written output.old }

    // A call that failed has a cause, and isn't passed over.
    ensures read { IsErrOf result Status.ReadFault
        → ReadFailed limits (file_words (form_of (map string_bytes words.now))) (F.content files.old)
        (F.faults files.old) (F.faults files.new) }
    ensures steady { ((w : ℕ) → IsFileWord (form_of (map string_bytes words.now)) w → F.steady files.old w)
        → IsErrOf result Status.ReadFault → ⊥ }
    ensures quiet_files { (IsErrOf result Status.ReadFault → ⊥)
        → (w : ℕ) → F.faults files.new w ≡ F.faults files.old w }
    ensures write { IsErrOf result Status.WriteFault → Rose (W.faults output.old) (W.faults output.new) }
    ensures quiet_output { (IsErrOf result Status.WriteFault → ⊥) → W.faults output.new ≡ W.faults output.old }
{
    let Some(form) = form_of_words(words) else {
        return Err(refuse_words(output));
    };
    let Some(offered) = form.offers() else {
        return Err(refuse_words(output));
    };
    match take_case(alloc, limits, files, form) {
        Ok(taken) => begin_counted::<Brand>(alloc, taken.case, offered, Blank::new(1)),
        Err(why) => Err(refuse_files(output, why)),
    }
}

/// Begins a session with the usual limits, where the words are a session's and the files are its case. Where none
/// begins, that is answered.
pub fn begin_session<F: Files, W: Sink>(
    alloc: Global,
    words: &[String],
    files: &mut F,
    output: &mut W,
) -> Result<Session, Status>
    // With contents that are told it ends as is stated, and behind room for the reply no write fails.
    ensures begins { let form = form_of (map string_bytes words.now) in
        (file : ℕ → List ℕ) → AreFiles usual_limits form (F.content files.old) file
        → Begins usual_limits form file result (W.written output.old) (W.written output.new) }
    ensures room { let form = form_of (map string_bytes words.now) in
        (file : ℕ → List ℕ) → AreFiles usual_limits form (F.content files.old) file
        → (reply : Reply) (rest : ℕ) → IsNotBegun usual_limits form file reply
        → W.has_room output.old (length reply.text + rest) → IsErrOf result Status.WriteFault → ⊥ }

    // What words of no session can be answered, and what the others, where none begins.
    ensures statuses { IfErr result (CanRefuse (offers (form_of (map string_bytes words.now)))) }

    // Where it has begun, a read failed or there was no memory, nothing is written.
    ensures silent { IfOk result (λ _. W.written output.new ≡ W.written output.old) }
    ensures unread { IsErrOf result Status.ReadFault → W.written output.new ≡ W.written output.old }
    ensures memory { IsErrOf result Status.NoMemory → W.written output.new ≡ W.written output.old }

    // A call that failed has a cause, and isn't passed over.
    ensures read { IsErrOf result Status.ReadFault
        → ReadFailed usual_limits (file_words (form_of (map string_bytes words.now))) (F.content files.old)
        (F.faults files.old) (F.faults files.new) }
    ensures steady { ((w : ℕ) → IsFileWord (form_of (map string_bytes words.now)) w → F.steady files.old w)
        → IsErrOf result Status.ReadFault → ⊥ }
    ensures quiet_files { (IsErrOf result Status.ReadFault → ⊥)
        → (w : ℕ) → F.faults files.new w ≡ F.faults files.old w }
    ensures write { IsErrOf result Status.WriteFault → Rose (W.faults output.old) (W.faults output.new) }
    ensures quiet_output { (IsErrOf result Status.WriteFault → ⊥) → W.faults output.new ≡ W.faults output.old }
{
    begin_session_within(alloc, Limits::usual(), words, files, output)
}

// Whether a line of this content gets no answer.
fn is_passed(line: &[u8]) -> bool
    ensures passed { result ≡ is_comment line.now }
{
    match line {
        [] => true,
        [first, ..] => *first == b'#',
    }
}

// Does what a line of this content says, and answers it. Searches are counted in a ledger of its own.
fn answer_counted<W: Sink, L: Ledger>(
    output: &mut W,
    session: &mut Session,
    line: &[u8],
    blank: Blank,
) -> Result<(), Failed>
    requires name { blank.name ≡ L.name }
    requires parts { blank.parts ≡ L.parts }
    requires some { 0 < L.parts }
    ensures offered { session.new.offered ≡ session.old.offered }
    ensures tables { session.new.tables ≡ line_case session.old.offered session.old.tables line.now }
    ensures appends { Appends W.written W.faults W.has_room output.old output.new result
        (line_text session.old.offered session.old.tables line.now) }
{
    if is_passed(line) {
        return Ok(());
    }
    let mut steps = Steps::<L>::begin(blank);
    answer_content(output, session, line, &mut steps)
}

/// Does what one line says, and answers it. The line has no line end. Also where not all of the answer was written the
/// session is that behind the line.
pub fn answer_one<W: Sink>(output: &mut W, session: &mut Session, line: &[u8]) -> Status
    ensures offered { session.new.offered ≡ session.old.offered }
    ensures tables { session.new.tables ≡ line_case session.old.offered session.old.tables line.now }
    ensures replied { IsReplied W.written W.faults W.has_room output.old output.new result
        (line_reply session.old.offered session.old.tables line.now) }
    ensures statuses { (result ≡ report_status session.new.tables) ⊎ (result ≡ Status.WriteFault) }
{
    let outcome = answer_counted::<W, Brand>(output, session, line, Blank::new(1));
    printed_status(outcome, verdict(session))
}
