// Commands: their files are taken and refused, or the case that they are is answered.
ghost use Rattle.std.specs.Prelude.{◌≡◌, ◌≤◌, ℕ, Some, length};
ghost use Rattle.obs_text.specs.Limits.{most_file_bytes};
ghost use Rattle.obs_files.specs.Words.{HasRows};
ghost use Rattle.obs_engine.specs.Forms.{TakesInput};
ghost use Rattle.obs_engine.specs.inner.Trials.{AreInService};
ghost use Rattle.obs_engine.specs.Runs.{IsRun};
ghost use Rattle.obs_engine.specs.inner.Runs.{IsCaseAnswered};
ghost use Rattle.obs_engine.specs.Summaries.{IsSummed, IsWholeAnswer, form_summary};

use crate::refused::refuse_files;
use crate::studies::answer_study;
use crate::tasks::{Task, begin_task};
use crate::topology::answer_topology;
use crate::verify::answer_verify;
use obs_case::Case;
use obs_files::{CaseCommand, Form, Limits, Status, take_case};
use obs_io::{Files, Sink, Source};
use obs_notice::Summary;
use obs_script::Ask;
use std::alloc::Global;

// Answers a case: in a session the lines of the input, which may have so many bytes, and where a certificate is checked its claims. The
// summary of the case is that which goes with the answer.
fn answer_case<S: Source, W: Sink>(
    alloc: Global,
    form: Form,
    case: Case,
    certificate: &[u8],
    most_bytes: usize,
    input: &mut S,
    output: &mut W,
) -> (Status, Option<Summary>)
    requires few { length certificate.now ≤ most_file_bytes }
    requires bound { most_bytes ≤ most_file_bytes }
    requires inservice { (rows seed : ℕ) → form ≡ Form.Trial rows seed → AreInService case }
    ensures answered { IsCaseAnswered S.left S.faults S.steady W.written W.faults W.has_room most_bytes form case certificate.now
        input.old input.new output.old output.new result.0 }
    ensures input { (TakesInput (Some form) → ⊥) → input.new ≡ input.old }
    ensures summary { IsWholeAnswer result.0 → result.1 ≡ form_summary form case }
{
    match form {
        Form::Topology => (answer_topology(alloc, output, &case), None),
        Form::Case(command, _) => match command {
            CaseCommand::Report => {
                let task = Task::Answer(Ask::Report);
                begin_task(alloc, case, false, task, input, output)
            }
            CaseCommand::Place => {
                let task = Task::Answer(Ask::Place);
                begin_task(alloc, case, true, task, input, output)
            }
            CaseCommand::Session { offered } => {
                begin_task(
                    alloc,
                    case,
                    offered,
                    Task::Lines { most_bytes },
                    input,
                    output,
                )
            }
            CaseCommand::Verify { .. } => {
                (answer_verify(alloc, output, &case, certificate), None)
            }
            CaseCommand::Study(study) => answer_study(alloc, study, case, output),
        },
        Form::Trial { rows, seed } => {
            let task = Task::Trial { rows, seed };
            begin_task(alloc, case, false, task, input, output)
        }
    }
}

/// Runs a command of this form, with the summary of the case that goes with its answer.
pub(crate) fn command<F: Files, S: Source, W: Sink>(
    alloc: Global,
    limits: Limits,
    form: Form,
    files: &mut F,
    input: &mut S,
    output: &mut W,
) -> (Status, Option<Summary>)
    requires furthest { limits.bytes ≤ F.furthest }
    requires rows { HasRows form }
    ensures ran { IsRun F.content F.faults F.steady S.left S.faults S.steady W.written W.faults W.has_room limits (Some form)
        files.old files.new input.old input.new output.old output.new result.0 }
    ensures input { (TakesInput (Some form) → ⊥) → input.new ≡ input.old }
    ensures summary { IsWholeAnswer result.0 → IsSummed limits (Some form) (F.content files.old) result.1 }
{
    match take_case(alloc, limits, files, form) {
        Ok(taken) => answer_case(
            alloc,
            form,
            taken.case,
            &taken.certificate,
            limits.bytes(),
            input,
            output,
        ),
        Err(why) => (refuse_files(output, why), None),
    }
}
