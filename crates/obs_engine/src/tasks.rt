// What a session is begun for. One function begins sessions and owns them, and what it begins one for borrows it.
ghost use Rattle.std.specs.Prelude.{◌≡◌, ◌<◌, ◌≤◌, IfOk, ℕ, true};
ghost use Rattle.obs_text.specs.Limits.{most_file_bytes};
ghost use Rattle.obs_script.specs.declared.command.Ask.TheVariants.{Place};
ghost use Rattle.obs_engine.specs.Summaries.{IsWholeAnswer};
ghost use Rattle.obs_engine.specs.inner.Summaries.{task_summary};
ghost use Rattle.obs_engine.specs.inner.Tasks.{IsTaskDone};
ghost use Rattle.obs_engine.specs.inner.Trials.{AreInService};

use crate::ask_answers::answer_session;
use crate::input::answer_lines;
use crate::summary::sum_up;
use crate::trial::{answer_trial, find_island_count};
use obs_assign::Steps;
use obs_case::Case;
use obs_edit::Session;
use obs_files::Status;
use obs_io::{Sink, Source};
use obs_network::NoMemory;
use obs_notice::Summary;
use obs_script::Ask;
use std::alloc::Global;
use std::marker::Brand;
use std::sync::ledger::{Blank, Ledger};

/// What a session is begun for:
/// the answer to one ask, the answers to the lines of the input, which may have so many bytes, or the trial of a generated
/// case.
#[derive(Clone, Copy)]
pub(crate) enum Task {
    Answer(Ask),
    Lines { most_bytes: usize },
    Trial { rows: u32, seed: u64 },
}

// Does what a session was begun for.
fn do_task<S: Source, W: Sink, L: Ledger>(
    session: &mut Session,
    task: Task,
    input: &mut S,
    output: &mut W,
    steps: &mut Steps<L>,
) -> Status
    requires offered { task ≡ Task.Answer Place → session.old.offered ≡ true }
    requires few { (most : ℕ) → task ≡ Task.Lines most → most ≤ most_file_bytes }
    requires inservice { (rows seed : ℕ) → task ≡ Task.Trial rows seed → AreInService session.old.tables }
    ensures done { IsTaskDone S.left S.faults S.steady W.written W.faults W.has_room task
        session.old.offered session.old.tables input.old input.new output.old output.new result }
{
    match task {
        Task::Answer(ask) => answer_session(output, session, ask, steps),
        Task::Lines { most_bytes } => answer_lines(session, input, output, most_bytes, steps),
        Task::Trial { rows, seed } => {
            let islands = find_island_count(session, steps);
            answer_trial(output, session, rows, seed, islands, steps)
        }
    }
}

// The summary of the present case, where an ask is answered.
fn sum_up_for(alloc: Global, session: &Session, task: Task) -> Result<Option<Summary>, NoMemory>
    ensures summary { IfOk result (λ s. s ≡ task_summary task session.now.tables) }
{
    match task {
        Task::Answer(_) => match sum_up(alloc, session.present(), session.network()) {
            Ok(summary) => Ok(Some(summary)),
            Err(NoMemory) => Err(NoMemory),
        },
        Task::Lines { .. } | Task::Trial { .. } => Ok(None),
    }
}

// Begins a session with a case, which takes all memory, and does what it is begun for. Searches are counted in a ledger
// of its own. An answer to an ask comes with the summary of the case.
fn do_counted<S: Source, W: Sink, L: Ledger>(
    alloc: Global,
    case: Case,
    offered: bool,
    task: Task,
    input: &mut S,
    output: &mut W,
    blank: Blank,
) -> (Status, Option<Summary>)
    requires name { blank.name ≡ L.name }
    requires parts { blank.parts ≡ L.parts }
    requires some { 0 < L.parts }
    requires offered { task ≡ Task.Answer Place → offered ≡ true }
    requires few { (most : ℕ) → task ≡ Task.Lines most → most ≤ most_file_bytes }
    requires inservice { (rows seed : ℕ) → task ≡ Task.Trial rows seed → AreInService case }
    ensures done { IsTaskDone S.left S.faults S.steady W.written W.faults W.has_room task
        offered case input.old input.new output.old output.new result.0 }
    ensures summary { IsWholeAnswer result.0 → result.1 ≡ task_summary task case }
{
    let mut steps = Steps::<L>::begin(blank);
    let Ok(mut session) = Session::begin(alloc, case, offered, &mut steps) else {
        return (Status::NoMemory, None);
    };
    let Ok(summary) = sum_up_for(alloc, &session, task) else {
        return (Status::NoMemory, None);
    };
    let status = do_task(&mut session, task, input, output, &mut steps);
    (status, summary)
}

/// Begins a session with a case, which was given with candidates or without, and does what it is begun for. The
/// placement is asked for only with candidates, and a trial only where each meter is in service. An answer to an ask comes
/// with the summary of the case.
pub(crate) fn begin_task<S: Source, W: Sink>(
    alloc: Global,
    case: Case,
    offered: bool,
    task: Task,
    input: &mut S,
    output: &mut W,
) -> (Status, Option<Summary>)
    requires offered { task ≡ Task.Answer Place → offered ≡ true }
    requires few { (most : ℕ) → task ≡ Task.Lines most → most ≤ most_file_bytes }
    requires inservice { (rows seed : ℕ) → task ≡ Task.Trial rows seed → AreInService case }
    ensures done { IsTaskDone S.left S.faults S.steady W.written W.faults W.has_room task
        offered case input.old input.new output.old output.new result.0 }
    ensures summary { IsWholeAnswer result.0 → result.1 ≡ task_summary task case }
{
    do_counted::<S, W, Brand>(alloc, case, offered, task, input, output, Blank::new(1))
}
