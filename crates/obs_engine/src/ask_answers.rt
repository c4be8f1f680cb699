// The answer to one ask of a session.
ghost use Rattle.std.specs.Prelude.{◌≡◌, true};
ghost use Rattle.obs_script.specs.declared.command.Ask.TheVariants.{Place};
ghost use Rattle.obs_engine.specs.Asks.{ask_reply, ask_status, report_status};
ghost use Rattle.obs_engine.specs.inner.Replies.{IsReplied};

use crate::judged::printed_status;
use crate::print_asks::print_ask;
use obs_assign::Steps;
use obs_edit::Session;
use obs_files::Status;
use obs_io::Sink;
use obs_placement::Placement;
use obs_script::Ask;
use std::sync::ledger::Ledger;

/// Done where the present case has as many pairs as it needs.
pub(crate) fn verdict(session: &Session) -> Status
    ensures status { result ≡ report_status session.now.tables }
{
    let state = session.state();
    if state.rank == state.needed {
        Status::Done
    } else {
        Status::Short
    }
}

// Done where there is a plan.
fn place_status<L: Ledger>(session: &mut Session, steps: &mut Steps<L>) -> Status
    requires offered { session.old.offered ≡ true }
    ensures tables { session.new.tables ≡ session.old.tables }
    ensures offered { session.new.offered ≡ session.old.offered }
    ensures status { result ≡ ask_status Place session.old.tables }
{
    session.find_placement(steps);
    match session.found_placement() {
        Placement::Cheapest(_) => Status::Done,
        Placement::Shortfall(_) => Status::Short,
    }
}

// The status of the answer to an ask.
fn status_of<L: Ledger>(session: &mut Session, ask: Ask, steps: &mut Steps<L>) -> Status
    requires offered { ask ≡ Place → session.old.offered ≡ true }
    ensures tables { session.new.tables ≡ session.old.tables }
    ensures offered { session.new.offered ≡ session.old.offered }
    ensures status { result ≡ ask_status ask session.old.tables }
{
    match ask {
        Ask::Place => place_status(session, steps),
        _ => verdict(session),
    }
}

/// Answers an ask of a session. The placement is asked for only with candidates.
pub(crate) fn answer_session<W: Sink, L: Ledger>(
    output: &mut W,
    session: &mut Session,
    ask: Ask,
    steps: &mut Steps<L>,
) -> Status
    requires offered { ask ≡ Place → session.old.offered ≡ true }
    ensures replied { IsReplied W.written W.faults W.has_room output.old output.new result
        (ask_reply ask session.old.tables) }
{
    let status = status_of(session, ask, steps);
    printed_status(print_ask(output, session, ask, steps), status)
}
