// The meters of a case that are critical together, printed.
ghost use Rattle.std.specs.Prelude.{◌≡◌, ◌<◌, IfOk, [], ◌∷◌, length};
ghost use Rattle.obs_meter.specs.inner.Sizes.{HasRoomFor};
ghost use Rattle.obs_network.specs.Network.{network_of};
ghost use Rattle.obs_kept.specs.inner.Kept.{AreLongest};
ghost use Rattle.obs_report.specs.inner.Printed.{Appends, Prints};
ghost use Rattle.obs_engine.specs.PairReply.{case_classes, class_line, class_lines, classes_text, pairs_reply};
ghost use Rattle.obs_engine.specs.inner.Replies.{IsReplied};
ghost use Rattle.obs_engine.specs.Summaries.{IsWholeAnswer, summary_of};

use crate::judged::{kept_verdict, printed_status};
use crate::summary::sum_up;
use obs_assign::Steps;
use obs_case::Case;
use obs_files::Status;
use obs_graph::Graph;
use obs_io::{Failed, Sink};
use obs_kept::Kept;
use obs_meter::Meters;
use obs_notice::Summary;
use obs_pairs::{NoMemory, PairWork, find_classes};
use obs_report::{LineBuffer, meter_name};
use std::alloc::Global;
use std::sync::ledger::Ledger;

// Room for the classes of these meters.
fn make_work(alloc: Global, graph: &Graph, meters: &Meters) -> Result<PairWork, NoMemory>
    ensures room { IfOk result (λ w. HasRoomFor w.sizes graph.now meters.now.touches) }
{
    PairWork::make(alloc, meters.count(), graph.positions(), graph.vertices())
}

// Finds the classes of the meters of a case.
fn find_case_classes<L: Ledger>(
    case: &Case,
    kept: &mut Kept,
    work: &mut PairWork,
    steps: &mut Steps<L>,
)
    requires network { kept.old.network ≡ network_of case.now }
    requires longest { AreLongest case.now kept.old.pairs }
    requires room { HasRoomFor work.old.sizes kept.old.network.graph kept.old.network.meters.touches }
    ensures network { kept.new.network ≡ kept.old.network }
    ensures longest { AreLongest case.now kept.new.pairs }
    ensures classes { work.new.list ≡ case_classes case.now }
{
    find_classes(
        kept.network.graph(),
        kept.network.meters(),
        &mut kept.pairs,
        work,
        steps,
    );
}

// Prints the line of a meter that has a partner.
fn print_member<W: Sink>(lines: &mut LineBuffer, output: &mut W, case: &Case, class: u32, m: u32)
    requires class { class < length case.now.meters }
    requires meter { m < length case.now.meters }
    ensures printed { Prints W.written W.faults W.has_room output.old output.new lines.old lines.new
        (class_line case.now class m) }
{
    lines.line(
        output,
        &[b"class", meter_name(case, class), meter_name(case, m)],
    );
}

// Prints the line of a meter, where it has a partner.
fn print_meter<W: Sink>(
    lines: &mut LineBuffer,
    output: &mut W,
    case: &Case,
    work: &PairWork,
    m: u32,
)
    requires classes { work.now.list ≡ case_classes case.now }
    requires meter { m < length case.now.meters }
    ensures printed { Prints W.written W.faults W.has_room output.old output.new lines.old lines.new
        (class_lines case.now work.now.list (m ∷ [])) }
{
    if work.has_partner(m) {
        print_member(lines, output, case, work.list()[m as usize], m);
    }
}

// Prints a line for each meter with a partner, and the last line.
fn print_classes<W: Sink>(output: &mut W, case: &Case, work: &PairWork) -> Result<(), Failed>
    requires classes { work.now.list ≡ case_classes case.now }
    ensures appends { Appends W.written W.faults W.has_room output.old output.new result
        (classes_text case.now work.now.list) }
{
    let mut lines = LineBuffer::new();
    let count = case.meters().len() as u32;
    for m in 0..count {
        print_meter(&mut lines, output, case, work, m);
    }
    lines.line(output, &[b"end"]);
    lines.finish(output)
}

/// Answers `pairs` on a case, with its summary. All is found before the first byte is written.
pub(crate) fn answer_pairs<W: Sink, L: Ledger>(
    alloc: Global,
    output: &mut W,
    case: &Case,
    steps: &mut Steps<L>,
) -> (Status, Option<Summary>)
    ensures replied { IsReplied W.written W.faults W.has_room output.old output.new result.0 (pairs_reply case.now) }
    ensures summary { IsWholeAnswer result.0 → result.1 ≡ Some (summary_of case.now) }
{
    let Ok(mut kept) = Kept::make(alloc, case, steps) else {
        return (Status::NoMemory, None);
    };
    let Ok(mut work) = make_work(alloc, kept.network.graph(), kept.network.meters()) else {
        return (Status::NoMemory, None);
    };
    let Ok(summary) = sum_up(alloc, case, &kept.network) else {
        return (Status::NoMemory, None);
    };
    find_case_classes(case, &mut kept, &mut work, steps);
    let status = kept_verdict(case, &kept.network, &kept.pairs);
    let outcome = print_classes(output, case, &work);
    (printed_status(outcome, status), Some(summary))
}
