// The stations of a case and the loss of their meters, printed.
ghost use Rattle.std.specs.Prelude.{◌≡◌, ◌<◌, [], ◌∷◌, All, Some, codes, decimal, length};
ghost use Rattle.obs_network.specs.Network.{network_of};
ghost use Rattle.obs_kept.specs.inner.Kept.{AreLongest};
ghost use Rattle.obs_report.specs.Lines.{line_of};
ghost use Rattle.obs_report.specs.inner.Printed.{Appends, Prints};
ghost use Rattle.obs_station.specs.Stations.{losses_of};
ghost use Rattle.obs_engine.specs.inner.Replies.{IsReplied};
ghost use Rattle.obs_engine.specs.Summaries.{IsWholeAnswer, summary_of};
ghost use Rattle.obs_engine.specs.StationReply.{are_borne, loss_line, losses_text, stations_reply, stations_status};

use crate::judged::{kept_verdict, printed_status};
use crate::summary::sum_up;
use obs_assign::Steps;
use obs_case::Case;
use obs_files::Status;
use obs_io::{Failed, Sink};
use obs_kept::Kept;
use obs_network::Present;
use obs_notice::Summary;
use obs_report::{LineBuffer, node_name, verdict_word};
use obs_station::{Loss, StationWork};
use obs_text::Digits;
use std::alloc::Global;
use std::sync::ledger::Ledger;

// Whether there are as many pairs as needed after each loss.
fn are_borne(needed: u32, entries: &[Loss]) -> bool
    ensures borne { result ≡ are_borne needed entries.now }
{
    for k in 0..entries.len() {
        if entries[k].rank != needed {
            return false;
        }
    }
    true
}

// The status of the losses that were found.
fn status_of(case: &Case, kept: &Kept, entries: &[Loss]) -> Status
    requires network { kept.now.network ≡ network_of case.now }
    requires longest { AreLongest case.now kept.now.pairs }
    requires found { entries.now ≡ losses_of case.now }
    ensures status { result ≡ stations_status case.now }
{
    if are_borne(kept.network.needed(), entries) {
        kept_verdict(case, &kept.network, &kept.pairs)
    } else {
        Status::Short
    }
}

// Prints the line of a name, three numbers and the verdict.
fn print_numbers<W: Sink>(
    lines: &mut LineBuffer,
    output: &mut W,
    name: &[u8],
    lost: u32,
    rank: u32,
    needed: u32,
    verdict: &[u8],
)
    ensures printed { Prints W.written W.faults W.has_room output.old output.new lines.old lines.new
        (line_of (codes "station" ∷ name.now ∷ decimal lost ∷ decimal rank ∷ decimal needed ∷ verdict.now ∷ [])) }
{
    let mut lost_digits = Digits::new();
    let mut rank_digits = Digits::new();
    let mut needed_digits = Digits::new();
    let words: [&[u8]; 6] = [
        b"station",
        name,
        lost_digits.text(lost as u64),
        rank_digits.text(rank as u64),
        needed_digits.text(needed as u64),
        verdict,
    ];
    lines.line(output, &words);
}

// Prints the line of a station: its first node, how many meters are lost, the rank without them and the needed number.
fn print_loss<W: Sink>(
    lines: &mut LineBuffer,
    output: &mut W,
    case: &Case,
    needed: u32,
    node: u32,
    lost: u32,
    rank: u32,
)
    requires node { node < length case.now.nodes }
    ensures printed { Prints W.written W.faults W.has_room output.old output.new lines.old lines.new
        (loss_line case.now needed (record { node = node; lost = lost; rank = rank })) }
{
    let name = node_name(case, node);
    let verdict = verdict_word(rank, needed);
    print_numbers(lines, output, name, lost, rank, needed, verdict);
}

// Prints a line for each entry, and the last line.
fn print_losses<W: Sink>(
    output: &mut W,
    case: &Case,
    needed: u32,
    entries: &[Loss],
) -> Result<(), Failed>
    requires nodes { All (λ l. l.node < length case.now.nodes) entries.now }
    ensures appends { Appends W.written W.faults W.has_room output.old output.new result
        (losses_text case.now needed entries.now) }
{
    let mut lines = LineBuffer::new();
    for k in 0..entries.len() {
        print_loss(
            &mut lines,
            output,
            case,
            needed,
            entries[k].node,
            entries[k].lost,
            entries[k].rank,
        );
    }
    lines.line(output, &[b"end"]);
    lines.finish(output)
}

/// Answers `stations` on a case, with its summary. All is found before the first byte is written.
pub(crate) fn answer_stations<W: Sink, L: Ledger>(
    alloc: Global,
    output: &mut W,
    case: &Case,
    steps: &mut Steps<L>,
) -> (Status, Option<Summary>)
    ensures replied { IsReplied W.written W.faults W.has_room output.old output.new result.0 (stations_reply case.now) }
    ensures summary { IsWholeAnswer result.0 → result.1 ≡ Some (summary_of case.now) }
{
    let Ok(mut kept) = Kept::make(alloc, case, steps) else {
        return (Status::NoMemory, None);
    };
    let Ok(mut work) = StationWork::make(alloc, case) else {
        return (Status::NoMemory, None);
    };
    let Ok(summary) = sum_up(alloc, case, &kept.network) else {
        return (Status::NoMemory, None);
    };
    let present = Present::of(case, &kept.network);
    work.find_losses(&present, &mut kept.pairs, steps);
    let status = status_of(case, &kept, work.list());
    let outcome = print_losses(output, case, kept.network.needed(), work.list());
    (printed_status(outcome, status), Some(summary))
}
