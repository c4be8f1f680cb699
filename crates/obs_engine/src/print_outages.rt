// The outages of a case, printed.
ghost use Rattle.std.specs.Prelude.{◌≡◌, ◌<◌, [], ◌∷◌, All, Some, codes, decimal, length};
ghost use Rattle.obs_network.specs.Network.{network_of};
ghost use Rattle.obs_kept.specs.inner.Kept.{AreLongest};
ghost use Rattle.obs_outage.specs.Outages.{outages_of};
ghost use Rattle.obs_report.specs.Lines.{line_of};
ghost use Rattle.obs_report.specs.inner.Printed.{Appends, Prints};
ghost use Rattle.obs_engine.specs.OutageReply.{are_met, outage_line, outages_reply, outages_status, outages_text};
ghost use Rattle.obs_engine.specs.inner.Replies.{IsReplied};
ghost use Rattle.obs_engine.specs.Summaries.{IsWholeAnswer, summary_of};

use crate::judged::{kept_verdict, printed_status};
use crate::summary::sum_up;
use obs_assign::Steps;
use obs_case::Case;
use obs_files::Status;
use obs_io::{Failed, Sink};
use obs_notice::Summary;
use obs_outage::{Outage, Outages};
use obs_report::{LineBuffer, branch_name, verdict_word};
use obs_text::Digits;
use std::alloc::Global;
use std::sync::ledger::Ledger;

// Whether each outage case has as many pairs as it needs.
fn are_met(entries: &[Outage]) -> bool
    ensures met { result ≡ are_met entries.now }
{
    for k in 0..entries.len() {
        if entries[k].rank != entries[k].needed {
            return false;
        }
    }
    true
}

// The status of the outages that were found.
fn status_of(case: &Case, outages: &Outages) -> Status
    requires network { outages.now.network ≡ network_of case.now }
    requires longest { AreLongest case.now outages.now.pairs }
    requires found { outages.now.found ≡ outages_of case.now }
    ensures status { result ≡ outages_status case.now }
{
    if are_met(outages.found()) {
        kept_verdict(case, outages.network(), outages.pairs())
    } else {
        Status::Short
    }
}

// Prints the line of a name, two numbers and the verdict on these.
fn print_numbers<W: Sink>(
    lines: &mut LineBuffer,
    output: &mut W,
    name: &[u8],
    rank: u32,
    needed: u32,
    verdict: &[u8],
)
    ensures printed { Prints W.written W.faults W.has_room output.old output.new lines.old lines.new
        (line_of (codes "outage" ∷ name.now ∷ decimal rank ∷ decimal needed ∷ verdict.now ∷ [])) }
{
    let mut rank_digits = Digits::new();
    let mut needed_digits = Digits::new();
    let words: [&[u8]; 5] = [
        b"outage",
        name,
        rank_digits.text(rank as u64),
        needed_digits.text(needed as u64),
        verdict,
    ];
    lines.line(output, &words);
}

// Prints the line of a branch and the numbers of its outage case.
fn print_outage<W: Sink>(
    lines: &mut LineBuffer,
    output: &mut W,
    case: &Case,
    branch: u32,
    rank: u32,
    needed: u32,
)
    requires branch { branch < length case.now.branches }
    ensures printed { Prints W.written W.faults W.has_room output.old output.new lines.old lines.new
        (outage_line case.now (record { branch = branch; rank = rank; needed = needed })) }
{
    let name = branch_name(case, branch);
    let verdict = verdict_word(rank, needed);
    print_numbers(lines, output, name, rank, needed, verdict);
}

// Prints a line for each entry, and the last line.
fn print_outages<W: Sink>(output: &mut W, case: &Case, entries: &[Outage]) -> Result<(), Failed>
    requires rows { All (λ o. o.branch < length case.now.branches) entries.now }
    ensures appends { Appends W.written W.faults W.has_room output.old output.new result
        (outages_text case.now entries.now) }
{
    let mut lines = LineBuffer::new();
    for k in 0..entries.len() {
        print_outage(
            &mut lines,
            output,
            case,
            entries[k].branch,
            entries[k].rank,
            entries[k].needed,
        );
    }
    lines.line(output, &[b"end"]);
    lines.finish(output)
}

/// Answers `outages` on a case, which is as it was afterwards, with its summary. All is found before the first byte is written.
pub(crate) fn answer_outages<W: Sink, L: Ledger>(
    alloc: Global,
    output: &mut W,
    case: &mut Case,
    steps: &mut Steps<L>,
) -> (Status, Option<Summary>)
    ensures replied { IsReplied W.written W.faults W.has_room output.old output.new result.0 (outages_reply case.old) }
    ensures summary { IsWholeAnswer result.0 → result.1 ≡ Some (summary_of case.old) }
{
    let Ok(mut outages) = Outages::make(alloc, case, steps) else {
        return (Status::NoMemory, None);
    };
    let Ok(summary) = sum_up(alloc, case, outages.network()) else {
        return (Status::NoMemory, None);
    };
    outages.find_list(case, steps);
    let status = status_of(case, &outages);
    let outcome = print_outages(output, case, outages.found());
    (printed_status(outcome, status), Some(summary))
}
