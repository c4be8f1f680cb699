// The lines on items: meters and then candidates.
ghost use Rattle.std.specs.Prelude.{◌≡◌, ◌<◌, All, IfSome, [], ◌∷◌};
ghost use Rattle.std.specs.List.{flat_map};
ghost use Rattle.obs_matroid.specs.inner.Slots.{pairs_from};
ghost use Rattle.obs_network.specs.Network.{case_item_count};
ghost use Rattle.obs_report.specs.Items.{branch_word, inside_line, item_name, item_word, pair_line};
ghost use Rattle.obs_report.specs.inner.Items.{IsBranchOf};
ghost use Rattle.obs_report.specs.inner.Printed.{Prints};

use crate::line_buffer::LineBuffer;
use crate::names::{branch_name, candidate_name, meter_name};
use obs_case::Case;
use obs_io::Sink;

// The word of an item.
fn item_word(case: &Case, m: u32) -> &[u8]
    ensures word { result.now ≡ item_word case.now m }
{
    if (m as usize) < case.meters().len() {
        b"meter"
    } else {
        b"candidate"
    }
}

// The name of an item.
fn item_name(case: &Case, m: u32) -> &[u8]
    requires item { m < case_item_count case.now }
    ensures name { result.now ≡ item_name case.now m }
{
    let meters = case.meters().len();
    if (m as usize) < meters {
        meter_name(case, m)
    } else {
        candidate_name(case, m - meters as u32)
    }
}

// Prints the line of an item that is inside a list.
fn print_inside<W: Sink>(lines: &mut LineBuffer, output: &mut W, case: &Case, m: u32)
    requires item { m < case_item_count case.now }
    ensures printed { Prints W.written W.faults W.has_room output.old output.new lines.old lines.new
        (inside_line case.now m) }
{
    lines.line(output, &[b"inside", item_word(case, m), item_name(case, m)]);
}

/// Prints a line for each item that is inside a list.
pub(crate) fn print_list<W: Sink>(
    lines: &mut LineBuffer,
    output: &mut W,
    case: &Case,
    inside: &[u32],
)
    requires inside { All (λ m. m < case_item_count case.now) inside.now }
    ensures printed { Prints W.written W.faults W.has_room output.old output.new lines.old lines.new
        (flat_map (inside_line case.now) inside.now) }
{
    for m in inside {
        print_inside(lines, output, case, *m);
    }
}

// The word for the branch of an item's pair.
fn branch_word(case: &Case, m: u32, e: u32) -> &[u8]
    requires branch { IsBranchOf case.now m e }
    ensures word { result.now ≡ branch_word case.now m e }
{
    if case.is_angle(m) {
        b"angle"
    } else {
        branch_name(case, e)
    }
}

// Prints the line of an item and its branch.
fn print_pair_line<W: Sink>(lines: &mut LineBuffer, output: &mut W, case: &Case, m: u32, e: u32)
    requires item { m < case_item_count case.now }
    requires branch { IsBranchOf case.now m e }
    ensures printed { Prints W.written W.faults W.has_room output.old output.new lines.old lines.new
        (pair_line case.now (m, e)) }
{
    let words: [&[u8]; 4] = [
        b"pair",
        item_word(case, m),
        item_name(case, m),
        branch_word(case, m, e),
    ];
    lines.line(output, &words);
}

/// Prints the line of an item and its branch, where it has one.
pub(crate) fn print_pair<W: Sink>(
    lines: &mut LineBuffer,
    output: &mut W,
    case: &Case,
    m: u32,
    branch: Option<u32>,
)
    requires item { m < case_item_count case.now }
    requires branch { IfSome branch (λ e. IsBranchOf case.now m e) }
    ensures printed { Prints W.written W.faults W.has_room output.old output.new lines.old lines.new
        (flat_map (pair_line case.now) (pairs_from m (branch ∷ []))) }
{
    if let Some(e) = branch {
        print_pair_line(lines, output, case, m, e);
    }
}
