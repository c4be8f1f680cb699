// The lines on bounds and critical meters.
ghost use Rattle.std.specs.Prelude.{◌≡◌, ◌<◌, All, length};
ghost use Rattle.obs_network.specs.Network.{network_of};
ghost use Rattle.obs_report.specs.Meters.{bound_line, bound_text, critical_line, critical_text};
ghost use Rattle.obs_report.specs.inner.Printed.{Appends, Prints};

use crate::items::print_list;
use crate::line_buffer::LineBuffer;
use crate::names::{component_name, meter_name};
use obs_case::Case;
use obs_io::{Failed, Sink};
use obs_network::{Network, Present};
use obs_rankcut::Bound;
use obs_text::Digits;

// Prints the line of a component's bound.
fn print_numbers<W: Sink>(
    lines: &mut LineBuffer,
    output: &mut W,
    component: &[u8],
    rank: u32,
    outside: u32,
)
    ensures printed { Prints W.written W.faults W.has_room output.old output.new lines.old lines.new
        (bound_line component.now rank outside) }
{
    let mut rank_digits = Digits::new();
    let mut outside_digits = Digits::new();
    let words: [&[u8]; 4] = [
        b"bound",
        component,
        rank_digits.text(rank as u64),
        outside_digits.text(outside as u64),
    ];
    lines.line(output, &words);
}

/// Appends the bound of a component: its name, the two numbers, and a line for each listed meter.
pub fn print_bound<W: Sink>(
    output: &mut W,
    case: &Case,
    network: &Network,
    c: u32,
    bound: &Bound<'_>,
) -> Result<(), Failed>
    requires network { network.now ≡ network_of case.now }
    requires component { c < length network.now.components.first_buses }
    requires inside { All (λ m. m < length case.now.meters) bound.now.inside.now }
    ensures appends { Appends W.written W.faults W.has_room output.old output.new result
        (bound_text case.now c bound.now.inside.now bound.now.rank bound.now.outside) }
{
    let name = component_name(&Present::of(case, network), c);
    let mut lines = LineBuffer::new();
    print_numbers(&mut lines, output, name, bound.rank, bound.outside);
    print_list(&mut lines, output, case, bound.inside);
    lines.finish(output)
}

// Prints the line of a critical meter.
fn print_meter<W: Sink>(lines: &mut LineBuffer, output: &mut W, case: &Case, m: u32)
    requires meter { m < length case.now.meters }
    ensures printed { Prints W.written W.faults W.has_room output.old output.new lines.old lines.new
        (critical_line case.now m) }
{
    lines.line(output, &[b"critical", meter_name(case, m)]);
}

/// Appends a line for each of these meters.
pub fn print_critical<W: Sink>(output: &mut W, case: &Case, list: &[u32]) -> Result<(), Failed>
    requires list { All (λ m. m < length case.now.meters) list.now }
    ensures appends { Appends W.written W.faults W.has_room output.old output.new result
        (critical_text case.now list.now) }
{
    let mut lines = LineBuffer::new();
    for m in list {
        print_meter(&mut lines, output, case, *m);
    }
    lines.finish(output)
}
