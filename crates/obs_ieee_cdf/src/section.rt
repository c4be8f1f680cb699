// The sections of a file.
ghost use Rattle.std.specs.Prelude.{◌≡◌, ◌≤◌, [], Some, length};
ghost use Rattle.std.specs.List.{concat};
ghost use Rattle.obs_text.specs.Lines.{ended_lines};
ghost use Rattle.obs_text.specs.Limits.{most_file_bytes};
ghost use Rattle.obs_ieee_cdf.specs.Sections.{branch_lines, branches_from, bus_lines, buses_from, end_fault};

use crate::fault::CdfFault;
use crate::find::find_line;
use crate::parts::Sections;

/// What the line before the bus lines begins with.
const BUS_HEADING: &[u8] = b"BUS DATA";

/// What the line before the branch lines begins with.
const BRANCH_HEADING: &[u8] = b"BRANCH DATA";

/// What the line after the lines of a section begins with.
const SECTION_END: &[u8] = b"-999";

// The sections of a file that has no branch lines.
fn without_branches(buses: &[u8], buses_from: u32, end: CdfFault) -> Sections<'_>
    ensures buses { result.buses.now ≡ buses.now }
    ensures buses_from { result.buses_from ≡ buses_from }
    ensures branches { result.branches.now ≡ [] }
    ensures branches_from { result.branches_from ≡ 0 }
    ensures end { result.end ≡ Some end }
{
    Sections {
        buses,
        buses_from,
        branches: &[],
        branches_from: 0,
        end: Some(end),
    }
}

/// Where the bus lines and the branch lines of a file are, and which section isn't there or isn't
/// ended. What comes after the branch section isn't looked at. Takes no memory.
pub fn sections(bytes: &[u8]) -> Sections<'_>
    requires few { length bytes.now ≤ most_file_bytes }
    ensures buses { result.buses.now ≡ concat (bus_lines (ended_lines bytes.now)) }
    ensures buses_from { result.buses_from ≡ buses_from (ended_lines bytes.now) }
    ensures branches { result.branches.now ≡ concat (branch_lines (ended_lines bytes.now)) }
    ensures branches_from { result.branches_from ≡ branches_from (ended_lines bytes.now) }
    ensures end { result.end ≡ end_fault (ended_lines bytes.now) }
{
    let Some(heading) = find_line(bytes, BUS_HEADING) else {
        return without_branches(&[], 0, CdfFault::NoBusSection);
    };
    let from = heading.number + 1;
    let Some(end) = find_line(heading.after, SECTION_END) else {
        return without_branches(heading.after, from, CdfFault::BusSectionOpen);
    };
    let Some(next) = find_line(end.after, BRANCH_HEADING) else {
        return without_branches(end.before, from, CdfFault::NoBranchSection);
    };
    let branches_from = from + end.number + next.number;
    let Some(last) = find_line(next.after, SECTION_END) else {
        return Sections {
            buses: end.before,
            buses_from: from,
            branches: next.after,
            branches_from,
            end: Some(CdfFault::BranchSectionOpen),
        };
    };
    Sections {
        buses: end.before,
        buses_from: from,
        branches: last.before,
        branches_from,
        end: None,
    }
}
