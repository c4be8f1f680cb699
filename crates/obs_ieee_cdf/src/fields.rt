// The fields of a line.
ghost use Rattle.std.specs.Prelude.{◌≡◌};
ghost use Rattle.obs_ieee_cdf.specs.Fields.{bus_field, tap_field, type_field, z_field};

use obs_text::{bare, columns};

/// The fields of a bus line that are read, as they stand in the line.
#[derive(Clone, Copy, Debug)]
pub struct BusFields<'a> {
    /// Columns 1 to 4 without the blanks at both ends.
    pub number: &'a [u8],
    /// Columns 25 to 26 without the blanks at both ends.
    pub kind: &'a [u8],
}

/// The fields of a branch line that are read, as they stand in the line.
#[derive(Clone, Copy, Debug)]
pub struct BranchFields<'a> {
    /// The tap bus: columns 1 to 4 without the blanks at both ends.
    pub from: &'a [u8],
    /// The Z bus: columns 6 to 9 without the blanks at both ends.
    pub to: &'a [u8],
}

/// The fields of a bus line. A line that is too short gives what it has of them.
pub fn bus_fields(line: &[u8]) -> BusFields<'_>
    ensures number { result.number.now ≡ bus_field line.now }
    ensures kind { result.kind.now ≡ type_field line.now }
{
    BusFields {
        number: bare(columns(line, 1, 4)),
        kind: bare(columns(line, 25, 26)),
    }
}

/// The fields of a branch line. A line that is too short gives what it has of them.
pub fn branch_fields(line: &[u8]) -> BranchFields<'_>
    ensures from { result.from.now ≡ tap_field line.now }
    ensures to { result.to.now ≡ z_field line.now }
{
    BranchFields {
        from: bare(columns(line, 1, 4)),
        to: bare(columns(line, 6, 9)),
    }
}
