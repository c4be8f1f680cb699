// Parts of a line.
ghost use Rattle.std.specs.Prelude.{◌≡◌, ◌≤◌};
ghost use Rattle.obs_text.specs.Columns.{bare_of, columns_of};

const BLANK: u8 = 0x20;

/// The bytes `from` to `to` of a line, counted from 1 and both taken. A line that is shorter gives
/// the part that it has.
pub fn columns(line: &[u8], from: usize, to: usize) -> &[u8]
    requires first { 1 ≤ from }
    requires order { from ≤ to }
    ensures part { result.now ≡ columns_of line.now from to }
{
    if from > line.len() {
        &[]
    } else {
        &line[from - 1..to.min(line.len())]
    }
}

/// The bytes without the blanks (0x20) at both ends.
pub fn bare(bytes: &[u8]) -> &[u8]
    ensures bare { result.now ≡ bare_of bytes.now }
{
    let mut bare = bytes;
    while let [BLANK, rest @ ..] = bare {
        bare = rest;
    }
    while let [rest @ .., BLANK] = bare {
        bare = rest;
    }
    bare
}
