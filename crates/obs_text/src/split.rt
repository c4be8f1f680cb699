// Lines.
ghost use Rattle.std.specs.Prelude.{◌≡◌};

use crate::line_iter::Lines;

/// The lines of the bytes. A line ends at a line feed or at the end of the bytes, and one last
/// carriage return is dropped from it. A last line feed starts no further line.
pub fn lines(bytes: &[u8]) -> Lines<'_>
    ensures bytes { result ≡ bytes.now }
{
    Lines { rest: bytes }
}
