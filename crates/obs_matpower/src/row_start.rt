// The rows of a table, from the first on.
ghost use Rattle.std.specs.Prelude.{◌≡◌, ◌≤◌, length, is_none};
ghost use Rattle.obs_text.specs.Limits.{most_file_bytes};
ghost use Rattle.obs_matpower.specs.inner.Left.{rows_left};
ghost use Rattle.obs_matpower.specs.inner.Rows.{rows_of};

use crate::part::MatPart;
use crate::row_iter::{Rows, next_line};

/// The rows of a table's text, without those that have no value. Takes no memory.
pub fn rows<'a>(part: &MatPart<'a>) -> Rows<'a>
    requires few { length part.now.text.now ≤ most_file_bytes }
    requires low { part.now.line ≤ most_file_bytes }
    ensures rows { rows_left result ≡ rows_of (is_none part.now.end) part.now.line part.now.text.now }
{
    let ended = part.end.is_none();
    let (code, rest) = next_line(part.text, ended);
    Rows {
        code,
        line: part.line,
        rest,
        ended,
    }
}
