// The tables of a file.
ghost use Rattle.std.specs.Prelude.{◌≡◌, ◌≤◌, length};
ghost use Rattle.obs_text.specs.Limits.{most_file_bytes};
ghost use Rattle.obs_matpower.specs.Table.{end_of, left_open, line_of, missing};
ghost use Rattle.obs_matpower.specs.inner.Table.{text_of};

use crate::cut::cut_at;
use crate::fault::MatFault;
use crate::find::{Sought, find_line};
use crate::part::{MatPart, MatTable};

const OPENING: u8 = b'[';

const CLOSING: u8 = b']';

fn missing(table: MatTable) -> MatFault
    ensures fault { result ≡ missing table }
{
    match table {
        MatTable::Bus => MatFault::NoBusTable,
        MatTable::Branch => MatFault::NoBranchTable,
    }
}

fn left_open(table: MatTable) -> MatFault
    ensures fault { result ≡ left_open table }
{
    match table {
        MatTable::Bus => MatFault::BusTableOpen,
        MatTable::Branch => MatFault::BranchTableOpen,
    }
}

/// Where a file has a table: what stands between its `[` and its `]`, and the number of the line
/// with the `[`. A `]` in a comment ends no table. Takes no memory.
pub fn table(bytes: &[u8], which: MatTable) -> MatPart<'_>
    requires few { length bytes.now ≤ most_file_bytes }
    ensures text { result.text.now ≡ text_of which bytes.now }
    ensures line { result.line ≡ line_of which bytes.now }
    ensures end { result.end ≡ end_of which bytes.now }
{
    let Some(start) = find_line(bytes, Sought::Opening(which)) else {
        return MatPart {
            text: &[],
            line: 0,
            end: Some(missing(which)),
        };
    };
    let line = start.number;
    let after = cut_at(start.from, OPENING).1;
    let Some(last) = find_line(after, Sought::Closing) else {
        return MatPart {
            text: after,
            line,
            end: Some(left_open(which)),
        };
    };
    let (inside, _) = cut_at(last.from, CLOSING);
    MatPart {
        text: &after[..last.before.len() + inside.len()],
        line,
        end: None,
    }
}
