// The search for a line.
ghost use Rattle.std.specs.Prelude.{◌≡◌, ◌≤◌, false, length, IfNone, IfSome};
ghost use Rattle.std.specs.List.{list_any};
ghost use Rattle.obs_text.specs.Lines.{ended_lines};
ghost use Rattle.obs_text.specs.Limits.{most_file_bytes};
ghost use Rattle.obs_matpower.specs.Lines.{has_opening, is_closing, table_name, without_comment};
ghost use Rattle.obs_matpower.specs.inner.Table.{IsFound, is_sought};

use crate::cut::{past, without_comment};
use crate::part::MatTable;
use obs_text::lines;

const CLOSING: u8 = b']';

// What a line is looked for by: that it opens a table, or that it has the `]` of one.
#[derive(Clone, Copy)]
pub(crate) enum Sought {
    Opening(MatTable),
    Closing,
}

// A line that was looked for: what stands before it, the bytes from it on, and its number from 1.
#[derive(Clone, Copy)]
pub(crate) struct Found<'a> {
    pub(crate) before: &'a [u8],
    pub(crate) from: &'a [u8],
    pub(crate) number: u32,
}

fn name(table: MatTable) -> &'static [u8]
    ensures name { result.now ≡ table_name table }
{
    match table {
        MatTable::Bus => b"mpc.bus",
        MatTable::Branch => b"mpc.branch",
    }
}

// Whether a line without its comment opens the table.
fn has_opening(table: MatTable, code: &[u8]) -> bool
    ensures opening { result ≡ has_opening table code.now }
{
    let Some(assigned) = past(name(table), code) else {
        return false;
    };
    let Some(value) = past(b"=", assigned) else {
        return false;
    };
    past(b"[", value).is_some()
}

fn has_closing(code: &[u8]) -> bool
    ensures closing { result ≡ list_any is_closing code.now }
{
    code.contains(&CLOSING)
}

// Whether a line is one that is looked for.
fn is_sought(sought: Sought, line: &[u8]) -> bool
    ensures opening { (table : MatTable) → sought ≡ Sought.Opening table
        → result ≡ has_opening table (without_comment line.now) }
    ensures closing { sought ≡ Sought.Closing → result ≡ list_any is_closing (without_comment line.now) }
{
    let code = without_comment(line);
    match sought {
        Sought::Opening(table) => has_opening(table, code),
        Sought::Closing => has_closing(code),
    }
}

// The first line that is looked for.
pub(crate) fn find_line(bytes: &[u8], sought: Sought) -> Option<Found<'_>>
    requires few { length bytes.now ≤ most_file_bytes }
    ensures none { IfNone result (list_any (is_sought sought) (ended_lines bytes.now) ≡ false) }
    ensures found { IfSome result
        (λ found. IsFound (is_sought sought) bytes.now found.before.now found.from.now found.number) }
{
    let mut rest = lines(bytes);
    let mut passed = 0u32;
    loop {
        let from = rest.rest();
        let Some(line) = rest.next() else {
            return None;
        };
        passed += 1;
        if is_sought(sought, line) {
            return Some(Found {
                before: &bytes[..bytes.len() - from.len()],
                from,
                number: passed,
            });
        }
    }
}
