// The search for a line.
ghost use Rattle.std.specs.Prelude.{◌≡◌, ◌≤◌, false, length, IfNone, IfSome};
ghost use Rattle.std.specs.List.{list_any};
ghost use Rattle.obs_text.specs.Lines.{ended_lines};
ghost use Rattle.obs_text.specs.Limits.{most_file_bytes};
ghost use Rattle.obs_bus_branch.specs.inner.Search.{IsFirstLine};
ghost use Rattle.obs_ieee_cdf.specs.Sections.{begins};

use obs_text::lines;

// A line that was looked for: what stands before it and after it, and its number from 1.
#[derive(Clone, Copy)]
pub(crate) struct Found<'a> {
    pub(crate) before: &'a [u8],
    pub(crate) after: &'a [u8],
    pub(crate) number: u32,
}

// The first line that begins with a text.
pub(crate) fn find_line<'a>(bytes: &'a [u8], text: &[u8]) -> Option<Found<'a>>
    requires few { length bytes.now ≤ most_file_bytes }
    ensures none { IfNone result (list_any (begins text.now) (ended_lines bytes.now) ≡ false) }
    ensures found { IfSome result
        (λ found. IsFirstLine (begins text.now) bytes.now found.before.now found.after.now found.number) }
{
    let mut rest = lines(bytes);
    let mut passed = 0u32;
    loop {
        let left = rest.rest();
        let Some(line) = rest.next() else {
            return None;
        };
        passed += 1;
        if line.starts_with(text) {
            return Some(Found {
                before: &bytes[..bytes.len() - left.len()],
                after: rest.rest(),
                number: passed,
            });
        }
    }
}
