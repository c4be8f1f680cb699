// The values of a row.
ghost use Rattle.std.specs.Prelude.{◌≡◌};
ghost use Rattle.std.specs.List.{after_first, before_first};
ghost use Rattle.obs_matpower.specs.Rows.{is_separator};

/// The values of a row, in order.
#[derive(Clone, Copy)]
pub struct Values<'a> {
    pub(crate) rest: &'a [u8],
}

// What stands before the first blank, tab or comma, or all, and what stands after it, or nothing.
fn cut_value(bytes: &[u8]) -> (&[u8], &[u8])
    ensures before { result.0.now ≡ before_first is_separator bytes.now }
    ensures after { result.1.now ≡ after_first is_separator bytes.now }
{
    match bytes
        .iter()
        .position(|byte| *byte == b' ' || *byte == b'\t' || *byte == b',')
    {
        Some(end) => (&bytes[..end], &bytes[end + 1..]),
        None => (bytes, &[]),
    }
}

impl<'a> Iterator for Values<'a> {
    ghost use Rattle.std.specs.Iterator.{YieldsFirstRef, item_count};
    ghost use Rattle.obs_matpower.specs.inner.Left.{values_left};

    type Item = &'a [u8];

    ghost next_gives = { YieldsFirstRef values_left };

    ghost remaining = { item_count values_left };

    fn next(&mut self) -> Option<&'a [u8]> {
        while !self.rest.is_empty() {
            let (value, rest) = cut_value(self.rest);
            self.rest = rest;
            if !value.is_empty() {
                return Some(value);
            }
        }
        None
    }
}
