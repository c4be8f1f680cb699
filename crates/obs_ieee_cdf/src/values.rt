// What fields say.
ghost use Rattle.std.specs.Prelude.{◌≡◌};
ghost use Rattle.obs_ieee_cdf.specs.Fields.{is_blank_line, number_of, source_of};

use obs_text::whole;

/// The most digits of a bus number.
const MOST_DIGITS: usize = 4;

const BLANK: u8 = b' ';

// The number that a field names a bus by.
pub(crate) fn bus_number(field: &[u8]) -> Option<u64>
    ensures number { result ≡ number_of field.now }
{
    if field.len() > MOST_DIGITS {
        None
    } else {
        whole(field)
    }
}

// Whether a bus of this type has a source.
pub(crate) fn has_source(kind: &[u8]) -> Option<bool>
    ensures source { result ≡ source_of kind.now }
{
    if kind == b"0".as_slice() || kind == b"1".as_slice() {
        Some(false)
    } else if kind == b"2".as_slice() || kind == b"3".as_slice() {
        Some(true)
    } else {
        None
    }
}

// Whether a line is passed over inside a section.
pub(crate) fn is_passed_over(line: &[u8]) -> bool
    ensures blank { result ≡ is_blank_line line.now }
{
    line.iter().all(|byte| *byte == BLANK)
}
