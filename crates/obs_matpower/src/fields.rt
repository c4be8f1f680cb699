// The values of a row that are read.
ghost use Rattle.std.specs.Prelude.{◌≡◌, ◌≤◌, option_map};
ghost use Rattle.std.specs.List.{list_all, slice_get};
ghost use Rattle.obs_matpower.specs.Fields.{is_isolated, is_short, is_source, is_zero, number_in, number_of, status_in, type_in};
ghost use Rattle.obs_matpower.specs.Rows.{values_of};

use crate::cut::cut_at;
use crate::value_start::values;
use obs_text::whole;

/// The most digits of a whole value.
const MOST_DIGITS: usize = 9;

const POINT: u8 = b'.';

const ZERO: u8 = b'0';

// The type of a bus: a load, or one with a source, or one that is cut off from all others.
#[derive(Clone, Copy)]
pub(crate) enum BusType {
    Load,
    Source,
    Isolated,
}

impl BusType {
    pub(crate) fn is_source(self) -> bool
        ensures source { result ≡ is_source self }
    {
        matches!(self, BusType::Source)
    }

    pub(crate) fn is_isolated(self) -> bool
        ensures isolated { result ≡ is_isolated self }
    {
        matches!(self, BusType::Isolated)
    }
}

// Whether all of them are zeros.
fn are_zeros(bytes: &[u8]) -> bool
    ensures zeros { result ≡ list_all is_zero bytes.now }
{
    bytes.iter().all(|byte| *byte == ZERO)
}

// The number that a whole value is.
fn number(value: &[u8]) -> Option<u64>
    ensures number { result ≡ number_of value.now }
{
    let (digits, zeros) = cut_at(value, POINT);
    if digits.len() <= MOST_DIGITS && are_zeros(zeros) {
        whole(digits)
    } else {
        None
    }
}

// The value at a place, from 0, of a row.
fn value_at(row: &[u8], index: usize) -> Option<&[u8]>
    ensures value { option_map (λ value. value.now) result ≡ slice_get (values_of row.now) index }
{
    values(row).nth(index)
}

// Whether a row has fewer values than this.
pub(crate) fn is_short(row: &[u8], columns: usize) -> bool
    requires some { 1 ≤ columns }
    ensures short { result ≡ is_short columns row.now }
{
    value_at(row, columns - 1).is_none()
}

// The number in a column, from 1.
pub(crate) fn number_in(row: &[u8], column: usize) -> Option<u64>
    requires some { 1 ≤ column }
    ensures number { result ≡ number_in column row.now }
{
    match value_at(row, column - 1) {
        Some(value) => number(value),
        None => None,
    }
}

// The type of a bus in a column, from 1.
pub(crate) fn type_in(row: &[u8], column: usize) -> Option<BusType>
    requires some { 1 ≤ column }
    ensures kind { result ≡ type_in column row.now }
{
    match number_in(row, column)? {
        1 => Some(BusType::Load),
        2 | 3 => Some(BusType::Source),
        4 => Some(BusType::Isolated),
        _ => None,
    }
}

// The status in a column, from 1: whether a branch is in service.
pub(crate) fn status_in(row: &[u8], column: usize) -> Option<bool>
    requires some { 1 ≤ column }
    ensures status { result ≡ status_in column row.now }
{
    match number_in(row, column)? {
        0 => Some(false),
        1 => Some(true),
        _ => None,
    }
}
