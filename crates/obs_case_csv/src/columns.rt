// The places of a table's columns in its header, and the fields there.
ghost use Rattle.std.specs.Prelude.{◌≡◌, ◌∷◌, [], Some, None, false, bytes_eq, IfOk, IfErr, IfSome, OnOk, option_map, is_none, unwrap_or};
ghost use Rattle.csv.specs.Records.{field_at, fields_of};
ghost use Rattle.obs_case.specs.Tables.{has_name, place_of, position_of};
ghost use Rattle.obs_case_csv.specs.inner.Columns.{ArePlaces, lacks_field};
ghost use Rattle.obs_case_csv.specs.Fields.{columns_fault, comes_twice, field_or_0, header_fault};

use crate::faults::{RowFault, Table};
use csv::ByteRecord;

/// Where the needed columns stand, in their order, and where the column that a table may have, if
/// the header has it. A table with two needed ones has its second in all the later places.
#[derive(Clone, Copy)]
pub(crate) struct Places {
    pub own: usize,
    pub second: usize,
    pub third: usize,
    pub fourth: usize,
    pub further: Option<usize>,
}

/// A record's fields at these places; `0` at no place.
#[derive(Clone, Copy)]
pub(crate) struct Fields<'a> {
    pub own: &'a [u8],
    pub second: &'a [u8],
    pub third: &'a [u8],
    pub fourth: &'a [u8],
    pub further: &'a [u8],
}

// A column in a header: whether it is there, whether it is there twice, and where it is first.
#[derive(Clone, Copy)]
struct Column {
    found: bool,
    twice: bool,
    place: usize,
}

fn field_is(row: &ByteRecord, i: usize, bytes: &[u8]) -> bool
    ensures same { result ≡ (unwrap_or (option_map (bytes_eq bytes.now) (field_at (fields_of row.now) i)) false) }
{
    match row.get(i) {
        Some(field) => bytes == field,
        None => false,
    }
}

fn seek(header: &ByteRecord, column: &[u8]) -> Column
    ensures found { result.found ≡ has_name (fields_of header.now) column.now }
    ensures twice { result.twice ≡ comes_twice (fields_of header.now) column.now }
    ensures place { result.place ≡ place_of (fields_of header.now) column.now }
{
    let mut found = false;
    let mut twice = false;
    let mut place = header.len();
    for i in (0..header.len()).rev() {
        if field_is(header, i, column) {
            twice = found;
            found = true;
            place = i;
        }
    }
    Column {
        found,
        twice,
        place,
    }
}

// Two columns are needed, and a further one may be there.
fn places_of_two(
    header: &ByteRecord,
    own: &[u8],
    second: &[u8],
    further: &[u8],
) -> Result<Places, RowFault>
    ensures accepted { OnOk result (columns_fault (own.now ∷ second.now ∷ [])
        (own.now ∷ second.now ∷ further.now ∷ []) (fields_of header.now) ≡ None) }
    ensures refused { IfErr result (λ fault. columns_fault (own.now ∷ second.now ∷ [])
        (own.now ∷ second.now ∷ further.now ∷ []) (fields_of header.now) ≡ Some fault) }
    ensures own { IfOk result (λ p. p.own ≡ place_of (fields_of header.now) own.now) }
    ensures second { IfOk result (λ p. p.second ≡ place_of (fields_of header.now) second.now) }
    ensures third { IfOk result (λ p. p.third ≡ p.second) }
    ensures fourth { IfOk result (λ p. p.fourth ≡ p.second) }
    ensures further { IfOk result (λ p. p.further ≡ position_of (fields_of header.now) further.now) }
{
    let own = seek(header, own);
    let second = seek(header, second);
    let further = seek(header, further);
    if !own.found || !second.found {
        Err(RowFault::ColumnMissing)
    } else if own.twice || second.twice || further.twice {
        Err(RowFault::ColumnTwice)
    } else {
        Ok(Places {
            own: own.place,
            second: second.place,
            third: second.place,
            fourth: second.place,
            further: further.found.then_some(further.place),
        })
    }
}

fn places_of_four(
    header: &ByteRecord,
    own: &[u8],
    second: &[u8],
    third: &[u8],
    fourth: &[u8],
) -> Result<Places, RowFault>
    ensures accepted { let columns = own.now ∷ second.now ∷ third.now ∷ fourth.now ∷ [] in
        OnOk result (columns_fault columns columns (fields_of header.now) ≡ None) }
    ensures refused { let columns = own.now ∷ second.now ∷ third.now ∷ fourth.now ∷ [] in
        IfErr result (λ fault. columns_fault columns columns (fields_of header.now) ≡ Some fault) }
    ensures own { IfOk result (λ p. p.own ≡ place_of (fields_of header.now) own.now) }
    ensures second { IfOk result (λ p. p.second ≡ place_of (fields_of header.now) second.now) }
    ensures third { IfOk result (λ p. p.third ≡ place_of (fields_of header.now) third.now) }
    ensures fourth { IfOk result (λ p. p.fourth ≡ place_of (fields_of header.now) fourth.now) }
    ensures further { IfOk result (λ p. p.further ≡ None) }
{
    let own = seek(header, own);
    let second = seek(header, second);
    let third = seek(header, third);
    let fourth = seek(header, fourth);
    if !own.found || !second.found || !third.found || !fourth.found {
        Err(RowFault::ColumnMissing)
    } else if own.twice || second.twice || third.twice || fourth.twice {
        Err(RowFault::ColumnTwice)
    } else {
        Ok(Places {
            own: own.place,
            second: second.place,
            third: third.place,
            fourth: fourth.place,
            further: None,
        })
    }
}

// The places of a table's columns in its header.
pub(crate) fn places_in(table: Table, header: &ByteRecord) -> Result<Places, RowFault>
    ensures accepted { OnOk result (header_fault table (fields_of header.now) ≡ None) }
    ensures refused { IfErr result (λ fault. header_fault table (fields_of header.now) ≡ Some fault) }
    ensures places { IfOk result (ArePlaces table (fields_of header.now)) }
{
    match table {
        Table::Nodes => places_of_two(header, b"node", b"source", b"absolute"),
        Table::Switches => places_of_four(header, b"switch", b"from", b"to", b"closed"),
        Table::Branches => places_of_four(header, b"branch", b"from", b"to", b"inservice"),
        Table::Meters => places_of_four(header, b"meter", b"kind", b"at", b"inservice"),
        Table::Candidates => places_of_four(header, b"candidate", b"kind", b"at", b"price"),
    }
}

// The field at the place of the column that a table may have; `0` at no place.
fn further_at<'a>(row: &'a ByteRecord, place: Option<usize>) -> Option<&'a [u8]>
    ensures field { option_map (λ f. f.now) result ≡ field_or_0 (fields_of row.now) place }
{
    match place {
        Some(place) => row.get(place),
        None => Some(b"0".as_slice()),
    }
}

// The fields of a record at these places; None where one is missing.
pub(crate) fn fields_at<'a>(row: &'a ByteRecord, places: &Places) -> Option<Fields<'a>>
    ensures short { is_none result ≡ lacks_field (fields_of row.now) places.now }
    ensures own { IfSome result (λ f. field_at (fields_of row.now) places.now.own ≡ Some f.own.now) }
    ensures second { IfSome result (λ f. field_at (fields_of row.now) places.now.second ≡ Some f.second.now) }
    ensures third { IfSome result (λ f. field_at (fields_of row.now) places.now.third ≡ Some f.third.now) }
    ensures fourth { IfSome result (λ f. field_at (fields_of row.now) places.now.fourth ≡ Some f.fourth.now) }
    ensures further { IfSome result (λ f. field_or_0 (fields_of row.now) places.now.further ≡ Some f.further.now) }
{
    let Some(own) = row.get(places.own) else {
        return None;
    };
    let Some(second) = row.get(places.second) else {
        return None;
    };
    let Some(third) = row.get(places.third) else {
        return None;
    };
    let Some(fourth) = row.get(places.fourth) else {
        return None;
    };
    let Some(further) = further_at(row, places.further) else {
        return None;
    };
    Some(Fields {
        own,
        second,
        third,
        fourth,
        further,
    })
}
