// The records of a table's bytes.
ghost use Rattle.std.specs.Prelude.{◌≡◌, ℕ, suc, List, IfErr, IfOk};
ghost use Rattle.csv.specs.Reading.{error_kind};
ghost use Rattle.csv.specs.Records.{fields_of};
ghost use Rattle.obs_case_csv.specs.Fields.{Record};
ghost use Rattle.obs_case_csv.specs.Read.{most_records, table_records};
ghost use Rattle.obs_case_csv.specs.inner.Records.{Gives, IsFromOutside, ReadsFirst};

use crate::faults::TableEnd;
use csv::{ByteRecord, Reader, ReaderBuilder};
use std::alloc::Global;

// A reader with its default settings, save that the header is a record as the others and that
// records may differ in length.
pub(crate) fn open(alloc: Global, bytes: &[u8]) -> Reader<&[u8]>
    ensures gives { (most : ℕ) → Gives result (most_records most) (table_records most bytes.now) }
{
    ReaderBuilder::new()
        .has_headers(false)
        .flexible(true)
        .from_reader(alloc, bytes)
}

// Reads the next record, if there is one. No record is refused for its length or its bytes.
fn read_record(reader: &mut Reader<&[u8]>, row: &mut ByteRecord) -> Result<bool, csv::Error>
    ensures refused { IfErr result
        (λ e. (most : ℕ) (rows : List Record) → Gives reader.old most rows → IsFromOutside (error_kind e)) }
    ensures row { IfOk result (λ found. (most : ℕ) (rows : List Record)
        → Gives reader.old (suc most) rows → ReadsFirst found reader.new most (fields_of row.new) rows) }
{
    reader.read_byte_record(row)
}

// Reads the next record, if there is one. Bytes in memory don't fail, so a refusal is want of memory.
pub(crate) fn next_row(reader: &mut Reader<&[u8]>, row: &mut ByteRecord) -> Result<bool, TableEnd>
    ensures end { IfErr result (λ end. end ≡ TableEnd.NoMemory) }
    ensures row { IfOk result (λ found. (most : ℕ) (rows : List Record)
        → Gives reader.old (suc most) rows → ReadsFirst found reader.new most (fields_of row.new) rows) }
{
    let Ok(found) = read_record(reader, row) else {
        return Err(TableEnd::NoMemory);
    };
    Ok(found)
}
