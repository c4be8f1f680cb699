// Tables from their bytes.
ghost use Rattle.std.specs.Prelude.{◌≡◌, ◌≤◌, ◌+◌, [], None, Ok, IfErr, IfOk, OnErr, OnOk, option_map};
ghost use Rattle.csv.specs.Records.{fields_of};
ghost use Rattle.obs_case.specs.Tables.{most_rows, no_rows_within};
ghost use Rattle.obs_case_csv.specs.inner.Columns.{ArePlaces};
ghost use Rattle.obs_case_csv.specs.Fields.{Record};
ghost use Rattle.obs_case_csv.specs.Read.{fault_at, fault_in, most_records, rows_in, table_records, tables_after, tables_within};
ghost use Rattle.obs_case_csv.specs.inner.Read.{Ends, EndsAll, HoldsFirstRows, HoldsFirstRowsOfBoth, UnlessNoMemory, rows_of_both, tables_in};
ghost use Rattle.obs_case_csv.specs.inner.Records.{Gives};
ghost use Rattle.obs_case_csv.specs.Rows.{names_in, next_row, row_fault, with_record};

use crate::columns::{Places, fields_at, places_in};
use crate::faults::{RowFault, Table, TableEnd, TableFault};
use crate::records::{next_row, open};
use crate::rows::{RowEnd, add_row};
use csv::{ByteRecord, Reader};
use obs_case::{Case, USUAL_ROWS};
use std::alloc::Global;

fn fault(table: Table, row: u32, code: RowFault) -> TableEnd
    ensures fault { result ≡ TableEnd.Fault (record { table = table; row = row; code = code }) }
{
    TableEnd::Fault(TableFault { table, row, code })
}

// Adds a record as the row of that number, under any header that has the columns at these places.
fn read_row(
    case: &mut Case,
    table: Table,
    places: &Places,
    row: &ByteRecord,
    number: u32,
) -> Result<(), TableEnd>
    requires number { number ≡ next_row table case.old }
    requires few { number ≤ case.old.most + 1 }
    ensures accepted { OnOk result ((header : Record) → ArePlaces table header places.now
        → row_fault table header case.old (fields_of row.now) ≡ None) }
    ensures refused { IfErr result (λ end. (header : Record) → ArePlaces table header places.now
        → Ends (fault_at table number (row_fault table header case.old (fields_of row.now))) end) }
    ensures added { OnOk result ((header : Record) → ArePlaces table header places.now
        → case.new ≡ with_record table header case.old (fields_of row.now)) }
    ensures unchanged { OnErr result (case.new ≡ case.old) }
{
    if number > case.most() {
        return Err(fault(table, number, RowFault::TooMany));
    }
    let Some(fields) = fields_at(row, places) else {
        return Err(fault(table, number, RowFault::ShortRow));
    };
    match add_row(case, table, &fields) {
        Ok(()) => Ok(()),
        Err(RowEnd::Fault(code)) => Err(fault(table, number, code)),
        Err(RowEnd::NoMemory) => Err(TableEnd::NoMemory),
    }
}

// Reads the records of these bytes, of which the reader has given none, into a case. What is let go at
// the end is the caller's: so nothing is where this returns early.
fn read_records(
    reader: &mut Reader<&[u8]>,
    row: &mut ByteRecord,
    case: &mut Case,
    table: Table,
    bytes: &[u8],
) -> Result<(), TableEnd>
    requires gives { Gives reader.old (most_records case.old.most) (table_records case.old.most bytes.now) }
    requires empty { names_in table case.old ≡ [] }
    ensures accepted { OnOk result (fault_in table case.old bytes.now ≡ None) }
    ensures refused { IfErr result (Ends (fault_in table case.old bytes.now)) }
    ensures rows { UnlessNoMemory result (case.new ≡ rows_in table case.old bytes.now) }
    ensures first_rows { HoldsFirstRows table bytes.now case.old case.new }
{
    if !next_row(reader, row)? {
        return Err(fault(table, 0, RowFault::NoHeader));
    }
    let places = match places_in(table, row) {
        Ok(places) => places,
        Err(code) => return Err(fault(table, 0, code)),
    };
    let most = case.most();
    for number in 1..most + 2 {
        if !next_row(reader, row)? {
            return Ok(());
        }
        read_row(case, table, &places, row, number)?;
    }
    Ok(())
}

/// Reads a table into a case, over the tables that are there. After a fault the case holds the rows
/// before the faulty one, and after want of memory some of the first rows.
pub fn read_table(
    alloc: Global,
    case: &mut Case,
    table: Table,
    bytes: &[u8],
) -> Result<(), TableEnd>
    requires empty { names_in table case.old ≡ [] }
    ensures accepted { OnOk result (fault_in table case.old bytes.now ≡ None) }
    ensures refused { IfErr result (Ends (fault_in table case.old bytes.now)) }
    ensures rows { UnlessNoMemory result (case.new ≡ rows_in table case.old bytes.now) }
    ensures first_rows { HoldsFirstRows table bytes.now case.old case.new }
{
    let mut reader = open(alloc, bytes);
    let mut row = ByteRecord::new(alloc);
    read_records(&mut reader, &mut row, case, table, bytes)
}

/// Adds the rows of the tables that are given to a case that has none of them. After a fault the
/// case holds the rows before the faulty one, and after want of memory some of the first rows; no
/// other table has changed.
pub fn add_tables(
    alloc: Global,
    case: &mut Case,
    meters: &[u8],
    candidates: Option<&[u8]>,
) -> Result<(), TableEnd>
    requires meters { case.old.meters ≡ [] }
    requires candidates { case.old.candidates ≡ [] }
    ensures read { OnOk result
        (tables_after meters.now (option_map (λ bytes. bytes.now) candidates.entry) case.old ≡ Ok case.new) }
    ensures refused { IfErr result
        (EndsAll (tables_after meters.now (option_map (λ bytes. bytes.now) candidates.entry) case.old)) }
    ensures rows { UnlessNoMemory result
        (case.new ≡ rows_of_both meters.now (option_map (λ bytes. bytes.now) candidates.entry) case.old) }
    ensures first_rows { HoldsFirstRowsOfBoth meters.now
        (option_map (λ bytes. bytes.now) candidates.entry) case.old case.new }
{
    read_table(alloc, case, Table::Meters, meters)?;
    match candidates {
        Some(bytes) => read_table(alloc, case, Table::Candidates, bytes),
        None => Ok(()),
    }
}

// Reads the five tables in their order into a case without rows, under its limit, up to the first fault.
fn fill_case(
    alloc: Global,
    case: &mut Case,
    nodes: &[u8],
    switches: &[u8],
    branches: &[u8],
    meters: &[u8],
    candidates: Option<&[u8]>,
) -> Result<(), TableEnd>
    requires empty { case.old ≡ no_rows_within case.old.most }
    ensures read { OnOk result (tables_within case.old.most nodes.now switches.now branches.now meters.now
        (option_map (λ c. c.now) candidates.entry) ≡ Ok case.new) }
    ensures refused { IfErr result (EndsAll
        (tables_within case.old.most nodes.now switches.now branches.now meters.now (option_map (λ c. c.now) candidates.entry))) }
{
    read_table(alloc, case, Table::Nodes, nodes)?;
    read_table(alloc, case, Table::Switches, switches)?;
    read_table(alloc, case, Table::Branches, branches)?;
    add_tables(alloc, case, meters, candidates)
}

/// Reads the five tables in their order, and answers the first fault. A table of candidates that
/// isn't given is empty. A table may have at most 20,000 rows.
pub fn read_tables(
    alloc: Global,
    nodes: &[u8],
    switches: &[u8],
    branches: &[u8],
    meters: &[u8],
    candidates: Option<&[u8]>,
) -> Result<Case, TableEnd>
    ensures read { IfOk result (λ case. tables_in nodes.now switches.now branches.now meters.now
        (option_map (λ c. c.now) candidates.entry) ≡ Ok case) }
    ensures refused { IfErr result (EndsAll
        (tables_in nodes.now switches.now branches.now meters.now (option_map (λ c. c.now) candidates.entry))) }
{
    read_tables_within(
        alloc,
        USUAL_ROWS as u32,
        nodes,
        switches,
        branches,
        meters,
        candidates,
    )
}

/// The same, where a table may have at most so many rows.
pub fn read_tables_within(
    alloc: Global,
    most: u32,
    nodes: &[u8],
    switches: &[u8],
    branches: &[u8],
    meters: &[u8],
    candidates: Option<&[u8]>,
) -> Result<Case, TableEnd>
    requires limit { most ≤ most_rows }
    ensures read { IfOk result (λ case. tables_within most nodes.now switches.now branches.now meters.now
        (option_map (λ c. c.now) candidates.entry) ≡ Ok case) }
    ensures refused { IfErr result (EndsAll
        (tables_within most nodes.now switches.now branches.now meters.now (option_map (λ c. c.now) candidates.entry))) }
{
    let mut case = Case::within(alloc, most);
    fill_case(
        alloc, &mut case, nodes, switches, branches, meters, candidates,
    )?;
    Ok(case)
}
