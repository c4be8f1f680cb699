//! What the definitions of this crate imply.
ghost use Rattle.std.specs.Prelude.{ℕ, ◌≤◌};
ghost use Rattle.obs_case.specs.Tables.{most_rows};
ghost use Rattle.obs_case_csv.specs.IsCase.{ReadExactly, ReadExactlyWithin};
ghost use Rattle.obs_case_csv.specs.inner.Laws.{FirstFault, FirstFaultBehindFile, FirstFaultOfCase, FirstFaultOfCaseWithin, FirstFaultOfSwitching, FirstFaultOfSwitchingWithin, KeepsValid, OtherTablesStay, RowsBeforeFault, RowsBeforeSome, SwitchingIsRead, SwitchingIsReadWithin, TableIsRead};

/// The case that is read is the only one that the bytes are, and a fault is given exactly where the
/// bytes are no case; so it is under every limit that a case may have.
pub fn read_exactly()
    ensures exactly { ReadExactly }
    ensures within { (most : ℕ) → most ≤ most_rows → ReadExactlyWithin most }
{}

/// Valid tables stay valid as the rows of a table before its first fault are added.
pub fn reading_keeps_valid()
    ensures valid { KeepsValid }
{}

/// Of a table that valid tables have no rows of, no fault is met exactly where the bytes are that
/// table, and then these are the rows that are read.
pub fn table_is_read()
    ensures table { TableIsRead }
{}

/// As a table is read, all others stay. After the first fault of a table that was empty it has one
/// row for each record between the header and the faulty row; wherever else the reading ends, one for
/// each of some first records.
pub fn rows_before_the_fault()
    ensures others { OtherTablesStay }
    ensures before { RowsBeforeFault }
    ensures first_rows { RowsBeforeSome }
{}

/// The case of nodes and switches alone that is read is the only one that the bytes are, and a fault
/// is given exactly where they are none; so it is under every limit.
pub fn switching_is_read()
    ensures exactly { SwitchingIsRead }
    ensures within { (most : ℕ) → most ≤ most_rows → SwitchingIsReadWithin most }
{}

/// The fault that is met in a table is one, and no fault of the table comes before it; none is met
/// exactly where the table has none.
pub fn first_fault()
    ensures first { FirstFault }
{}

/// The fault that is met in the tables of a case is one, and no fault of them comes before it, by
/// table, then row, then code; none is met exactly where they have none. So it is of nodes and
/// switches alone, of both under every limit, and of meters and candidates behind a file of another format.
pub fn first_fault_of_case()
    ensures first { FirstFaultOfCase }
    ensures switching { FirstFaultOfSwitching }
    ensures within { (most : ℕ) → most ≤ most_rows → FirstFaultOfCaseWithin most }
    ensures switching_within { (most : ℕ) → most ≤ most_rows → FirstFaultOfSwitchingWithin most }
    ensures behind { FirstFaultBehindFile }
{}
