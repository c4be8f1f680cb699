// What is wrong with a table, and where.
ghost use Rattle.std.specs.Prelude.{◌≡◌, option_map};
ghost use Rattle.obs_text.specs.inner.Faults.{fault_of};
ghost use Rattle.obs_case_csv.specs.Faults.{fault_code, fault_name, table_name};
ghost use Rattle.obs_case_csv.specs.inner.Faults.{IsOfTable, table_end_fault};

use obs_text::InputFault;

/// The five tables, in the order in which they are read.
#[derive(Clone, Copy, Debug, PartialEq, Eq)]
pub enum Table {
    Nodes,
    Switches,
    Branches,
    Meters,
    Candidates,
}

impl Table {
    /// The table's name.
    pub fn name(self) -> &'static [u8]
        ensures name { result.now ≡ table_name self }
    {
        match self {
            Table::Nodes => b"nodes",
            Table::Switches => b"switches",
            Table::Branches => b"branches",
            Table::Meters => b"meters",
            Table::Candidates => b"candidates",
        }
    }
}

/// What is wrong with a row, or with the header. Of one row the lowest is answered.
#[derive(Clone, Copy, Debug, PartialEq, Eq)]
pub enum RowFault {
    /// There is no record.
    NoHeader = 1,
    /// A needed column isn't in the header.
    ColumnMissing = 2,
    /// A needed column, or `absolute`, is in the header twice.
    ColumnTwice = 3,
    /// The row has no field at the place of a needed column, or of `absolute` where the header has it.
    ShortRow = 4,
    /// The row's own name is no name.
    BadName = 5,
    /// A flag is neither `0` nor `1`.
    BadFlag = 6,
    /// The kind is none of `flow`, `injection`, `zero` and `angle`.
    BadKind = 7,
    /// The price is no whole number, or above 1,000,000,000.
    BadPrice = 8,
    /// An earlier row of the table has the name.
    NameTwice = 9,
    /// An end names no node.
    UnknownNode = 10,
    /// The place names no branch for a flow, or no node for another kind.
    UnknownPlace = 11,
    /// The row is one more than the limit: row 20,001, where no other limit is given.
    TooMany = 12,
}

impl RowFault {
    /// The fault's number.
    pub fn code(self) -> u32
        ensures code { result ≡ fault_code self }
    {
        self as u32
    }

    /// The fault's name.
    pub fn name(self) -> &'static [u8]
        ensures name { result.now ≡ fault_name self }
    {
        match self {
            RowFault::NoHeader => b"NoHeader",
            RowFault::ColumnMissing => b"ColumnMissing",
            RowFault::ColumnTwice => b"ColumnTwice",
            RowFault::ShortRow => b"ShortRow",
            RowFault::BadName => b"BadName",
            RowFault::BadFlag => b"BadFlag",
            RowFault::BadKind => b"BadKind",
            RowFault::BadPrice => b"BadPrice",
            RowFault::NameTwice => b"NameTwice",
            RowFault::UnknownNode => b"UnknownNode",
            RowFault::UnknownPlace => b"UnknownPlace",
            RowFault::TooMany => b"TooMany",
        }
    }
}

/// The first fault of a table: the row's number, which is 0 for the header, and what is wrong.
#[derive(Clone, Copy, Debug, PartialEq, Eq)]
pub struct TableFault {
    pub table: Table,
    pub row: u32,
    pub code: RowFault,
}

impl From<TableFault> for InputFault {
    ghost from_gives = { IsOfTable };

    fn from(fault: TableFault) -> InputFault {
        InputFault {
            part: fault.table.name(),
            place: fault.row,
            code: fault.code.code(),
            name: fault.code.name(),
        }
    }
}

/// Why a table isn't read to its end.
#[derive(Clone, Copy, Debug, PartialEq, Eq)]
pub enum TableEnd {
    Fault(TableFault),
    NoMemory,
}

impl TableEnd {
    /// The fault, or None where memory was wanting.
    pub fn fault(self) -> Option<InputFault>
        ensures fault { option_map fault_of result ≡ table_end_fault self }
    {
        match self {
            TableEnd::Fault(fault) => Some(InputFault::from(fault)),
            TableEnd::NoMemory => None,
        }
    }
}
