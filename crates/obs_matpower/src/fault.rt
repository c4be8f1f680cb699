// Why bytes are no case.
ghost use Rattle.std.specs.Prelude.{◌≡◌, option_map};
ghost use Rattle.obs_text.specs.inner.Faults.{fault_of};
ghost use Rattle.obs_matpower.specs.Faults.{mat_code, mat_line, mat_name};
ghost use Rattle.obs_matpower.specs.inner.Faults.{IsOfFile, mat_end_fault};

use obs_case_csv::TableFault;
use obs_text::InputFault;

/// The first fault of a MATPOWER file. The number is the line, from 1.
#[derive(Clone, Copy, PartialEq, Eq)]
pub enum MatFault {
    /// No line starts the bus table.
    NoBusTable,
    /// No `]` follows the start of the bus table.
    BusTableOpen,
    /// No line starts the branch table.
    NoBranchTable,
    /// No `]` follows the start of the branch table.
    BranchTableOpen,
    /// A bus number is no whole value.
    BadBusNumber(u32),
    /// The type of a bus is no whole value from 1 to 4.
    BadType(u32),
    /// An earlier bus has the number.
    BusTwice(u32),
    /// An end of a branch is no bus.
    UnknownBus(u32),
    /// This is one row of its table more than the limit: the 20,001st, where no other is given.
    TooMany(u32),
    /// The row has too few values.
    ShortRow(u32),
    /// The status of a branch is no whole value 0 or 1.
    BadStatus(u32),
}

impl MatFault {
    /// The fault's number.
    pub fn code(self) -> u32
        ensures code { result ≡ mat_code self }
    {
        match self {
            MatFault::NoBusTable => 1,
            MatFault::BusTableOpen => 2,
            MatFault::NoBranchTable => 3,
            MatFault::BranchTableOpen => 4,
            MatFault::BadBusNumber(_) => 5,
            MatFault::BadType(_) => 6,
            MatFault::BusTwice(_) => 7,
            MatFault::UnknownBus(_) => 8,
            MatFault::TooMany(_) => 9,
            MatFault::ShortRow(_) => 10,
            MatFault::BadStatus(_) => 11,
        }
    }

    /// The fault's name.
    pub fn name(self) -> &'static [u8]
        ensures name { result.now ≡ mat_name self }
    {
        match self {
            MatFault::NoBusTable => b"NoBusTable",
            MatFault::BusTableOpen => b"BusTableOpen",
            MatFault::NoBranchTable => b"NoBranchTable",
            MatFault::BranchTableOpen => b"BranchTableOpen",
            MatFault::BadBusNumber(_) => b"BadBusNumber",
            MatFault::BadType(_) => b"BadType",
            MatFault::BusTwice(_) => b"BusTwice",
            MatFault::UnknownBus(_) => b"UnknownBus",
            MatFault::TooMany(_) => b"TooMany",
            MatFault::ShortRow(_) => b"ShortRow",
            MatFault::BadStatus(_) => b"BadStatus",
        }
    }

    /// The line, from 1; 0 for a table that isn't there or isn't ended.
    pub fn line(self) -> u32
        ensures line { result ≡ mat_line self }
    {
        match self {
            MatFault::BadBusNumber(line)
            | MatFault::BadType(line)
            | MatFault::BusTwice(line)
            | MatFault::UnknownBus(line)
            | MatFault::TooMany(line)
            | MatFault::ShortRow(line)
            | MatFault::BadStatus(line) => line,
            _ => 0,
        }
    }
}

impl From<MatFault> for InputFault {
    ghost from_gives = { IsOfFile };

    fn from(fault: MatFault) -> InputFault {
        InputFault {
            part: b"matpower",
            place: fault.line(),
            code: fault.code(),
            name: fault.name(),
        }
    }
}

/// Why a file with its tables is no case.
#[derive(Clone, Copy, PartialEq, Eq)]
pub enum MatEnd {
    Mat(MatFault),
    Table(TableFault),
    NoMemory,
}

impl MatEnd {
    /// The fault, or None where memory was wanting.
    pub fn fault(self) -> Option<InputFault>
        ensures fault { option_map fault_of result ≡ mat_end_fault self }
    {
        match self {
            MatEnd::Mat(fault) => Some(InputFault::from(fault)),
            MatEnd::Table(fault) => Some(InputFault::from(fault)),
            MatEnd::NoMemory => None,
        }
    }
}
