// Why bytes are no case.
ghost use Rattle.std.specs.Prelude.{◌≡◌, option_map};
ghost use Rattle.obs_text.specs.inner.Faults.{fault_of};
ghost use Rattle.obs_ieee_cdf.specs.Faults.{cdf_code, cdf_line, cdf_name};
ghost use Rattle.obs_ieee_cdf.specs.inner.Faults.{IsOfFile, cdf_end_fault};

use obs_case_csv::TableFault;
use obs_text::InputFault;

/// The first fault of a file in the IEEE Common Data Format. The number is the line, from 1.
#[derive(Clone, Copy, PartialEq, Eq)]
pub enum CdfFault {
    /// No line begins with `BUS DATA`.
    NoBusSection,
    /// No line after that one begins with `-999`.
    BusSectionOpen,
    /// No line after that one begins with `BRANCH DATA`.
    NoBranchSection,
    /// No line after that one begins with `-999`.
    BranchSectionOpen,
    /// A bus number isn't 1 to 4 digits.
    BadBusNumber(u32),
    /// The type of a bus is none of `0`, `1`, `2` and `3`.
    BadType(u32),
    /// An earlier bus has the number.
    BusTwice(u32),
    /// An end of a branch is no bus.
    UnknownBus(u32),
    /// This is one bus or one branch more than the limit: the 20,001st, where no other is given.
    TooMany(u32),
}

impl CdfFault {
    /// The fault's number.
    pub fn code(self) -> u32
        ensures code { result ≡ cdf_code self }
    {
        match self {
            CdfFault::NoBusSection => 1,
            CdfFault::BusSectionOpen => 2,
            CdfFault::NoBranchSection => 3,
            CdfFault::BranchSectionOpen => 4,
            CdfFault::BadBusNumber(_) => 5,
            CdfFault::BadType(_) => 6,
            CdfFault::BusTwice(_) => 7,
            CdfFault::UnknownBus(_) => 8,
            CdfFault::TooMany(_) => 9,
        }
    }

    /// The fault's name.
    pub fn name(self) -> &'static [u8]
        ensures name { result.now ≡ cdf_name self }
    {
        match self {
            CdfFault::NoBusSection => b"NoBusSection",
            CdfFault::BusSectionOpen => b"BusSectionOpen",
            CdfFault::NoBranchSection => b"NoBranchSection",
            CdfFault::BranchSectionOpen => b"BranchSectionOpen",
            CdfFault::BadBusNumber(_) => b"BadBusNumber",
            CdfFault::BadType(_) => b"BadType",
            CdfFault::BusTwice(_) => b"BusTwice",
            CdfFault::UnknownBus(_) => b"UnknownBus",
            CdfFault::TooMany(_) => b"TooMany",
        }
    }

    /// The line, from 1; 0 for a section that isn't there or isn't ended.
    pub fn line(self) -> u32
        ensures line { result ≡ cdf_line self }
    {
        match self {
            CdfFault::BadBusNumber(line)
            | CdfFault::BadType(line)
            | CdfFault::BusTwice(line)
            | CdfFault::UnknownBus(line)
            | CdfFault::TooMany(line) => line,
            _ => 0,
        }
    }
}

impl From<CdfFault> for InputFault {
    ghost from_gives = { IsOfFile };

    fn from(fault: CdfFault) -> InputFault {
        InputFault {
            part: b"cdf",
            place: fault.line(),
            code: fault.code(),
            name: fault.name(),
        }
    }
}

/// Why a file with its tables is no case.
#[derive(Clone, Copy, PartialEq, Eq)]
pub enum CdfEnd {
    Cdf(CdfFault),
    Table(TableFault),
    NoMemory,
}

impl CdfEnd {
    /// The fault, or None where memory was wanting.
    pub fn fault(self) -> Option<InputFault>
        ensures fault { option_map fault_of result ≡ cdf_end_fault self }
    {
        match self {
            CdfEnd::Cdf(fault) => Some(InputFault::from(fault)),
            CdfEnd::Table(fault) => Some(InputFault::from(fault)),
            CdfEnd::NoMemory => None,
        }
    }
}
