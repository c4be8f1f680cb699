// Why reading stops.
ghost use Rattle.obs_matpower.specs.inner.Ends.{IsEndOfStop, IsEndOfTable};

use crate::fault::{MatEnd, MatFault};
use obs_case_csv::TableEnd;

/// Why reading a file stops before its end.
#[derive(Clone, Copy)]
pub(crate) enum Stop {
    Fault(MatFault),
    NoMemory,
}

impl From<Stop> for MatEnd {
    ghost from_gives = { IsEndOfStop };

    fn from(stop: Stop) -> MatEnd {
        match stop {
            Stop::Fault(fault) => MatEnd::Mat(fault),
            Stop::NoMemory => MatEnd::NoMemory,
        }
    }
}

impl From<TableEnd> for MatEnd {
    ghost from_gives = { IsEndOfTable };

    fn from(end: TableEnd) -> MatEnd {
        match end {
            TableEnd::Fault(fault) => MatEnd::Table(fault),
            TableEnd::NoMemory => MatEnd::NoMemory,
        }
    }
}
