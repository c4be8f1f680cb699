// Why reading stops.
ghost use Rattle.obs_ieee_cdf.specs.inner.Ends.{IsEndOfStop, IsEndOfTable};

use crate::fault::{CdfEnd, CdfFault};
use obs_case_csv::TableEnd;

/// Why reading a file stops before its end.
#[derive(Clone, Copy)]
pub(crate) enum Stop {
    Fault(CdfFault),
    NoMemory,
}

impl From<Stop> for CdfEnd {
    ghost from_gives = { IsEndOfStop };

    fn from(stop: Stop) -> CdfEnd {
        match stop {
            Stop::Fault(fault) => CdfEnd::Cdf(fault),
            Stop::NoMemory => CdfEnd::NoMemory,
        }
    }
}

impl From<TableEnd> for CdfEnd {
    ghost from_gives = { IsEndOfTable };

    fn from(end: TableEnd) -> CdfEnd {
        match end {
            TableEnd::Fault(fault) => CdfEnd::Table(fault),
            TableEnd::NoMemory => CdfEnd::NoMemory,
        }
    }
}
