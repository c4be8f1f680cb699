//! The one form in which the fault of any reader is told.
ghost use Rattle.std.specs.Prelude.{◌≡◌};
ghost use Rattle.obs_text.specs.Faults.{too_long};
ghost use Rattle.obs_text.specs.inner.Faults.{fault_of};

/// The number of a file that is too long.
const TOO_LONG: u32 = 14;

/// The first fault of some input. Each reader's fault becomes one by `From`.
#[derive(Clone, Copy, Debug, PartialEq, Eq)]
pub struct InputFault {
    /// The part of the input that has the fault.
    pub part: &'static [u8],
    /// The row or line, from 1; 0 for a header, and where it is no one line's.
    pub place: u32,
    /// The fault's number.
    pub code: u32,
    /// The fault's name.
    pub name: &'static [u8],
}

impl InputFault {
    /// The fault of a part whose file has more bytes than the limit.
    pub fn too_long(part: &'static [u8]) -> InputFault
        ensures fault { fault_of result ≡ too_long part.now }
    {
        InputFault {
            part,
            place: 0,
            code: TOO_LONG,
            name: b"TooLong",
        }
    }
}
