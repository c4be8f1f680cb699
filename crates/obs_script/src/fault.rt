// Why a line is no command.
ghost use Rattle.std.specs.Prelude.{◌≡◌};
ghost use Rattle.obs_script.specs.inner.Faults.{line_fault_code, line_fault_name};

/// Why a line is no command, whatever the tables hold. Where several hold, `LineTooLong` is
/// answered before `UnknownCommand`, this before `WordMissing`, and this before `BadName`.
#[derive(Clone, Copy, PartialEq, Eq)]
pub enum LineFault {
    /// The line is none of the eight asks, and its first word is none of the six edits.
    UnknownCommand = 1,
    /// The line has more than 256 bytes.
    LineTooLong = 2,
    /// What follows the edit's blank is no name.
    BadName = 3,
    /// No blank follows the edit.
    WordMissing = 4,
}

impl LineFault {
    /// The fault's number.
    pub fn code(self) -> u32
        ensures code { result ≡ line_fault_code self }
    {
        self as u32
    }

    /// The fault's name.
    pub fn name(self) -> &'static [u8]
        ensures name { result.now ≡ line_fault_name self }
    {
        match self {
            LineFault::UnknownCommand => b"UnknownCommand",
            LineFault::LineTooLong => b"LineTooLong",
            LineFault::BadName => b"BadName",
            LineFault::WordMissing => b"WordMissing",
        }
    }
}
