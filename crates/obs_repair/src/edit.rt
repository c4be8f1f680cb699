//! Edits of a case, what a line means, and why it is refused.
ghost use Rattle.std.specs.Prelude.{◌≡◌};
ghost use Rattle.obs_repair.specs.Lines.{refusal_code, refusal_name, refusal_of};

use obs_script::{Ask, LineFault};

/// One flag of one row, and what it is set to. A row is said by its position in its table.
#[derive(Clone, Copy)]
pub enum Edit {
    Switch { at: u32, closed: bool },
    Branch { at: u32, inservice: bool },
    Meter { at: u32, inservice: bool },
}

/// What a line is for a session: an edit of a row, or an ask.
#[derive(Clone, Copy)]
pub enum Meant {
    Edits(Edit),
    Asks(Ask),
}

/// Why a line is refused. The first four are those of `read_line`.
#[derive(Clone, Copy, PartialEq, Eq)]
pub enum Refusal {
    /// The line is none of the eight asks, and its first word is none of the six edits.
    UnknownCommand = 1,
    /// The line has more than 256 bytes.
    LineTooLong = 2,
    /// What follows the edit's blank is no name.
    BadName = 3,
    /// No blank follows the edit.
    WordMissing = 4,
    /// The case has no switch of that name.
    UnknownSwitch = 5,
    /// The case has no branch of that name.
    UnknownBranch = 6,
    /// The case has no meter of that name.
    UnknownMeter = 7,
    /// A placement is asked for, and no candidates were given.
    NoCandidates = 8,
}

impl Refusal {
    /// The refusal's number.
    pub fn code(self) -> u32
        ensures code { result ≡ refusal_code self }
    {
        self as u32
    }

    /// The refusal's name.
    pub fn name(self) -> &'static [u8]
        ensures name { result.now ≡ refusal_name self }
    {
        match self {
            Refusal::UnknownCommand => b"UnknownCommand",
            Refusal::LineTooLong => b"LineTooLong",
            Refusal::BadName => b"BadName",
            Refusal::WordMissing => b"WordMissing",
            Refusal::UnknownSwitch => b"UnknownSwitch",
            Refusal::UnknownBranch => b"UnknownBranch",
            Refusal::UnknownMeter => b"UnknownMeter",
            Refusal::NoCandidates => b"NoCandidates",
        }
    }
}

impl From<LineFault> for Refusal {
    ghost from_gives = { λ fault refusal. refusal ≡ refusal_of fault };

    fn from(fault: LineFault) -> Self {
        match fault {
            LineFault::UnknownCommand => Refusal::UnknownCommand,
            LineFault::LineTooLong => Refusal::LineTooLong,
            LineFault::BadName => Refusal::BadName,
            LineFault::WordMissing => Refusal::WordMissing,
        }
    }
}
