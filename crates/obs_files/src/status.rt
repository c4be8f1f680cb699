// How a run ends.
ghost use Rattle.std.specs.Prelude.{◌≡◌};

/// How a run ends. The numbers 0 to 7, in this order, are the program's exit statuses.
#[derive(Clone, Copy, Debug, PartialEq, Eq)]
pub enum Status {
    /// All was answered, and the answer is the good one.
    Done,
    /// All was answered, and something falls short.
    Short,
    /// The words have none of the program's forms.
    Usage,
    /// A file is too long or has a fault, which is printed.
    InputFault,
    /// A read failed.
    ReadFault,
    /// A write failed.
    WriteFault,
    /// There was no memory. Nothing was written.
    NoMemory,
    /// The input is too long.
    SessionTooLong,
}

impl Status {
    ghost use Rattle.obs_files.specs.Codes.{code_of};

    /// The program's exit status.
    pub fn code(self) -> u8
        ensures code { result ≡ code_of self }
    {
        self as u8
    }
}
