// What was taken from files, or why nothing was.
use obs_case::Case;
use obs_text::InputFault;

/// What was taken from the files of a form.
#[derive(Drop)]
pub struct Taken {
    /// The case that they are.
    pub case: Case,
    /// The bytes of the certificate, where the form takes one.
    pub certificate: Vec<u8>,
}

/// Why nothing was taken from files.
#[derive(Clone, Copy)]
pub enum CaseError {
    /// They have this fault, which is the first one.
    Refused(InputFault),
    /// A read failed.
    Read,
    /// There is no memory.
    NoMemory,
}
