// Why bytes are no certificate.
ghost use Rattle.std.specs.Prelude.{◌≡◌, option_map};
ghost use Rattle.obs_text.specs.inner.Faults.{fault_of};
ghost use Rattle.obs_cert.specs.Faults.{cert_code, cert_name};
ghost use Rattle.obs_cert.specs.inner.Faults.{IsOfCert, cert_end_fault};

use obs_text::InputFault;

/// Why a line can't stand in a certificate, or what a certificate lacks. Where several hold of one
/// line, `AfterEnd` is answered before `BadLine`, and this before `OutOfPlace`.
#[derive(Clone, Copy)]
pub enum CertCode {
    /// The line has none of the nine forms.
    BadLine = 1,
    /// The line may not stand after the line before it.
    OutOfPlace = 2,
    /// No line is faulty, and there is no line `end`.
    NoEnd = 3,
    /// The line stands after the line `end`.
    AfterEnd = 4,
}

impl CertCode {
    /// The fault's number.
    pub fn code(self) -> u32
        ensures code { result ≡ cert_code self }
    {
        self as u32
    }

    /// The fault's name.
    pub fn name(self) -> &'static [u8]
        ensures name { result.now ≡ cert_name self }
    {
        match self {
            CertCode::BadLine => b"BadLine",
            CertCode::OutOfPlace => b"OutOfPlace",
            CertCode::NoEnd => b"NoEnd",
            CertCode::AfterEnd => b"AfterEnd",
        }
    }
}

/// The first fault of a certificate, by its line from 1; 0 where no line is faulty.
#[derive(Clone, Copy)]
pub struct CertFault {
    pub line: u32,
    pub code: CertCode,
}

impl From<CertFault> for InputFault {
    ghost from_gives = { IsOfCert };

    fn from(fault: CertFault) -> InputFault {
        InputFault {
            part: b"certificate",
            place: fault.line,
            code: fault.code.code(),
            name: fault.code.name(),
        }
    }
}

/// Why a certificate isn't read.
#[derive(Clone, Copy)]
pub enum CertEnd {
    Fault(CertFault),
    NoMemory,
}

impl CertEnd {
    /// The fault, or None where memory was wanting.
    pub fn fault(self) -> Option<InputFault>
        ensures fault { option_map fault_of result ≡ cert_end_fault self }
    {
        match self {
            CertEnd::Fault(fault) => Some(InputFault::from(fault)),
            CertEnd::NoMemory => None,
        }
    }
}
