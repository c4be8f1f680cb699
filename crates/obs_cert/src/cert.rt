// Certificates from bytes.
ghost use Rattle.std.specs.Prelude.{◌≡◌, ◌<◌, ◌≤◌, ◌^◌, Ok, Err, length, IfErr, IfOk};
ghost use Rattle.obs_text.specs.Limits.{most_file_bytes};
ghost use Rattle.obs_cert.specs.Read.{claims_of};
ghost use Rattle.obs_cert.specs.inner.Read.{EndsCert, HasClaims};
ghost use Rattle.obs_cert.specs.inner.Walked.{parts_in};

use crate::fault::{CertCode, CertEnd, CertFault};
use crate::place::{Place, is_over, step};
use obs_text::lines;
use std::alloc::Global;
use std::marker::Model;

/// A list of claims on a case. A contract sees the claims. The bytes are kept as they came, and a
/// claim's lines are read from them where they are wanted.
#[derive(Drop)]
pub struct Cert {
    // the bytes as they came
    bytes: Vec<u8>,
    // how many claims they are
    claims: u32,
}

impl Model for Cert {
    ghost use Rattle.std.specs.Prelude.{◌<◌, ◌^◌, List};
    ghost use Rattle.obs_cert.specs.Claims.{Claim};
    ghost use Rattle.obs_cert.specs.Read.{claims_of};
    ghost use Rattle.obs_cert.specs.inner.Read.{HasClaims, claims_or_none};

    ghost Value = { List Claim };

    ghost view = { λ c. claims_or_none (claims_of c.bytes.items) };

    ghost invariant = { λ c. record {
      claims : HasClaims c.bytes.items c.claims;
      few : c.claims < 2 ^ 32;
    } };
}

impl Cert {
    /// How many claims there are.
    pub fn claims(&self) -> u32
        ensures count { result ≡ length self.now }
    {
        self.claims
    }

    /// The bytes, whose lines are the claims one after the other.
    pub(crate) fn bytes(&self) -> &[u8]
        ensures claims { (parts_in result.now).claims ≡ self.now }
        ensures few { length self.now < 2 ^ 32 }
    {
        &self.bytes
    }
}

// How many claims the bytes are, or their first fault.
fn count_claims(bytes: &[u8]) -> Result<u32, CertFault>
    requires few { length bytes.now ≤ most_file_bytes }
    ensures count { IfOk result (HasClaims bytes.now) }
    ensures refused { IfErr result (λ fault. claims_of bytes.now ≡ Err fault) }
{
    let mut place = Place::Start;
    let mut at = 0u32;
    let mut claims = 0u32;
    for line in lines(bytes) {
        at += 1;
        match step(place, line) {
            Ok((starts, next)) => {
                claims += u32::from(starts);
                place = next;
            }
            Err(code) => return Err(CertFault { line: at, code }),
        }
    }
    if is_over(place) {
        Ok(claims)
    } else {
        Err(CertFault {
            line: 0,
            code: CertCode::NoEnd,
        })
    }
}

/// The claims that the bytes are, or the first fault: that of the first faulty line, or `NoEnd`
/// where no line is faulty.
pub fn read_cert(alloc: Global, bytes: &[u8]) -> Result<Cert, CertEnd>
    requires few { length bytes.now ≤ most_file_bytes }
    ensures read { IfOk result (λ cert. claims_of bytes.now ≡ Ok cert) }
    ensures refused { IfErr result (EndsCert (claims_of bytes.now)) }
{
    let claims = match count_claims(bytes) {
        Ok(claims) => claims,
        Err(fault) => return Err(CertEnd::Fault(fault)),
    };
    match Vec::from_slice(alloc, bytes) {
        Ok(bytes) => Ok(Cert { bytes, claims }),
        Err(_) => Err(CertEnd::NoMemory),
    }
}
