// Whether the claims of a certificate hold of a case.
ghost use Rattle.std.specs.Prelude.{◌≡◌, ◌≤◌, length, List, Result};
ghost use Rattle.obs_case.specs.Tables.{Tables};
ghost use Rattle.obs_cert.specs.Claims.{Claim};
ghost use Rattle.obs_cert.specs.Flaws.{first_flaw};
ghost use Rattle.obs_cert.specs.inner.Read.{EndsCert};
ghost use Rattle.obs_cert.specs.declared.fault.CertFault.{CertFault};
ghost use Rattle.obs_network.specs.Network.{network_of};
ghost use Rattle.obs_text.specs.Limits.{most_file_bytes};
ghost use Rattle.obs_engine.specs.inner.Replies.{IsReplied};
ghost use Rattle.obs_engine.specs.Verify.{checked_reply, claims_reply, flaw_reply, valid_reply, verify_reply};

use crate::judged::printed_status;
use crate::refused::refuse;
use obs_case::Case;
use obs_cert::{Cert, CertEnd, Checker, Flaw, read_cert};
use obs_files::Status;
use obs_io::Sink;
use obs_report::{print_flaw, print_valid};
use std::alloc::Global;

// Answers bytes that are no certificate, or for which there is no memory.
fn refuse_certificate<W: Sink>(output: &mut W, end: CertEnd) -> Status
    ensures replied { (t : Tables) (stated : Result (List Claim) CertFault) → EndsCert stated end
        → IsReplied W.written W.faults W.has_room output.old output.new result (claims_reply t stated) }
{
    match end.fault() {
        Some(fault) => refuse(output, fault),
        None => Status::NoMemory,
    }
}

// Answers claims that all hold.
fn accept_claims<W: Sink>(output: &mut W, claims: u32) -> Status
    ensures replied { IsReplied W.written W.faults W.has_room output.old output.new result (valid_reply claims) }
{
    printed_status(print_valid(output, u64::from(claims)), Status::Done)
}

// Answers claims of which this is the first flaw.
fn refuse_claims<W: Sink>(output: &mut W, flaw: Flaw) -> Status
    ensures replied { IsReplied W.written W.faults W.has_room output.old output.new result (flaw_reply flaw) }
{
    let claim = u64::from(flaw.claim);
    let outcome = print_flaw(output, claim, u64::from(flaw.code.code()), flaw.code.name());
    printed_status(outcome, Status::Short)
}

// Answers the claims of a certificate.
fn answer_claims<W: Sink>(output: &mut W, case: &Case, checker: &mut Checker, cert: &Cert) -> Status
    requires of_case { checker.old ≡ network_of case.now }
    ensures replied { IsReplied W.written W.faults W.has_room output.old output.new result
        (checked_reply (length cert.now) (first_flaw case.now 1 cert.now)) }
{
    match checker.check(case, cert) {
        Ok(()) => accept_claims(output, cert.claims()),
        Err(flaw) => refuse_claims(output, flaw),
    }
}

/// Answers the bytes of a certificate on a case. All memory is taken before anything is written.
pub(crate) fn answer_verify<W: Sink>(
    alloc: Global,
    output: &mut W,
    case: &Case,
    certificate: &[u8],
) -> Status
    requires few { length certificate.now ≤ most_file_bytes }
    ensures replied { IsReplied W.written W.faults W.has_room output.old output.new result
        (verify_reply case.now certificate.now) }
{
    let cert = match read_cert(alloc, certificate) {
        Ok(cert) => cert,
        Err(end) => return refuse_certificate(output, end),
    };
    let Ok(mut checker) = Checker::make(alloc, case) else {
        return Status::NoMemory;
    };
    answer_claims(output, case, &mut checker, &cert)
}
