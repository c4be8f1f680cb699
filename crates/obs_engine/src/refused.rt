// The lines on words and files that are refused.
ghost use Rattle.std.specs.Prelude.{◌≡◌, ◌≢◌, ◌+◌, ◌⊎◌, ℕ, length, Result};
ghost use Rattle.obs_case.specs.Tables.{Tables};
ghost use Rattle.obs_io.specs.Causes.{Rose};
ghost use Rattle.obs_text.specs.Faults.{Fault};
ghost use Rattle.obs_text.specs.inner.Faults.{fault_of};
ghost use Rattle.obs_engine.specs.Replies.{Reply, fault_reply, usage_reply};
ghost use Rattle.obs_engine.specs.inner.Replies.{EndsWith, IsRefused, IsReplied};
ghost use Rattle.obs_files.specs.inner.Taken.{IsCaseError};

use crate::judged::printed_status;
use obs_files::{CaseError, Status};
use obs_io::{Sink, write_all};
use obs_report::print_fault;
use obs_text::InputFault;

/// The line on words that have no form.
const USAGE: &[u8] =
    b"usage: obs topology N S | report FORM | place FORM CAND | session FORM | verify FORM CERT | trial N SEED \
| outages FORM | pairs FORM | stations FORM\n";

/// Answers words that have no form.
pub(crate) fn refuse_words<W: Sink>(output: &mut W) -> Status
    ensures replied { IsReplied W.written W.faults W.has_room output.old output.new result usage_reply }
    ensures statuses { (result ≡ Status.Usage) ⊎ (result ≡ Status.WriteFault) }
{
    printed_status(write_all(output, USAGE), Status::Usage)
}

/// Answers files that have this fault, which is the first one.
pub(crate) fn refuse<W: Sink>(output: &mut W, fault: InputFault) -> Status
    ensures replied { IsReplied W.written W.faults W.has_room output.old output.new result
        (fault_reply (fault_of fault)) }
{
    let place = u64::from(fault.place);
    let outcome = print_fault(output, fault.part, place, u64::from(fault.code), fault.name);
    printed_status(outcome, Status::InputFault)
}

/// Answers files from which nothing was taken. After a failed read, and for want of memory, nothing is written.
pub(crate) fn refuse_files<W: Sink>(output: &mut W, why: CaseError) -> Status
    ensures ends { (stated : Result Tables Fault) (reply : Reply) → IsCaseError stated why → IsRefused stated reply
        → EndsWith reply result (W.written output.old) (W.written output.new) }
    ensures statuses { (result ≡ Status.InputFault) ⊎ (result ≡ Status.ReadFault)
        ⊎ (result ≡ Status.WriteFault) ⊎ (result ≡ Status.NoMemory) }
    ensures read { result ≡ Status.ReadFault → why ≡ CaseError.Read }
    ensures unanswered { why ≡ CaseError.Read → result ≡ Status.ReadFault }
    ensures starved { why ≡ CaseError.NoMemory → result ≡ Status.NoMemory }
    ensures write { result ≡ Status.WriteFault → Rose (W.faults output.old) (W.faults output.new) }
    ensures quiet { result ≢ Status.WriteFault → W.faults output.new ≡ W.faults output.old }
    ensures memory { result ≡ Status.NoMemory → W.written output.new ≡ W.written output.old }
    ensures unread { result ≡ Status.ReadFault → W.written output.new ≡ W.written output.old }
    ensures room { (stated : Result Tables Fault) (reply : Reply) (rest : ℕ)
        → IsCaseError stated why → IsRefused stated reply
        → W.has_room output.old (length reply.text + rest) → result ≢ Status.WriteFault }
{
    match why {
        CaseError::Refused(fault) => refuse(output, fault),
        CaseError::Read => Status::ReadFault,
        CaseError::NoMemory => Status::NoMemory,
    }
}
