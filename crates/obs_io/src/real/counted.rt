// What an answer of the outside is here.
ghost use Rattle.std.specs.Prelude.{◌≡◌, ◌+◌, ◌-◌, ◌^◌, IfOk, is_ok, min, if◌then◌else◌};
ghost use Rattle.obs_io.specs.Causes.{HasCause};

use crate::Failed;
use std::io;

// A call's number, or its failure, which is counted. No failure is answered as a number.
pub(crate) fn counted(answer: io::Result<usize>, faults: &mut u64) -> Result<usize, Failed>
    ensures well { is_ok result ≡ is_ok answer }
    ensures number { IfOk result (λ n. IfOk answer (λ m. n ≡ m)) }
    ensures cause { HasCause faults.old faults.new result }
    ensures faults { faults.new ≡ (if is_ok answer then faults.old else min (faults.old + 1) (2 ^ 64 - 1)) }
{
    if let Ok(count) = answer {
        return Ok(count);
    }
    *faults = faults.saturating_add(1);
    Err(Failed)
}
