// What is written into the caller's block.
ghost use Rattle.std.specs.Prelude.{◌≡◌, ◌<◌, ◌≤◌, drop, length, take};
ghost use Rattle.obs_files.specs.Codes.{code_of};

use obs_engine::Status;

/// Copies bytes into a block, as many as there is room for, says how many, and answers the number of their status, or 5
/// where the block is too short.
pub(crate) fn deliver(bytes: &[u8], status: Status, text: &mut [u8], written: &mut usize) -> u8
    ensures whole { length bytes.now ≤ length text.old
        → (result ≡ code_of status) × (take written.new text.new ≡ bytes.now) }
    ensures part { length text.old < length bytes.now
        → (result ≡ code_of Status.WriteFault) × (take written.new text.new ≡ take (length text.old) bytes.now) }
    ensures within { written.new ≤ length text.old }
    ensures rest { drop written.new text.new ≡ drop written.new text.old }
{
    let count = bytes.len().min(text.len());
    text[..count].copy_from_slice(&bytes[..count]);
    *written = count;
    if count < bytes.len() {
        return Status::WriteFault.code();
    }
    status.code()
}
