// Files read whole, and bytes written whole.
ghost use Rattle.std.specs.Prelude.{◌≡◌, ◌≢◌, ◌<◌, ◌≤◌, ◌+◌, ℕ, length, IfOk, IsErrOf, IsOk, vec_len};
ghost use Rattle.obs_io.specs.Causes.{Rose, HasCause};
ghost use Rattle.obs_io.specs.inner.Bytes.{AddsPart, Writes};
ghost use Rattle.obs_io.specs.inner.Whole.{IsWhole};
ghost use Rattle.obs_io.specs.declared.whole.ReadEnd.TheVariants.{NoMemory};

use crate::{Failed, Files, Sink};
use std::alloc::{AllocError, Global};

/// Why a file wasn't read: a call failed (1), the file is longer than the limit (2), or there is no
/// memory for it (3).
#[derive(Clone, Copy, Debug, PartialEq, Eq)]
pub enum ReadEnd {
    Failed,
    TooLong,
    NoMemory,
}

impl From<AllocError> for ReadEnd {
    ghost from_gives = { λ _ e. e ≡ NoMemory };

    fn from(_: AllocError) -> Self {
        ReadEnd::NoMemory
    }
}

/// How many bytes of a file are asked for at once.
const PIECE: usize = 65536;

// Room for one piece.
fn room_for_piece(alloc: Global, size: usize) -> Result<Vec<u8>, AllocError>
    ensures size { IfOk result (λ buffer. vec_len buffer ≡ size) }
{
    vec![in alloc; 0; size]
}

// Adds the next piece of a word's file, of at most so many bytes, to the bytes that came before it:
// no byte exactly at the end.
fn add_piece<F: Files>(
    files: &mut F,
    word: usize,
    bytes: &mut Vec<u8>,
    buffer: &mut [u8],
    most: usize,
) -> Result<usize, ReadEnd>
    requires word { word < 16 }
    requires place { vec_len bytes.old ≤ F.furthest }
    requires room { 0 < length buffer.old }
    requires most { 0 < most }
    ensures bound { IfOk result (λ n. n ≤ most) }
    ensures grows { IfOk result (λ n. vec_len bytes.new ≡ vec_len bytes.old + n) }
    ensures adds { IfOk result (AddsPart (F.content files.old word) bytes.old.items bytes.new.items) }
    ensures long { IsErrOf result ReadEnd.TooLong → ⊥ }
    ensures same { (w : ℕ) → F.content files.new w ≡ F.content files.old w }
    ensures later { F.faults files.old word ≤ F.faults files.new word }
    ensures failed { IsErrOf result ReadEnd.Failed → Rose (F.faults files.old word) (F.faults files.new word) }
    ensures quiet { (IsErrOf result ReadEnd.Failed → ⊥) → F.faults files.new word ≡ F.faults files.old word }
    ensures others { (w : ℕ) → w ≢ word → F.faults files.new w ≡ F.faults files.old w }
    ensures steady { (w : ℕ) → F.steady files.old w → F.steady files.new w }
    ensures succeeds { F.steady files.old word → IsErrOf result ReadEnd.Failed → ⊥ }
{
    let size = most.min(buffer.len());
    let piece = &mut buffer[..size];
    let Ok(count) = files.part(word, bytes.len() as u64, piece) else {
        return Err(ReadEnd::Failed);
    };
    bytes.extend_from_slice(&piece[..count])?;
    Ok(count)
}

/// The whole content of a word's file, where it has at most `limit` bytes. It ends at the first
/// call that gives no byte, or as soon as one byte more than the limit came.
pub fn read_all<F: Files>(
    alloc: Global,
    files: &mut F,
    word: usize,
    limit: u64,
) -> Result<Vec<u8>, ReadEnd>
    requires word { word < 16 }
    requires limit { limit ≤ F.furthest }
    ensures whole { IsWhole (F.content files.old word) limit result }
    ensures short { IfOk result (λ bytes. vec_len bytes ≤ limit) }
    ensures same { (w : ℕ) → F.content files.new w ≡ F.content files.old w }
    ensures later { F.faults files.old word ≤ F.faults files.new word }
    ensures failed { IsErrOf result ReadEnd.Failed → Rose (F.faults files.old word) (F.faults files.new word) }
    ensures quiet { (IsErrOf result ReadEnd.Failed → ⊥) → F.faults files.new word ≡ F.faults files.old word }
    ensures others { (w : ℕ) → w ≢ word → F.faults files.new w ≡ F.faults files.old w }
    ensures steady { (w : ℕ) → F.steady files.old w → F.steady files.new w }
    ensures succeeds { F.steady files.old word → IsErrOf result ReadEnd.Failed → ⊥ }
{
    let mut buffer = room_for_piece(alloc, PIECE)?;
    let mut bytes = Vec::new(alloc);
    while bytes.len() as u64 <= limit {
        let most = (limit as usize - bytes.len()).saturating_add(1);
        let count = add_piece(files, word, &mut bytes, &mut buffer, most)?;
        if count == 0 {
            return Ok(bytes);
        }
    }
    Err(ReadEnd::TooLong)
}

/// Writes all the bytes, or a front of them where the sink fails. No bytes are written without a
/// call.
pub fn write_all<W: Sink>(output: &mut W, bytes: &[u8]) -> Result<(), Failed>
    ensures writes { Writes (W.written output.old) (W.written output.new) result bytes.now }
    ensures cause { HasCause (W.faults output.old) (W.faults output.new) result }
    ensures quiet { IsOk result → W.faults output.new ≡ W.faults output.old }
    ensures succeeds { (rest : ℕ) → W.has_room output.old (length bytes.now + rest) → IsOk result }
    ensures room { (rest : ℕ) → W.has_room output.old (length bytes.now + rest) → W.has_room output.new rest }
{
    let mut at = 0;
    while at < bytes.len() {
        at += output.put(&bytes[at..])?;
    }
    Ok(())
}
