// Files in memory.
ghost use Rattle.std.proofs.Common.{rules};
ghost use Rattle.std.specs.Prelude.{◌≡◌, ◌≢◌, ◌<◌, ◌≤◌, [], ℕ, IfOk, IsOk, IsSome, is_ok, slice_index, length, option_map};
ghost use Rattle.obs_io.specs.Bytes.{ReadsPart};
ghost use Rattle.obs_io.specs.Causes.{HasCause};
ghost use Rattle.obs_io.specs.inner.Limits.{most_place};
ghost use Rattle.obs_io.specs.inner.Memory.{content_of, next_call, reads_well};

use crate::memory::entry::Entry;
use crate::memory::piece::copy_piece;
use crate::{Failed, Files};

/// Files in memory. The calls that `fail` lists, counted from 0, fail, and so does each on a word
/// without an entry.
#[derive(Drop)]
pub struct MemFiles {
    entries: Vec<Entry>,
    piece: usize,
    fail: Vec<u64>,
    calls: u64,
    faults: [u64; 16],
    ghost positive: { 0 < piece },
    ghost counts: { length faults ≡ 16 },
}

// The first entry with this word.
fn found(entries: &[Entry], word: usize) -> Option<&Entry>
    ensures first { option_map (λ e. e.now.bytes.items) result ≡ content_of entries.now word }
{
    entries.iter().find(|e| e.word == word)
}

impl MemFiles {
    /// Files that move at most `piece` bytes at once.
    pub fn new(entries: Vec<Entry>, piece: usize, fail: Vec<u64>) -> MemFiles
        requires piece { 0 < piece }
        ensures held { result.entries ≡ entries }
        ensures piece { result.piece ≡ piece }
        ensures fail { result.fail ≡ fail }
        ensures calls { result.calls ≡ 0 }
        ensures content { (w : ℕ) → ⟦<MemFiles as Files>⟧.content result w ≡ content_of entries.items w }
        ensures faults { (w : ℕ) → ⟦<MemFiles as Files>⟧.faults result w ≡ 0 }
        ensures steady { (w : ℕ) → fail.items ≡ [] → IsSome (content_of entries.items w)
            → ⟦<MemFiles as Files>⟧.steady result w }
    {
        MemFiles {
            entries,
            piece,
            fail,
            calls: 0,
            faults: [0; 16],
        }
    }
}

impl Files for MemFiles {
    ghost content = { λ m w. content_of m.entries.items w };

    ghost faults = { λ m w. slice_index m.faults w };

    ghost steady = { λ m w. (m.fail.items ≡ []) × IsSome (content_of m.entries.items w) };

    ghost furthest = { most_place };

    ghost usual = { Prim.search rules };

    fn part(&mut self, word: usize, at: u64, into: &mut [u8]) -> Result<usize, Failed>
        requires room { 0 < length into.old }
        requires word { word < 16 }
        requires place { at ≤ most_place }
        // what each form of files says
        ensures bound { IfOk result (λ n. n ≤ length into.new) }
        ensures bytes { ReadsPart (content_of self.old.entries.items word) at result into.new }
        ensures same { (w : ℕ) → content_of self.new.entries.items w ≡ content_of self.old.entries.items w }
        ensures cause { HasCause (slice_index self.old.faults word) (slice_index self.new.faults word) result }
        ensures quiet { IfOk result (λ _. slice_index self.new.faults word ≡ slice_index self.old.faults word) }
        ensures others { (w : ℕ) → w ≢ word → slice_index self.new.faults w ≡ slice_index self.old.faults w }
        ensures steady { (w : ℕ) → ⟦<MemFiles as Files>⟧.steady self.old w → ⟦<MemFiles as Files>⟧.steady self.new w }
        ensures succeeds { ⟦<MemFiles as Files>⟧.steady self.old word → IsOk result }
        // what this form says: which calls succeed, and how much one moves
        ensures well { is_ok result ≡ reads_well self.old.fail.items self.old.calls self.old.entries.items word }
        ensures piece { IfOk result (λ n. n ≤ self.old.piece) }
        ensures calls { self.new.calls ≡ next_call self.old.calls }
        ensures kept { (self.new.entries ≡ self.old.entries)
            × (self.new.piece ≡ self.old.piece) × (self.new.fail ≡ self.old.fail) }
    {
        let call = self.calls;
        self.calls = call.saturating_add(1);
        let listed = self.fail.as_slice().contains(&call);
        if !listed && let Some(entry) = found(&self.entries, word) {
            return Ok(copy_piece(&entry.bytes, at, self.piece, into));
        }
        self.faults[word] = self.faults[word].saturating_add(1);
        Err(Failed)
    }
}
