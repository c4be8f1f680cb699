// A source in memory.
ghost use Rattle.std.specs.Prelude.{◌≡◌, ◌<◌, ◌≤◌, [], Some, IfOk, IsOk, drop, is_ok, length, not};
ghost use Rattle.obs_io.specs.Bytes.{TakesFront};
ghost use Rattle.obs_io.specs.Causes.{HasCause};
ghost use Rattle.obs_io.specs.inner.Memory.{is_listed, next_call};

use crate::memory::piece::copy_piece;
use crate::{Failed, Source};

/// Bytes in memory that come. The calls that `fail` lists, counted from 0, fail.
#[derive(Drop)]
pub struct MemSource {
    bytes: Vec<u8>,
    at: usize,
    piece: usize,
    fail: Vec<u64>,
    calls: u64,
    faults: u64,
    ghost positive: { 0 < piece },
    ghost within: { at ≤ length bytes.items },
}

impl MemSource {
    /// Bytes that come at most `piece` at once.
    pub fn new(bytes: Vec<u8>, piece: usize, fail: Vec<u64>) -> MemSource
        requires piece { 0 < piece }
        ensures piece { result.piece ≡ piece }
        ensures fail { result.fail ≡ fail }
        ensures calls { result.calls ≡ 0 }
        ensures left { ⟦<MemSource as Source>⟧.left result ≡ Some bytes.items }
        ensures faults { ⟦<MemSource as Source>⟧.faults result ≡ 0 }
        ensures steady { fail.items ≡ [] → ⟦<MemSource as Source>⟧.steady result }
    {
        MemSource {
            bytes,
            at: 0,
            piece,
            fail,
            calls: 0,
            faults: 0,
        }
    }
}

impl Source for MemSource {
    ghost left = { λ m. Some (drop m.at m.bytes.items) };

    ghost faults = { λ m. m.faults };

    ghost steady = { λ m. m.fail.items ≡ [] };

    fn take(&mut self, into: &mut [u8]) -> Result<usize, Failed>
        requires room { 0 < length into.old }
        // what each source says
        ensures bound { IfOk result (λ n. n ≤ length into.new) }
        ensures bytes { TakesFront (Some (drop self.old.at self.old.bytes.items))
            (Some (drop self.new.at self.new.bytes.items)) result into.new }
        ensures cause { HasCause self.old.faults self.new.faults result }
        ensures quiet { IfOk result (λ _. self.new.faults ≡ self.old.faults) }
        ensures steady { self.old.fail.items ≡ [] → self.new.fail.items ≡ [] }
        ensures succeeds { self.old.fail.items ≡ [] → IsOk result }
        // what this form says: which calls succeed, and how much one moves
        ensures well { is_ok result ≡ not (is_listed self.old.fail.items self.old.calls) }
        ensures piece { IfOk result (λ n. n ≤ self.old.piece) }
        ensures calls { self.new.calls ≡ next_call self.old.calls }
        ensures kept { (self.new.bytes ≡ self.old.bytes)
            × (self.new.piece ≡ self.old.piece) × (self.new.fail ≡ self.old.fail) }
    {
        let call = self.calls;
        self.calls = call.saturating_add(1);
        if self.fail.as_slice().contains(&call) {
            self.faults = self.faults.saturating_add(1);
            return Err(Failed);
        }
        let count = copy_piece(&self.bytes[self.at..], 0, self.piece, into);
        self.at += count;
        Ok(count)
    }
}
