// A sink in memory.
ghost use Rattle.std.specs.Prelude.{◌≡◌, ◌<◌, ◌≤◌, ◌+◌, ◌-◌, ℕ, [], Some, IfOk, IsOk, OnErr, is_ok, length, vec_len, vec_capacity};
ghost use Rattle.obs_io.specs.Bytes.{PutsFront};
ghost use Rattle.obs_io.specs.Causes.{HasCause};
ghost use Rattle.obs_io.specs.inner.Memory.{next_call, writes_well};

use crate::{Failed, Sink};
use std::alloc::{AllocError, AllocFailed, Global};

/// There is no memory.
#[derive(Clone, Copy, Debug, PartialEq, Eq)]
pub struct NoMemory;

impl From<AllocError> for NoMemory {
    ghost from_gives = { λ _ e. e ≡ e };

    fn from(_: AllocError) -> Self {
        NoMemory
    }
}

impl<T: Drop> From<AllocFailed<T>> for NoMemory {
    ghost from_gives = { λ _ e. e ≡ e };

    fn from(_: AllocFailed<T>) -> Self {
        NoMemory
    }
}

/// Bytes in memory that go. The calls that `fail` lists, counted from 0, fail, and so does each where
/// no room is left.
#[derive(Drop)]
pub struct MemSink {
    bytes: Vec<u8>,
    room: usize,
    piece: usize,
    fail: Vec<u64>,
    calls: u64,
    faults: u64,
    ghost positive: { 0 < piece },
    ghost fits: { vec_len bytes + room ≤ vec_capacity bytes },
}

impl MemSink {
    /// Room for so many bytes, which go at most `piece` at once.
    pub fn with_room(
        alloc: Global,
        room: usize,
        piece: usize,
        fail: Vec<u64>,
    ) -> Result<MemSink, NoMemory>
        requires piece { 0 < piece }
        ensures room_left { IfOk result (λ s. s.room ≡ room) }
        ensures piece { IfOk result (λ s. s.piece ≡ piece) }
        ensures fail { IfOk result (λ s. s.fail ≡ fail) }
        ensures calls { IfOk result (λ s. s.calls ≡ 0) }
        ensures written { IfOk result (λ s. ⟦<MemSink as Sink>⟧.written s ≡ Some []) }
        ensures faults { IfOk result (λ s. ⟦<MemSink as Sink>⟧.faults s ≡ 0) }
        ensures room { IfOk result (λ s. fail.items ≡ [] → (n : ℕ) → n ≤ room → ⟦<MemSink as Sink>⟧.has_room s n) }
    {
        let bytes = Vec::with_capacity(alloc, room)?;
        Ok(MemSink {
            bytes,
            room,
            piece,
            fail,
            calls: 0,
            faults: 0,
        })
    }

    /// What was written.
    pub fn written(&self) -> &[u8]
        ensures written { ⟦<MemSink as Sink>⟧.written self.now ≡ Some result.now }
    {
        &self.bytes
    }
}

impl Sink for MemSink {
    ghost written = { λ m. Some m.bytes.items };

    ghost faults = { λ m. m.faults };

    ghost has_room = { λ m n. (m.fail.items ≡ []) × (n ≤ m.room) };

    fn put(&mut self, bytes: &[u8]) -> Result<usize, Failed>
        requires bytes { 0 < length bytes.now }
        // what each sink says
        ensures some { IfOk result (λ n. 0 < n) }
        ensures bound { IfOk result (λ n. n ≤ length bytes.now) }
        ensures bytes { PutsFront (Some self.old.bytes.items) (Some self.new.bytes.items) result bytes.now }
        ensures cause { HasCause self.old.faults self.new.faults result }
        ensures quiet { IfOk result (λ _. self.new.faults ≡ self.old.faults) }
        ensures room { (room : ℕ) → ⟦<MemSink as Sink>⟧.has_room self.old room → length bytes.now ≤ room
            → IfOk result (λ n. ⟦<MemSink as Sink>⟧.has_room self.new (room - n)) }
        ensures succeeds { (room : ℕ) → ⟦<MemSink as Sink>⟧.has_room self.old room
            → length bytes.now ≤ room → IsOk result }
        // what this form says: which calls succeed, how much one moves, and the room left
        ensures well { is_ok result ≡ writes_well self.old.fail.items self.old.calls self.old.room }
        ensures piece { IfOk result (λ n. n ≤ self.old.piece) }
        ensures left { IfOk result (λ n. self.new.room ≡ self.old.room - n) }
        ensures lost { OnErr result (self.new.room ≡ self.old.room) }
        ensures calls { self.new.calls ≡ next_call self.old.calls }
        ensures kept { (self.new.piece ≡ self.old.piece) × (self.new.fail ≡ self.old.fail) }
    {
        let call = self.calls;
        self.calls = call.saturating_add(1);
        let listed = self.fail.as_slice().contains(&call);
        let count = bytes.len().min(self.piece).min(self.room);
        if !listed && count > 0 && self.bytes.extend_from_slice(&bytes[..count]).is_ok() {
            self.room -= count;
            return Ok(count);
        }
        self.faults = self.faults.saturating_add(1);
        Err(Failed)
    }
}
