// A sink that holds the front of a text.
ghost use Rattle.std.specs.Prelude.{◌≡◌, ◌<◌, ◌≤◌, ◌+◌, ◌-◌, ℕ, [], ◌∷◌, Some, IfOk, IsOk, length, vec_len, vec_capacity};
ghost use Rattle.obs_io.specs.Bytes.{PutsFront};
ghost use Rattle.obs_io.specs.Causes.{HasCause};

use obs_io::{Failed, NoMemory, Sink};
use std::alloc::Global;

/// The front of a text, with at most so many bytes. What a longer text has beyond them is counted as a failed write.
#[derive(Drop)]
pub(crate) struct Front {
    bytes: Vec<u8>,
    most: usize,
    faults: u64,
    ghost within: { vec_len bytes ≤ most },
    ghost fits: { most ≤ vec_capacity bytes },
    ghost full: { 0 < faults → vec_len bytes ≡ most },
}

impl Front {
    /// No byte, and room for so many.
    pub(crate) fn with_room(alloc: Global, most: usize) -> Result<Front, NoMemory>
        ensures written { IfOk result (λ f. ⟦<Front as Sink>⟧.written f ≡ Some (most ∷ [])) }
        ensures faults { IfOk result (λ f. ⟦<Front as Sink>⟧.faults f ≡ 0) }
    {
        let bytes = Vec::with_capacity(alloc, most)?;
        Ok(Front {
            bytes,
            most,
            faults: 0,
        })
    }

    /// The bytes of the front. It is full where a write failed.
    pub(crate) fn bytes(&self) -> &[u8]
        ensures written { ⟦<Front as Sink>⟧.written self.now ≡ Some (self.now.most ∷ result.now) }
        ensures full { 0 < ⟦<Front as Sink>⟧.faults self.now → length result.now ≡ self.now.most }
    {
        &self.bytes
    }
}

impl Sink for Front {
    // The bytes behind how many there may be: so what a call on any sink says of them says too that the room stays.
    ghost written = { λ f. Some (f.most ∷ f.bytes.items) };

    ghost faults = { λ f. f.faults };

    ghost has_room = { λ f n. vec_len f.bytes + n ≤ f.most };

    fn put(&mut self, bytes: &[u8]) -> Result<usize, Failed>
        requires bytes { 0 < length bytes.now }
        ensures some { IfOk result (λ n. 0 < n) }
        ensures bound { IfOk result (λ n. n ≤ length bytes.now) }
        ensures bytes { PutsFront (Some (self.old.most ∷ self.old.bytes.items)) (Some (self.new.most ∷ self.new.bytes.items))
            result bytes.now }
        ensures cause { HasCause self.old.faults self.new.faults result }
        ensures quiet { IfOk result (λ _. self.new.faults ≡ self.old.faults) }
        ensures room { (room : ℕ) → ⟦<Front as Sink>⟧.has_room self.old room → length bytes.now ≤ room
            → IfOk result (λ n. ⟦<Front as Sink>⟧.has_room self.new (room - n)) }
        ensures succeeds { (room : ℕ) → ⟦<Front as Sink>⟧.has_room self.old room → length bytes.now ≤ room → IsOk result }
    {
        let count = bytes.len().min(self.most - self.bytes.len());
        if count > 0 && self.bytes.extend_from_slice(&bytes[..count]).is_ok() {
            return Ok(count);
        }
        self.faults = self.faults.saturating_add(1);
        Err(Failed)
    }
}
