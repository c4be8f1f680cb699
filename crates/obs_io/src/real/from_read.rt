// A source over a reader.
ghost use Rattle.std.specs.Prelude.{◌≡◌, ◌<◌, ◌≤◌, None, IfOk, IsOk, length};
ghost use Rattle.std.specs.Io.KnownBytes.{ReadConsumes};
ghost use Rattle.obs_io.specs.Bytes.{TakesFront};
ghost use Rattle.obs_io.specs.Causes.{HasCause};

use crate::real::counted::counted;
use crate::{Failed, Source};
use std::io::Read;

/// A source over any reader.
#[derive(Drop)]
pub struct FromRead<R> {
    inner: R,
    faults: u64,
}

impl<R: Read> FromRead<R> {
    /// What this reader gives.
    pub fn new(inner: R) -> FromRead<R>
        ensures faults { ⟦<FromRead<R> as Source>⟧.faults result ≡ 0 }
    {
        FromRead { inner, faults: 0 }
    }
}

impl<R: Read> Source for FromRead<R> {
    ghost left = { λ m. None };

    ghost faults = { λ m. m.faults };

    ghost steady = { λ m. ⊥ };

    fn take(&mut self, into: &mut [u8]) -> Result<usize, Failed>
        requires room { 0 < length into.old }
        // what each source says, where no bytes are told
        ensures bound { IfOk result (λ n. n ≤ length into.new) }
        ensures bytes { TakesFront None None result into.new }
        ensures cause { HasCause self.old.faults self.new.faults result }
        ensures quiet { IfOk result (λ _. self.new.faults ≡ self.old.faults) }
        ensures steady { ⊥ → ⊥ }
        ensures succeeds { ⊥ → IsOk result }
        // the reader's own bytes are given: none only at their end, and a failure takes none
        ensures reads { ReadConsumes (R.remaining self.old.inner) (R.remaining self.new.inner) result into.new }
    {
        counted(self.inner.read(into), &mut self.faults)
    }
}
