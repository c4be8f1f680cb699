// A sink over a writer.
ghost use Rattle.std.specs.Prelude.{◌≡◌, ◌<◌, ◌≤◌, ◌-◌, ◌&&◌, ℕ, IfOk, IsOk, None, is_ok, length};
ghost use Rattle.obs_io.specs.Bytes.{PutsFront};
ghost use Rattle.obs_io.specs.inner.Bytes.{GivesFront};
ghost use Rattle.obs_io.specs.Causes.{HasCause};
ghost use Rattle.obs_io.specs.inner.Causes.{wrote_some};

use crate::real::counted::counted;
use crate::{Failed, Sink};
use std::io::{self, Write};

/// A sink over any writer, which it flushes after each write.
#[derive(Drop)]
pub struct ToWrite<W> {
    inner: W,
    faults: u64,
}

impl<W: Write> ToWrite<W> {
    /// What goes to this writer.
    pub fn new(inner: W) -> ToWrite<W>
        ensures faults { ⟦<ToWrite<W> as Sink>⟧.faults result ≡ 0 }
    {
        ToWrite { inner, faults: 0 }
    }
}

// What a write and the flush after it say together: the write's number, where it wrote some bytes
// and they were flushed.
fn flushed(written: io::Result<usize>, flush: io::Result<()>) -> io::Result<usize>
    ensures well { is_ok result ≡ (wrote_some written && is_ok flush) }
    ensures number { IfOk result (λ n. IfOk written (λ m. n ≡ m)) }
{
    match written {
        Ok(0) => Err(io::Error::from(io::ErrorKind::WriteZero)),
        Ok(count) => match flush {
            Ok(()) => Ok(count),
            Err(unflushed) => Err(unflushed),
        },
        Err(error) => Err(error),
    }
}

impl<W: Write> Sink for ToWrite<W> {
    ghost written = { λ m. None };

    ghost faults = { λ m. m.faults };

    ghost has_room = { λ m room. ⊥ };

    fn put(&mut self, bytes: &[u8]) -> Result<usize, Failed>
        requires bytes { 0 < length bytes.now }
        // what each sink says, where no bytes are told
        ensures some { IfOk result (λ n. 0 < n) }
        ensures bound { IfOk result (λ n. n ≤ length bytes.now) }
        ensures bytes { PutsFront None None result bytes.now }
        ensures cause { HasCause self.old.faults self.new.faults result }
        ensures quiet { IfOk result (λ _. self.new.faults ≡ self.old.faults) }
        ensures room { (room : ℕ) → ⊥ → length bytes.now ≤ room → IfOk result (λ n. ⊥) }
        ensures succeeds { (room : ℕ) → ⊥ → length bytes.now ≤ room → IsOk result }
        // the writer's own bytes grow by as many as are answered; behind a failure by a front of these or none
        ensures gives { GivesFront (W.contents self.old.inner) (W.contents self.new.inner) result bytes.now }
    {
        let written = self.inner.write(bytes);
        let flush = if written.is_ok() {
            self.inner.flush()
        } else {
            Ok(())
        };
        counted(flushed(written, flush), &mut self.faults)
    }
}
