// The outside: files by the position of their word, a source and a sink.
ghost use Rattle.std.specs.Prelude.{◌≡◌, ◌≢◌, ◌<◌, ◌≤◌, ◌-◌, ℕ, List, Option, length, IfOk, IsOk};
ghost use Rattle.obs_io.specs.Causes.{HasCause};
ghost use Rattle.obs_io.specs.Bytes.{ReadsPart, TakesFront, PutsFront};
ghost use Rattle.obs_io.specs.inner.Limits.{usual_place};

/// The outside failed, and its count of faults tells so.
#[derive(Clone, Copy, Debug, PartialEq, Eq)]
pub struct Failed;

/// Files, each by the position of its word.
pub trait Files {
    /// A file's content, where it is told.
    ghost content: { Self → ℕ → Option (List ℕ) };

    /// How often reading a word's file has failed.
    ghost faults: { Self → ℕ → ℕ };

    /// Reading this word's file doesn't fail from here on.
    ghost steady: { Self → ℕ → Type 0 };

    /// The furthest place of a file from which bytes may be asked for.
    ghost furthest: { ℕ };

    /// Some of a file's bytes from a place on, and none exactly at its end.
    fn part(&mut self, word: usize, at: u64, into: &mut [u8]) -> Result<usize, Failed>
        requires room { 0 < length into.old }
        requires word { word < 16 }
        requires place { at ≤ furthest }
        ensures bound { IfOk result (λ n. n ≤ length into.new) }
        ensures bytes { ReadsPart (content self.old word) at result into.new }
        ensures same { (w : ℕ) → content self.new w ≡ content self.old w }
        ensures cause { HasCause (faults self.old word) (faults self.new word) result }
        ensures quiet { IfOk result (λ _. faults self.new word ≡ faults self.old word) }
        ensures others { (w : ℕ) → w ≢ word → faults self.new w ≡ faults self.old w }
        ensures steady { (w : ℕ) → steady self.old w → steady self.new w }
        ensures succeeds { steady self.old word → IsOk result };

    /// All files take calls up to the usual place.
    ghost usual: { usual_place ≤ furthest };
}

/// Bytes that come.
pub trait Source {
    /// The bytes left, where they are told.
    ghost left: { Self → Option (List ℕ) };

    /// How often taking has failed.
    ghost faults: { Self → ℕ };

    /// Taking doesn't fail from here on.
    ghost steady: { Self → Type 0 };

    /// Some of the bytes left, and none exactly where nothing is left.
    fn take(&mut self, into: &mut [u8]) -> Result<usize, Failed>
        requires room { 0 < length into.old }
        ensures bound { IfOk result (λ n. n ≤ length into.new) }
        ensures bytes { TakesFront (left self.old) (left self.new) result into.new }
        ensures cause { HasCause (faults self.old) (faults self.new) result }
        ensures quiet { IfOk result (λ _. faults self.new ≡ faults self.old) }
        ensures steady { steady self.old → steady self.new }
        ensures succeeds { steady self.old → IsOk result };
}

/// Bytes that go.
pub trait Sink {
    /// The bytes written, where they are told.
    ghost written: { Self → Option (List ℕ) };

    /// How often putting has failed.
    ghost faults: { Self → ℕ };

    /// Putting so many more bytes doesn't fail.
    ghost has_room: { Self → ℕ → Type 0 };

    /// Adds one byte or more from the front of these.
    fn put(&mut self, bytes: &[u8]) -> Result<usize, Failed>
        requires bytes { 0 < length bytes.now }
        ensures some { IfOk result (λ n. 0 < n) }
        ensures bound { IfOk result (λ n. n ≤ length bytes.now) }
        ensures bytes { PutsFront (written self.old) (written self.new) result bytes.now }
        ensures cause { HasCause (faults self.old) (faults self.new) result }
        ensures quiet { IfOk result (λ _. faults self.new ≡ faults self.old) }
        ensures room { (room : ℕ) → has_room self.old room → length bytes.now ≤ room
            → IfOk result (λ n. has_room self.new (room - n)) }
        ensures succeeds { (room : ℕ) → has_room self.old room → length bytes.now ≤ room → IsOk result };
}
