// The files that the program's words name.
ghost use Rattle.std.proofs.Common.{rules};
ghost use Rattle.std.specs.Prelude.{◌≡◌, ◌≢◌, ◌<◌, ◌≤◌, ℕ, None, IfOk, IsErr, IsOk, slice_index, length};
ghost use Rattle.obs_io.specs.Bytes.{ReadsPart};
ghost use Rattle.obs_io.specs.Causes.{HasCause};
ghost use Rattle.obs_io.specs.inner.Limits.{most_place};

use crate::real::counted::counted;
use crate::{Failed, Files};
use std::io::{self, Read, Seek, SeekFrom};
use std::{fs, rt};

/// The files that the program's words name, opened anew at each call.
#[derive(Drop)]
pub struct DirFiles<'a, R> {
    rt: R,
    words: &'a [String],
    faults: [u64; 16],
    ghost counts: { length faults ≡ 16 },
}

impl<'a, R: rt::Files> DirFiles<'a, R> {
    /// The files of these words, which are paths. No file is opened yet.
    pub fn new(rt: R, words: &'a [String]) -> DirFiles<'a, R>
        ensures words { result.words.now ≡ words.now }
        ensures faults { (w : ℕ) → ⟦<DirFiles<'a, R> as Files>⟧.faults result w ≡ 0 }
    {
        DirFiles {
            rt,
            words,
            faults: [0; 16],
        }
    }
}

// Reads some bytes of the file with this path from a place on.
fn read_at<R: rt::Files>(rt: &R, path: &str, at: u64, into: &mut [u8]) -> io::Result<usize>
    ensures bound { IfOk result (λ n. n ≤ length into.new) }
{
    let mut file = fs::open(rt, path)?;
    file.seek(SeekFrom::Start(at))?;
    file.read(into)
}

impl<'a, R: rt::Files> Files for DirFiles<'a, R> {
    ghost content = { λ m w. None };

    ghost faults = { λ m w. slice_index m.faults w };

    ghost steady = { λ m w. ⊥ };

    ghost furthest = { most_place };

    ghost usual = { Prim.search rules };

    fn part(&mut self, word: usize, at: u64, into: &mut [u8]) -> Result<usize, Failed>
        requires room { 0 < length into.old }
        requires word { word < 16 }
        requires place { at ≤ most_place }
        // what each form of files says, where no content is told
        ensures bound { IfOk result (λ n. n ≤ length into.new) }
        ensures bytes { ReadsPart None at result into.new }
        ensures same { (w : ℕ) → ⟦<DirFiles<'a, R> as Files>⟧.content self.new w
            ≡ ⟦<DirFiles<'a, R> as Files>⟧.content self.old w }
        ensures cause { HasCause (slice_index self.old.faults word) (slice_index self.new.faults word) result }
        ensures quiet { IfOk result (λ _. slice_index self.new.faults word ≡ slice_index self.old.faults word) }
        ensures others { (w : ℕ) → w ≢ word → slice_index self.new.faults w ≡ slice_index self.old.faults w }
        ensures steady { (w : ℕ) → ⊥ → ⊥ }
        ensures succeeds { ⊥ → IsOk result }
        // a position that no word has fails
        ensures absent { length self.old.words.now ≤ word → IsErr result }
        ensures words { self.new.words.now ≡ self.old.words.now }
    {
        let words = self.words;
        if let Some(path) = words.get(word) {
            return counted(read_at(&self.rt, path, at, into), &mut self.faults[word]);
        }
        self.faults[word] = self.faults[word].saturating_add(1);
        Err(Failed)
    }
}
