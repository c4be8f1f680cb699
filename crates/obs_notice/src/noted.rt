// Files that note which of them could not be read.
ghost use Rattle.std.specs.Prelude.{◌≡◌, ◌<◌, ℕ, length, slice_index};
ghost use Rattle.obs_notice.specs.Notices.{failed_word};

use obs_io::{Failed, Files};

/// Files that count the failed reads of each word.
#[derive(Drop)]
pub struct Noted<F: Files> {
    inner: F,
    faults: [u64; 16],
    ghost counts: { length faults ≡ 16 },
    // no read has failed beneath but of the words of which one is noted
    ghost noted: { (w : ℕ) → slice_index faults w ≡ 0 → F.faults inner w ≡ 0 },
    // and of each of these one has
    ghost failed: { (w : ℕ) → 0 < slice_index faults w → 0 < F.faults inner w },
}

impl<F: Files> Noted<F> {
    /// These files, of which no read has failed yet.
    pub fn new(inner: F) -> Noted<F>
        requires fresh { (w : ℕ) → F.faults inner w ≡ 0 }
        ensures inner { result.inner ≡ inner }
        ensures faults { (w : ℕ) → slice_index result.faults w ≡ 0 }
    {
        Noted {
            inner,
            faults: [0; 16],
        }
    }

    /// The first word of which a read failed.
    pub fn failed(&self) -> Option<usize>
        ensures word { result ≡ failed_word self.now.faults }
    {
        self.faults.iter().position(|count| *count > 0)
    }
}

impl<F: Files> Files for Noted<F> {
    ghost content = { λ m w. F.content m.inner w };

    ghost faults = { λ m w. slice_index m.faults w };

    ghost steady = { λ m w. F.steady m.inner w };

    ghost furthest = { F.furthest };

    ghost usual = { F.usual };

    fn part(&mut self, word: usize, at: u64, into: &mut [u8]) -> Result<usize, Failed> {
        let answer = self.inner.part(word, at, into);
        if answer.is_err() {
            self.faults[word] = self.faults[word].saturating_add(1);
        }
        answer
    }
}
