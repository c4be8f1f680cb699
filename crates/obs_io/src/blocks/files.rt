// Files side by side in one block.
ghost use Rattle.std.proofs.Common.{rules};
ghost use Rattle.std.specs.Prelude.{◌≡◌, ℕ, Some, ⊤};
ghost use Rattle.obs_io.specs.Contents.{content_at};
ghost use Rattle.obs_io.specs.inner.Limits.{most_place};

use crate::memory::piece::copy_piece;
use crate::{Failed, Files};

/// Files side by side in a block, by their lengths in the order of their words. A word without a length has an empty
/// file, and no call fails.
#[derive(Drop)]
pub struct BlockFiles<'a> {
    bytes: &'a [u8],
    lengths: &'a [usize],
}

// What stands in the block for a word.
fn content_of<'a>(bytes: &'a [u8], lengths: &[usize], word: usize) -> &'a [u8]
    ensures content { result.now ≡ content_at bytes.now lengths.now word }
{
    let Some(n) = lengths.first() else {
        return &[];
    };
    let count = (*n).min(bytes.len());
    if word == 0 {
        return &bytes[..count];
    }
    content_of(&bytes[count..], &lengths[1..], word - 1)
}

impl<'a> BlockFiles<'a> {
    /// The files of these lengths, one behind another.
    pub fn new(bytes: &'a [u8], lengths: &'a [usize]) -> BlockFiles<'a>
        ensures content { (w : ℕ) →
            ⟦<BlockFiles<'a> as Files>⟧.content result w ≡ Some (content_at bytes.now lengths.now w) }
        ensures faults { (w : ℕ) → ⟦<BlockFiles<'a> as Files>⟧.faults result w ≡ 0 }
        ensures steady { (w : ℕ) → ⟦<BlockFiles<'a> as Files>⟧.steady result w }
    {
        BlockFiles { bytes, lengths }
    }
}

impl Files for BlockFiles<'_> {
    ghost content = { λ f w. Some (content_at f.bytes.now f.lengths.now w) };

    ghost faults = { λ f w. 0 };

    ghost steady = { λ f w. ⊤ };

    ghost furthest = { most_place };

    ghost usual = { Prim.search rules };

    fn part(&mut self, word: usize, at: u64, into: &mut [u8]) -> Result<usize, Failed> {
        Ok(copy_piece(
            content_of(self.bytes, self.lengths, word),
            at,
            usize::MAX,
            into,
        ))
    }
}
