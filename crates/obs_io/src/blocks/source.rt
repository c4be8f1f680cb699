// Input in a block.
ghost use Rattle.std.specs.Prelude.{◌≡◌, Some, ⊤};

use crate::memory::piece::copy_piece;
use crate::{Failed, Source};

/// The bytes of a block, which come as many at once as are asked for. No call fails.
#[derive(Drop)]
pub struct BlockSource<'a> {
    rest: &'a [u8],
}

impl<'a> BlockSource<'a> {
    /// All of a block is left.
    pub fn new(bytes: &'a [u8]) -> BlockSource<'a>
        ensures left { ⟦<BlockSource<'a> as Source>⟧.left result ≡ Some bytes.now }
        ensures faults { ⟦<BlockSource<'a> as Source>⟧.faults result ≡ 0 }
        ensures steady { ⟦<BlockSource<'a> as Source>⟧.steady result }
    {
        BlockSource { rest: bytes }
    }
}

impl Source for BlockSource<'_> {
    ghost left = { λ s. Some s.rest.now };

    ghost faults = { λ s. 0 };

    ghost steady = { λ s. ⊤ };

    fn take(&mut self, into: &mut [u8]) -> Result<usize, Failed> {
        let count = copy_piece(self.rest, 0, usize::MAX, into);
        self.rest = &self.rest[count..];
        Ok(count)
    }
}
