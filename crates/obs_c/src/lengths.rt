// The lengths of contents.
ghost use Rattle.std.specs.Prelude.{◌↔◌, IsTrue};
ghost use Rattle.obs_c.specs.Blocks.{AreLengths};

/// Whether there is a length for each of so many words, and together they are those of all contents.
pub(crate) fn are_lengths(words: usize, contents: &[u8], lengths: &[usize]) -> bool
    ensures lengths { IsTrue result ↔ AreLengths words contents.now lengths.now }
{
    if lengths.len() != words {
        return false;
    }
    let mut left = contents.len();
    for n in lengths {
        if *n > left {
            return false;
        }
        left -= *n;
    }
    left == 0
}
