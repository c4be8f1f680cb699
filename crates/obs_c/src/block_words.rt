// The words of a block.
ghost use Rattle.std.specs.Prelude.{◌≡◌, ◌∷◌, ◌<◌, false, Err, IfNone, IfOk, IfSome, length, map, string_bytes};
ghost use Rattle.obs_c.specs.declared.block_words.WordsFault.{WordsFault};
ghost use Rattle.obs_c.specs.Blocks.{AreWords, is_ended, words_in};

use std::alloc::{AllocError, AllocFailed, Global};
use std::str;

/// Why a block gave no words.
pub(crate) enum WordsFault {
    /// A word isn't ended by a zero byte, or isn't UTF-8.
    Malformed,
    /// There is no memory.
    NoMemory,
}

impl From<AllocError> for WordsFault {
    ghost from_gives = { λ _ e. e ≡ WordsFault.NoMemory };

    fn from(_: AllocError) -> Self {
        WordsFault::NoMemory
    }
}

impl<T: Drop> From<AllocFailed<T>> for WordsFault {
    ghost from_gives = { λ _ e. e ≡ WordsFault.NoMemory };

    fn from(_: AllocFailed<T>) -> Self {
        WordsFault::NoMemory
    }
}

// The first word, and what stands behind the zero byte that ends it.
fn first_word(block: &[u8]) -> Option<(&[u8], &[u8])>
    requires some { 0 < length block.now }
    ensures word { IfSome result (λ r. words_in block.now ≡ r.0.now ∷ words_in r.1.now) }
    ensures rest { IfSome result (λ r. is_ended block.now ≡ is_ended r.1.now) }
    ensures shorter { IfSome result (λ r. length r.1.now < length block.now) }
    ensures none { IfNone result (is_ended block.now ≡ false) }
{
    match block.iter().position(|byte| *byte == 0) {
        Some(end) => Some((&block[..end], &block[end + 1..])),
        None => None,
    }
}

/// The words of a block, each of which a zero byte ends.
pub(crate) fn words_of(alloc: Global, block: &[u8]) -> Result<Vec<String>, WordsFault>
    ensures words { IfOk result (λ words. map string_bytes words.items ≡ words_in block.now) }
    ensures well { IfOk result (λ words. AreWords block.now) }
    ensures malformed { result ≡ Err WordsFault.Malformed → AreWords block.now → ⊥ }
{
    let mut words = Vec::new(alloc);
    let mut rest = block;
    while !rest.is_empty() {
        let Some((word, behind)) = first_word(rest) else {
            return Err(WordsFault::Malformed);
        };
        let Ok(text) = str::from_utf8(word) else {
            return Err(WordsFault::Malformed);
        };
        words.push(String::from_str(alloc, text)?)?;
        rest = behind;
    }
    Ok(words)
}
