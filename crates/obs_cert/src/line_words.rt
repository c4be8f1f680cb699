// The words of a line.
ghost use Rattle.std.specs.Prelude.{◌≡◌, ◌∷◌, [], IfNone, IfSome};
ghost use Rattle.obs_cert.specs.Words.{words_of};

const TAB: u8 = 0x09;

/// The first word, and what follows its tab, if there is one.
pub(crate) fn first_word(bytes: &[u8]) -> (&[u8], Option<&[u8]>)
    ensures more { IfSome result.1 (λ rest. words_of bytes.now ≡ result.0.now ∷ words_of rest.now) }
    ensures last { IfNone result.1 (words_of bytes.now ≡ result.0.now ∷ []) }
{
    match bytes.iter().position(|byte| *byte == TAB) {
        Some(end) => (&bytes[..end], Some(&bytes[end + 1..])),
        None => (bytes, None),
    }
}
