//! What the definitions of this crate imply.
ghost use Rattle.obs_text.specs.inner.Laws.{BareIsBetweenBlanks, LinesAreTheBytes, ReadsDecimals};

/// A number below 10^19 is read back from its decimal text, and a text that is read is that of its
/// number, behind zeros.
pub fn decimals_are_read()
    ensures decimals { ReadsDecimals }
{}

/// Lines with their ends, joined up, are the bytes, and no other lines are.
pub fn lines_are_the_bytes()
    ensures lines { LinesAreTheBytes }
{}

/// Bare bytes stand between the blanks at both ends, and have none at their own ends.
pub fn bare_is_between_blanks()
    ensures bare { BareIsBetweenBlanks }
{}
