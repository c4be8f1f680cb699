//! What the definitions of this crate imply.
ghost use Rattle.obs_c.specs.Laws.{WordsAreTheBlock};

/// A block of words is its words, a zero byte behind each, and no other words without a zero byte make it.
pub fn words_are_the_block()
    ensures words { WordsAreTheBlock }
{}
