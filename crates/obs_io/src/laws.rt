//! What the definitions of this crate imply.
ghost use Rattle.obs_io.specs.inner.Laws.{ContentsStandInBlock};

/// Of contents that stand one behind another in a block, by their lengths, each is found whole.
pub fn contents_stand_in_block()
    ensures contents { ContentsStandInBlock }
{}
