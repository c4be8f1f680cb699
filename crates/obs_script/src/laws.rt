//! What the definitions of this crate imply.
ghost use Rattle.obs_script.specs.inner.Laws.{CommandsAreTexts, HeldIsEnough, LinesAreGathered};

/// What is kept of a line says all that is answered of it: lines of which the same bytes are kept
/// get the same answers.
pub fn held_is_enough()
    ensures enough { HeldIsEnough }
{}

/// The lines of some bytes are those that are gathered from them: the bytes before a line feed are
/// a line, and the last bytes are one where they are some.
pub fn lines_are_gathered()
    ensures lines { LinesAreGathered }
{}

/// A line is a command exactly where it is an ask's word, or an edit's word, a blank and a name; else each refusal has its
/// cause.
pub fn commands_are_texts()
    ensures commands { CommandsAreTexts }
{}
