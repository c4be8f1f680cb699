// The answers to the lines of sessions.
ghost use Rattle.obs_worked.specs.inner.Sessions.{LinesAreRefused, LossesAreAnswered, SwitchesAreOpened};

/// Edits are answered by the numbers of the case after them, and asks by that case.
pub fn edits()
    ensures switches { SwitchesAreOpened }
    ensures losses { LossesAreAnswered }
{}

/// A refused line has its cause.
pub fn refusals()
    ensures refused { LinesAreRefused }
{}
