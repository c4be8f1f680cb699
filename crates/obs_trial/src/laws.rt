//! What a reader expects of a generated case.
ghost use Rattle.obs_trial.specs.inner.Laws.{FirstDraws, TrialCounts, TrialIsValid};

/// A grid of n rows has n * n nodes, and 2 * n * (n - 1) branches and as many meters.
pub fn counts()
    ensures counts { TrialCounts }
{}

/// The stated case is one that a `Case` can hold: names are names and differ, positions are in range,
/// and no table is too long.
pub fn valid()
    ensures valid { TrialIsValid }
{}

/// The generator gives seed 1 these draws first.
pub fn first_draws()
    ensures draws { FirstDraws }
{}
