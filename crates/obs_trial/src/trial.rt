// A generated case.
ghost use Rattle.std.specs.Prelude.{◌≡◌, ◌≤◌, IfOk};
ghost use Rattle.obs_trial.specs.Trial.{trial_of};

use crate::grid::{add_links, add_nodes};
use crate::memory::NoMemory;
use obs_case::Case;
use std::alloc::Global;

/// The case of `n` rows of `n` nodes each and this seed: a branch leads from each node to its
/// neighbours at the right and below, and each branch has a meter, on it or at one of its ends as
/// the seed's draws say.
#[tactic(auto, unfolding(crate::specs::Trial::trial_of))]
pub fn make(alloc: Global, n: u32, seed: u64) -> Result<Case, NoMemory>
    requires low { 1 ≤ n }
    requires high { n ≤ 100 }
    ensures made { IfOk result (λ case. case ≡ trial_of n seed) }
{
    let n = u64::from(n);
    let mut case = Case::new(alloc);
    add_nodes(&mut case, n * n)?;
    add_links(&mut case, n, seed)?;
    Ok(case)
}
