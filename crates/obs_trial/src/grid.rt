// The branches of a grid, each with its meter.
ghost use Rattle.std.specs.Prelude.{◌≡◌, ◌<◌, ◌≤◌, ◌*◌, ◌++◌, ◌∷◌, [], List, ℕ, IfOk, OnOk};
ghost use Rattle.obs_case.specs.inner.Tables.{no_rows};
ghost use Rattle.obs_trial.specs.inner.Named.{IsSoFar};
ghost use Rattle.obs_trial.specs.Trial.{ends_of_first, kind_drawn, nodes_of, place_drawn, to_below, to_right, trial_with};

use crate::draws::{drawn, first_state, next_state};
use crate::memory::NoMemory;
use crate::rows::{add_branch, add_meter, add_node};
use obs_case::{Case, Kind};

/// The most nodes of a grid.
const MOST: u64 = 10_000;

// Adds so many nodes.
pub(crate) fn add_nodes(case: &mut Case, count: u64) -> Result<(), NoMemory>
    requires empty { case.old ≡ no_rows }
    ensures added { OnOk result (case.new ≡ record no_rows { nodes = nodes_of count }) }
{
    for at in 0..count {
        add_node(case, at)?;
    }
    Ok(())
}

// What a meter measures by its draw.
fn kind_drawn(draw: u64) -> Kind
    ensures kind { result ≡ kind_drawn draw }
{
    if draw % 3 == 0 {
        Kind::Flow
    } else {
        Kind::Injection
    }
}

// Where it stands.
fn place_drawn(draw: u64, k: u64, from: u64, to: u64) -> u64
    ensures place { result ≡ place_drawn draw k (from, to) }
{
    if draw % 3 == 0 {
        k
    } else if draw % 3 == 1 {
        from
    } else {
        to
    }
}

// Adds a branch and its meter, and answers the state of the generator after the draw.
fn add_link(case: &mut Case, state: u32, from: u64, to: u64) -> Result<u32, NoMemory>
    ensures added { (n seed : ℕ) (ends : List (ℕ × ℕ)) →
        IsSoFar n seed ends case.old state → from < n * n → to < n * n →
        IfOk result (λ after. IsSoFar n seed (ends ++ (from, to) ∷ []) case.new after) }
{
    let k = case.branches().len() as u64;
    add_branch(case, k, from, to)?;
    let after = next_state(state);
    let draw = drawn(after);
    add_meter(case, k, kind_drawn(draw), place_drawn(draw, k, from, to))?;
    Ok(after)
}

// Adds the branch to the right, if there is one.
fn add_right(case: &mut Case, state: u32, n: u64, at: u64) -> Result<u32, NoMemory>
    requires some { 0 < n }
    requires few { at < MOST }
    ensures added { (seed : ℕ) (ends : List (ℕ × ℕ)) → IsSoFar n seed ends case.old state → at < n * n →
        IfOk result (λ after. IsSoFar n seed (ends ++ to_right n at) case.new after) }
{
    if at % n + 1 < n {
        add_link(case, state, at, at + 1)
    } else {
        Ok(state)
    }
}

// Adds the branch downwards, if there is one.
fn add_below(case: &mut Case, state: u32, n: u64, at: u64) -> Result<u32, NoMemory>
    requires some { 0 < n }
    requires high { n ≤ 100 }
    requires few { at < MOST }
    ensures added { (seed : ℕ) (ends : List (ℕ × ℕ)) → IsSoFar n seed ends case.old state → at < n * n →
        IfOk result (λ after. IsSoFar n seed (ends ++ to_below n at) case.new after) }
{
    if at / n + 1 < n {
        add_link(case, state, at, at + n)
    } else {
        Ok(state)
    }
}

// Adds the branches and meters of a grid of n rows to its nodes.
pub(crate) fn add_links(case: &mut Case, n: u64, seed: u64) -> Result<(), NoMemory>
    requires some { 0 < n }
    requires high { n ≤ 100 }
    requires nodes { case.old ≡ record no_rows { nodes = nodes_of (n * n) } }
    ensures added { OnOk result (case.new ≡ trial_with n seed (ends_of_first n (n * n))) }
{
    let mut state = first_state(seed);
    for at in 0..n * n {
        state = add_right(case, state, n, at)?;
        state = add_below(case, state, n, at)?;
    }
    Ok(())
}
