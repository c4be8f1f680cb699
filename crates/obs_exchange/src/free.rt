// The free branches that a meter touches.
ghost use Rattle.std.specs.Prelude.{◌≡◌, ◌<◌, ◌≤◌, ℕ, false, IfSome, IsSome, None, length, slice_index, slice_index_or};
ghost use Rattle.obs_matroid.specs.Lists.{In};
ghost use Rattle.obs_exchange.specs.inner.Searching.{IsFreeFor};
ghost use Rattle.obs_exchange.specs.inner.Setting.{is_joined_in};

use crate::setting::Setting;
use crate::stars::Stars;

/// The place of the first free branch in a list, from a place on.
fn free_place(over: &Setting<'_>, list: &[u32], first: usize) -> Option<usize>
    requires present { (e : ℕ) → In e list.now → IsSome (slice_index_or over.now.graph.ends e None) }
    ensures place { IfSome result (λ k. k < length list.now) }
    ensures free { IfSome result (λ k. is_joined_in over.now (slice_index list.now k) ≡ false) }
{
    for k in first..list.len() {
        if over.is_free(list[k]) {
            return Some(k);
        }
    }
    None
}

/// So many branches as a count, and none of them where they are too many for it.
pub fn count(branches: usize) -> u32
    ensures few { result ≤ branches }
{
    u32::try_from(branches).unwrap_or(0)
}

/// The first free branch that the meter touches. Where it touches the first so many branches at a vertex, as many of
/// these as are counted there are passed over, and those that were tried in vain are counted.
pub fn untried_branch(over: &Setting<'_>, m: u32, stars: &mut Stars) -> Option<u32>
    requires m { m < length over.now.touches }
    requires room { over.now.graph.vertices ≤ length stars.old }
    ensures free { IfSome result (λ e. IsFreeFor over.now m e) }
    ensures same { stars.new ≡ stars.old }
{
    let touched = over.touched(m);
    let Some(h) = over.hub(m) else {
        return match free_place(over, touched, 0) {
            Some(k) => Some(touched[k]),
            None => None,
        };
    };
    let tried = stars.tried(h.vertex);
    match free_place(over, touched, tried as usize) {
        Some(k) => {
            stars.set_tried(h.vertex, count(k));
            Some(touched[k])
        }
        None => {
            stars.set_tried(h.vertex, count(touched.len()).max(tried));
            None
        }
    }
}

/// How many of the branches that the meter touches `untried_branch` passes over in a search from one meter alone.
fn passed_over(over: &Setting<'_>, m: u32, stars: &Stars) -> u32
    requires m { m < length over.now.touches }
    requires room { over.now.graph.vertices ≤ length stars.now }
{
    if !over.is_single() {
        return 0;
    }
    match over.hub(m) {
        Some(h) => stars.tried(h.vertex),
        None => 0,
    }
}

/// The first free branch that the meter touches.
fn first_branch(over: &Setting<'_>, m: u32) -> Option<u32>
    requires m { m < length over.now.touches }
    ensures free { IfSome result (λ e. IsFreeFor over.now m e) }
{
    let touched = over.touched(m);
    match free_place(over, touched, 0) {
        Some(k) => Some(touched[k]),
        None => None,
    }
}

/// A free branch that the meter touches: as `untried_branch`, and where a search begins at one meter alone also one that
/// was passed over. It may have become free since it was tried.
pub fn free_branch(over: &Setting<'_>, m: u32, stars: &mut Stars) -> Option<u32>
    requires m { m < length over.now.touches }
    requires room { over.now.graph.vertices ≤ length stars.old }
    ensures free { IfSome result (λ e. IsFreeFor over.now m e) }
    ensures same { stars.new ≡ stars.old }
{
    let passed = passed_over(over, m, stars);
    if let Some(e) = untried_branch(over, m, stars) {
        return Some(e);
    }
    if passed == 0 {
        return None;
    }
    first_branch(over, m)
}
