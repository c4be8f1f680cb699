// How many pairs the parts bound after an edit, and which parts are known after its searches.
ghost use Rattle.std.specs.Prelude.{◌≡◌, ◌⊎◌, ◌+◌, ◌<◌, ◌≤◌, true, false, Some, IfSome, length};
ghost use Rattle.obs_assign.specs.inner.Assignment.{pairs};
ghost use Rattle.obs_exchange.specs.declared.Sources.TheVariants.{All};
ghost use Rattle.obs_exchange.specs.inner.Found.{HasClosed};
ghost use Rattle.obs_network.specs.Network.{case_branches, case_meters, case_vertex_count, network_of};
ghost use Rattle.obs_kept.specs.inner.Kept.{AreLongest};
ghost use Rattle.obs_repair.specs.inner.Parts.{AreBoundBefore, BoundsNetwork, BoundsWhereKnown, IsPlaceIn, IsSaidBetween, is_within};

use crate::edit::Edit;
use crate::parts::Parts;
use obs_assign::Assignment;
use obs_network::{Network, Present};

/// Whether the edit takes away a meter that touches a branch between two parts. The network is still that of before.
pub(crate) fn is_between(edit: Edit, network: &Network, parts: &Parts) -> bool
    requires place { IsPlaceIn edit network.now }
    requires room { network.now.graph.vertices ≤ length parts.now.first }
    ensures between { IsSaidBetween edit result network.now parts.now.first }
{
    match edit {
        Edit::Meter { at, inservice } => {
            !inservice && !parts.is_within(network.graph(), network.meters(), at)
        }
        Edit::Branch {
            at: _,
            inservice: _,
        } => false,
        Edit::Switch { at: _, closed: _ } => false,
    }
}

/// How many pairs the parts bound after a meter came back: as many as before, where it touches branches inside of parts alone.
fn limit_back(at: u32, had: u32, present: &Present<'_>, parts: &Parts) -> Option<u32>
    requires item { at < length (case_meters present.now) }
    requires room { case_vertex_count present.now ≤ length parts.now.first }
    requires more { BoundsNetwork (network_of present.now) parts.now.first (had + 1) }
    requires within { is_within parts.now.first (case_branches present.now) (case_meters present.now) at ≡ true
        → BoundsNetwork (network_of present.now) parts.now.first had }
    ensures limit { IfSome result (λ most. BoundsNetwork (network_of present.now) parts.now.first most) }
{
    if parts.is_within(present.graph(), present.meters(), at) {
        return Some(had);
    }
    if had < present.network().needed() {
        Some(had + 1)
    } else {
        None
    }
}

/// How many pairs the parts bound after an edit, where that is known. They bounded as many as there were before.
pub(crate) fn limit(
    edit: Edit,
    alone: bool,
    between: bool,
    had: u32,
    present: &Present<'_>,
    parts: &Parts,
) -> Option<u32>
    requires before { parts.now.known ≡ true
        → AreBoundBefore edit alone between (network_of present.now) parts.now.first had }
    requires place { IsPlaceIn edit (network_of present.now) }
    requires room { case_vertex_count present.now ≤ length parts.now.first }
    ensures limit { IfSome result (λ most. BoundsNetwork (network_of present.now) parts.now.first most) }
{
    if !parts.are_known() {
        return None;
    }
    match edit {
        Edit::Meter { at, inservice } => {
            if inservice {
                limit_back(at, had, present, parts)
            } else if between {
                Some(had.saturating_sub(1))
            } else {
                Some(had)
            }
        }
        Edit::Branch { at, inservice: _ } => {
            if alone && parts.is_inside(present.graph(), at) {
                Some(had)
            } else {
                None
            }
        }
        Edit::Switch { at: _, closed: _ } => None,
    }
}

/// The smaller one of a number and a limit, where there is one.
pub(crate) fn least(most: u32, limit: Option<u32>) -> u32
    ensures within { result ≤ most }
    ensures one { (result ≡ most) ⊎ (limit ≡ Some result) }
{
    match limit {
        Some(k) => { if k < most { k } else { most } }
        None => most,
    }
}

/// Makes the parts anew where a search from all sources ended closed. Else they stay where they bound as many pairs as there
/// are, and aren't known where they don't.
pub(crate) fn settle(
    present: &Present<'_>,
    a: &Assignment,
    reached: &[bool],
    closed: bool,
    limit: Option<u32>,
    parts: &mut Parts,
)
    requires longest { AreLongest present.now a.now }
    requires closed { closed ≡ true
        → HasClosed (case_branches present.now) (case_meters present.now) All a.now a.now reached.now }
    requires limit { IfSome limit (λ most. BoundsNetwork (network_of present.now) parts.old.first most) }
    requires room { case_vertex_count present.now ≤ length parts.old.first }
    requires positions { length (case_branches present.now) ≡ parts.old.positions }
    ensures bounded { BoundsWhereKnown (network_of present.now) parts.new (length (pairs a.now)) }
    ensures vertices { length parts.new.first ≡ length parts.old.first }
    ensures same_positions { parts.new.positions ≡ parts.old.positions }
{
    if closed {
        parts.renew(present.graph(), present.meters(), a, reached);
        return;
    }
    match limit {
        Some(most) => {
            if a.length() < most {
                parts.forget();
            }
        }
        None => parts.forget(),
    }
}
