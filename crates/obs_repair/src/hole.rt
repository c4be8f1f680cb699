// Where a pair stood that an edit took away: a hint for the search that follows, on which nothing rests.
ghost use Rattle.std.specs.Prelude.{◌≡◌, ◌<◌, length};
ghost use Rattle.obs_assign.specs.inner.Assignment.{StandsOver};
ghost use Rattle.obs_network.specs.Network.{case_meters, network_of};

use crate::edit::Edit;
use crate::grow::back;
use obs_assign::Assignment;
use obs_exchange::Work;
use obs_graph::{Ends, Graph};
use obs_network::Present;

/// The ends that the meter's pair joins, if it has one.
pub(crate) fn joined_by(g: &Graph, a: &Assignment, m: u32) -> Option<Ends>
    requires m { m < length a.now.slots }
{
    let e = a.branch_of(m)?;
    if e < g.positions() { g.ends(e) } else { None }
}

/// Notes which meters touch something else than before the edit: its own, or maybe all. Says which ends a pair joined that
/// it took away, where these stand for the same now.
pub(crate) fn note_change(
    present: &Present<'_>,
    edit: Edit,
    alone: bool,
    joined: Option<Ends>,
    work: &mut Work,
) -> Option<Ends>
    ensures same { work.new ≡ work.old }
{
    if !alone {
        work.forget_touching();
        return None;
    }
    if let Some(m) = back(edit) {
        if m < present.meters().count() {
            work.put_touching(present.meters().kind(m), m);
        }
    }
    joined
}

/// Looks from these ends for a source that could join them, where there are fewer pairs than there can be.
pub(crate) fn look_across(
    present: &Present<'_>,
    hole: Option<Ends>,
    most: u32,
    a: &Assignment,
    work: &mut Work,
)
    requires stands { StandsOver a.now (network_of present.now).graph (case_meters present.now) }
    ensures same { work.new ≡ work.old }
{
    if a.length() >= most {
        return;
    }
    if let Some(ends) = hole {
        work.look_across(present.graph(), present.meters(), a, ends);
    }
}
