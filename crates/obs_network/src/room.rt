//! For how many positions and vertices there is to be room.
ghost use Rattle.std.specs.Prelude.{◌≡◌};
ghost use Rattle.obs_network.specs.Network.{case_vertex_room};
ghost use Rattle.obs_network.specs.inner.Network.{case_position_count};

use crate::angles::has_angle;
use obs_case::Case;

/// How many positions the branches of a case's network have: one for each row of the branch table, and where one of the
/// items is an angle item one for each item. No edit changes it.
pub fn position_count(case: &Case) -> u32
    ensures count { result ≡ case_position_count case.now }
{
    let branches = case.branches().len() as u32;
    if has_angle(case) {
        branches + case.meters().len() as u32 + case.candidates().len() as u32
    } else {
        branches
    }
}

/// For how many vertices there is to be room, whichever switches are closed.
pub fn vertex_room(case: &Case) -> u32
    ensures room { result ≡ case_vertex_room case.now }
{
    2 * case.nodes().len() as u32
}
