// Room for the answers to a case, and those that are at hand.
ghost use Rattle.std.specs.Prelude.{◌≡◌, false, None, IfOk};
ghost use Rattle.obs_case.specs.Tables.{IsValid};
ghost use Rattle.obs_edit.specs.inner.Sessions.{HasRoomToAnswer};

use crate::hand::AtHand;
use obs_case::Case;
use obs_critical::CriticalWork;
use obs_islands::IslandRoom;
use obs_network::{position_count, vertex_room};
use obs_repair::{Measured, NoMemory};
use std::alloc::Global;

/// What was found in the present case beside the pairs.
pub(crate) struct Answers {
    // a flag for each meter: whether it is live and not critical
    pub(crate) marks: Vec<bool>,
    pub(crate) critical: CriticalWork,
    pub(crate) islands: IslandRoom,
    // the list of the bound that was measured last, in its front
    pub(crate) inside: Vec<u32>,
    pub(crate) measured: Measured,
    pub(crate) hand: AtHand,
}

// Written out: so a caller's proof sees one call, and not the drop of each field.
impl Drop for Answers {
    fn drop(self) {
        let Answers {
            marks: _,
            critical: _,
            islands: _,
            inside: _,
            measured: _,
            hand: _,
        } = self;
    }
}

/// Room for the answers to each case with as many rows as this one, and none at hand.
pub(crate) fn make_answers(alloc: Global, case: &Case) -> Result<Answers, NoMemory>
    ensures room { IfOk result
        (λ x. HasRoomToAnswer case.now x.marks.items x.critical x.islands x.inside.items x.measured.listed) }
    ensures nothing { IfOk result (λ x. x.hand ≡
        record { first = false; critical = false; islands = false; bound = None; placed = false }) }
    ensures valid { IsValid case.now }
{
    let meters = case.meters().len();
    let positions = position_count(case);
    let vertices = vertex_room(case);
    let Ok(marks) = vec![in alloc; false; meters] else {
        return Err(NoMemory);
    };
    let Ok(critical) = CriticalWork::make(alloc, meters as u32) else {
        return Err(NoMemory);
    };
    let Ok(islands) = IslandRoom::make(alloc, meters as u32, positions, vertices) else {
        return Err(NoMemory);
    };
    let Ok(inside) = vec![in alloc; 0; meters] else {
        return Err(NoMemory);
    };
    Ok(Answers {
        marks,
        critical,
        islands,
        inside,
        measured: Measured {
            listed: 0,
            rank: 0,
            outside: 0,
        },
        hand: AtHand::nothing(),
    })
}
