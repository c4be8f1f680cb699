// The searches of a repair.
ghost use Rattle.std.specs.Prelude.{◌≡◌, ◌+◌, ◌-◌, ◌≤◌, ℕ, true, length};
ghost use Rattle.obs_meter.specs.inner.Sizes.{HasRoomFor};
ghost use Rattle.obs_assign.specs.inner.Assignment.{HasRoomOf, StandsOver, pairs};
ghost use Rattle.obs_exchange.specs.declared.Sources.TheVariants.{All};
ghost use Rattle.obs_exchange.specs.inner.Found.{HasClosed};
ghost use Rattle.obs_exchange.specs.inner.Laws.{IsThawed};
ghost use Rattle.obs_exchange.specs.inner.Lengthened.{HasLengthened};
ghost use Rattle.obs_exchange.specs.inner.Longest.{IsMost};
ghost use Rattle.obs_network.specs.Network.{case_branches, case_meters, network_of};
ghost use Rattle.obs_repair.specs.declared.edit.Edit.TheVariants.{Meter};
ghost use Rattle.obs_kept.specs.inner.Kept.{AreLongest};
ghost use Rattle.obs_repair.specs.inner.Repairing.{IsBack, IsMeterBack};

use crate::edit::Edit;
use crate::hole::look_across;
use obs_assign::{Assignment, Steps};
use obs_exchange::{Found, Lengthened, Sources, Work, regrow, search};
use obs_graph::Ends;
use obs_network::Present;
use std::sync::ledger::Ledger;

/// The meter that the edit puts in service.
pub(crate) fn back(edit: Edit) -> Option<u32>
    ensures back { IsMeterBack edit result }
{
    match edit {
        Edit::Meter { at, inservice } => { if inservice { Some(at) } else { None } }
        Edit::Branch {
            at: _,
            inservice: _,
        } => None,
        Edit::Switch { at: _, closed: _ } => None,
    }
}

/// Searches once from a meter that came back, where there are fewer pairs than there can be. Says how many searches it
/// took.
fn search_back<L: Ledger>(
    present: &Present<'_>,
    m: u32,
    most: u32,
    a: &mut Assignment,
    work: &mut Work,
    steps: &mut Steps<L>,
) -> u32
    requires stands { StandsOver a.old (network_of present.now).graph (case_meters present.now) }
    requires thawed { IsThawed a.old }
    requires room { HasRoomFor work.old.sizes (network_of present.now).graph (case_meters present.now) }
    requires most { IsMost (case_branches present.now) (case_meters present.now) most }
    requires back { IsBack (network_of present.now).graph (case_meters present.now) m a.old }
    ensures longest { AreLongest present.now a.new }
    ensures lengthened { HasLengthened a.old a.new result }
    ensures bound { result ≤ most - length (pairs a.old) }
    ensures ticks { steps.new ≡ steps.old + result }
    ensures same_room { HasRoomOf a.old a.new }
    ensures same_sizes { work.new.sizes ≡ work.old.sizes }
{
    let g = present.graph();
    let ms = present.meters();
    let _ = a.turns();
    if a.length() >= most {
        return 0;
    }
    match search(g, ms, a, Sources::One(m), work, steps) {
        Found::Grown(_) => {}
        Found::Closed => {}
    }
    1
}

/// Makes the pairs longest, of which no assignment has more than `most`. Where a meter came back no pair but one of its own
/// can be missing, so that one search from it is enough. The first search begins near the hole that a pair left, if one did.
/// Says how many searches it took, and whether one from all sources ended closed.
pub(crate) fn grow<L: Ledger>(
    present: &Present<'_>,
    edit: Edit,
    hole: Option<Ends>,
    most: u32,
    a: &mut Assignment,
    work: &mut Work,
    steps: &mut Steps<L>,
) -> Lengthened
    requires stands { StandsOver a.old (network_of present.now).graph (case_meters present.now) }
    requires thawed { IsThawed a.old }
    requires room { HasRoomFor work.old.sizes (network_of present.now).graph (case_meters present.now) }
    requires most { IsMost (case_branches present.now) (case_meters present.now) most }
    requires back { (m : ℕ) → edit ≡ Meter m true → IsBack (network_of present.now).graph (case_meters present.now) m a.old }
    ensures longest { AreLongest present.now a.new }
    ensures lengthened { HasLengthened a.old a.new result.searches }
    ensures closed { result.closed ≡ true
        → HasClosed (case_branches present.now) (case_meters present.now) All a.new a.new work.new.reached }
    ensures bound { result.searches ≤ most - length (pairs a.old) }
    ensures ticks { steps.new ≡ steps.old + result.searches }
    ensures same_room { HasRoomOf a.old a.new }
    ensures same_sizes { work.new.sizes ≡ work.old.sizes }
{
    match back(edit) {
        Some(m) => Lengthened {
            searches: search_back(present, m, most, a, work, steps),
            closed: false,
        },
        None => {
            look_across(present, hole, most, a, work);
            regrow(present.graph(), present.meters(), a, most, work, steps)
        }
    }
}
