// The kept pairs after an edit: what it takes away is given up, those that stand are kept, and searches make them longest.
ghost use Rattle.std.specs.Prelude.{◌≡◌, ◌≢◌, ◌+◌, ◌≤◌, ℕ, false, IsTrue, MatchBool, None, length};
ghost use Rattle.obs_assign.specs.inner.Assignment.{HasRoomOf, IsWhole, StandsOver, branch_at, pairs as pairs_at};
ghost use Rattle.obs_exchange.specs.inner.Laws.{IsThawed};
ghost use Rattle.obs_network.specs.Network.{case_meters, case_vertex_room, network_of};
ghost use Rattle.obs_network.specs.Observable.{case_rank};
ghost use Rattle.obs_repair.specs.declared.edit.Edit.TheVariants.{Meter};
ghost use Rattle.obs_repair.specs.Edits.{edited};
ghost use Rattle.obs_repair.specs.inner.Edits.{HasRow, IsRepaired, TakesOne};
ghost use Rattle.obs_repair.specs.inner.Parts.{BoundsWhereKnown, HasRoomForParts};
ghost use Rattle.obs_repair.specs.inner.Repairing.{AreKept, AreLeft, HasPlace, IsBefore, IsMeterTaken, IsNetworkBefore, IsSaidAlone, StoodBefore, is_put, most_pairs};
ghost use Rattle.obs_kept.specs.inner.Kept.{AreLongest};
ghost use Rattle.obs_repair.specs.inner.Kept.{HasRoom};

use crate::edit::Edit;
use crate::grow::grow;
use crate::hole::{joined_by, note_change};
use crate::limit::{is_between, least, limit, settle};
use crate::parts::Parts;
use obs_assign::{Assignment, Steps};
use obs_case::Case;
use obs_exchange::Work;
use obs_graph::Ends;
use obs_network::{Network, Present};
use std::sync::ledger::Ledger;

/// Whether the flag of the row is what the edit sets it to.
pub fn is_set(case: &Case, edit: Edit) -> bool
    requires row { HasRow case.now edit }
    ensures set { MatchBool result (edited case.now edit ≡ case.now) (edited case.now edit ≢ case.now) }
{
    match edit {
        Edit::Switch { at, closed } => case.switches()[at as usize].closed == closed,
        Edit::Branch { at, inservice } => case.branches()[at as usize].inservice == inservice,
        Edit::Meter { at, inservice } => case.meters()[at as usize].inservice == inservice,
    }
}

/// Sets the one flag.
pub fn set_flag(case: &mut Case, edit: Edit)
    requires row { HasRow case.old edit }
    ensures edited { case.new ≡ edited case.old edit }
{
    match edit {
        Edit::Switch { at, closed } => case.set_switch(at, closed),
        Edit::Branch { at, inservice } => case.set_branch(at, inservice),
        Edit::Meter { at, inservice } => case.set_meter(at, inservice),
    }
}

/// The meter whose pair the edit takes away: one that goes, or one that has a branch that trips.
fn taken(edit: Edit, a: &Assignment) -> Option<u32>
    requires place { HasPlace edit a.now }
    requires whole { IsWhole a.now }
    ensures taken { IsMeterTaken edit a.now result }
{
    match edit {
        Edit::Meter { at, inservice } => { if inservice { None } else { Some(at) } }
        Edit::Branch { at, inservice } => { if inservice { None } else { a.meter_of(at) } }
        Edit::Switch { at: _, closed: _ } => None,
    }
}

/// Gives up the pair that the edit takes away. The network is still that of before. Says which ends the pair joined.
fn give_up(case: &Case, network: &Network, edit: Edit, a: &mut Assignment) -> Option<Ends>
    requires before { IsBefore case.now edit network.now a.old }
    ensures left { AreLeft edit a.old a.new }
    ensures stands { StandsOver a.new network.now.graph network.now.meters.touches }
    ensures whole { IsWhole a.new }
    ensures thawed { IsThawed a.new }
    ensures same_room { HasRoomOf a.old a.new }
{
    let Some(m) = taken(edit, a) else {
        return None;
    };
    let joined = joined_by(network.graph(), a, m);
    a.drop_pair(network.graph(), m);
    joined
}

/// Makes the network that of the case after an edit. Says whether nothing changed but the meter or the branch of the
/// edit, and of a switch whether nothing changed.
fn follow(case: &Case, edit: Edit, network: &mut Network) -> bool
    requires before { IsNetworkBefore network.old edit case.now }
    ensures network { network.new ≡ network_of case.now }
    ensures alone { IsSaidAlone edit result network.old network.new }
{
    match edit {
        Edit::Meter { at, inservice: _ } => {
            network.refresh_meter(case, at);
            true
        }
        Edit::Branch { at, inservice: _ } => network.refresh_branch(case, at),
        Edit::Switch { at, closed: _ } => network.refresh_switch(case, at),
    }
}

/// Whether the edit puts a branch or a meter in service.
fn is_put(edit: Edit) -> bool
    ensures put { result ≡ is_put edit }
{
    match edit {
        Edit::Switch { at: _, closed: _ } => false,
        Edit::Branch { at: _, inservice } => inservice,
        Edit::Meter { at: _, inservice } => inservice,
    }
}

/// How many pairs there can be at the most. A meter or a branch alone adds one or none, and a switch that changes nothing
/// none.
fn most_pairs(edit: Edit, alone: bool, had: u32, needed: u32) -> u32
    ensures most { result ≡ most_pairs edit alone had needed }
{
    if !alone {
        return needed;
    }
    if is_put(edit) && had < needed {
        had + 1
    } else {
        had
    }
}

/// Gives up the pairs that don't stand any more, and of the others at most one, whose branch closes a cycle where a
/// switch was closed. Where nothing changed but the meter or the branch of the edit, all stand.
fn keep_standing(present: &Present<'_>, edit: Edit, alone: bool, a: &mut Assignment)
    requires before { StoodBefore present.now edit a.old }
    requires alone { IsTrue alone → StandsOver a.old (network_of present.now).graph (case_meters present.now) }
    requires thawed { IsThawed a.old }
    requires vertices { case_vertex_room present.now ≤ a.old.forest.most_vertices }
    ensures kept { AreKept present.now a.old a.new }
    ensures same { IsTrue alone → a.new ≡ a.old }
    ensures stands { StandsOver a.new (network_of present.now).graph (case_meters present.now) }
    ensures whole { IsWhole a.new }
    ensures thawed { IsThawed a.new }
    ensures same_room { HasRoomOf a.old a.new }
{
    if !alone {
        let _ = a.retain_touching(present.graph(), present.meters());
    }
}

/// Has the network follow an edit, and makes the pairs longest for it. No search is made where there are as many as the parts
/// bound. Says how many searches it took.
pub fn repair<L: Ledger>(
    case: &Case,
    edit: Edit,
    network: &mut Network,
    a: &mut Assignment,
    work: &mut Work,
    parts: &mut Parts,
    steps: &mut Steps<L>,
) -> u32
    requires before { IsBefore case.now edit network.old a.old }
    requires room { HasRoom case.now a.old work.old }
    requires parts_room { HasRoomForParts case.now parts.old }
    requires bounded { BoundsWhereKnown network.old parts.old (length (pairs_at a.old)) }
    ensures network { network.new ≡ network_of case.now }
    ensures longest { AreLongest case.now a.new }
    ensures repaired { IsRepaired case.now a.old a.new (length (pairs_at a.new)) result }
    ensures meter { TakesOne edit a.old a.new result }
    ensures without_pair { (at : ℕ) → edit ≡ Meter at false
        → branch_at a.old at ≡ None → (result ≡ 0) × (a.new.turns ≡ a.old.turns) }
    ensures ticks { steps.new ≡ steps.old + result }
    ensures room { HasRoom case.now a.new work.new }
    ensures parts_room { HasRoomForParts case.now parts.new }
    ensures bounded { BoundsWhereKnown network.new parts.new (case_rank case.now) }
{
    let had = a.length();
    let between = is_between(edit, network, parts);
    let joined = give_up(case, network, edit, a);
    let alone = follow(case, edit, network);
    let present = Present { case, network };
    keep_standing(&present, edit, alone, a);
    let hole = note_change(&present, edit, alone, joined, work);
    let bound = limit(edit, alone, between, had, &present, parts);
    let most = most_pairs(edit, alone, had, network.needed());
    let grown = grow(&present, edit, hole, least(most, bound), a, work, steps);
    settle(&present, a, work.reached(), grown.closed, bound, parts);
    grown.searches
}
