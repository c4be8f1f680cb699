// One row more.
ghost use Rattle.std.specs.Prelude.{◌≡◌, ◌<◌, ℕ, OnOk};
ghost use Rattle.obs_case.specs.Adds.{with_branch, with_meter, with_node};
ghost use Rattle.obs_trial.specs.inner.Named.{HasNodes, HasPlaces, place_letter};
ghost use Rattle.obs_trial.specs.Trial.{branch_at, meter_row, node_at};

use crate::memory::NoMemory;
use crate::names::{NAME_ROOM, numbered};
use obs_case::{Case, Kind};

const NODE: u8 = b'n';

const BRANCH: u8 = b'b';

const METER: u8 = b'm';

// Adds the node of this number. Its name is new and the table isn't full, so that it is refused only
// for want of memory; so are the rows below.
pub(crate) fn add_node(case: &mut Case, at: u64) -> Result<(), NoMemory>
    ensures added { OnOk result (case.new ≡ with_node case.old (node_at at)) }
{
    let mut room = [0; NAME_ROOM];
    match case.add_node(numbered(&mut room, NODE, at), at == 0) {
        Ok(_) => Ok(()),
        Err(_) => Err(NoMemory),
    }
}

// Adds the branch of this number between two nodes.
pub(crate) fn add_branch(case: &mut Case, k: u64, from: u64, to: u64) -> Result<(), NoMemory>
    ensures added { (count : ℕ) → HasNodes case.old count → from < count → to < count →
        OnOk result (case.new ≡ with_branch case.old (branch_at (k, (from, to)))) }
{
    let mut room = [0; NAME_ROOM];
    let (mut from_room, mut to_room) = ([0; NAME_ROOM], [0; NAME_ROOM]);
    let name = numbered(&mut room, BRANCH, k);
    let from_name = numbered(&mut from_room, NODE, from);
    let to_name = numbered(&mut to_room, NODE, to);
    match case.add_branch(name, from_name, to_name, true) {
        Ok(_) => Ok(()),
        Err(_) => Err(NoMemory),
    }
}

// The letter with which the names begin of what a meter of this kind stands at.
fn place_letter(kind: Kind) -> u8
    ensures letter { result ≡ place_letter kind }
{
    match kind {
        Kind::Flow => BRANCH,
        Kind::Injection | Kind::Zero | Kind::Angle => NODE,
    }
}

// Adds the meter of this number.
pub(crate) fn add_meter(case: &mut Case, k: u64, kind: Kind, at: u64) -> Result<(), NoMemory>
    ensures added { (count : ℕ) → HasPlaces case.old kind count → at < count →
        OnOk result (case.new ≡ with_meter case.old (meter_row k kind at)) }
{
    let (mut room, mut at_room) = ([0; NAME_ROOM], [0; NAME_ROOM]);
    let name = numbered(&mut room, METER, k);
    let place = numbered(&mut at_room, place_letter(kind), at);
    match case.add_meter(name, kind, place, true) {
        Ok(_) => Ok(()),
        Err(_) => Err(NoMemory),
    }
}
