// The rows of the tables, read into a case.
ghost use Rattle.std.specs.Prelude.{ℕ, ◌≡◌, ◌≤◌, ◌<◌, ◌+◌, ◌&&◌, false, get_or, is_none, not, List, [], ◌∷◌, ◌++◌, length, Some};
ghost use Rattle.obs_text.specs.Limits.{most_file_bytes};
ghost use Rattle.obs_case.specs.Tables.{no_rows_within};
ghost use Rattle.obs_case.specs.declared.rows.Branch.{Branch};
ghost use Rattle.obs_bus_branch.specs.inner.Buses.{AreNamed};
ghost use Rattle.obs_matpower.specs.Read.{BusRow, branch_of, buses_of, isolated_of, read_branch, read_bus};
ghost use Rattle.obs_matpower.specs.inner.Reading.{Answers, AreBuses, held_branches, held_buses, read_text, stop_of};

use crate::fault::MatFault;
use crate::fields::{is_short, number_in, status_in, type_in};
use crate::part::MatPart;
use crate::row_start::rows;
use crate::stop::Stop;
use obs_bus_branch::{NAME_ROOM, branch_name};
use obs_case::{AddFault, Case};
use obs_text::Digits;

/// The fewest values of a bus row, the last of which is the type.
const BUS_COLUMNS: usize = 2;

/// The fewest values of a branch row, the last of which is the status.
const BRANCH_COLUMNS: usize = 11;

// Why reading stops at a row that the case refuses for this cause.
fn stop(fault: AddFault, cause: MatFault) -> Stop
    ensures stop { result ≡ stop_of fault cause }
{
    match fault {
        AddFault::NoMemory => Stop::NoMemory,
        _ => Stop::Fault(cause),
    }
}

// Adds the bus that a row is.
fn add_bus(case: &mut Case, isolated: &mut Vec<bool>, row: &[u8], at: u32) -> Result<(), Stop>
    ensures read { (most : ℕ) (earlier : List BusRow) → AreBuses (buses_of earlier) →
        case.old ≡ (held_buses most earlier).0 → isolated.old.items ≡ (held_buses most earlier).1 →
        Answers (read_bus most earlier at row.now) (λ bus. held_buses most (earlier ++ bus ∷ []))
        (case.new, isolated.new.items) result }
{
    if case.nodes().len() >= case.most() as usize {
        return Err(Stop::Fault(MatFault::TooMany(at)));
    }
    if is_short(row, BUS_COLUMNS) {
        return Err(Stop::Fault(MatFault::ShortRow(at)));
    }
    let Some(number) = number_in(row, 1) else {
        return Err(Stop::Fault(MatFault::BadBusNumber(at)));
    };
    let Some(kind) = type_in(row, 2) else {
        return Err(Stop::Fault(MatFault::BadType(at)));
    };
    let mut digits = Digits::new();
    if let Err(fault) = case.add_node(digits.text(number), kind.is_source()) {
        return Err(stop(fault, MatFault::BusTwice(at)));
    }
    match isolated.push(kind.is_isolated()) {
        Ok(()) => Ok(()),
        Err(_) => Err(Stop::NoMemory),
    }
}

// Adds the buses that the rows of a text are.
pub(crate) fn add_buses(
    case: &mut Case,
    isolated: &mut Vec<bool>,
    part: &MatPart,
) -> Result<(), Stop>
    requires few { length part.now.text.now ≤ most_file_bytes }
    requires low { part.now.line ≤ most_file_bytes }
    requires empty { case.old ≡ no_rows_within case.old.most }
    requires none { isolated.old.items ≡ [] }
    ensures read { Answers (read_text (read_bus case.old.most)
        (is_none part.now.end) part.now.line part.now.text.now part.now.end) (held_buses case.old.most)
        (case.new, isolated.new.items) result }
{
    for row in rows(part) {
        add_bus(case, isolated, row.bytes, row.line)?;
    }
    match part.end {
        Some(fault) => Err(Stop::Fault(fault)),
        None => Ok(()),
    }
}

// Whether the bus at a position is isolated.
fn is_isolated_at(isolated: &[bool], at: u32) -> bool
    ensures isolated { result ≡ get_or isolated.now at false }
{
    match isolated.get(at as usize) {
        Some(flag) => *flag,
        None => false,
    }
}

// Whether a branch is in service that has this status and stands between the buses at two positions.
fn is_in_service(status: bool, isolated: &[bool], first: u32, second: u32) -> bool
    ensures inservice { result ≡ (status && not (get_or isolated.now first false) && not
        (get_or isolated.now second false)) }
{
    status && !is_isolated_at(isolated, first) && !is_isolated_at(isolated, second)
}

// Adds the branch between two numbers of buses.
fn add_between(
    case: &mut Case,
    isolated: &[bool],
    from: u64,
    to: u64,
    status: Option<bool>,
    at: u32,
) -> Result<(), Stop>
    requires from { from < 1000000000 }
    requires to { to < 1000000000 }
    ensures read { (most : ℕ) (buses : List BusRow) (earlier : List Branch) → AreBuses (buses_of buses) →
        AreNamed 1 earlier → length earlier < most →
        case.old ≡ held_branches most buses earlier → isolated.now ≡ isolated_of buses →
        Answers (branch_of buses (length earlier + 1) at (Some from) (Some to) status) (λ branch. held_branches most
        buses (earlier ++ branch ∷ [])) case.new result }
{
    let (mut from_digits, mut to_digits) = (Digits::new(), Digits::new());
    let from = from_digits.text(from);
    let to = to_digits.text(to);
    let Some(first) = case.find_node(from) else {
        return Err(Stop::Fault(MatFault::UnknownBus(at)));
    };
    let Some(second) = case.find_node(to) else {
        return Err(Stop::Fault(MatFault::UnknownBus(at)));
    };
    let Some(status) = status else {
        return Err(Stop::Fault(MatFault::BadStatus(at)));
    };
    let inservice = is_in_service(status, isolated, first, second);
    let count = case.branches().len();
    let mut room = [0; NAME_ROOM];
    let name = branch_name(&mut room, count as u64 + 1);
    match case.add_branch(name, from, to, inservice) {
        Ok(_) => Ok(()),
        // The table isn't full, the name is new and the ends are buses: memory is wanting.
        Err(_) => Err(Stop::NoMemory),
    }
}

// Adds the branch that a row is.
fn add_branch(case: &mut Case, isolated: &[bool], row: &[u8], at: u32) -> Result<(), Stop>
    ensures read { (most : ℕ) (buses : List BusRow) (earlier : List Branch) → AreBuses (buses_of buses) →
        AreNamed 1 earlier → case.old ≡ held_branches most buses earlier → isolated.now ≡ isolated_of buses →
        Answers (read_branch most buses earlier at row.now) (λ branch. held_branches most buses
        (earlier ++ branch ∷ [])) case.new result }
{
    if case.branches().len() >= case.most() as usize {
        return Err(Stop::Fault(MatFault::TooMany(at)));
    }
    if is_short(row, BRANCH_COLUMNS) {
        return Err(Stop::Fault(MatFault::ShortRow(at)));
    }
    let Some(from) = number_in(row, 1) else {
        return Err(Stop::Fault(MatFault::BadBusNumber(at)));
    };
    let Some(to) = number_in(row, 2) else {
        return Err(Stop::Fault(MatFault::BadBusNumber(at)));
    };
    let status = status_in(row, BRANCH_COLUMNS);
    add_between(case, isolated, from, to, status, at)
}

// Adds the branches that the rows of a text are.
pub(crate) fn add_branches(case: &mut Case, isolated: &[bool], part: &MatPart) -> Result<(), Stop>
    requires few { length part.now.text.now ≤ most_file_bytes }
    requires low { part.now.line ≤ most_file_bytes }
    ensures read { (most : ℕ) (buses : List BusRow) → AreBuses (buses_of buses) →
        case.old ≡ held_branches most buses [] → isolated.now ≡ isolated_of buses →
        Answers (read_text (read_branch most buses) (is_none part.now.end) part.now.line part.now.text.now part.now.end)
        (held_branches most buses) case.new result }
{
    for row in rows(part) {
        add_branch(case, isolated, row.bytes, row.line)?;
    }
    match part.end {
        Some(fault) => Err(Stop::Fault(fault)),
        None => Ok(()),
    }
}
