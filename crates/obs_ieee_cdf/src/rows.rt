// The lines of the sections, read into a case.
ghost use Rattle.std.specs.Prelude.{ℕ, ◌≡◌, ◌+◌, ◌<◌, ◌^◌, List, [], ◌∷◌, ◌++◌, length};
ghost use Rattle.obs_text.specs.Lines.{lines_of};
ghost use Rattle.obs_case.specs.Tables.{no_rows_within};
ghost use Rattle.obs_case.specs.declared.rows.Branch.{Branch};
ghost use Rattle.obs_bus_branch.specs.Buses.{Bus, tables_of_rows};
ghost use Rattle.obs_bus_branch.specs.inner.Buses.{AreNamed};
ghost use Rattle.obs_bus_branch.specs.Rows.{read_rows};
ghost use Rattle.obs_ieee_cdf.specs.inner.Reading.{Answers, AreBuses, stop_of};
ghost use Rattle.obs_ieee_cdf.specs.Rows.{numbered, read_branch, read_bus};

use crate::fault::CdfFault;
use crate::fields::{branch_fields, bus_fields};
use crate::stop::Stop;
use crate::values::{bus_number, has_source, is_passed_over};
use obs_bus_branch::{NAME_ROOM, branch_name};
use obs_case::{AddFault, Case};
use obs_text::{Digits, lines};

// Why reading stops at a row that the case refuses for this cause.
fn stop(fault: AddFault, cause: CdfFault) -> Stop
    ensures stop { result ≡ stop_of fault cause }
{
    match fault {
        AddFault::NoMemory => Stop::NoMemory,
        _ => Stop::Fault(cause),
    }
}

// Adds the bus that a bus line is.
fn add_bus(case: &mut Case, line: &[u8], at: u32) -> Result<(), Stop>
    ensures read { (most : ℕ) (earlier : List Bus) → AreBuses earlier →
        case.old ≡ tables_of_rows most earlier [] →
        Answers (read_bus most earlier at line.now)
        (λ bus. tables_of_rows most (earlier ++ bus ∷ []) []) case.new result }
{
    if case.nodes().len() >= case.most() as usize {
        return Err(Stop::Fault(CdfFault::TooMany(at)));
    }
    let fields = bus_fields(line);
    let Some(number) = bus_number(fields.number) else {
        return Err(Stop::Fault(CdfFault::BadBusNumber(at)));
    };
    let Some(source) = has_source(fields.kind) else {
        return Err(Stop::Fault(CdfFault::BadType(at)));
    };
    let mut digits = Digits::new();
    match case.add_node(digits.text(number), source) {
        Ok(_) => Ok(()),
        // The table isn't full, so the number stands there.
        Err(fault) => Err(stop(fault, CdfFault::BusTwice(at))),
    }
}

// Adds the buses that the lines of a section are.
pub(crate) fn add_buses(case: &mut Case, section: &[u8], first: u32) -> Result<(), Stop>
    requires empty { case.old ≡ no_rows_within case.old.most }
    requires room { first + length section.now < 2 ^ 32 }
    ensures read { Answers (read_rows (read_bus case.old.most) [] (numbered first (lines_of section.now)))
        (λ buses. tables_of_rows case.old.most buses []) case.new result }
{
    let mut at = first;
    for line in lines(section) {
        if !is_passed_over(line) {
            add_bus(case, line, at)?;
        }
        at += 1;
    }
    Ok(())
}

// Adds the branch that a branch line is.
fn add_branch(case: &mut Case, line: &[u8], at: u32) -> Result<(), Stop>
    ensures read { (most : ℕ) (buses : List Bus) (earlier : List Branch) → AreBuses buses →
        AreNamed 1 earlier → case.old ≡ tables_of_rows most buses earlier →
        Answers (read_branch most buses earlier at line.now)
        (λ branch. tables_of_rows most buses (earlier ++ branch ∷ [])) case.new result }
{
    let count = case.branches().len();
    if count >= case.most() as usize {
        return Err(Stop::Fault(CdfFault::TooMany(at)));
    }
    let fields = branch_fields(line);
    let Some(from) = bus_number(fields.from) else {
        return Err(Stop::Fault(CdfFault::BadBusNumber(at)));
    };
    let Some(to) = bus_number(fields.to) else {
        return Err(Stop::Fault(CdfFault::BadBusNumber(at)));
    };
    let (mut from_digits, mut to_digits) = (Digits::new(), Digits::new());
    let mut room = [0; NAME_ROOM];
    let name = branch_name(&mut room, count as u64 + 1);
    match case.add_branch(name, from_digits.text(from), to_digits.text(to), true) {
        Ok(_) => Ok(()),
        // The table isn't full and has no such name, so an end is no bus.
        Err(fault) => Err(stop(fault, CdfFault::UnknownBus(at))),
    }
}

// Adds the branches that the lines of a section are.
pub(crate) fn add_branches(case: &mut Case, section: &[u8], first: u32) -> Result<(), Stop>
    requires room { first + length section.now < 2 ^ 32 }
    ensures read { (most : ℕ) (buses : List Bus) → AreBuses buses → case.old ≡ tables_of_rows most buses [] →
        Answers (read_rows (read_branch most buses) [] (numbered first (lines_of section.now)))
        (tables_of_rows most buses) case.new result }
{
    let mut at = first;
    for line in lines(section) {
        if !is_passed_over(line) {
            add_branch(case, line, at)?;
        }
        at += 1;
    }
    Ok(())
}
