// Cases from bytes.
ghost use Rattle.std.specs.Prelude.{◌≡◌, ◌≤◌, Ok, length, option_map, IfErr, IfOk, OnOk};
ghost use Rattle.obs_case.specs.Tables.{most_rows, no_rows_within};
ghost use Rattle.obs_matpower.specs.Read.{case_within, mat_within};
ghost use Rattle.obs_matpower.specs.inner.Read.{EndsCase, case_in};
ghost use Rattle.obs_matpower.specs.inner.Reading.{Answers};
ghost use Rattle.obs_text.specs.Limits.{most_file_bytes};

use crate::add::{add_branches, add_buses};
use crate::fault::MatEnd;
use crate::part::MatTable;
use crate::search::table;
use crate::stop::Stop;
use obs_case::{Case, USUAL_ROWS};
use obs_case_csv::add_tables;
use std::alloc::Global;

// Adds the nodes and branches of a file to an empty case.
fn add_file(alloc: Global, case: &mut Case, matpower: &[u8]) -> Result<(), Stop>
    requires empty { case.old ≡ no_rows_within case.old.most }
    requires few { length matpower.now ≤ most_file_bytes }
    ensures read { Answers (mat_within case.old.most matpower.now) (λ tables. tables) case.new result }
{
    let mut isolated = Vec::new(alloc);
    let buses = table(matpower, MatTable::Bus);
    add_buses(case, &mut isolated, &buses)?;
    let branches = table(matpower, MatTable::Branch);
    add_branches(case, &isolated, &branches)
}

// Fills an empty case with a file and its tables.
fn fill_case(
    alloc: Global,
    case: &mut Case,
    matpower: &[u8],
    meters: &[u8],
    candidates: Option<&[u8]>,
) -> Result<(), MatEnd>
    requires empty { case.old ≡ no_rows_within case.old.most }
    requires few { length matpower.now ≤ most_file_bytes }
    ensures read { OnOk result
        (case_within case.old.most matpower.now meters.now (option_map (λ bytes. bytes.now) candidates.entry) ≡ Ok case.new) }
    ensures refused { IfErr result
        (EndsCase (case_within case.old.most matpower.now meters.now (option_map (λ bytes. bytes.now) candidates.entry))) }
{
    add_file(alloc, case, matpower)?;
    add_tables(alloc, case, meters, candidates)?;
    Ok(())
}

/// The case that a MATPOWER case file of version 2 is, with a table of meters and, where it is
/// given, a table of candidates. Nodes are named by their numbers, branches `L1`, `L2`, and so on.
/// There are no switches, and a table may have at most 20,000 rows. Refuses with the first fault of
/// the bus table, then with that of the branch table, then with those of the tables.
pub fn read_matpower(
    alloc: Global,
    matpower: &[u8],
    meters: &[u8],
    candidates: Option<&[u8]>,
) -> Result<Case, MatEnd>
    requires few { length matpower.now ≤ most_file_bytes }
    ensures read { IfOk result
        (λ case. case_in matpower.now meters.now (option_map (λ bytes. bytes.now) candidates.entry) ≡ Ok case) }
    ensures refused { IfErr result
        (EndsCase (case_in matpower.now meters.now (option_map (λ bytes. bytes.now) candidates.entry))) }
{
    read_matpower_within(alloc, USUAL_ROWS as u32, matpower, meters, candidates)
}

/// The same, where a table may have at most so many rows.
pub fn read_matpower_within(
    alloc: Global,
    most: u32,
    matpower: &[u8],
    meters: &[u8],
    candidates: Option<&[u8]>,
) -> Result<Case, MatEnd>
    requires limit { most ≤ most_rows }
    requires few { length matpower.now ≤ most_file_bytes }
    ensures read { IfOk result
        (λ case. case_within most matpower.now meters.now (option_map (λ bytes. bytes.now) candidates.entry) ≡ Ok case) }
    ensures refused { IfErr result
        (EndsCase (case_within most matpower.now meters.now (option_map (λ bytes. bytes.now) candidates.entry))) }
{
    let mut case = Case::within(alloc, most);
    fill_case(alloc, &mut case, matpower, meters, candidates)?;
    Ok(case)
}
