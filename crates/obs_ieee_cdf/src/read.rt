// Cases from bytes.
ghost use Rattle.std.specs.Prelude.{◌≡◌, ◌≤◌, Ok, length, option_map, IfErr, IfOk, OnOk};
ghost use Rattle.obs_case.specs.Tables.{most_rows, no_rows_within};
ghost use Rattle.obs_ieee_cdf.specs.Read.{case_within};
ghost use Rattle.obs_ieee_cdf.specs.inner.Read.{EndsCase, case_in};
ghost use Rattle.obs_ieee_cdf.specs.inner.Reading.{Answers};
ghost use Rattle.obs_ieee_cdf.specs.Rows.{cdf_within};
ghost use Rattle.obs_text.specs.Limits.{most_file_bytes};

use crate::fault::CdfEnd;
use crate::rows::{add_branches, add_buses};
use crate::section::sections;
use crate::stop::Stop;
use obs_case::{Case, USUAL_ROWS};
use obs_case_csv::add_tables;
use std::alloc::Global;

// Adds the nodes and branches of a file to an empty case.
fn add_file(case: &mut Case, cdf: &[u8]) -> Result<(), Stop>
    requires empty { case.old ≡ no_rows_within case.old.most }
    requires few { length cdf.now ≤ most_file_bytes }
    ensures read { Answers (cdf_within case.old.most cdf.now) (λ tables. tables) case.new result }
{
    let parts = sections(cdf);
    add_buses(case, parts.buses, parts.buses_from)?;
    add_branches(case, parts.branches, parts.branches_from)?;
    match parts.end {
        Some(fault) => Err(Stop::Fault(fault)),
        None => Ok(()),
    }
}

// Fills an empty case with a file and its tables.
fn fill_case(
    alloc: Global,
    case: &mut Case,
    cdf: &[u8],
    meters: &[u8],
    candidates: Option<&[u8]>,
) -> Result<(), CdfEnd>
    requires empty { case.old ≡ no_rows_within case.old.most }
    requires few { length cdf.now ≤ most_file_bytes }
    ensures read { OnOk result
        (case_within case.old.most cdf.now meters.now (option_map (λ bytes. bytes.now) candidates.entry) ≡ Ok case.new) }
    ensures refused { IfErr result
        (EndsCase (case_within case.old.most cdf.now meters.now (option_map (λ bytes. bytes.now) candidates.entry))) }
{
    add_file(case, cdf)?;
    add_tables(alloc, case, meters, candidates)?;
    Ok(())
}

/// The case that a file in the IEEE Common Data Format is, with a table of meters and, where it is
/// given, a table of candidates. Nodes are named by their numbers, branches `L1`, `L2`, and so on.
/// There are no switches, and a table may have at most 20,000 rows. Refuses with the first fault from
/// the top of the file, then with those of the tables.
pub fn read_cdf(
    alloc: Global,
    cdf: &[u8],
    meters: &[u8],
    candidates: Option<&[u8]>,
) -> Result<Case, CdfEnd>
    requires few { length cdf.now ≤ most_file_bytes }
    ensures read { IfOk result
        (λ case. case_in cdf.now meters.now (option_map (λ bytes. bytes.now) candidates.entry) ≡ Ok case) }
    ensures refused { IfErr result
        (EndsCase (case_in cdf.now meters.now (option_map (λ bytes. bytes.now) candidates.entry))) }
{
    read_cdf_within(alloc, USUAL_ROWS as u32, cdf, meters, candidates)
}

/// The same, where a table may have at most so many rows.
pub fn read_cdf_within(
    alloc: Global,
    most: u32,
    cdf: &[u8],
    meters: &[u8],
    candidates: Option<&[u8]>,
) -> Result<Case, CdfEnd>
    requires limit { most ≤ most_rows }
    requires few { length cdf.now ≤ most_file_bytes }
    ensures read { IfOk result
        (λ case. case_within most cdf.now meters.now (option_map (λ bytes. bytes.now) candidates.entry) ≡ Ok case) }
    ensures refused { IfErr result
        (EndsCase (case_within most cdf.now meters.now (option_map (λ bytes. bytes.now) candidates.entry))) }
{
    let mut case = Case::within(alloc, most);
    fill_case(alloc, &mut case, cdf, meters, candidates)?;
    Ok(case)
}
