// The case that the contents of files are.
ghost use Rattle.std.specs.Prelude.{◌≡◌, ◌≤◌, ℕ, List, Ok, Some, All, IfOk, IsErrOf, length, map, option_map, take, vec_len};
ghost use Rattle.std.specs.List.{range_with_len};
ghost use Rattle.obs_case.specs.Tables.{most_rows};
ghost use Rattle.obs_text.specs.Limits.{most_file_bytes};
ghost use Rattle.obs_case_csv.specs.Read.{tables_within};
ghost use Rattle.obs_ieee_cdf.specs.Faults.{cdf_fault};
ghost use Rattle.obs_ieee_cdf.specs.Rows.{cdf_within};
ghost use Rattle.obs_matpower.specs.Faults.{mat_fault};
ghost use Rattle.obs_matpower.specs.Read.{mat_within};
ghost use Rattle.obs_trial.specs.Trial.{trial_of};
ghost use Rattle.obs_files.specs.Files.{candidates_in, case_in, case_of_tables, case_with_tables, certificate_in, parsed, switching_case};
ghost use Rattle.obs_files.specs.Outside.{AreFiles, IsFileWord, ReadFailed};
ghost use Rattle.obs_files.specs.inner.Taken.{IsOfFiles, IsTaken, bytes_of};
ghost use Rattle.obs_files.specs.Words.{HasRows, case_parts, file_words, words_of};

use crate::files::take_files;
use crate::limits::Limits;
use crate::taken::{CaseError, Taken};
use crate::words::{CaseForm, Form};
use obs_case::Case;
use obs_case_csv::{Table, TableEnd, read_table, read_tables_within};
use obs_ieee_cdf::{CdfEnd, read_cdf_within};
use obs_io::Files;
use obs_matpower::{MatEnd, read_matpower_within};
use obs_text::InputFault;
use std::alloc::Global;

// The case that the bytes of the two tables are.
fn read_switching(
    alloc: Global,
    most: u32,
    nodes: &[u8],
    switches: &[u8],
) -> Result<Case, CaseError>
    requires limit { most ≤ most_rows }
    ensures read { IsTaken (switching_case most nodes.now switches.now) result }
    ensures no_read { IsErrOf result CaseError.Read → ⊥ }
{
    let mut case = Case::within(alloc, most);
    match read_table(alloc, &mut case, Table::Nodes, nodes) {
        Ok(()) => {}
        Err(TableEnd::Fault(fault)) => return Err(CaseError::Refused(InputFault::from(fault))),
        Err(TableEnd::NoMemory) => return Err(CaseError::NoMemory),
    }
    match read_table(alloc, &mut case, Table::Switches, switches) {
        Ok(()) => Ok(case),
        Err(TableEnd::Fault(fault)) => Err(CaseError::Refused(InputFault::from(fault))),
        Err(TableEnd::NoMemory) => Err(CaseError::NoMemory),
    }
}

// The case that the bytes of four tables are, with candidates where they are given.
fn read_csv(
    alloc: Global,
    most: u32,
    nodes: &[u8],
    switches: &[u8],
    branches: &[u8],
    meters: &[u8],
    candidates: Option<&[u8]>,
) -> Result<Case, CaseError>
    requires limit { most ≤ most_rows }
    ensures read { IsTaken (case_of_tables (tables_within most nodes.now switches.now branches.now meters.now
        (option_map (λ bytes. bytes.now) candidates.entry))) result }
    ensures no_read { IsErrOf result CaseError.Read → ⊥ }
{
    match read_tables_within(alloc, most, nodes, switches, branches, meters, candidates) {
        Ok(case) => Ok(case),
        Err(TableEnd::Fault(fault)) => Err(CaseError::Refused(InputFault::from(fault))),
        Err(TableEnd::NoMemory) => Err(CaseError::NoMemory),
    }
}

// The case that the bytes of a file in the IEEE Common Data Format and of a table of meters are, with candidates where
// they are given.
fn read_cdf_tables(
    alloc: Global,
    most: u32,
    cdf: &[u8],
    meters: &[u8],
    candidates: Option<&[u8]>,
) -> Result<Case, CaseError>
    requires limit { most ≤ most_rows }
    requires few { length cdf.now ≤ most_file_bytes }
    ensures read { IsTaken (case_with_tables cdf_fault meters.now (option_map (λ bytes. bytes.now) candidates.entry)
        (cdf_within most cdf.now)) result }
    ensures no_read { IsErrOf result CaseError.Read → ⊥ }
{
    match read_cdf_within(alloc, most, cdf, meters, candidates) {
        Ok(case) => Ok(case),
        Err(CdfEnd::Cdf(fault)) => Err(CaseError::Refused(InputFault::from(fault))),
        Err(CdfEnd::Table(fault)) => Err(CaseError::Refused(InputFault::from(fault))),
        Err(CdfEnd::NoMemory) => Err(CaseError::NoMemory),
    }
}

// The case that the bytes of a MATPOWER file and of a table of meters are, with candidates where they are given.
fn read_matpower_tables(
    alloc: Global,
    most: u32,
    matpower: &[u8],
    meters: &[u8],
    candidates: Option<&[u8]>,
) -> Result<Case, CaseError>
    requires limit { most ≤ most_rows }
    requires few { length matpower.now ≤ most_file_bytes }
    ensures read { IsTaken (case_with_tables mat_fault meters.now (option_map (λ bytes. bytes.now) candidates.entry)
        (mat_within most matpower.now)) result }
    ensures no_read { IsErrOf result CaseError.Read → ⊥ }
{
    match read_matpower_within(alloc, most, matpower, meters, candidates) {
        Ok(case) => Ok(case),
        Err(MatEnd::Mat(fault)) => Err(CaseError::Refused(InputFault::from(fault))),
        Err(MatEnd::Table(fault)) => Err(CaseError::Refused(InputFault::from(fault))),
        Err(MatEnd::NoMemory) => Err(CaseError::NoMemory),
    }
}

// The case that the contents of the files of a case's form are, with candidates where they are given.
fn read_case(
    alloc: Global,
    most: u32,
    from: CaseForm,
    contents: &[Vec<u8>],
    candidates: Option<&[u8]>,
) -> Result<Case, CaseError>
    requires limit { most ≤ most_rows }
    requires count { length (case_parts from) ≤ length contents.now }
    requires short { All (λ bytes. vec_len bytes ≤ most_file_bytes) contents.now }
    ensures read { (file : ℕ → List ℕ)
        → take (length (case_parts from)) (bytes_of contents.now)
        ≡ map file (range_with_len 2 (length (case_parts from)))
        → IsTaken (case_in most from (option_map (λ bytes. bytes.now) candidates.entry) file) result }
    ensures no_read { IsErrOf result CaseError.Read → ⊥ }
{
    match from {
        CaseForm::Csv => read_csv(
            alloc,
            most,
            &contents[0],
            &contents[1],
            &contents[2],
            &contents[3],
            candidates,
        ),
        CaseForm::Cdf => read_cdf_tables(alloc, most, &contents[0], &contents[1], candidates),
        CaseForm::Matpower => {
            read_matpower_tables(alloc, most, &contents[0], &contents[1], candidates)
        }
    }
}

// The bytes of the candidates, where they stand with the case: their file is the first behind those of the case.
fn candidates_of(form: Form, contents: &[Vec<u8>]) -> Option<&[u8]>
    requires count { length contents.now ≡ length (words_of form) }
    ensures candidates { (file : ℕ → List ℕ) → bytes_of contents.now ≡ map file (words_of form)
        → option_map (λ bytes. bytes.now) result ≡ candidates_in form file }
{
    if form.is_offered() {
        Some(&contents[form.case_files()])
    } else {
        None
    }
}

// A generated case.
fn generate(alloc: Global, rows: u32, seed: u64) -> Result<Case, CaseError>
    requires low { 1 ≤ rows }
    requires high { rows ≤ 100 }
    ensures generated { IsTaken (Ok (trial_of rows seed)) result }
    ensures no_read { IsErrOf result CaseError.Read → ⊥ }
{
    match obs_trial::make(alloc, rows, seed) {
        Ok(case) => Ok(case),
        Err(_) => Err(CaseError::NoMemory),
    }
}

// The case that the contents of a form's files are.
fn read_form(
    alloc: Global,
    limits: Limits,
    form: Form,
    contents: &[Vec<u8>],
) -> Result<Case, CaseError>
    requires rows { HasRows form }
    requires count { length contents.now ≡ length (words_of form) }
    requires short { All (λ bytes. vec_len bytes ≤ limits.bytes) contents.now }
    ensures read { (file : ℕ → List ℕ)
        → bytes_of contents.now ≡ map file (words_of form)
        → IsTaken (parsed limits form file) result }
    ensures no_read { IsErrOf result CaseError.Read → ⊥ }
    ensures few { limits.bytes ≤ most_file_bytes }
{
    let most = limits.rows();
    match form {
        Form::Topology => read_switching(alloc, most, &contents[0], &contents[1]),
        Form::Case(_, from) => {
            read_case(alloc, most, from, contents, candidates_of(form, contents))
        }
        Form::Trial { rows, seed } => generate(alloc, rows, seed),
    }
}

// The bytes of the certificate, which is the last file; none of a form that takes none.
fn certificate_of(alloc: Global, limits: Limits, form: Form, mut contents: Vec<Vec<u8>>) -> Vec<u8>
    requires count { vec_len contents ≡ length (words_of form) }
    requires short { All (λ bytes. vec_len bytes ≤ limits.bytes) contents.items }
    ensures certificate { (file : ℕ → List ℕ) → bytes_of contents.items ≡ map file (words_of form)
        → result.items ≡ certificate_in form file }
    ensures short { vec_len result ≤ limits.bytes }
{
    if !form.takes_certificate() {
        return Vec::new(alloc);
    }
    match contents.pop() {
        Some(bytes) => bytes,
        None => Vec::new(alloc),
    }
}

/// The case that the files of a form are, and the certificate; or their first fault. The files are read in the order of
/// their words, and all before the first is parsed.
/// A read that failed has its cause, and isn't passed over.
pub fn take_case<F: Files>(
    alloc: Global,
    limits: Limits,
    files: &mut F,
    form: Form,
) -> Result<Taken, CaseError>
    requires rows { HasRows form }
    requires bytes { limits.bytes ≤ F.furthest }
    ensures stated { (file : ℕ → List ℕ) → AreFiles limits (Some form) (F.content files.old) file
        → IsOfFiles limits form file result }
    ensures short { IfOk result (λ taken. vec_len taken.certificate ≤ limits.bytes) }
    ensures few { IfOk result (λ taken. vec_len taken.certificate ≤ most_file_bytes) }
    ensures read { IsErrOf result CaseError.Read
        → ReadFailed limits (file_words (Some form)) (F.content files.old) (F.faults files.old) (F.faults files.new) }
    ensures quiet { (IsErrOf result CaseError.Read → ⊥) →
        (w : ℕ) → F.faults files.new w ≡ F.faults files.old w }
    ensures steady { ((w : ℕ) → IsFileWord (Some form) w → F.steady files.old w) →
        IsErrOf result CaseError.Read → ⊥ }
{
    let contents = take_files(alloc, limits, files, form)?;
    let case = read_form(alloc, limits, form, &contents)?;
    let certificate = certificate_of(alloc, limits, form, contents);
    Ok(Taken { case, certificate })
}
