// Files, read whole one after the other.
ghost use Rattle.std.specs.Prelude.{◌≡◌, ◌≢◌, ◌+◌, ◌≤◌, ◌<◌, ℕ, List, Some, All, IfOk, IsOk, IsErrOf, length, vec_len};
ghost use Rattle.obs_io.specs.Causes.{Rose};
ghost use Rattle.obs_matroid.specs.Lists.{In};
ghost use Rattle.obs_files.specs.Outside.{AreTold, ReadFailed};
ghost use Rattle.obs_files.specs.inner.Taken.{AreContents, IsFile, IsNext, bytes_of};
ghost use Rattle.obs_files.specs.Words.{parts_of, words_of};

use crate::limits::Limits;
use crate::taken::CaseError;
use crate::words::Form;
use obs_io::{Files, ReadEnd, read_all};
use obs_text::InputFault;
use std::alloc::Global;

// The content of a word's file, which is this part of the input.
fn take_file<F: Files>(
    alloc: Global,
    limits: Limits,
    files: &mut F,
    word: usize,
    part: &'static [u8],
) -> Result<Vec<u8>, CaseError>
    requires word { word < 16 }
    requires bytes { limits.bytes ≤ F.furthest }
    ensures stated { (bytes : List ℕ) → F.content files.old word ≡ Some bytes → IsFile limits part.now bytes result }
    ensures short { IfOk result (λ bytes. vec_len bytes ≤ limits.bytes) }
    ensures same { (w : ℕ) → F.content files.new w ≡ F.content files.old w }
    ensures later { F.faults files.old word ≤ F.faults files.new word }
    ensures read { IsErrOf result CaseError.Read → Rose (F.faults files.old word) (F.faults files.new word) }
    ensures quiet { (IsErrOf result CaseError.Read → ⊥) →
        (w : ℕ) → F.faults files.new w ≡ F.faults files.old w }
    ensures others { (w : ℕ) → w ≢ word → F.faults files.new w ≡ F.faults files.old w }
    ensures steady { (w : ℕ) → F.steady files.old w → F.steady files.new w }
    ensures succeeds { F.steady files.old word → IsErrOf result CaseError.Read → ⊥ }
{
    match read_all(alloc, files, word, limits.bytes() as u64) {
        Ok(bytes) => Ok(bytes),
        Err(ReadEnd::TooLong) => Err(CaseError::Refused(InputFault::too_long(part))),
        Err(ReadEnd::Failed) => Err(CaseError::Read),
        Err(ReadEnd::NoMemory) => Err(CaseError::NoMemory),
    }
}

// Takes the file of a word behind those that are taken.
fn take_next<F: Files>(
    alloc: Global,
    limits: Limits,
    files: &mut F,
    word: usize,
    part: &'static [u8],
    contents: &mut Vec<Vec<u8>>,
) -> Result<(), CaseError>
    requires word { word < 16 }
    requires bytes { limits.bytes ≤ F.furthest }
    requires short { All (λ bytes. vec_len bytes ≤ limits.bytes) contents.old.items }
    ensures stated { (content : List ℕ) → F.content files.old word ≡ Some content
        → IsNext limits part.now content (bytes_of contents.old.items) (bytes_of contents.new.items) result }
    ensures short { All (λ bytes. vec_len bytes ≤ limits.bytes) contents.new.items }
    ensures count { IsOk result → length contents.new.items ≡ length contents.old.items + 1 }
    ensures same { (w : ℕ) → F.content files.new w ≡ F.content files.old w }
    ensures read { IsErrOf result CaseError.Read → Rose (F.faults files.old word) (F.faults files.new word) }
    ensures quiet { (IsErrOf result CaseError.Read → ⊥) →
        (w : ℕ) → F.faults files.new w ≡ F.faults files.old w }
    ensures others { (w : ℕ) → w ≢ word → F.faults files.new w ≡ F.faults files.old w }
    ensures steady { (w : ℕ) → F.steady files.old w → F.steady files.new w }
    ensures succeeds { F.steady files.old word → IsErrOf result CaseError.Read → ⊥ }
{
    let bytes = take_file(alloc, limits, files, word, part)?;
    match contents.push(bytes) {
        Ok(()) => Ok(()),
        Err(_) => Err(CaseError::NoMemory),
    }
}

/// The contents of the files of a form. They are read in the order of their words, and the first that fails or is too
/// long ends the reading.
pub(crate) fn take_files<F: Files>(
    alloc: Global,
    limits: Limits,
    files: &mut F,
    form: Form,
) -> Result<Vec<Vec<u8>>, CaseError>
    requires bytes { limits.bytes ≤ F.furthest }
    ensures stated { (file : ℕ → List ℕ) → AreTold limits (F.content files.old) file (words_of form)
        → AreContents limits (parts_of form) file (words_of form) result }
    ensures short { IfOk result (λ contents. All (λ bytes. vec_len bytes ≤ limits.bytes) contents.items) }
    ensures count { IfOk result (λ contents. vec_len contents ≡ length (words_of form)) }
    ensures read { IsErrOf result CaseError.Read
        → ReadFailed limits (words_of form) (F.content files.old) (F.faults files.old) (F.faults files.new) }
    ensures quiet { (IsErrOf result CaseError.Read → ⊥) →
        (w : ℕ) → F.faults files.new w ≡ F.faults files.old w }
    ensures steady { ((w : ℕ) → In w (words_of form) → F.steady files.old w) → IsErrOf result CaseError.Read → ⊥ }
{
    let mut contents = Vec::new(alloc);
    for k in 0..form.file_count() {
        let (word, part) = form.file(k);
        take_next(alloc, limits, files, word, part, &mut contents)?;
    }
    Ok(contents)
}
