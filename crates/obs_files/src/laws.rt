// The laws of words, and of the cases that files are.
ghost use Rattle.std.specs.Prelude.{◌≡◌, ◌↔◌, ℕ, List, Some};
ghost use Rattle.obs_files.specs.declared.words.Form.{Form};
ghost use Rattle.obs_files.specs.Laws.{CasesAreValid};
ghost use Rattle.obs_files.specs.inner.Laws.{IsFormOf, IsInUsage, TakesEachFile};
ghost use Rattle.obs_files.specs.Words.{HasRows, form_of};

/// Every case that files are is valid. The other laws ask this of a case.
/// Words that are a trial's give it from 1 to 100 rows.
pub fn cases_are_valid()
    ensures valid { CasesAreValid }
    ensures rows { (words : List (List ℕ)) (form : Form) → form_of words ≡ Some form → HasRows form }
{}

/// The words have a form exactly where they are those of a command,
/// each in its place, with a word for each of its files. Each file is taken from its word.
/// The usage line names each form.
pub fn forms_of_words()
    ensures exactly { (words : List (List ℕ)) (form : Form) → (form_of words ≡ Some form) ↔ IsFormOf form words }
    ensures files { TakesEachFile }
    ensures usage { (form : Form) → IsInUsage form }
{}
