// The words of a call.
ghost use Rattle.std.specs.Prelude.{◌≡◌, ◌<◌, ◌≤◌, [], map, string_bytes, Some, IfSome, length, slice_index, slice_index_or};
ghost use Rattle.obs_text.specs.Numbers.{whole_of};
ghost use Rattle.obs_files.specs.Words.{HasRows, behind_case, candidates_at, case_commands, case_form_of, certificate_at, command_word, first_parts, first_word, fits, form_of, form_with, has_with, is_offered, is_word, offers, parts_of, study_word, takes_certificate, trial_form, word_count, words_of};

use obs_text::whole;

/// In which form a case is given.
#[derive(Clone, Copy)]
pub enum CaseForm {
    /// Tables of nodes, switches, branches and meters.
    Csv,
    /// A file in the IEEE Common Data Format, and a table of meters.
    Cdf,
    /// A file of MATPOWER, and a table of meters.
    Matpower,
}

/// What a study says of a case.
#[derive(Clone, Copy)]
pub enum Study {
    /// What the outage of one branch does.
    Outages,
    /// What the loss of two meters does.
    Pairs,
    /// What the loss of a station's meters does.
    Stations,
}

/// What is asked of a case. Candidates that are offered to a session or beside a certificate stand behind the word
/// `with`.
#[derive(Clone, Copy)]
pub enum CaseCommand {
    /// A report is printed.
    Report,
    /// A placement is, of candidates that stand with the case.
    Place,
    /// The lines of the input are answered.
    Session { offered: bool },
    /// The claims of a certificate are checked.
    Verify { offered: bool },
    /// A study is printed.
    Study(Study),
}

/// What the words ask for.
#[derive(Clone, Copy)]
pub enum Form {
    /// The buses of nodes and switches.
    Topology,
    /// Something is asked of a case of this form.
    Case(CaseCommand, CaseForm),
    /// A case of so many rows of nodes is generated from a seed.
    Trial { rows: u32, seed: u64 },
}

impl Study {
    // The word of the command.
    fn word(self) -> &'static str
        ensures word { result.now ≡ study_word self }
    {
        match self {
            Study::Outages => "outages",
            Study::Pairs => "pairs",
            Study::Stations => "stations",
        }
    }
}

impl Form {
    // The word of the command.
    fn command_word(self) -> &'static str
        ensures word { result.now ≡ command_word self }
    {
        match self {
            Form::Topology => "topology",
            Form::Case(CaseCommand::Report, _) => "report",
            Form::Case(CaseCommand::Place, _) => "place",
            Form::Case(CaseCommand::Session { .. }, _) => "session",
            Form::Case(CaseCommand::Verify { .. }, _) => "verify",
            Form::Case(CaseCommand::Study(study), _) => study.word(),
            Form::Trial { .. } => "trial",
        }
    }

    // Whether candidates stand with the case, and the word `with` before that of theirs.
    fn has_with(self) -> bool
        ensures has { result ≡ has_with self }
    {
        match self {
            Form::Case(CaseCommand::Session { offered }, _) => offered,
            Form::Case(CaseCommand::Verify { offered }, _) => offered,
            _ => false,
        }
    }

    /// Whether candidates stand with the case, behind the word `with` or without it.
    pub(crate) fn is_offered(self) -> bool
        ensures is { result ≡ is_offered self }
    {
        match self {
            Form::Case(CaseCommand::Place, _) => true,
            _ => self.has_with(),
        }
    }

    /// Whether the words are a session's, and then whether with candidates.
    pub fn offers(self) -> Option<bool>
        ensures offers { result ≡ offers (Some self) }
    {
        match self {
            Form::Case(CaseCommand::Session { offered }, _) => Some(offered),
            _ => None,
        }
    }

    /// Whether a certificate is taken, which is the last file.
    pub(crate) fn takes_certificate(self) -> bool
        ensures takes { result ≡ takes_certificate self }
    {
        match self {
            Form::Case(CaseCommand::Verify { .. }, _) => true,
            _ => false,
        }
    }

    // Which part of the input each file of the case is, in the order of the words.
    fn first_parts(self) -> &'static [&'static [u8]]
        ensures parts { map (λ part. part.now) result.now ≡ first_parts self }
    {
        match self {
            Form::Topology => &[b"nodes", b"switches"],
            Form::Case(_, CaseForm::Csv) => &[b"nodes", b"switches", b"branches", b"meters"],
            Form::Case(_, CaseForm::Cdf) => &[b"cdf", b"meters"],
            Form::Case(_, CaseForm::Matpower) => &[b"matpower", b"meters"],
            Form::Trial { .. } => &[],
        }
    }

    /// How many files the case has.
    pub(crate) fn case_files(self) -> usize
        ensures files { result ≡ length (first_parts self) }
        ensures few { result ≤ 4 }
    {
        self.first_parts().len()
    }

    // The position of the first word that names a file.
    fn first_word(self) -> usize
        ensures word { result ≡ first_word self }
        ensures few { result ≤ 2 }
    {
        match self {
            Form::Case(..) => 2,
            _ => 1,
        }
    }

    // The position behind the words that name the files of the case.
    fn behind_case(self) -> usize
        ensures position { result ≡ behind_case self }
        ensures few { result ≤ 6 }
    {
        self.first_word() + self.case_files()
    }

    // The position of the word that names the candidates.
    fn candidates_at(self) -> usize
        ensures position { result ≡ candidates_at self }
        ensures few { result ≤ 7 }
    {
        self.behind_case() + self.has_with() as usize
    }

    // The position of the word that names the certificate.
    fn certificate_at(self) -> usize
        ensures position { result ≡ certificate_at self }
        ensures few { result ≤ 8 }
    {
        self.candidates_at() + self.is_offered() as usize
    }

    // How many words there are, where they name files.
    fn word_count(self) -> usize
        ensures count { result ≡ word_count self }
    {
        self.certificate_at() + self.takes_certificate() as usize
    }

    /// How many files there are.
    pub(crate) fn file_count(self) -> usize
        ensures count { result ≡ length (words_of self) }
    {
        self.case_files() + self.is_offered() as usize + self.takes_certificate() as usize
    }

    /// The position of the word that names a file, and which part of the input the file is, by its place among the files.
    pub(crate) fn file(self, at: usize) -> (usize, &'static [u8])
        requires at { at < length (words_of self) }
        ensures word { result.0 ≡ slice_index (words_of self) at }
        ensures few { result.0 < 16 }
        ensures part { result.1.now ≡ slice_index_or (parts_of self) at [] }
    {
        let parts = self.first_parts();
        if at < parts.len() {
            (self.first_word() + at, parts[at])
        } else if at == parts.len() && self.is_offered() {
            (self.candidates_at(), b"candidates")
        } else {
            (self.certificate_at(), b"certificate")
        }
    }
}

// Whether the word at a position is this one.
fn is_word(words: &[String], at: usize, word: &str) -> bool
    ensures is { result ≡ is_word (map string_bytes words.now) at word.now }
{
    at < words.len() && words[at].as_str() == word
}

// The form of the case that is named behind the command.
fn case_form_of_words(words: &[String]) -> Option<CaseForm>
    ensures form { result ≡ case_form_of (map string_bytes words.now) }
{
    if is_word(words, 1, "tables") {
        Some(CaseForm::Csv)
    } else if is_word(words, 1, "cdf") {
        Some(CaseForm::Cdf)
    } else if is_word(words, 1, "matpower") {
        Some(CaseForm::Matpower)
    } else {
        None
    }
}

// The commands over a case.
fn case_commands() -> &'static [CaseCommand]
    ensures commands { result.now ≡ case_commands }
{
    &[
        CaseCommand::Report,
        CaseCommand::Place,
        CaseCommand::Session { offered: false },
        CaseCommand::Session { offered: true },
        CaseCommand::Verify { offered: false },
        CaseCommand::Verify { offered: true },
        CaseCommand::Study(Study::Outages),
        CaseCommand::Study(Study::Pairs),
        CaseCommand::Study(Study::Stations),
    ]
}

// Whether the words are those of a form: so many, the command first, and the word `with` where it stands before
// candidates.
fn fits(words: &[String], form: Form) -> bool
    ensures fits { result ≡ fits (map string_bytes words.now) form }
{
    words.len() == form.word_count()
        && is_word(words, 0, form.command_word())
        && (!form.has_with() || is_word(words, form.behind_case(), "with"))
}

// The form of words that name a case of this form.
fn form_with_case(words: &[String], from: CaseForm) -> Option<Form>
    ensures form { result ≡ form_with (map string_bytes words.now) (Some from) }
    ensures rows { IfSome result HasRows }
{
    let commands = case_commands();
    for k in 0..commands.len() {
        let form = Form::Case(commands[k], from);
        if fits(words, form) {
            return Some(form);
        }
    }
    None
}

// The form of a trial's two words, where they are a number of rows from 1 to 100 and a seed.
fn trial_form_of(rows: &str, seed: &str) -> Option<Form>
    ensures form { result ≡ trial_form (whole_of rows.now) (whole_of seed.now) }
    ensures rows { IfSome result HasRows }
{
    let rows = whole(rows.as_bytes())?;
    let seed = whole(seed.as_bytes())?;
    if 0 < rows && rows <= 100 {
        Some(Form::Trial {
            rows: rows as u32,
            seed,
        })
    } else {
        None
    }
}

/// The form of the words, where they have one.
pub fn form_of_words(words: &[String]) -> Option<Form>
    ensures form { result ≡ form_of (map string_bytes words.now) }
    ensures rows { IfSome result HasRows }
{
    if fits(words, Form::Topology) {
        return Some(Form::Topology);
    }
    if words.len() == 3 && is_word(words, 0, "trial") {
        return trial_form_of(&words[1], &words[2]);
    }
    match case_form_of_words(words) {
        Some(from) => form_with_case(words, from),
        None => None,
    }
}
