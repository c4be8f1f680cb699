// Parts of bytes.
ghost use Rattle.std.specs.Prelude.{◌≡◌, ◌==◌, option_map};
ghost use Rattle.std.specs.List.{after_first, before_first};
ghost use Rattle.obs_matpower.specs.Lines.{past, without_comment, without_gaps};

const BLANK: u8 = b' ';

const TAB: u8 = b'\t';

const PERCENT: u8 = b'%';

// What stands before the first such byte, or all, and what stands after it, or nothing.
pub(crate) fn cut_at(bytes: &[u8], mark: u8) -> (&[u8], &[u8])
    ensures before { result.0.now ≡ before_first (λ byte. byte == mark) bytes.now }
    ensures after { result.1.now ≡ after_first (λ byte. byte == mark) bytes.now }
{
    match bytes.iter().position(|byte| *byte == mark) {
        Some(end) => (&bytes[..end], &bytes[end + 1..]),
        None => (bytes, &[]),
    }
}

// A line without its comment.
pub(crate) fn without_comment(line: &[u8]) -> &[u8]
    ensures code { result.now ≡ without_comment line.now }
{
    cut_at(line, PERCENT).0
}

// The bytes from the first that is no blank or tab on.
fn without_gaps(bytes: &[u8]) -> &[u8]
    ensures rest { result.now ≡ without_gaps bytes.now }
{
    let mut rest = bytes;
    while let [BLANK | TAB, others @ ..] = rest {
        rest = others;
    }
    rest
}

// What follows a text that stands after blanks and tabs.
pub(crate) fn past<'a>(text: &[u8], bytes: &'a [u8]) -> Option<&'a [u8]>
    ensures past { option_map (λ rest. rest.now) result ≡ past text.now bytes.now }
{
    let start = without_gaps(bytes);
    if start.starts_with(text) {
        Some(&start[text.len()..])
    } else {
        None
    }
}
