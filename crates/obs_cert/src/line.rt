// The line of a certificate that words are.
ghost use Rattle.std.specs.Prelude.{◌≡◌, ◌∷◌};
ghost use Rattle.std.specs.Option.{option_map};
ghost use Rattle.std.specs.Str.{bytes_eq};
ghost use Rattle.obs_text.specs.Numbers.{whole_of};
ghost use Rattle.obs_cert.specs.inner.Said.{item_said, line_said};
ghost use Rattle.obs_cert.specs.Words.{bound_of, claim_line, item_in, line_of_words, name_in, of_five, of_four, of_one, of_three, of_two, pair_line_of, words_of};

use crate::line_words::first_word;
use obs_text::{name_of, whole};

/// A meter or a candidate, by its name.
#[derive(Clone, Copy)]
pub enum Item<'a> {
    Meter(&'a [u8]),
    Candidate(&'a [u8]),
}

/// What a line says. Names are parts of the line.
#[derive(Clone, Copy)]
pub enum Line<'a> {
    /// Starts a tree claim on the component.
    Tree(&'a [u8]),
    /// Starts a bound claim on the component, with the rank and the number outside.
    Bound(&'a [u8], u64, u64),
    /// Starts a cost claim.
    Cost(u64),
    /// Starts a shortfall claim, with the rank and the number outside.
    Shortfall(u64, u64),
    /// An item and its branch.
    Pair(Item<'a>, &'a [u8]),
    /// A chosen candidate.
    Chosen(&'a [u8]),
    /// The prices that a layer goes from and to, its rank and the number outside.
    Layer(u64, u64, u64, u64),
    /// A listed item.
    Inside(Item<'a>),
    /// The last line.
    End,
}

/// Whether a word is this one.
pub(crate) fn is(word: &[u8], kind: &'static [u8]) -> bool
    ensures is { result ≡ bytes_eq word.now kind.now }
{
    word == kind
}

// The item that a sort and a name are.
fn named_item<'a>(sort: &[u8], name: &'a [u8]) -> Option<Item<'a>>
    ensures item { option_map item_said result ≡ item_in sort.now name.now }
{
    let Some(name) = name_of(name) else {
        return None;
    };
    if is(sort, b"meter") {
        return Some(Item::Meter(name));
    }
    if is(sort, b"candidate") {
        return Some(Item::Candidate(name));
    }
    None
}

fn one(kind: &[u8]) -> Option<Line<'static>>
    ensures line { option_map line_said result ≡ of_one kind.now }
{
    if is(kind, b"end") {
        Some(Line::End)
    } else {
        None
    }
}

fn two<'a>(kind: &[u8], a: &'a [u8]) -> Option<Line<'a>>
    ensures line { option_map line_said result ≡ of_two kind.now a.now }
{
    if is(kind, b"cost") {
        return match whole(a) {
            None => None,
            Some(number) => Some(Line::Cost(number)),
        };
    }
    let Some(name) = name_of(a) else {
        return None;
    };
    if is(kind, b"tree") {
        return Some(Line::Tree(name));
    }
    if is(kind, b"chosen") {
        return Some(Line::Chosen(name));
    }
    None
}

fn three<'a>(kind: &[u8], a: &[u8], b: &'a [u8]) -> Option<Line<'a>>
    ensures line { option_map line_said result ≡ of_three kind.now a.now b.now }
{
    if is(kind, b"inside") {
        return match named_item(a, b) {
            None => None,
            Some(item) => Some(Line::Inside(item)),
        };
    }
    if !is(kind, b"shortfall") {
        return None;
    }
    match whole(a) {
        None => None,
        Some(rank) => match whole(b) {
            None => None,
            Some(outside) => Some(Line::Shortfall(rank, outside)),
        },
    }
}

// The pair line of an item and a branch.
fn pair<'a>(sort: &[u8], name: &'a [u8], branch: &'a [u8]) -> Option<Line<'a>>
    ensures line { option_map line_said result ≡ pair_line_of (item_in sort.now name.now) (name_in branch.now) }
{
    match named_item(sort, name) {
        None => None,
        Some(item) => match name_of(branch) {
            None => None,
            Some(branch) => Some(Line::Pair(item, branch)),
        },
    }
}

// The bound line of a component and two numbers.
fn bound<'a>(component: &'a [u8], rank: &[u8], outside: &[u8]) -> Option<Line<'a>>
    ensures line { option_map line_said result
        ≡ bound_of (name_in component.now) (whole_of rank.now) (whole_of outside.now) }
{
    match name_of(component) {
        None => None,
        Some(component) => match whole(rank) {
            None => None,
            Some(rank) => match whole(outside) {
                None => None,
                Some(outside) => Some(Line::Bound(component, rank, outside)),
            },
        },
    }
}

fn four<'a>(kind: &[u8], a: &'a [u8], b: &'a [u8], c: &'a [u8]) -> Option<Line<'a>>
    ensures line { option_map line_said result ≡ of_four kind.now a.now b.now c.now }
{
    if is(kind, b"pair") {
        return pair(a, b, c);
    }
    if is(kind, b"bound") {
        return bound(a, b, c);
    }
    None
}

fn five(kind: &[u8], a: &[u8], b: &[u8], c: &[u8], d: &[u8]) -> Option<Line<'static>>
    ensures line { option_map line_said result ≡ of_five kind.now a.now b.now c.now d.now }
{
    if !is(kind, b"layer") {
        return None;
    }
    let Some(from) = whole(a) else {
        return None;
    };
    let Some(to) = whole(b) else {
        return None;
    };
    let Some(rank) = whole(c) else {
        return None;
    };
    let Some(outside) = whole(d) else {
        return None;
    };
    Some(Line::Layer(from, to, rank, outside))
}

// The line of four words and those that the bytes are.
fn after_four<'a>(
    kind: &[u8],
    a: &'a [u8],
    b: &'a [u8],
    c: &'a [u8],
    bytes: &[u8],
) -> Option<Line<'a>>
    ensures line { option_map line_said result ≡ line_of_words (kind.now ∷ a.now ∷ b.now ∷ c.now ∷ words_of bytes.now) }
{
    let (d, rest) = first_word(bytes);
    match rest {
        None => five(kind, a, b, c, d),
        Some(_) => None,
    }
}

// The line of three words and those that the bytes are.
fn after_three<'a>(kind: &[u8], a: &'a [u8], b: &'a [u8], bytes: &'a [u8]) -> Option<Line<'a>>
    ensures line { option_map line_said result ≡ line_of_words (kind.now ∷ a.now ∷ b.now ∷ words_of bytes.now) }
{
    let (c, rest) = first_word(bytes);
    match rest {
        None => four(kind, a, b, c),
        Some(rest) => after_four(kind, a, b, c, rest),
    }
}

// The line of two words and those that the bytes are.
fn after_two<'a>(kind: &[u8], a: &'a [u8], bytes: &'a [u8]) -> Option<Line<'a>>
    ensures line { option_map line_said result ≡ line_of_words (kind.now ∷ a.now ∷ words_of bytes.now) }
{
    let (b, rest) = first_word(bytes);
    match rest {
        None => three(kind, a, b),
        Some(rest) => after_three(kind, a, b, rest),
    }
}

// The line of a word and those that the bytes are.
fn after_one<'a>(kind: &[u8], bytes: &'a [u8]) -> Option<Line<'a>>
    ensures line { option_map line_said result ≡ line_of_words (kind.now ∷ words_of bytes.now) }
{
    let (a, rest) = first_word(bytes);
    match rest {
        None => two(kind, a),
        Some(rest) => after_two(kind, a, rest),
    }
}

/// The line that bytes are: words with one tab between them, that have one of the nine forms.
pub(crate) fn read_line(bytes: &[u8]) -> Option<Line<'_>>
    ensures line { option_map line_said result ≡ claim_line bytes.now }
{
    let (kind, rest) = first_word(bytes);
    match rest {
        None => one(kind),
        Some(rest) => after_one(kind, rest),
    }
}
