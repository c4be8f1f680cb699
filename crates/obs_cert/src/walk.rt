// Walks over the lines of a certificate: its claims, and the pairs, layers and items of a claim.
ghost use Rattle.std.specs.Prelude.{◌≡◌, ◌∷◌, [], IfNone, IfSome, option_map};
ghost use Rattle.std.specs.Iterator.{item_count};
ghost use Rattle.obs_cert.specs.inner.Given.{GivesItem, GivesLayer, GivesPair, layer_said, pair_said};
ghost use Rattle.obs_cert.specs.inner.Said.{item_said, line_said};
ghost use Rattle.obs_cert.specs.inner.Walked.{claim_on, claim_said, is_layer, item_on, items_of_sort, layer_on, lines_in, pair_on, parts_in, sort_after};

use crate::line::{Item, Line, read_line};
use crate::place::starts;
use obs_text::lines;
use std::marker::Model;

/// The next line and the bytes after it, or None at the end.
pub(crate) fn next_line(bytes: &[u8]) -> Option<(Line<'_>, &[u8])>
    ensures line { IfSome result (λ found. lines_in bytes.now ≡ line_said found.0 ∷ lines_in found.1.now) }
    ensures end { IfNone result (lines_in bytes.now ≡ []) }
{
    let mut all = lines(bytes);
    match all.next() {
        None => None,
        Some(line) => match read_line(line) {
            None => None,
            Some(line) => Some((line, all.rest())),
        },
    }
}

/// Which items of a claim are walked over.
#[derive(Clone, Copy)]
pub(crate) enum Sort {
    /// Those of one list.
    Inside,
    /// Those of the lists of all layers.
    EachInside,
    /// Those of this layer's list and the lists of all layers behind it.
    AllInside,
    /// Those of the pairs.
    Paired,
    /// The chosen candidates.
    Chosen,
}

// The item of the sort that the line has.
fn item_on<'a>(sort: Sort, line: &Line<'a>) -> Option<Item<'a>>
    ensures item { option_map item_said result ≡ item_on sort (line_said line.now) }
{
    match sort {
        Sort::Inside | Sort::AllInside => match line {
            Line::Inside(item) => Some(*item),
            _ => None,
        },
        Sort::EachInside => None,
        Sort::Paired => match line {
            Line::Pair(item, _) => Some(*item),
            _ => None,
        },
        Sort::Chosen => match line {
            Line::Chosen(name) => Some(Item::Candidate(*name)),
            _ => None,
        },
    }
}

/// A pair and its branch's name.
#[derive(Clone, Copy)]
pub(crate) struct PairLine<'a> {
    pub item: Item<'a>,
    pub branch: &'a [u8],
}

// The pair that the line has.
fn pair_on<'a>(line: &Line<'a>) -> Option<PairLine<'a>>
    ensures pair { option_map pair_said result ≡ pair_on (line_said line.now) }
{
    match line {
        Line::Pair(item, branch) => Some(PairLine {
            item: *item,
            branch: *branch,
        }),
        _ => None,
    }
}

// Whether the line starts a layer.
fn is_layer(line: &Line<'_>) -> bool
    ensures layer { result ≡ is_layer (line_said line.now) }
{
    match line {
        Line::Layer(..) => true,
        _ => false,
    }
}

// The sort of the items behind a line that has none; None where the list ends at a layer's line.
fn sort_after(sort: Sort, layer: bool) -> Option<Sort>
    ensures sort { result ≡ sort_after sort layer }
{
    match sort {
        Sort::Inside if layer => None,
        Sort::EachInside if layer => Some(Sort::AllInside),
        other => Some(other),
    }
}

// The next item of the sort, with the sort of those behind it and the bytes after it.
fn next_item(sort: Sort, bytes: &[u8]) -> Option<(Item<'_>, Sort, &[u8])>
    ensures item { IfSome result (λ found. items_of_sort sort (parts_in bytes.now)
        ≡ item_said found.0 ∷ items_of_sort found.1 (parts_in found.2.now)) }
    ensures none { IfNone result (items_of_sort sort (parts_in bytes.now) ≡ []) }
{
    let mut sort = sort;
    let mut rest = bytes;
    while let Some((line, after)) = next_line(rest) {
        rest = after;
        if starts(&line) {
            return None;
        }
        if let Some(item) = item_on(sort, &line) {
            return Some((item, sort, rest));
        }
        match sort_after(sort, is_layer(&line)) {
            Some(next) => sort = next,
            None => return None,
        }
    }
    None
}

/// The items of a sort. A contract sees those that are still to come.
#[derive(Drop)]
pub(crate) struct Items<'a> {
    sort: Sort,
    rest: &'a [u8],
}

impl<'a> Model for Items<'a> {
    ghost use Rattle.std.specs.Prelude.{List};
    ghost use Rattle.obs_cert.specs.Claims.{Item};
    ghost use Rattle.obs_cert.specs.inner.Walked.{items_of_sort, parts_in};

    ghost Value = { List Item };

    ghost view = { λ w. items_of_sort w.sort (parts_in w.rest.now) };
}

impl<'a> Iterator for Items<'a> {
    type Item = Item<'a>;

    ghost next_gives = { GivesItem };

    ghost remaining = { item_count (λ items. items) };

    fn next(&mut self) -> Option<Item<'a>> {
        match next_item(self.sort, self.rest) {
            None => None,
            Some((item, sort, rest)) => {
                self.sort = sort;
                self.rest = rest;
                Some(item)
            }
        }
    }
}

/// The items of the sort in the claim or the layer whose lines the bytes begin with.
pub(crate) fn walk_items(sort: Sort, bytes: &[u8]) -> Items<'_>
    ensures items { result ≡ items_of_sort sort (parts_in bytes.now) }
{
    Items { sort, rest: bytes }
}

// The next pair and the bytes after it.
fn next_pair(bytes: &[u8]) -> Option<(PairLine<'_>, &[u8])>
    ensures pair { IfSome result
        (λ found. (parts_in bytes.now).pairs ≡ pair_said found.0 ∷ (parts_in found.1.now).pairs) }
    ensures none { IfNone result ((parts_in bytes.now).pairs ≡ []) }
{
    let mut rest = bytes;
    while let Some((line, after)) = next_line(rest) {
        rest = after;
        if starts(&line) {
            return None;
        }
        if let Some(pair) = pair_on(&line) {
            return Some((pair, rest));
        }
    }
    None
}

/// The pairs of a claim. A contract sees those that are still to come.
#[derive(Drop)]
pub(crate) struct Pairs<'a> {
    rest: &'a [u8],
}

impl<'a> Model for Pairs<'a> {
    ghost use Rattle.std.specs.Prelude.{List};
    ghost use Rattle.obs_cert.specs.Claims.{Pair};
    ghost use Rattle.obs_cert.specs.inner.Walked.{parts_in};

    ghost Value = { List Pair };

    ghost view = { λ w. (parts_in w.rest.now).pairs };
}

impl<'a> Iterator for Pairs<'a> {
    type Item = PairLine<'a>;

    ghost next_gives = { GivesPair };

    ghost remaining = { item_count (λ pairs. pairs) };

    fn next(&mut self) -> Option<PairLine<'a>> {
        match next_pair(self.rest) {
            None => None,
            Some((pair, rest)) => {
                self.rest = rest;
                Some(pair)
            }
        }
    }
}

/// The pairs of the claim whose lines the bytes begin with.
pub(crate) fn walk_pairs(bytes: &[u8]) -> Pairs<'_>
    ensures pairs { result ≡ (parts_in bytes.now).pairs }
{
    Pairs { rest: bytes }
}

/// The numbers of a layer, and the bytes behind its line.
#[derive(Clone, Copy)]
pub(crate) struct LayerLines<'a> {
    pub from: u64,
    pub to: u64,
    pub rank: u64,
    pub outside: u64,
    pub rest: &'a [u8],
}

// The layer that the line starts.
fn layer_on<'a>(line: &Line<'_>, rest: &'a [u8]) -> Option<LayerLines<'a>>
    ensures layer { option_map layer_said result ≡ layer_on (line_said line.now) (parts_in rest.now) }
{
    match line {
        Line::Layer(from, to, rank, outside) => Some(LayerLines {
            from: *from,
            to: *to,
            rank: *rank,
            outside: *outside,
            rest,
        }),
        _ => None,
    }
}

// The next layer, and the bytes after its line.
fn next_layer(bytes: &[u8]) -> Option<(LayerLines<'_>, &[u8])>
    ensures layer { IfSome result
        (λ found. (parts_in bytes.now).layers ≡ layer_said found.0 ∷ (parts_in found.1.now).layers) }
    ensures none { IfNone result ((parts_in bytes.now).layers ≡ []) }
{
    let mut rest = bytes;
    while let Some((line, after)) = next_line(rest) {
        rest = after;
        if starts(&line) {
            return None;
        }
        if let Some(layer) = layer_on(&line, rest) {
            return Some((layer, rest));
        }
    }
    None
}

/// The layers of a claim. A contract sees those that are still to come.
#[derive(Drop)]
pub(crate) struct Layers<'a> {
    rest: &'a [u8],
}

impl<'a> Model for Layers<'a> {
    ghost use Rattle.std.specs.Prelude.{List};
    ghost use Rattle.obs_cert.specs.Claims.{Layer};
    ghost use Rattle.obs_cert.specs.inner.Walked.{parts_in};

    ghost Value = { List Layer };

    ghost view = { λ w. (parts_in w.rest.now).layers };
}

impl<'a> Iterator for Layers<'a> {
    type Item = LayerLines<'a>;

    ghost next_gives = { GivesLayer };

    ghost remaining = { item_count (λ layers. layers) };

    fn next(&mut self) -> Option<LayerLines<'a>> {
        match next_layer(self.rest) {
            None => None,
            Some((layer, rest)) => {
                self.rest = rest;
                Some(layer)
            }
        }
    }
}

/// The layers of the claim whose lines the bytes begin with.
pub(crate) fn walk_layers(bytes: &[u8]) -> Layers<'_>
    ensures layers { result ≡ (parts_in bytes.now).layers }
{
    Layers { rest: bytes }
}

/// What a claim's first line says, and the bytes behind it.
#[derive(Clone, Copy)]
pub(crate) enum ClaimLines<'a> {
    Tree(&'a [u8], &'a [u8]),
    Bound(&'a [u8], u64, u64, &'a [u8]),
    Cost(u64, &'a [u8]),
    Shortfall(u64, u64, &'a [u8]),
}

// The claim that the line starts.
fn claim_on<'a>(line: &Line<'a>, rest: &'a [u8]) -> Option<ClaimLines<'a>>
    ensures claim { option_map claim_said result ≡ claim_on (line_said line.now) (parts_in rest.now) }
{
    match line {
        Line::Tree(component) => Some(ClaimLines::Tree(*component, rest)),
        Line::Bound(component, rank, outside) => {
            Some(ClaimLines::Bound(*component, *rank, *outside, rest))
        }
        Line::Cost(number) => Some(ClaimLines::Cost(*number, rest)),
        Line::Shortfall(rank, outside) => Some(ClaimLines::Shortfall(*rank, *outside, rest)),
        _ => None,
    }
}

/// The next claim, and the bytes after its first line.
pub(crate) fn next_claim(bytes: &[u8]) -> Option<(ClaimLines<'_>, &[u8])>
    ensures claim { IfSome result
        (λ found. (parts_in bytes.now).claims ≡ claim_said found.0 ∷ (parts_in found.1.now).claims) }
    ensures none { IfNone result ((parts_in bytes.now).claims ≡ []) }
{
    let mut rest = bytes;
    while let Some((line, after)) = next_line(rest) {
        rest = after;
        if let Some(claim) = claim_on(&line, rest) {
            return Some((claim, rest));
        }
    }
    None
}
