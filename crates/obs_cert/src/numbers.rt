// Names as numbers: meters and candidates by one number, the meters first, and branches by position: the rows of the
// branch table, and behind them the angle branches of items.
ghost use Rattle.std.specs.Prelude.{◌≡◌, ◌≤◌, ◌+◌, IfSome, length};
ghost use Rattle.obs_cert.specs.inner.Said.{item_said};
ghost use Rattle.obs_network.specs.Network.{case_position_room};
ghost use Rattle.obs_cert.specs.Numbered.{branch_in, branch_of, is_angle_item, is_known, is_known_branch, item_of};

use crate::line::{Item, is};
use obs_case::Case;

/// The number of an item; of one that isn't in its table the number of rows up to the table's end.
pub(crate) fn item_of(case: &Case, item: Item<'_>) -> u32
    ensures number { result ≡ item_of case.now (item_said item.entry) }
    ensures below { result ≤ length case.now.meters + length case.now.candidates }
{
    let meters = case.meters().len() as u32;
    match item {
        Item::Meter(name) => match case.find_meter(name) {
            Some(at) => at,
            None => meters,
        },
        Item::Candidate(name) => match case.find_candidate(name) {
            Some(at) => meters + at,
            None => meters + case.candidates().len() as u32,
        },
    }
}

/// Whether an item is in its table.
pub(crate) fn is_known(case: &Case, item: Item<'_>) -> bool
    ensures known { result ≡ is_known case.now (item_said item.entry) }
{
    match item {
        Item::Meter(name) => case.find_meter(name).is_some(),
        Item::Candidate(name) => case.find_candidate(name).is_some(),
    }
}

// Whether an item is in its table and an angle item.
fn is_angle_item(case: &Case, item: Item<'_>) -> bool
    ensures angle { result ≡ is_angle_item case.now (item_said item.entry) }
{
    case.is_angle(item_of(case, item)) && is_known(case, item)
}

// The position of the branch that a word stands for in a pair of an item; None where it stands for none.
fn branch_in(case: &Case, item: Item<'_>, word: &[u8]) -> Option<u32>
    ensures position { result ≡ branch_in case.now (item_said item.entry) word.now }
    ensures within { IfSome result (λ e. e ≤ case_position_room case.now) }
{
    if !is_angle_item(case, item) {
        return case.find_branch(word);
    }
    if !is(word, b"angle") {
        return None;
    }
    Some(case.branches().len() as u32 + item_of(case, item))
}

/// The position of the branch of an item's pair; of a word that stands for none the number behind all positions that there is room for.
pub(crate) fn branch_of(case: &Case, item: Item<'_>, word: &[u8]) -> u32
    ensures position { result ≡ branch_of case.now (item_said item.entry) word.now }
    ensures below { result ≤ case_position_room case.now }
{
    match branch_in(case, item, word) {
        Some(at) => at,
        None => (case.branches().len() + (case.meters().len() + case.candidates().len())) as u32,
    }
}

/// Whether a word stands for a branch in a pair of an item.
pub(crate) fn is_known_branch(case: &Case, item: Item<'_>, word: &[u8]) -> bool
    ensures known { result ≡ is_known_branch case.now (item_said item.entry) word.now }
{
    branch_in(case, item, word).is_some()
}
