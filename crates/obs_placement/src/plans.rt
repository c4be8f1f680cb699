// What a placement gives.

use obs_rankcut::Bound;

/// The part of the cost between two prices. The items of a layer are the live meters and the live candidates whose
/// price is below `to`, and its list are those of them that aren't critical among them: the first `upto` entries of a
/// plan's `inside`. `rank` is the rank of the branches that the listed ones touch, and `outside` is the number of the
/// other items.
#[derive(Clone, Copy, PartialEq, Eq)]
pub struct Layer {
    pub from: u64,
    pub to: u64,
    pub rank: u32,
    pub outside: u32,
    pub upto: u32,
}

/// The positions of the chosen candidates, rising, and what they cost. There is a layer for each different price above
/// 0 of theirs, by rising price; `inside` has the lists of the layers one after the other, where each adds only
/// what is new.
#[derive(Clone, Copy)]
pub struct Plan<'a> {
    pub chosen: &'a [u32],
    pub cost: u64,
    pub layers: &'a [Layer],
    pub inside: &'a [u32],
}

/// The cheapest candidates that, with the meters, do as much as all that is offered, or the bound that shows that all
/// candidates together don't complete the meters. Where all that is offered reaches just the needed number, none complete
/// them for less.
#[derive(Clone, Copy)]
pub enum Placement<'a> {
    Cheapest(Plan<'a>),
    Shortfall(Bound<'a>),
}
