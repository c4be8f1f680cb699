// What a bound is.

/// A list of meters, rising, with the rank of the branches that they touch and the number of live meters of the scope
/// outside the list: no assignment of meters of the scope has more pairs than these two together. `needed` is the
/// number of pairs that it is compared with.
#[derive(Clone, Copy)]
pub struct Bound<'a> {
    pub inside: &'a [u32],
    pub rank: u32,
    pub outside: u32,
    pub needed: u32,
}
