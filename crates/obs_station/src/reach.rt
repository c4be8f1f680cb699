// From which stations the meters are reached.

/// Of each meter the first place in the order of the stations from which it is reached, and where that was asked for the
/// first one when they are gone through from the last to the first.
#[derive(Clone, Copy)]
pub(crate) struct Reach<'a> {
    pub(crate) firsts: &'a [u32],
    pub(crate) lasts: &'a [u32],
    pub(crate) both: bool,
}
