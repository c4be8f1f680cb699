// Which answers to the present case are at hand.
ghost use Rattle.std.specs.Prelude.{◌≡◌, false, None};

/// Whether the kept pairs are the first ones, whether the critical meters are listed, whether the islands are found,
/// for which component a bound is at hand, and whether a placement is.
#[derive(Clone, Copy)]
pub struct AtHand {
    pub first: bool,
    pub critical: bool,
    pub islands: bool,
    pub bound: Option<u32>,
    pub placed: bool,
}

impl AtHand {
    /// Nothing.
    pub(crate) fn nothing() -> AtHand
        ensures nothing { result ≡ record {
          first = false;
          critical = false;
          islands = false;
          bound = None;
          placed = false;
        } }
    {
        AtHand {
            first: false,
            critical: false,
            islands: false,
            bound: None,
            placed: false,
        }
    }
}
