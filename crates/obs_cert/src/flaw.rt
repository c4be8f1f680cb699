// Why a claim doesn't hold.
ghost use Rattle.std.specs.Prelude.{◌≡◌};
ghost use Rattle.obs_cert.specs.FlawNames.{flaw_code, flaw_name};

/// What is false of a claim. Where several clauses are false, the one of the lowest number is answered.
#[derive(Clone, Copy)]
pub enum FlawCode {
    /// A name isn't in its table.
    UnknownName = 1,
    /// The name isn't that of an energised component.
    NotComponent = 2,
    /// An item isn't one that the claim may speak of.
    NotInside = 3,
    /// A pair's branch isn't touched by its item.
    NotTouched = 4,
    /// An item or a branch stands twice.
    Twice = 5,
    /// The pairs' branches are no forest.
    Cycle = 6,
    /// The number of pairs isn't the need.
    WrongLength = 7,
    /// The rank isn't that of the branches touched by the list.
    WrongRank = 8,
    /// The number outside isn't that of the items in scope outside the list.
    WrongOutside = 9,
    /// Rank and outside together aren't below the need.
    NotBelow = 10,
    /// The layers don't run on from 0.
    WrongLayers = 11,
    /// The chosen prices, or what the layers show, aren't the cost.
    WrongCost = 12,
}

impl FlawCode {
    /// The flaw's number.
    pub fn code(self) -> u32
        ensures code { result ≡ flaw_code self }
    {
        self as u32
    }

    /// The flaw's name.
    pub fn name(self) -> &'static [u8]
        ensures name { result.now ≡ flaw_name self }
    {
        match self {
            FlawCode::UnknownName => b"UnknownName",
            FlawCode::NotComponent => b"NotComponent",
            FlawCode::NotInside => b"NotInside",
            FlawCode::NotTouched => b"NotTouched",
            FlawCode::Twice => b"Twice",
            FlawCode::Cycle => b"Cycle",
            FlawCode::WrongLength => b"WrongLength",
            FlawCode::WrongRank => b"WrongRank",
            FlawCode::WrongOutside => b"WrongOutside",
            FlawCode::NotBelow => b"NotBelow",
            FlawCode::WrongLayers => b"WrongLayers",
            FlawCode::WrongCost => b"WrongCost",
        }
    }
}

/// The first claim that fails, counted from 1, and its flaw.
#[derive(Clone, Copy)]
pub struct Flaw {
    pub claim: u32,
    pub code: FlawCode,
}
