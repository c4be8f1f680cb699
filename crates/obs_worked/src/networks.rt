// Buses, components and what they need, and what meters touch.
ghost use Rattle.obs_worked.specs.inner.Networks.{AbsoluteNeedsOneMore, BusesOfOneOpen, BusesOfThreeJoined, ComponentsOfOnePartShut, ComponentsOfTwoParts, EnergisedOfTwoParts, JoinedInTriangle, NeedsOfTwoParts, TouchesOfRowOfFour};

/// Closed switches make buses, which are named and numbered by their first nodes. An open switch joins nothing.
pub fn buses()
    ensures joined { BusesOfThreeJoined }
    ensures apart { BusesOfOneOpen }
{}

/// Live branches make components, and a source energises one. Each needs one pair fewer than it has buses, and one more where
/// it is absolute.
pub fn components()
    ensures parts { ComponentsOfTwoParts }
    ensures shut { ComponentsOfOnePartShut }
    ensures energised { EnergisedOfTwoParts }
    ensures needs { NeedsOfTwoParts }
    ensures absolute { AbsoluteNeedsOneMore }
{}

/// A flow touches its branch, an injection all present branches at its bus, and an angle its angle branch.
pub fn touches()
    ensures touched { TouchesOfRowOfFour }
{}

/// Branches join vertices, and the rank of some is how many of them a forest can have.
pub fn ranks()
    ensures joined { JoinedInTriangle }
{}
