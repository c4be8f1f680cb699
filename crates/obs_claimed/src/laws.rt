//! What is printed of a case is a certificate that holds, and fits a file.
ghost use Rattle.obs_claimed.specs.inner.Laws.{BoundsAreLines, BoundsHold, LastIsLine, PlacementsAreLines, PlacementsFit, PlacementsHold, TreesAndBoundsFit, TreesAreLines, TreesHold};

/// A printed text is the lines of the claim that it means, and the last line ends a certificate.
pub fn texts_are_lines()
    ensures trees { TreesAreLines }
    ensures bounds { BoundsAreLines }
    ensures placements { PlacementsAreLines }
    ensures last { LastIsLine }
{}

/// The tree of an observable component holds.
pub fn trees_hold()
    ensures hold { TreesHold }
{}

/// The bound of an energised component that isn't observable holds.
pub fn bounds_hold()
    ensures hold { BoundsHold }
{}

/// The placement of a case holds: its plan with its pairs and layers, or its shortfall.
pub fn placements_hold()
    ensures hold { PlacementsHold }
{}

/// What is printed of a valid case has at most 616 bytes for each row that a table may have, and 30 more: the trees
/// and bounds of all components together, and the placement, each with the last line.
pub fn texts_fit()
    ensures claims { TreesAndBoundsFit }
    ensures placements { PlacementsFit }
{}
