// Assignments, ranks, critical meters, bounds, first assignments and islands.
ghost use Rattle.obs_worked.specs.inner.Answers.{BoundOfRowOfFour, CriticalMeters, FirstPairs, FlowAndInjectionPair, Islands, IslandsOfFive, IslandsOverReference, NoBranchHasTwo, NoCycle, NoMeterHasTwo, NoneUntouched, Ranks};

/// An assignment gives different meters different branches that they touch, which are a forest.
pub fn assignments()
    ensures pairs { FlowAndInjectionPair }
    ensures branch { NoBranchHasTwo }
    ensures meter { NoMeterHasTwo }
    ensures untouched { NoneUntouched }
    ensures cycle { NoCycle }
{}

/// The greatest length of an assignment.
pub fn ranks()
    ensures ranks { Ranks }
{}

/// The meters whose loss lowers the rank, and the bound that the others show.
pub fn critical_meters()
    ensures critical { CriticalMeters }
    ensures bound { BoundOfRowOfFour }
{}

/// The least of the longest assignments.
pub fn first_assignments()
    ensures first { FirstPairs }
{}

/// The first bus of each bus's island.
pub fn islands()
    ensures islands { Islands }
    ensures reference { IslandsOverReference }
    ensures five { IslandsOfFive }
{}
