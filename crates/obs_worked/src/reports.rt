// What is printed of worked cases.
ghost use Rattle.obs_worked.specs.inner.Reports.{AbsolutePairIsReported, AngleIsBought, GivenIsPrinted, NodesArePrinted, OneBusIsReported, ParallelIsReported, PlanIsPrinted, RowOfFourIsReported, ShortfallIsPrinted, StarIsReported, SummariesAreSaid, TrialsArePrinted, TriangleIsReported, TwoLayersArePrinted, WithoutSourceIsReported};

/// Nodes and their buses.
pub fn nodes()
    ensures printed { NodesArePrinted }
{}

/// The counts, the claims, the islands and the critical meters of a case.
pub fn reports()
    ensures row { RowOfFourIsReported }
    ensures triangle { TriangleIsReported }
    ensures parallel { ParallelIsReported }
    ensures star { StarIsReported }
    ensures without_source { WithoutSourceIsReported }
    ensures one_bus { OneBusIsReported }
    ensures absolute { AbsolutePairIsReported }
{}

/// A plan with its pairs and layers, or a shortfall.
pub fn placements()
    ensures plan { PlanIsPrinted }
    ensures given { GivenIsPrinted }
    ensures angle { AngleIsBought }
    ensures layers { TwoLayersArePrinted }
    ensures shortfall { ShortfallIsPrinted }
{}

/// What is said of a case beside its answer.
pub fn summaries()
    ensures said { SummariesAreSaid }
{}

/// What a generated case comes to.
pub fn trials()
    ensures printed { TrialsArePrinted }
{}
