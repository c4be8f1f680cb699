// The laws of assignments over a matroid: each is the contract of a function that does nothing.
ghost use Rattle.obs_matroid.specs.inner.Laws.{IndependentByRank, IndependentInAnyOrder, RankIsGreatest, GraphIsMatroid, WeakBound, RhoComputed, RhoUnique, NonCriticalIsTight, OutsideTightIsCritical, CriticalComputed, LeastClosedIsNonCritical, CriticalInSmaller, GrowsOrCloses, ClosedAddsNone, ClosedIsLongest, ClosedCounts, ClosedIsTight, LeastClosedHasNoFrozen, ClosedTogether, ExchangePathGrows, PinGivesUpOne, PinIsImpossible, Regrows, FirstComputed, FirstUnique, ComponentBound, BetweenIslandsRaises, IslandsPartition, LayerBound, AnswerComputed, AnswerUnique, AnswerCompletes, AnswerCounts, AnswerLacks, AnswerCost, AnswerIsCheapest, OwnLayersRun, OwnLayersShow, OwnListsGrow, PartnersComputed, PartnersAreNewlyCritical, PartnersTogether, ClassesPartition, PartnersOfUnpaired, SourcesTogether};

/// Independent branches do not depend on their order, and the rank of a list is their greatest number in it.
pub fn independence()
    ensures by_rank { IndependentByRank }
    ensures in_any_order { IndependentInAnyOrder }
    ensures greatest { RankIsGreatest }
{}

/// What lists of branches join in a graph is a matroid.
pub fn graph_is_matroid()
    ensures is_matroid { GraphIsMatroid }
{}

/// No assignment is longer than any bound.
pub fn weak_bound()
    ensures bounded { WeakBound }
{}

/// Each list of different items has one greatest length, and `rho_of` gives it.
pub fn rho()
    ensures computed { RhoComputed }
    ensures unique { RhoUnique }
{}

/// The items that are not critical are the least tight set.
pub fn least_tight()
    ensures tight { NonCriticalIsTight }
    ensures least { OutsideTightIsCritical }
{}

/// An item is critical exactly where the test says so, and where the least closed set, with nothing frozen and every
/// item a source, does not hold it. What is critical in a list is critical in each smaller list that holds it.
pub fn critical()
    ensures computed { CriticalComputed }
    ensures outside_least_closed { LeastClosedIsNonCritical }
    ensures in_smaller { CriticalInSmaller }
{}

/// Two items are partners where neither is critical and without both the greatest length falls. The partners of an item
/// are what becomes critical without it, and items fall into classes of partners. Those of an item without a pair are
/// the redundant items that the other items without a pair don't reach.
pub fn partners()
    ensures computed { PartnersComputed }
    ensures newly_critical { PartnersAreNewlyCritical }
    ensures together { PartnersTogether }
    ensures classes { ClassesPartition }
    ensures of_unpaired { PartnersOfUnpaired }
{}

/// An assignment grows by a source, or it has a least closed set: then none that keeps its items and the frozen pairs
/// adds a source, and where every item is a source, none that keeps the frozen pairs is longer.
pub fn search()
    ensures grows_or_closes { GrowsOrCloses }
    ensures adds_none { ClosedAddsNone }
    ensures longest { ClosedIsLongest }
{}

/// What a closed set says of other assignments; the least one holds no frozen item,
/// two closed sets together are closed, and two sets of sources reach together what the one reaches or the other.
pub fn closed_sets()
    ensures counts { ClosedCounts }
    ensures tight { ClosedIsTight }
    ensures no_frozen { LeastClosedHasNoFrozen }
    ensures together { ClosedTogether }
    ensures sources { SourcesTogether }
{}

/// An exchange path without shortcuts gives an assignment of one more pair.
pub fn exchange_path()
    ensures grows { ExchangePathGrows }
{}

/// A pair of an item that is not frozen can be made, and at most one further item loses its pair, which is not frozen;
/// or the frozen branches span its branch, and then no assignment that has the frozen pairs has it.
pub fn pin()
    ensures gives_up_one { PinGivesUpOne }
    ensures impossible { PinIsImpossible }
{}

/// An assignment can be regrown to the greatest length that its frozen pairs allow.
pub fn regrow()
    ensures regrows { Regrows }
{}

/// There is one first assignment, and `first_of` gives it.
pub fn first_assignment()
    ensures computed { FirstComputed }
    ensures unique { FirstUnique }
{}

/// A closed set that holds each item without a pair, with nothing frozen, bounds the number of pairs in each component.
pub fn component_bound()
    ensures tight { ComponentBound }
{}

/// Each vertex lies in exactly one island. Where the branches that each item of a list touches have an end in common,
/// an item more raises the greatest length by one exactly where it touches a branch between two islands.
pub fn islands()
    ensures partition { IslandsPartition }
    ensures raised { BetweenIslandsRaises }
{}

/// Each completing set of candidates costs at least what the layers show.
pub fn layer_bound()
    ensures cost { LayerBound }
{}

/// There is one answer, and `answer_of` gives it; it does as much as all candidates, layers with tight lists that its
/// prices neither cut nor exceed show its whole cost, and none that does as much is cheaper.
pub fn answer()
    ensures computed { AnswerComputed }
    ensures unique { AnswerUnique }
    ensures completes { AnswerCompletes }
    ensures counts { AnswerCounts }
    ensures lacks { AnswerLacks }
    ensures cost { AnswerCost }
    ensures cheapest { AnswerIsCheapest }
{}

/// The own layers of the answer, one for each different price above 0 of its members, with the lists of the items that
/// are not critical, show its whole cost; each lacks something to the needed number, and each list holds the
/// one before it.
pub fn own_layers()
    ensures run { OwnLayersRun }
    ensures show { OwnLayersShow }
    ensures lists_grow { OwnListsGrow }
{}
