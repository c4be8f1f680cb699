// The laws of what a session finds.
ghost use Rattle.obs_edit.specs.Laws.{CandidatesBetweenIslandsRaise, IslandsAreNamed, IslandsBeginWithBuses, IslandsLieInComponents, IslandsTellApart, ObservableIsIsland, TreesAreFirst, TreesAreWhole, TreesSpan, TreesStandAlone};
ghost use Rattle.obs_edit.specs.Placements.{LayersAddUp, LayersAreBounds, LayersBoundCosts, ObservableCostsNothing, PlannedShortfallsRefute, PlansAreCheapest, PlansComplete, PlansHaveFirstPairs};
ghost use Rattle.obs_edit.specs.Planned.{PlanPairsAreFirst};

/// The pairs of a plan are the first assignment of its items, the meters and then the chosen candidates: no assignment
/// of them is longer, and of those that are as long none comes before it.
pub fn plan_pairs_are_first()
    ensures first { PlanPairsAreFirst }
    ensures in_cases { PlansHaveFirstPairs }
{}

/// The pairs of a tree are the first assignment of the live meters of its component alone: no assignment of these is
/// longer, and of those that are as long none comes before it. So the meters of other components make no difference to
/// them. In an observable component they are as many as it needs, and their branches join all its vertices: its
/// buses, and its reference vertex where it is absolute.
pub fn trees_are_first()
    ensures first { TreesAreFirst }
    ensures alone { TreesStandAlone }
    ensures whole { TreesAreWhole }
    ensures spanning { TreesSpan }
{}

/// Each vertex lies in exactly one island, and is named by the first vertex of that island, which is a bus where the
/// island has one. Two vertices are named alike exactly where some island has both.
pub fn islands_are_named()
    ensures named { IslandsAreNamed }
    ensures alike { IslandsTellApart }
    ensures bus { IslandsBeginWithBuses }
{}

/// A candidate raises the rank of a case by one exactly where it touches a branch between two islands.
pub fn candidates_between_islands()
    ensures raised { CandidatesBetweenIslandsRaise }
{}

/// An island lies in one component. A component is observable exactly where its vertices are an island: its buses, and
/// its reference vertex where it is absolute.
pub fn observable_is_island()
    ensures in_component { IslandsLieInComponents }
    ensures island { ObservableIsIsland }
{}

/// The chosen candidates of a plan complete the meters of the case at the plan's cost, and none complete them for less.
/// An observable case has a plan, which costs nothing.
pub fn plans_are_cheapest()
    ensures complete { PlansComplete }
    ensures cheapest { PlansAreCheapest }
    ensures observable { ObservableCostsNothing }
{}

/// The layers of a plan run on from 0, and each has the numbers of the bound of a list of its items. Candidates that
/// complete the meters cost at least what such layers show, and those of the plan show its whole cost.
pub fn layers_show_the_cost()
    ensures bounds { LayersAreBounds }
    ensures least { LayersBoundCosts }
    ensures cost { LayersAddUp }
{}

/// The bound of a shortfall is below what the case needs, and no candidates complete its meters.
pub fn shortfalls_refute()
    ensures refuted { PlannedShortfallsRefute }
{}
