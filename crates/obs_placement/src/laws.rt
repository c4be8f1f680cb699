// The laws of placement.
ghost use Rattle.obs_placement.specs.inner.Laws.{ChosenDoAsMuch, CostIsLeast, CostIsOfAnswer, CostsWhatLayersShow, NoneIsCheaper, PositionsAreOfAnswer};
ghost use Rattle.obs_placement.specs.inner.Shown.{BoundIsReached, BoundRefutes, CompletingCostsWhatLayersShow, LayersAreShown, LayersShowTheCost, ListsComeFirst, ListsGrow, NoneCompletesForLess};

/// The chosen candidates do as much, with the meters, as all that is offered, and no live candidates that do cost less.
pub fn chosen_are_cheapest()
    ensures enough { ChosenDoAsMuch }
    ensures none_cheaper { NoneIsCheaper }
{}

/// What a plan says of the chosen candidates, their positions and their cost,
/// is of the items that the other laws speak of; so its cost is the least.
pub fn chosen_is_the_answer()
    ensures positions { PositionsAreOfAnswer }
    ensures cost { CostIsOfAnswer }
    ensures least { CostIsLeast }
{}

/// Candidates that complete the meters cost at least what layers show, for any layers that run on from 0 and have the
/// numbers of bounds of lists of their items.
pub fn layers_bound_the_cost()
    ensures bound { CostsWhatLayersShow }
    ensures completing { CompletingCostsWhatLayersShow }
{}

/// The list of each layer of a plan is the first `upto` entries of what it lists,
/// and holds that of each layer below it.
pub fn lists_of_layers()
    ensures first { ListsComeFirst }
    ensures grow { ListsGrow }
{}

/// No candidates, idle ones among them or not, that complete the meters cost less than the chosen ones, where all that
/// is offered reaches just the needed number.
pub fn none_completes_for_less()
    ensures least { NoneCompletesForLess }
{}

/// The bound of a shortfall is the greatest length of all that is offered,
/// and refutes that any candidates complete the meters.
pub fn bound_refutes()
    ensures reached { BoundIsReached }
    ensures refutes { BoundRefutes }
{}

/// Where all that is offered reaches just the needed number, the layers of the plan show its whole cost, and each of
/// their bounds is that of a list of the layer's items, and below the needed number.
pub fn layers_show_the_cost()
    ensures cost { LayersShowTheCost }
    ensures shown { LayersAreShown }
{}
