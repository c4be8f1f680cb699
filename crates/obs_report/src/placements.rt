// The lines on placements.
ghost use Rattle.std.specs.Prelude.{◌<◌, ◌≤◌, ◌++◌, All, length};
ghost use Rattle.std.specs.List.{flat_map};
ghost use Rattle.obs_matroid.specs.inner.Slots.{pairs_of};
ghost use Rattle.obs_placement.specs.inner.Placed.{placed_of};
ghost use Rattle.obs_network.specs.Network.{case_item_count};
ghost use Rattle.obs_report.specs.Items.{inside_line, pair_line};
ghost use Rattle.obs_report.specs.Placements.{chosen_line, cost_line, layer_line, layers_text, listed_between, placement_text, plan_text, shortfall_line};
ghost use Rattle.obs_report.specs.inner.Placements.{AreCountsOf, ArePairsOf, IsWithin};
ghost use Rattle.obs_report.specs.inner.Printed.{Appends, Prints};

use crate::items::{print_list, print_pair};
use crate::line_buffer::LineBuffer;
use crate::names::candidate_name;
use crate::totals::print_total;
use obs_assign::Assignment;
use obs_case::Case;
use obs_io::{Failed, Sink};
use obs_placement::{Layer, Placement, Plan};
use obs_rankcut::Bound;
use obs_text::Digits;

// Prints what a plan costs.
fn print_cost<W: Sink>(lines: &mut LineBuffer, output: &mut W, cost: u64)
    ensures printed { Prints W.written W.faults W.has_room output.old output.new lines.old lines.new
        (cost_line cost) }
{
    print_total(lines, output, b"cost", cost);
}

// Prints the line of a chosen candidate.
fn print_choice<W: Sink>(lines: &mut LineBuffer, output: &mut W, case: &Case, k: u32)
    requires candidate { k < length case.now.candidates }
    ensures printed { Prints W.written W.faults W.has_room output.old output.new lines.old lines.new
        (chosen_line case.now k) }
{
    lines.line(output, &[b"chosen", candidate_name(case, k)]);
}

// Prints a line for each chosen candidate.
fn print_chosen<W: Sink>(lines: &mut LineBuffer, output: &mut W, case: &Case, chosen: &[u32])
    requires chosen { All (λ k. k < length case.now.candidates) chosen.now }
    ensures printed { Prints W.written W.faults W.has_room output.old output.new lines.old lines.new
        (flat_map (chosen_line case.now) chosen.now) }
{
    for k in chosen {
        print_choice(lines, output, case, *k);
    }
}

// Prints a line for each item that has a branch.
fn print_pairs<W: Sink>(lines: &mut LineBuffer, output: &mut W, case: &Case, pairs: &Assignment)
    requires pairs { ArePairsOf case.now pairs.now }
    ensures printed { Prints W.written W.faults W.has_room output.old output.new lines.old lines.new
        (flat_map (pair_line case.now) (pairs_of pairs.now.slots)) }
{
    let items = case.meters().len() + case.candidates().len();
    for m in 0..items {
        let branch = pairs.branch_of(m as u32);
        print_pair(lines, output, case, m as u32, branch);
    }
}

// Prints the line of a layer.
fn print_numbers<W: Sink>(lines: &mut LineBuffer, output: &mut W, layer: Layer)
    ensures printed { Prints W.written W.faults W.has_room output.old output.new lines.old lines.new
        (layer_line layer) }
{
    let mut from = Digits::new();
    let mut to = Digits::new();
    let mut rank = Digits::new();
    let mut outside = Digits::new();
    let words: [&[u8]; 5] = [
        b"layer",
        from.text(layer.from),
        to.text(layer.to),
        rank.text(layer.rank as u64),
        outside.text(layer.outside as u64),
    ];
    lines.line(output, &words);
}

// Prints the line of a layer and those of the items that it adds.
fn print_layer<W: Sink>(
    lines: &mut LineBuffer,
    output: &mut W,
    case: &Case,
    layer: Layer,
    inside: &[u32],
    upto: u32,
)
    requires inside { All (λ m. m < case_item_count case.now) inside.now }
    requires rising { upto ≤ layer.upto }
    requires within { layer.upto ≤ length inside.now }
    ensures printed { Prints W.written W.faults W.has_room output.old output.new lines.old lines.new
        (layer_line layer ++ listed_between case.now inside.now upto layer.upto) }
{
    print_numbers(lines, output, layer);
    let added = &inside[upto as usize..layer.upto as usize];
    print_list(lines, output, case, added);
}

// Prints the layers and the items that they list.
fn print_layers<W: Sink>(
    lines: &mut LineBuffer,
    output: &mut W,
    case: &Case,
    layers: &[Layer],
    inside: &[u32],
)
    requires inside { All (λ m. m < case_item_count case.now) inside.now }
    requires counts { AreCountsOf (length inside.now) 0 layers.now }
    ensures printed { Prints W.written W.faults W.has_room output.old output.new lines.old lines.new
        (layers_text case.now inside.now 0 layers.now) }
{
    let mut upto = 0;
    for k in 0..layers.len() {
        print_layer(lines, output, case, layers[k], inside, upto);
        upto = layers[k].upto;
    }
}

// Appends a plan.
fn print_plan<W: Sink>(
    output: &mut W,
    case: &Case,
    plan: &Plan<'_>,
    pairs: &Assignment,
) -> Result<(), Failed>
    requires chosen { All (λ k. k < length case.now.candidates) plan.now.chosen.now }
    requires inside { All (λ m. m < case_item_count case.now) plan.now.inside.now }
    requires counts { AreCountsOf (length plan.now.inside.now) 0 plan.now.layers.now }
    requires pairs { ArePairsOf case.now pairs.now }
    ensures appends { Appends W.written W.faults W.has_room output.old output.new result
        (plan_text case.now (record {
          chosen = plan.now.chosen.now;
          cost = plan.now.cost;
          layers = plan.now.layers.now;
          inside = plan.now.inside.now;
        }) (pairs_of pairs.now.slots)) }
{
    let mut lines = LineBuffer::new();
    print_cost(&mut lines, output, plan.cost);
    print_chosen(&mut lines, output, case, plan.chosen);
    print_pairs(&mut lines, output, case, pairs);
    print_layers(&mut lines, output, case, plan.layers, plan.inside);
    lines.finish(output)
}

// Prints the line of a shortfall.
fn print_lack<W: Sink>(lines: &mut LineBuffer, output: &mut W, rank: u32, outside: u32)
    ensures printed { Prints W.written W.faults W.has_room output.old output.new lines.old lines.new
        (shortfall_line rank outside) }
{
    let mut rank_digits = Digits::new();
    let mut outside_digits = Digits::new();
    let words: [&[u8]; 3] = [
        b"shortfall",
        rank_digits.text(rank as u64),
        outside_digits.text(outside as u64),
    ];
    lines.line(output, &words);
}

// Appends a shortfall.
fn print_shortfall<W: Sink>(output: &mut W, case: &Case, bound: &Bound<'_>) -> Result<(), Failed>
    requires inside { All (λ m. m < case_item_count case.now) bound.now.inside.now }
    ensures appends { Appends W.written W.faults W.has_room output.old output.new result
        (shortfall_line bound.now.rank bound.now.outside ++ flat_map (inside_line case.now) bound.now.inside.now) }
{
    let mut lines = LineBuffer::new();
    print_lack(&mut lines, output, bound.rank, bound.outside);
    print_list(&mut lines, output, case, bound.inside);
    lines.finish(output)
}

/// Appends a placement: of a plan what it costs, the chosen candidates, the pairs of meters and candidates with their
/// branches, and its layers, each with the items that it adds; of a shortfall the two numbers of its bound and the
/// listed items. Items are the meters and then the candidates.
pub fn print_placement<W: Sink>(
    output: &mut W,
    case: &Case,
    found: &Placement<'_>,
    pairs: &Assignment,
) -> Result<(), Failed>
    requires within { IsWithin case.now (placed_of found.now) }
    requires pairs { ArePairsOf case.now pairs.now }
    ensures appends { Appends W.written W.faults W.has_room output.old output.new result
        (placement_text case.now (placed_of found.now) (pairs_of pairs.now.slots)) }
{
    match found {
        Placement::Cheapest(plan) => print_plan(output, case, plan, pairs),
        Placement::Shortfall(bound) => print_shortfall(output, case, bound),
    }
}
