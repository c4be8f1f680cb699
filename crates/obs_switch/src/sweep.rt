// Labels that are lowered, sweep by sweep, until a whole sweep changes nothing.
ghost use Rattle.std.specs.Prelude.{◌≡◌, ◌<◌, ◌≤◌, ◌^◌, false, length, slice_index, ℕ};
ghost use Rattle.obs_switch.specs.Buses.{first_node};
ghost use Rattle.obs_switch.specs.inner.Buses.{LinksBelow};
ghost use Rattle.obs_switch.specs.inner.Labels.{AreLabels, AreLowered, AreOwn, AreSettled};

use crate::link::Link;

// Lowers the label of one node, where the new label is below it, and says whether it was.
fn lower(labels: &mut [u32], links: &[Link], node: u32, label: u32) -> bool
    requires node { node < length labels.old }
    requires labels { AreLabels links.now labels.old }
    requires one_bus { first_node links.now label ≡ first_node links.now node }
    ensures lowered { AreLowered links.now labels.old labels.new result }
    ensures at_most { slice_index labels.new node ≤ label }
{
    if label < labels[node as usize] {
        labels[node as usize] = label;
        return true;
    }
    false
}

// Gives both ends of a link, and the node that the higher of their labels names, the lower label,
// and says whether a label changed.
fn level(labels: &mut [u32], links: &[Link], from: u32, to: u32) -> bool
    requires from { from < length labels.old }
    requires to { to < length labels.old }
    requires labels { AreLabels links.now labels.old }
    requires one_bus { first_node links.now from ≡ first_node links.now to }
    ensures lowered { AreLowered links.now labels.old labels.new result }
    ensures settled { result ≡ false → slice_index labels.old from ≡ slice_index labels.old to }
{
    let one = labels[from as usize];
    let other = labels[to as usize];
    if one == other {
        return false;
    }
    let low = one.min(other);
    let high = one.max(other);
    let at_from = lower(labels, links, from, low);
    let at_to = lower(labels, links, to, low);
    let at_label = lower(labels, links, high, low);
    at_from | at_to | at_label
}

// Levels the ends of each link, from the first link to the last, and says whether a label changed.
fn sweep(labels: &mut [u32], links: &[Link]) -> bool
    requires ends { LinksBelow (length labels.old) links.now }
    requires labels { AreLabels links.now labels.old }
    ensures lowered { AreLowered links.now labels.old labels.new result }
    ensures settled { result ≡ false → AreSettled links.now labels.new }
{
    let mut changed = false;
    for link in links {
        if level(labels, links, link.from, link.to) {
            changed = true;
        }
    }
    changed
}

// The same from the last link to the first.
fn sweep_back(labels: &mut [u32], links: &[Link]) -> bool
    requires ends { LinksBelow (length labels.old) links.now }
    requires labels { AreLabels links.now labels.old }
    ensures lowered { AreLowered links.now labels.old labels.new result }
{
    let mut changed = false;
    for i in (0..links.len()).rev() {
        if level(labels, links, links[i].from, links[i].to) {
            changed = true;
        }
    }
    changed
}

// Gives each node the label of its label, from the first node to the last, so that each label is its own, and
// says whether a label changed.
fn jump(labels: &mut [u32], links: &[Link]) -> bool
    requires labels { AreLabels links.now labels.old }
    ensures lowered { AreLowered links.now labels.old labels.new result }
    ensures own { AreOwn labels.new }
{
    let mut changed = false;
    for node in 0..labels.len() {
        let label = labels[labels[node] as usize];
        if label < labels[node] {
            labels[node] = label;
            changed = true;
        }
    }
    changed
}

// Makes each node its own label.
fn begin(labels: &mut [u32])
    requires few { length labels.old < 2 ^ 32 }
    ensures own { (u : ℕ) → u < length labels.new → slice_index labels.new u ≡ u }
{
    for node in 0..labels.len() {
        labels[node] = node as u32;
    }
}

/// Finds the first node of each node's bus. The sweeps go forth and back, so that chains of links in
/// either order settle at once, and labels jump after each sweep, so that those in no order settle soon.
pub(crate) fn settle(labels: &mut [u32], links: &[Link])
    requires few { length labels.old < 2 ^ 32 }
    requires ends { LinksBelow (length labels.old) links.now }
    ensures firsts { (u : ℕ) → u < length labels.new → slice_index labels.new u ≡ first_node links.now u }
{
    begin(labels);
    loop {
        if !sweep(labels, links) {
            return;
        }
        jump(labels, links);
        sweep_back(labels, links);
        jump(labels, links);
    }
}
