// What is known of each component, and of all, by one pass over the buses, the nodes or the components.
ghost use Rattle.std.specs.Prelude.{◌≡◌, ◌≢◌, ◌<◌, ◌≤◌, ◌^◌, ℕ, All, IfSome, IsSome, IsTrue, length, slice_index, sum, take};
ghost use Rattle.obs_graph.specs.Positions.{present};
ghost use Rattle.obs_case.specs.Tables.{most_rows};
ghost use Rattle.obs_graph.specs.Joined.{first_joined};
ghost use Rattle.obs_network.specs.Components.{component_count, components_of, energised_branches, first_buses_of, if_energised, marked_of, needed_of, sizes_of};
ghost use Rattle.obs_network.specs.inner.Kept.{flag_of, need_by};

use obs_case::Node;
use obs_graph::Ends;
use obs_switch::Buses;

/// A flag of nodes.
#[derive(Clone, Copy)]
pub(crate) enum Flag {
    Source,
    Absolute,
}

// The number of the component of a bus with this first bus.
fn number_of(first: usize, bus: usize, count: u32, numbers: &[u32]) -> u32
    requires first { first < length numbers.now }
    ensures new { first ≡ bus → result ≡ count }
    ensures known { first ≢ bus → result ≡ slice_index numbers.now first }
{
    if first == bus { count } else { numbers[first] }
}

/// Numbers the components in the order of their first buses, notes these, and says how many there are.
pub(crate) fn number(
    firsts: &[u32],
    live: &[Option<Ends>],
    numbers: &mut [u32],
    first_buses: &mut [u32],
) -> usize
    requires few { length firsts.now < 2 ^ 32 }
    requires numbers { length firsts.now ≡ length numbers.old }
    requires room { length firsts.now ≤ length first_buses.old }
    requires firsts { (b : ℕ) → b < length firsts.now → slice_index firsts.now b ≡ first_joined (present live.now) b }
    ensures numbers { numbers.new ≡ components_of (length firsts.now) (present live.now) }
    ensures first_buses { take result first_buses.new ≡ first_buses_of (length firsts.now) (present live.now) }
    ensures count { result ≡ component_count (length firsts.now) (present live.now) }
    ensures few { result ≤ length firsts.now }
    ensures below { All (λ c. c < result) numbers.new }
    ensures firsts { All (λ b. b < length firsts.now) (take result first_buses.new) }
{
    let mut count = 0;
    for bus in 0..firsts.len() {
        let first = firsts[bus] as usize;
        numbers[bus] = number_of(first, bus, count as u32, numbers);
        if first == bus {
            first_buses[count] = bus as u32;
            count += 1;
        }
    }
    count
}

/// Counts the buses of each component.
pub(crate) fn count_sizes(numbers: &[u32], sizes: &mut [u32])
    requires few { length numbers.now < 2 ^ 32 }
    requires below { All (λ c. c < length sizes.old) numbers.now }
    ensures sizes { sizes.new ≡ sizes_of (length sizes.old) numbers.now }
{
    sizes.fill(0);
    for number in numbers {
        sizes[*number as usize] += 1;
    }
}

// Whether a node has the flag.
fn has(row: &Node, flag: Flag) -> bool
    ensures value { result ≡ flag_of flag row.now }
{
    match flag {
        Flag::Source => row.source,
        Flag::Absolute => row.absolute,
    }
}

/// Marks the components with a node that has the flag.
pub(crate) fn mark_components(
    flag: Flag,
    nodes: &[Node],
    buses: &Buses,
    numbers: &[u32],
    marks: &mut [bool],
)
    requires few { length nodes.now < 2 ^ 32 }
    requires nodes { length nodes.now ≡ length buses.now.buses }
    requires buses { buses.now.count ≡ length numbers.now }
    requires below { All (λ c. c < length marks.old) numbers.now }
    ensures marks { marks.new ≡ marked_of (flag_of flag) (length marks.old) numbers.now buses.now.buses nodes.now }
{
    marks.fill(false);
    for u in 0..nodes.len() {
        if has(&nodes[u], flag) {
            marks[numbers[buses.bus(u as u32) as usize] as usize] = true;
        }
    }
}

/// The pairs that a component of this size needs.
pub(crate) fn need_by(size: u32, absolute: bool) -> u32
    requires some { 0 < size }
    ensures need { result ≡ need_by size absolute }
    ensures few { result ≤ size }
{
    if absolute { size } else { size - 1 }
}

/// Adds up what the energised components need.
pub(crate) fn add_needs(sizes: &[u32], energised: &[bool], absolute: &[bool]) -> u32
    requires lengths { length sizes.now ≡ length energised.now }
    requires as_many { length sizes.now ≡ length absolute.now }
    requires whole { sum sizes.now ≤ most_rows }
    requires some { All (λ s. 0 < s) sizes.now }
    ensures needed { result ≡ needed_of sizes.now energised.now absolute.now (length sizes.now) }
{
    let mut needed = 0;
    for c in 0..sizes.len() {
        if energised[c] {
            needed += need_by(sizes[c], absolute[c]);
        }
    }
    needed
}

// The branch, where it is of an energised component.
fn if_energised(branch: Option<Ends>, numbers: &[u32], energised: &[bool]) -> Option<Ends>
    requires end { IfSome branch (λ e. e.a < length numbers.now) }
    requires below { All (λ c. c < length energised.now) numbers.now }
    ensures kept { result ≡ if_energised numbers.now energised.now branch }
{
    match branch {
        Some(ends) if energised[numbers[ends.a as usize] as usize] => Some(ends),
        _ => None,
    }
}

// Whether nothing of a branch is lost where this is kept of it.
fn is_whole(branch: Option<Ends>, kept: Option<Ends>) -> bool
    ensures whole { IsTrue result → IsSome branch → IsSome kept }
{
    kept.is_some() || branch.is_none()
}

/// Writes the live branches of energised components, each at its position. Answers true only where these are all that are live.
pub(crate) fn write_energised(
    live: &[Option<Ends>],
    numbers: &[u32],
    energised: &[bool],
    kept: &mut [Option<Ends>],
) -> bool
    requires room { length live.now ≡ length kept.old }
    requires ends { All (λ o. IfSome o (λ e. e.a < length numbers.now)) live.now }
    requires below { All (λ c. c < length energised.now) numbers.now }
    ensures kept { kept.new ≡ energised_branches numbers.now energised.now live.now }
    ensures all { IsTrue result → kept.new ≡ live.now }
{
    let mut all = true;
    for i in 0..live.len() {
        let branch = if_energised(live[i], numbers, energised);
        kept[i] = branch;
        all = all && is_whole(live[i], branch);
    }
    all
}
