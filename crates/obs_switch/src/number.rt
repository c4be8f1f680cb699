// Buses by number.
ghost use Rattle.std.specs.Prelude.{◌≡◌, ◌≢◌, ◌<◌, ◌≤◌, ◌^◌, ℕ, length, slice_index};
ghost use Rattle.obs_switch.specs.Buses.{buses_of, bus_count, first_node};

use crate::link::Link;

// The number of a node with this first node.
fn number_of(first: usize, node: usize, count: u32, numbers: &[u32]) -> u32
    requires first { first < length numbers.now }
    ensures new { first ≡ node → result ≡ count }
    ensures known { first ≢ node → result ≡ slice_index numbers.now first }
{
    if first == node { count } else { numbers[first] }
}

/// Numbers the buses in the order of their first nodes, and says how many there are.
pub(crate) fn number(links: &[Link], firsts: &[u32], numbers: &mut [u32]) -> u32
    requires room { length firsts.now ≡ length numbers.old }
    requires few { length firsts.now < 2 ^ 32 }
    requires firsts { (u : ℕ) → u < length firsts.now → slice_index firsts.now u ≡ first_node links.now u }
    ensures buses { numbers.new ≡ buses_of (length firsts.now) links.now }
    ensures count { result ≡ bus_count (length firsts.now) links.now }
    ensures few { result ≤ length firsts.now }
    ensures below { (u : ℕ) → u < length numbers.new → slice_index numbers.new u < result }
{
    let mut count = 0;
    for node in 0..firsts.len() {
        let first = firsts[node] as usize;
        numbers[node] = number_of(first, node, count, numbers);
        if first == node {
            count += 1;
        }
    }
    count
}
