// The buses of some nodes, made anew.
ghost use Rattle.std.specs.Prelude.{◌≡◌, ◌<◌, ◌≤◌, ◌^◌, ℕ, suc, length, slice_index, take};
ghost use Rattle.obs_switch.specs.Buses.{buses_of, bus_count};
ghost use Rattle.obs_switch.specs.inner.Buses.{LinksBelow};
ghost use Rattle.obs_switch.specs.inner.Groups.{AreGroups};

use crate::group::group;
use crate::link::Link;
use crate::number::number;
use crate::sweep::settle;

// Groups the nodes by the numbers of their buses, of which there are so many.
fn group_front(numbers: &[u32], count: u32, members: &mut [u32], starts: &mut [usize])
    requires few { length numbers.now < 2 ^ 32 }
    requires room { length numbers.now ≤ length members.old }
    requires count { count < length starts.old }
    requires below { (u : ℕ) → u < length numbers.now → slice_index numbers.now u < count }
    ensures groups { AreGroups numbers.now members.new starts.new (suc count) }
{
    group(numbers, members, &mut starts[..count as usize + 1]);
}

/// Finds the buses of so many nodes, and says how many buses there are.
pub(crate) fn rebuild(
    links: &[Link],
    nodes: usize,
    firsts: &mut [u32],
    numbers: &mut [u32],
    members: &mut [u32],
    starts: &mut [usize],
) -> u32
    requires nodes { nodes ≤ length numbers.old }
    requires few { length numbers.old < 2 ^ 32 }
    requires firsts { length firsts.old ≡ length numbers.old }
    requires members { length members.old ≡ length numbers.old }
    requires starts { length numbers.old < length starts.old }
    requires ends { LinksBelow nodes links.now }
    ensures buses { take nodes numbers.new ≡ buses_of nodes links.now }
    ensures count { result ≡ bus_count nodes links.now }
    ensures few { result ≤ nodes }
    ensures below { (u : ℕ) → u < nodes → slice_index numbers.new u < result }
    ensures groups { AreGroups (take nodes numbers.new) members.new starts.new (suc result) }
{
    let firsts = &mut firsts[..nodes];
    let numbers = &mut numbers[..nodes];
    settle(firsts, links);
    let count = number(links, firsts, numbers);
    group_front(numbers, count, members, starts);
    count
}
