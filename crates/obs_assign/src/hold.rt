// The pairs, listed by their branches, and held in a forest again.
ghost use Rattle.std.specs.Prelude.{◌≡◌, ◌<◌, ◌≤◌, ◌^◌, ℕ, Some, None, false, length, replicate, slice_index_or, take};
ghost use Rattle.obs_graph.specs.Positions.{IsForestAt};
ghost use Rattle.obs_graph.specs.inner.Search.{room_of, IsRooted};
ghost use Rattle.obs_matroid.specs.Assignments.{branches};
ghost use Rattle.obs_matroid.specs.inner.Slots.{pairs_of};
ghost use Rattle.obs_forest.specs.inner.Forest.{taken};
ghost use Rattle.obs_assign.specs.inner.Kept.{IsInverse, IsListed, SlotsApart};

use obs_forest::Forest;
use obs_graph::Graph;
use obs_graph::search::Search;

/// Empties all slots.
pub fn empty(slots: &mut [Option<u32>])
    ensures empty { slots.new ≡ replicate (length slots.old) None }
{
    slots.fill(None);
}

/// Takes all flags back.
pub fn clear_flags(flags: &mut [bool])
    ensures clear { flags.new ≡ replicate (length flags.old) false }
{
    flags.fill(false);
}

/// Lists the branches of the pairs, by meter, and writes for each branch the meter that has it. Says how many they are.
pub fn list_pairs(slots: &[Option<u32>], owners: &mut [Option<u32>], list: &mut [u32]) -> usize
    requires few { length slots.now < 2 ^ 32 }
    requires room { length slots.now ≤ length list.old }
    requires low { (m e : ℕ) → slice_index_or slots.now m None ≡ Some e → e < length owners.old }
    requires apart { SlotsApart slots.now }
    ensures list { take result list.new ≡ branches (pairs_of slots.now) }
    ensures bound { result ≤ length slots.now }
    ensures inverse { IsInverse slots.now owners.new }
{
    empty(owners);
    let mut count = 0;
    for (m, slot) in slots.iter().enumerate() {
        if let Some(e) = *slot {
            owners[e as usize] = Some(m as u32);
            list[count] = e;
            count += 1;
        }
    }
    count
}

/// Holds the branches of the pairs, and no others, where a search has found their pieces. Says how many they are.
pub fn hold_pairs(
    g: &Graph,
    slots: &[Option<u32>],
    owners: &mut [Option<u32>],
    list: &mut [u32],
    found: &mut Search,
    forest: &mut Forest,
) -> u32
    requires few { length slots.now < 2 ^ 32 }
    requires room { length slots.now ≤ length list.old }
    requires owners { length g.now.ends ≤ length owners.old }
    requires vertices { g.now.vertices ≤ forest.old.most_vertices }
    requires branches { length g.now.ends ≤ forest.old.most_branches }
    requires forest { IsForestAt g.now.ends (branches (pairs_of slots.now)) }
    requires rooted { IsRooted g.now.vertices (taken g.now.ends (branches (pairs_of slots.now))) found.old }
    requires found { room_of found.old ≡ forest.old.most_vertices }
    ensures count { result ≡ length (pairs_of slots.now) }
    ensures inverse { IsInverse slots.now owners.new }
    ensures listed { IsListed slots.now (take result list.new) }
    ensures forest { forest.new ≡ record forest.old {
      vertices = g.now.vertices;
      held = taken g.now.ends (branches (pairs_of slots.now));
    } }
    ensures found { room_of found.new ≡ room_of found.old }
{
    let count = list_pairs(slots, owners, list);
    forest.refill_found(g, &list[..count], found);
    count as u32
}
