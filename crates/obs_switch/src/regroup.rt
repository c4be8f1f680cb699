// Items in the order of their keys, where the key of one item changes.
ghost use Rattle.std.specs.Prelude.{◌≡◌, ◌<◌, ◌≤◌, ◌==◌, ◌+◌, ◌^◌, ◌++◌, ◌∷◌, ℕ, List, length, slice_index, slice_set, count_by};
ghost use Rattle.obs_switch.specs.inner.Groups.{AreGroups};

// How many items have the key.
fn count_of(keys: &[u32], key: u32) -> usize
    ensures count { result ≡ count_by (λ x. x == key) keys.now }
{
    let mut count = 0;
    for k in keys {
        if *k == key {
            count += 1;
        }
    }
    count
}

// The member at the one place goes back to the other, and those between go one place to the front.
fn move_back(members: &mut [u32], from: usize, to: usize)
    requires order { from ≤ to }
    requires below { to < length members.old }
    ensures moved { (front : List ℕ) (item : ℕ) (between behind : List ℕ) →
        members.old ≡ front ++ (item ∷ (between ++ behind)) → length front ≡ from →
        length front + length between ≡ to → members.new ≡ front ++ (between ++ (item ∷ behind)) }
{
    members[from..to + 1].rotate_left(1);
}

// The member at the one place goes to the front, to the other, and those between go one place back.
fn move_front(members: &mut [u32], from: usize, to: usize)
    requires order { to ≤ from }
    requires below { from < length members.old }
    ensures moved { (front : List ℕ) (item : ℕ) (between behind : List ℕ) →
        members.old ≡ front ++ (between ++ (item ∷ behind)) → length front ≡ to →
        length front + length between ≡ from → members.new ≡ front ++ (item ∷ (between ++ behind)) }
{
    members[to..from + 1].rotate_right(1);
}

// The groups of these keys begin one place earlier.
fn begin_earlier(starts: &mut [usize], from: usize, to: usize)
    requires keys { to ≤ length starts.old }
    requires order { from ≤ to }
    requires some { (k : ℕ) → from ≤ k → k < to → 0 < slice_index starts.old k }
    ensures earlier { (k : ℕ) → from ≤ k → k < to → slice_index starts.new k + 1 ≡ slice_index starts.old k }
    ensures before { (k : ℕ) → k < from → slice_index starts.new k ≡ slice_index starts.old k }
    ensures behind { (k : ℕ) → to ≤ k → slice_index starts.new k ≡ slice_index starts.old k }
{
    for k in from..to {
        starts[k] -= 1;
    }
}

// The groups of these keys begin one place later.
fn begin_later(starts: &mut [usize], from: usize, to: usize)
    requires keys { to ≤ length starts.old }
    requires order { from ≤ to }
    requires few { (k : ℕ) → from ≤ k → k < to → slice_index starts.old k < 2 ^ 32 }
    ensures later { (k : ℕ) → from ≤ k → k < to → slice_index starts.new k ≡ slice_index starts.old k + 1 }
    ensures before { (k : ℕ) → k < from → slice_index starts.new k ≡ slice_index starts.old k }
    ensures behind { (k : ℕ) → to ≤ k → slice_index starts.new k ≡ slice_index starts.old k }
{
    for k in from..to {
        starts[k] += 1;
    }
}

// The item's new key is above its old one.
fn regroup_back(keys: &[u32], members: &mut [u32], starts: &mut [usize], item: u32, key: u32)
    requires few { length keys.now < 2 ^ 32 }
    requires room { length keys.now ≤ length members.old }
    requires item { item < length keys.now }
    requires above { slice_index keys.now item < key }
    requires key { key < length starts.old }
    requires groups { AreGroups keys.now members.old starts.old (length starts.old) }
    ensures groups { AreGroups (slice_set keys.now item key) members.new starts.new (length starts.old) }
{
    let old = keys[item as usize];
    let front = &keys[..item as usize];
    let from = starts[old as usize] + count_of(front, old);
    let to = starts[key as usize] + count_of(front, key) - 1;
    move_back(members, from, to);
    begin_earlier(starts, old as usize + 1, key as usize + 1);
}

// The item's new key is below its old one.
fn regroup_front(keys: &[u32], members: &mut [u32], starts: &mut [usize], item: u32, key: u32)
    requires few { length keys.now < 2 ^ 32 }
    requires room { length keys.now ≤ length members.old }
    requires item { item < length keys.now }
    requires below { key < slice_index keys.now item }
    requires old_key { slice_index keys.now item < length starts.old }
    requires groups { AreGroups keys.now members.old starts.old (length starts.old) }
    ensures groups { AreGroups (slice_set keys.now item key) members.new starts.new (length starts.old) }
{
    let old = keys[item as usize];
    let front = &keys[..item as usize];
    let from = starts[old as usize] + count_of(front, old);
    let to = starts[key as usize] + count_of(front, key);
    move_front(members, from, to);
    begin_later(starts, key as usize + 1, old as usize + 1);
}

/// Gives one item another key, where the items stand in their groups: its entry moves from the old group to the new
/// one, and the groups between begin one place earlier or later.
pub fn regroup(keys: &mut [u32], members: &mut [u32], starts: &mut [usize], item: u32, key: u32)
    requires few { length keys.old < 2 ^ 32 }
    requires room { length keys.old ≤ length members.old }
    requires item { item < length keys.old }
    requires old_key { slice_index keys.old item < length starts.old }
    requires key { key < length starts.old }
    requires groups { AreGroups keys.old members.old starts.old (length starts.old) }
    ensures keys { keys.new ≡ slice_set keys.old item key }
    ensures groups { AreGroups keys.new members.new starts.new (length starts.old) }
{
    let old = keys[item as usize];
    if old < key {
        regroup_back(keys, members, starts, item, key);
    } else if key < old {
        regroup_front(keys, members, starts, item, key);
    }
    keys[item as usize] = key;
}
