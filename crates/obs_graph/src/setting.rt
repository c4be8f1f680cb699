// One position is taken out of the parts of a flat list, and put into them, in place.
ghost use Rattle.std.specs.Prelude.{◌≡◌, ◌+◌, ◌-◌, ◌*◌, ◌^◌, ◌<◌, ◌≤◌, ◌≢◌, ◌++◌, suc, length, map, take, drop, nat_lt, All, IfSome, None, slice_index, slice_set, count_by};
ghost use Rattle.std.specs.List.{insert, remove};
ghost use Rattle.std.specs.List.Sorted.{IsNonDecreasing, IsPartitionedBy};
ghost use Rattle.obs_graph.specs.Positions.{AreBranches};
ghost use Rattle.obs_graph.specs.inner.Positions.{AreStarts, AreParts};
ghost use Rattle.obs_graph.specs.inner.Placing.{part_of, place_of, total_of};

use crate::Ends;
use crate::parts::part;

/// How many positions of a part stand before i.
fn place_in(part: &[u32], i: u32) -> usize
    requires parted { IsPartitionedBy (λ p. nat_lt p i) part.now }
    ensures place { result ≡ count_by (λ p. nat_lt p i) part.now }
    ensures bound { result ≤ length part.now }
{
    part.partition_point(|p| *p < i)
}

/// Makes each number one higher.
fn raise(numbers: &mut [usize])
    requires room { All (λ n. suc n < 2 ^ 64) numbers.old }
    ensures higher { numbers.new ≡ map (λ n. n + 1) numbers.old }
{
    for number in numbers.iter_mut() {
        *number += 1;
    }
}

/// Makes each number one lower.
fn lower(numbers: &mut [usize])
    requires some { All (λ n. 0 < n) numbers.old }
    ensures lower { numbers.new ≡ map (λ n. n - 1) numbers.old }
{
    for number in numbers.iter_mut() {
        *number -= 1;
    }
}

/// Puts i into the part of v.
fn put_in(starts: &mut [usize], at: &mut [u32], v: u32, i: u32)
    requires v { suc v < length starts.old }
    requires rise { IsNonDecreasing starts.old }
    requires room { total_of starts.old < length at.old }
    requires parted { IsPartitionedBy (λ p. nat_lt p i) (part_of starts.old at.old v) }
    ensures starts { starts.new ≡ take (suc v) starts.old ++ map (λ n. n + 1) (drop (suc v) starts.old) }
    ensures at { take (suc (total_of starts.old)) at.new ≡ insert (take (total_of starts.old) at.old) (place_of starts.old at.old v i) i }
{
    let v = v as usize;
    let place = starts[v] + place_in(part(starts, at, v), i);
    let total = starts[starts.len() - 1];
    at.copy_within(place..total, place + 1);
    at[place] = i;
    raise(&mut starts[v + 1..]);
}

/// Takes i out of the part of v.
fn take_out(starts: &mut [usize], at: &mut [u32], v: u32, i: u32)
    requires v { suc v < length starts.old }
    requires rise { IsNonDecreasing starts.old }
    requires room { total_of starts.old ≤ length at.old }
    requires parted { IsPartitionedBy (λ p. nat_lt p i) (part_of starts.old at.old v) }
    requires there { place_of starts.old at.old v i < slice_index starts.old (suc v) }
    ensures starts { starts.new ≡ take (suc v) starts.old ++ map (λ n. n - 1) (drop (suc v) starts.old) }
    ensures at { take (total_of starts.old - 1) at.new ≡ remove (take (total_of starts.old) at.old) (place_of starts.old at.old v i) }
{
    let v = v as usize;
    let place = starts[v] + place_in(part(starts, at, v), i);
    let total = starts[starts.len() - 1];
    at.copy_within(place + 1..total, place);
    lower(&mut starts[v + 1..]);
}

/// Takes a position out of the parts of its ends.
fn take_away(branches: &[Option<Ends>], starts: &mut [usize], at: &mut [u32], e: u32)
    requires e { e < length branches.now }
    requires branches { AreBranches (length starts.old - 1) branches.now }
    requires room { 2 * length branches.now ≤ length at.old }
    requires starts { AreStarts (length starts.old) branches.now starts.old }
    requires parts { AreParts (length starts.old - 1) branches.now at.old }
    ensures starts { AreStarts (length starts.old) (slice_set branches.now e None) starts.new }
    ensures parts { AreParts (length starts.old - 1) (slice_set branches.now e None) at.new }
{
    if let Some(ends) = branches[e as usize] {
        take_out(starts, at, ends.a, e);
        take_out(starts, at, ends.b, e);
    }
}

/// Puts a position that is in no part into the parts of its ends.
fn bring_in(branches: &[Option<Ends>], starts: &mut [usize], at: &mut [u32], e: u32)
    requires e { e < length branches.now }
    requires branches { AreBranches (length starts.old - 1) branches.now }
    requires room { 2 * length branches.now ≤ length at.old }
    requires starts { AreStarts (length starts.old) (slice_set branches.now e None) starts.old }
    requires parts { AreParts (length starts.old - 1) (slice_set branches.now e None) at.old }
    ensures starts { AreStarts (length starts.old) branches.now starts.new }
    ensures parts { AreParts (length starts.old - 1) branches.now at.new }
{
    if let Some(ends) = branches[e as usize] {
        put_in(starts, at, ends.a, e);
        put_in(starts, at, ends.b, e);
    }
}

/// Gives one of the first branches these ends, or none.
pub(crate) fn set_branch(
    count: usize,
    branches: &mut [Option<Ends>],
    starts: &mut [usize],
    at: &mut [u32],
    e: u32,
    ends: Option<Ends>,
)
    requires held { count ≤ length branches.old }
    requires e { e < count }
    requires branches { AreBranches (length starts.old - 1) (take count branches.old) }
    requires ends { IfSome ends (λ x. (x.a < length starts.old - 1) × (x.b < length starts.old - 1) × (x.a ≢ x.b)) }
    requires room { 2 * length branches.old ≤ length at.old }
    requires starts { AreStarts (length starts.old) (take count branches.old) starts.old }
    requires parts { AreParts (length starts.old - 1) (take count branches.old) at.old }
    ensures set { branches.new ≡ slice_set branches.old e ends }
    ensures starts { AreStarts (length starts.old) (take count branches.new) starts.new }
    ensures parts { AreParts (length starts.old - 1) (take count branches.new) at.new }
{
    take_away(&branches[..count], starts, at, e);
    branches[e as usize] = ends;
    bring_in(&branches[..count], starts, at, e);
}
