// A branch leaves the list.
ghost use Rattle.std.specs.Prelude.{◌≡◌, ◌≢◌, ◌-◌, ◌<◌, ◌≤◌, ◌^◌, ◌↔◌, ℕ, length, slice_index, take};
ghost use Rattle.obs_matroid.specs.Lists.{In, IsDistinct};

use crate::places::Places;

/// Where the branch stands in the list: at the noted place, or else where a look through the list finds it.
pub fn place_of(list: &[u32], e: u32, noted: usize) -> usize
    requires few { length list.now < 2 ^ 32 }
    requires listed { In e list.now }
    ensures low { result < length list.now }
    ensures there { slice_index list.now result ≡ e }
{
    if noted < list.len() && list[noted] == e {
        return noted;
    }
    let mut i = 0;
    while list[i] != e {
        i += 1;
    }
    i
}

/// Takes a branch out of the first so many of the list. The last of these comes to its place.
pub fn unlist(list: &mut [u32], count: usize, e: u32, places: &mut Places)
    requires few { count < 2 ^ 32 }
    requires room { count ≤ length list.old }
    requires different { IsDistinct (take count list.old) }
    requires listed { In e (take count list.old) }
    ensures different { IsDistinct (take (count - 1) list.new) }
    ensures exactly { (x : ℕ) → In x (take (count - 1) list.new) ↔ (In x (take count list.old) × (x ≢ e)) }
{
    let i = place_of(&list[..count], e, places.noted(e));
    list[i] = list[count - 1];
    places.note(list[i], i as u32);
}
