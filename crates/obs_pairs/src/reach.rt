// The first and the last meter without a pair from which another is reached.
ghost use Rattle.std.specs.Prelude.{◌≡◌, ◌&&◌, ◌<◌, ◌^◌, if◌then◌else◌, ℕ, not, length, slice_index};
ghost use Rattle.obs_assign.specs.inner.Assignment.{has_flag};
ghost use Rattle.obs_pairs.specs.inner.Split.{AreInOrder, is_same, number_at};

// The meter at a place of the order in which their numbers rise or fall.
fn number_of(falls: bool, count: usize, k: usize) -> u32
    requires count { count < 2 ^ 32 }
    requires k { k < count }
    ensures value { result ≡ number_at falls count k }
{
    if falls {
        (count - 1 - k) as u32
    } else {
        k as u32
    }
}

// What is kept for a meter: where it is open the place at which it was reached, else its key.
fn place_or_key(waiting: bool, place: u32, key: u32) -> u32
    ensures value { result ≡ (if waiting then place else key) }
{
    if waiting { place } else { key }
}

// Whether an open meter stays open: it isn't the same one from which it is reached first and last.
fn is_open(waiting: bool, count: usize, first: u32, last: u32) -> bool
    ensures value { result ≡ (waiting && not (is_same count first last)) }
{
    waiting && first as usize + last as usize + 1 != count
}

/// Writes the numbers of all meters, rising or falling.
pub(crate) fn write_order(falls: bool, order: &mut [u32])
    requires few { length order.old < 2 ^ 32 }
    ensures order { AreInOrder falls (length order.old) order.new }
{
    let count = order.len();
    for k in 0..count {
        order[k] = number_of(falls, count, k);
    }
}

/// Keeps for the open meters the places at which they were reached. Where the numbers rise a place is a number.
pub(crate) fn keep_first(waiting: &[bool], places: &[u32], list: &mut [u32])
    requires waiting { length waiting.now ≡ length list.old }
    requires places { length places.now ≡ length list.old }
    ensures list { (k : ℕ) → slice_index list.new k
        ≡ (if has_flag waiting.now k then slice_index places.now k else slice_index list.old k) }
{
    for k in 0..list.len() {
        list[k] = place_or_key(waiting[k], places[k], list[k]);
    }
}

/// Closes the open meters that are reached from one alone: it is the first, and it is the last.
pub(crate) fn settle_same(list: &[u32], places: &[u32], waiting: &mut [bool])
    requires waiting { length waiting.old ≡ length list.now }
    requires places { length places.now ≡ length list.now }
    ensures waiting { (k : ℕ) → has_flag waiting.new k
        ≡ (has_flag waiting.old k
        && not (is_same (length list.now) (slice_index list.now k) (slice_index places.now k))) }
{
    let count = list.len();
    for k in 0..count {
        waiting[k] = is_open(waiting[k], count, list[k], places[k]);
    }
}
