// Which meters are lost in a round.
ghost use Rattle.std.specs.Prelude.{◌≡◌, ◌<◌, ◌≤◌, ℕ, All, length, slice_index};

use crate::stations::Stations;

// How many stations have a rank that isn't known.
fn count_waiting(ranks: &[Option<u32>], count: u32) -> u32
    requires count { count ≤ length ranks.now }
{
    let mut waiting: u32 = 0;
    for c in 0..count {
        if ranks[c as usize].is_none() {
            waiting = waiting.saturating_add(1);
        }
    }
    waiting
}

// Whether a station is among those that are lost in a round: of all an eighth or all that wait in even rounds, and half
// of them in odd ones, others in each round.
fn is_drawn(c: u32, round: u32, waiting: u32, count: u32) -> bool {
    let spread = u64::from(c)
        .wrapping_mul(2654435761)
        .wrapping_add(u64::from(round).wrapping_mul(40503));
    let place = spread.wrapping_mul(2246822519) / 65536 % 1009;
    let among = place.wrapping_mul(8).wrapping_mul(u64::from(waiting))
        < u64::from(count).wrapping_mul(1009);
    among && (round % 2 == 0 || place % 2 == 0)
}

// Lists the reached meters of a station behind so many others, at most so many. Says how many there are then.
fn list_meters(
    meters: &[u32],
    firsts: &[u32],
    all: usize,
    most: u32,
    count: u32,
    list: &mut [u32],
) -> u32
    requires low { All (λ m. m < length firsts.now) meters.now }
    requires few { count ≤ most }
    requires room { count ≤ length list.old }
    requires listed { (k : ℕ) → k < count → slice_index list.old k < length firsts.now }
    ensures few { result ≤ most }
    ensures room { result ≤ length list.new }
    ensures low { (k : ℕ) → k < result → slice_index list.new k < length firsts.now }
    ensures same_length { length list.new ≡ length list.old }
{
    let mut count = count;
    for m in meters {
        if (firsts[*m as usize] as usize) < all && count < most && (count as usize) < list.len() {
            list[count as usize] = *m;
            count += 1;
        }
    }
    count
}

/// Lists the reached meters of the stations that are drawn in a round, at most so many. Says how many there are.
pub(crate) fn draw(
    stations: &Stations,
    round: u32,
    most: u32,
    firsts: &[u32],
    ranks: &[Option<u32>],
    list: &mut [u32],
) -> u32
    requires meters { length firsts.now ≡ length stations.now.keys }
    requires ranks { stations.now.buses.count ≤ length ranks.now }
    ensures few { result ≤ most }
    ensures room { result ≤ length list.new }
    ensures low { (k : ℕ) → k < result → slice_index list.new k < length stations.now.keys }
    ensures same_length { length list.new ≡ length list.old }
{
    let waiting = count_waiting(ranks, stations.count());
    let all = stations.live();
    let mut count = 0;
    for c in 0..stations.count() {
        if ranks[c as usize].is_none() && is_drawn(c, round, waiting, stations.count()) {
            count = list_meters(stations.meters(c), firsts, all, most, count, list);
        }
    }
    count
}
