// What the pairs and the marks say of one component, whose live meters these are.
ghost use Rattle.std.specs.Prelude.{◌≡◌, ◌<◌, ◌≤◌, ◌^◌, All, filter, is_some, length, take};
ghost use Rattle.obs_assign.specs.inner.Assignment.{branch_at, has_flag};

use obs_assign::Assignment;

/// How many of the meters have a pair.
pub(crate) fn count_paired(meters: &[u32], a: &Assignment) -> u32
    requires below { All (λ m. m < length a.now.slots) meters.now }
    requires few { length meters.now < 2 ^ 32 }
    ensures count { result ≡ length (filter (λ m. is_some (branch_at a.now m)) meters.now) }
{
    let mut count = 0;
    for m in meters {
        if a.branch_of(*m).is_some() {
            count += 1;
        }
    }
    count
}

/// Lists the marked ones of the meters, in their order. Says how many they are.
pub(crate) fn list_marked(meters: &[u32], marks: &[bool], list: &mut [u32]) -> usize
    requires below { All (λ m. m < length marks.now) meters.now }
    requires room { length meters.now ≤ length list.old }
    ensures few { result ≤ length meters.now }
    ensures listed { take result list.new ≡ filter (has_flag marks.now) meters.now }
{
    let mut count = 0;
    for m in meters {
        if marks[*m as usize] {
            list[count] = *m;
            count += 1;
        }
    }
    count
}
