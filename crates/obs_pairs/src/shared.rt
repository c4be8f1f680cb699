// Which meters share their class.
ghost use Rattle.std.specs.Prelude.{◌≡◌, ◌≤◌, length};
ghost use Rattle.obs_pairs.specs.inner.PairWork.{AreFirst, AreShared};

/// Marks the meters whose class another has too, in one pass: each that isn't the first of its class, and with it that
/// first one.
pub(crate) fn mark_shared(list: &[u32], shared: &mut [bool])
    requires room { length list.now ≤ length shared.old }
    requires first { AreFirst list.now }
    ensures same_room { length shared.new ≡ length shared.old }
    ensures shared { AreShared list.now shared.new }
{
    for k in 0..list.len() {
        let first = list[k] as usize;
        if first == k {
            shared[k] = false;
        } else {
            shared[k] = true;
            shared[first] = true;
        }
    }
}
