// Marks that need no clearing: each use has a stamp of its own, above all that came before.
ghost use Rattle.std.specs.Prelude.{◌≡◌, ◌<◌, length, slice_set};
ghost use Rattle.obs_cert.specs.inner.Marks.{is_marked};

/// Marks a number with the stamp, and says whether it was marked so before.
pub(crate) fn mark(marks: &mut [u32], stamp: u32, x: u32) -> bool
    requires x { x < length marks.old }
    ensures before { result ≡ is_marked marks.old stamp x }
    ensures marks { marks.new ≡ slice_set marks.old x stamp }
{
    let before = marks[x as usize] == stamp;
    marks[x as usize] = stamp;
    before
}
