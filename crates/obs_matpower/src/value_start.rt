// The values of a row, from the first on.
ghost use Rattle.std.specs.Prelude.{◌≡◌};
ghost use Rattle.obs_matpower.specs.inner.Left.{values_left};
ghost use Rattle.obs_matpower.specs.Rows.{values_of};

use crate::value_iter::Values;

/// The values of a row: the bytes between blanks, tabs and commas. Takes no memory.
pub fn values(row: &[u8]) -> Values<'_>
    ensures values { values_left result ≡ values_of row.now }
{
    Values { rest: row }
}
