// The case that tables are, or their first fault.
ghost use Rattle.obs_worked.specs.inner.Faults.{FaultsOfNodes, FaultsOfOthers, RowIsRead};

/// The bytes of five tables are a case, row by row.
pub fn cases()
    ensures read { RowIsRead }
{}

/// The first fault of a table, by its row and its code.
pub fn tables()
    ensures nodes { FaultsOfNodes }
    ensures others { FaultsOfOthers }
{}
