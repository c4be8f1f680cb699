//! What bytes are, and what is read from them.
ghost use Rattle.obs_ieee_cdf.specs.Laws.{CasesAreValid, CasesHaveLimit};
ghost use Rattle.obs_ieee_cdf.specs.inner.Laws.{CaseIsRead, FaultWhereNoCase, FileIsRead, FirstFaultOfFile};

/// The nodes and branches that are read from a file are those that its bytes are: each bus line is a
/// bus, no two of them have one number, and each branch line is a branch between two buses.
pub fn file_is_read()
    ensures file { FileIsRead }
{}

/// The case that is read is the one that the bytes are, and a fault is met exactly where they are none.
pub fn case_is_read()
    ensures case { CaseIsRead }
    ensures fault { FaultWhereNoCase }
{}

/// A case that is read is valid: in each table the names are names, no two of them are equal and
/// there are at most as many rows as the limit that was given, and positions and prices are in range.
pub fn cases_are_valid()
    ensures valid { CasesAreValid }
    ensures limit { CasesHaveLimit }
{}

/// The fault of a file that is met is the first: a line has one where the lines before it have none,
/// and of those of one line the lowest number is met. A section that isn't there or isn't ended is
/// met where no line has a fault.
pub fn first_fault()
    ensures first { FirstFaultOfFile }
{}
