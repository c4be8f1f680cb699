//! What bytes are, and what is read from them.
ghost use Rattle.obs_matpower.specs.Laws.{CasesAreValid, CasesHaveLimit};
ghost use Rattle.obs_matpower.specs.inner.Laws.{CaseIsRead, FaultWhereNoCase, FileIsRead, FirstFaultOfFile, OpeningsAreAssignments, RowsAreOfLines, TextStandsBetween};

/// A line opens a `table` exactly where, before its comment, it begins with the name of the table,
/// `=` and `[`, with nothing but blanks and tabs before each.
pub fn openings_are_assignments()
    ensures opens { OpeningsAreAssignments }
{}

/// The text of a `table` that is there stands in the file behind the lines before the first that
/// opens it and behind the `[` of that line. It goes up to the first `]` that is in no comment, or
/// to the end of the file where the table isn't ended.
pub fn text_stands_between()
    ensures text { TextStandsBetween }
{}

/// The rows that `rows` gives of a `table` are those of the whole lines of the file, from what
/// follows the `[` on, up to the next `]` that is in no comment.
pub fn rows_are_of_lines()
    ensures rows { RowsAreOfLines }
{}

/// The nodes and branches that are read from a file are those that its bytes are: each bus row is a
/// bus, no two of them have one number, and each branch row is a branch between two buses.
pub fn file_is_read()
    ensures file { FileIsRead }
{}

/// The case that is read is the one that the bytes are, and a fault is met exactly where they are none.
pub fn case_is_read()
    ensures case { CaseIsRead }
    ensures fault { FaultWhereNoCase }
{}

/// A case that is read is valid: in each table the names are names, no two of them are equal and
/// there are at most as many rows as the limit that was given, and positions and prices are in range.
pub fn cases_are_valid()
    ensures valid { CasesAreValid }
    ensures limit { CasesHaveLimit }
{}

/// The fault of a file that is met is the first: a row has one where the rows before it have none,
/// and of those of one row the lowest number is met, save that a row too many and a short row have no
/// other. A table that isn't there or isn't ended is met where none of its rows has a fault, and a
/// fault of the branch table where the bus table has none.
pub fn first_fault()
    ensures first { FirstFaultOfFile }
{}
