// What is stated of whole calls.
ghost use Rattle.obs_worked.specs.inner.Runs.{CdfIsAnswered, FaultIsAnswered, FilesAreLimited, InputsAreLimited, LimitsAreGiven, MatIsAnswered, ReportIsAnswered, RowsAreLimited, SessionIsAnswered, TopologyIsAnswered, UsageIsAnswered};

/// Words and files have one reply, which is that of the case that the files are.
pub fn answers()
    ensures topology { TopologyIsAnswered }
    ensures report { ReportIsAnswered }
    ensures session { SessionIsAnswered }
{}

/// Files of other formats are cases of buses by their numbers.
pub fn formats()
    ensures cdf { CdfIsAnswered }
    ensures matpower { MatIsAnswered }
{}

/// Files that are no case have the line of their first fault, and other words the usage line.
pub fn refusals()
    ensures fault { FaultIsAnswered }
    ensures usage { UsageIsAnswered }
{}

/// Rows, files and an input that are just as many or as long as the limits say are well, and one row or byte more isn't.
pub fn limits()
    ensures given { LimitsAreGiven }
    ensures rows { RowsAreLimited }
    ensures bytes { FilesAreLimited }
    ensures input { InputsAreLimited }
{}
