// The one error of the calls that allocate.

/// There is no memory.
#[derive(Clone, Copy, Debug)]
pub struct NoMemory;
