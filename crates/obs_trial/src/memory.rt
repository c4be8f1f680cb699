// Want of memory.

/// There was no memory for a row.
#[derive(Clone, Copy, Debug)]
pub struct NoMemory;
