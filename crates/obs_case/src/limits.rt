// How much a case may hold.

/// The highest limit of rows that a case may have.
pub const MOST_ROWS: usize = 1_000_000;

/// The most rows of a table, where a case is given no other limit.
pub const USUAL_ROWS: usize = 20_000;

/// The highest price.
pub const MOST_PRICE: u64 = 1_000_000_000;
