// Files and input as blocks of bytes that the caller lends: nothing is copied but what moves, and no call fails.
pub mod files;
pub mod source;
