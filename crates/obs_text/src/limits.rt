// What readers rely on.

/// The most bytes of any file that is read: 2^30.
pub const MOST_FILE_BYTES: usize = 1_073_741_824;

/// The most bytes of a file where no other limit is given.
pub const USUAL_FILE_BYTES: usize = 16_777_216;
