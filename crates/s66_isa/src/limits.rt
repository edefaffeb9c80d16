//! How many instructions a block has at most (`BLOCK_LIMIT`), how many numbers a profile has, and the greatest of these.

/// The most instructions of a block, and so the greatest number that one has.
pub const BLOCK_LIMIT: usize = 128;

/// How many numbers a profile has.
pub const PROFILE_LENGTH: usize = 17;

/// The greatest number of a profile; the least is 1.
pub const PROFILE_LIMIT: u32 = 100;
