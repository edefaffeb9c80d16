//! What options are if the words don't give them (workers, splits), and the greatest number of a block that `--block` takes.

/// How many workers search if the words give no number.
pub const WORKERS_DEFAULT: u8 = 4;

/// The most splits of a block's search if the words give no number.
pub const NODES_DEFAULT: u32 = 100_000;

/// The greatest number of a block: a source has no more lines.
pub const BLOCK_NUMBER_LIMIT: u32 = 20_000;
