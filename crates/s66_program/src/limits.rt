//! Limits of reading, of loops and of what is told.

use s66_command::BLOCK_NUMBER_LIMIT;
use s66_line::LINE_BYTES_LIMIT;
use s66_source::SOURCE_LINES_LIMIT;

/// A text of this many bytes has at least a line too many, or one that is too long.
pub const SOURCE_FRONT: usize = (LINE_BYTES_LIMIT + 1) * (SOURCE_LINES_LIMIT as usize + 1);

/// The most calls that reading an input makes.
pub const FEED_CALLS: u32 = 16_777_216;

/// How many bytes each of these calls has room for.
pub const FEED_ROOM: usize = 65_536;

/// How many blocks and lines may stand from the name to which a branch goes back to the branch, so that they count as a loop.
pub(crate) const LOOP_LIMIT: usize = 100;

/// How many bytes there is room for of what is told after a success.
pub(crate) const REMARK_ROOM: usize = 384;

// a block has a line of its own at least
const _: () = prove!(SOURCE_LINES_LIMIT == BLOCK_NUMBER_LIMIT);
