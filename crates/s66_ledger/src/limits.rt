//! Limits of grants, of ranks among open nodes, and of pieces.

/// The most splits that one grant moves.
pub const GRANT_LIMIT: u32 = 64;

/// The greatest floor that is distinguished from all others when an open node is chosen; the floors of a block are far below.
pub(crate) const RANKED_LIMIT: u32 = 0xff_ffff;

/// How many depths are distinguished among open nodes of one floor; a block's prefixes are far shorter.
pub(crate) const DEPTH_RANKS: u32 = 256;

/// After how many splits of a search, and of each of its workers, a list schedule is offered again.
pub const SCHEDULE_SPLITS: u32 = 256;

/// The most splits of a piece in which any node of the ledger may be named.
pub const DOMINATED_PIECE_LIMIT: u32 = 2;
