//! For how many pairs of blocks an alignment is worked out (`ALIGNED_PAIRS_LIMIT`); beyond it blocks are paired by number.

/// The most pairs of an old block and a new one, between the beginning and the end that two sources have in common, for which blocks are
/// aligned. Beyond it they are paired by number.
pub(crate) const ALIGNED_PAIRS_LIMIT: usize = 1_000_000;
