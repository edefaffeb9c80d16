//! Limits of documents: the greatest time and bound, the most splits and fact lines, and the greatest line that a leaf names.

/// The greatest time, and the greatest bound, that a document claims.
pub const TIME_LIMIT: u32 = 100_000;

/// The most splits of a tree.
pub const SPLIT_LIMIT: u32 = 1_000_000;

/// The most fact lines.
pub const FACT_LIMIT: usize = 4_096;

/// The greatest number of a line that a leaf names; no document has so many lines.
pub const LINE_LIMIT: u32 = 200_000_000;
