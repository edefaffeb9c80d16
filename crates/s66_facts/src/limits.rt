//! The most fact lines that are taken.

/// The most fact lines that are taken.
pub const FACT_LIMIT: usize = 4096;
