//! Limits of a search: how many workers (`WORKERS_LIMIT`), and how many splits (`BUDGET_LIMIT`).

/// How many workers search at most.
pub const WORKERS_LIMIT: u8 = 16;

/// The most splits of a search.
pub const BUDGET_LIMIT: u32 = 1_000_000;
