//! The options of a search: workers, the most splits, and which nodes dominated leaves may name.

ghost use Rattle.std.specs.Prelude.{◌≤◌};
ghost use Rattle.s66_model.specs.declared.limits.TheConstants.{BUDGET_LIMIT, WORKERS_LIMIT};

use crate::rule::Rule;

/// How a block's orders are searched.
#[derive(Clone, Copy, PartialEq, Eq)]
pub struct Options {
    /// How many workers search: 1 to `WORKERS_LIMIT`.
    pub workers: u8,
    /// The most splits of the search, at most `BUDGET_LIMIT`.
    pub nodes: u32,
    /// Which nodes dominated leaves name; by `NoneNamed` no leaf is dominated.
    pub rule: Rule,
    pub ghost crew: { (1 ≤ workers) × (workers ≤ WORKERS_LIMIT) },
    pub ghost few: { nodes ≤ BUDGET_LIMIT },
}
