//! What remains after a beginning, as two sets of ranks.

use s66_isa::Set;

/// What remains after a beginning, by rank: a caller keeps it from push to push.
#[derive(Clone, Copy)]
pub struct Left {
    /// The ranks by what follows the issue.
    pub(crate) by_issue: Set,
    /// The ranks by what follows the start.
    pub(crate) by_start: Set,
}
