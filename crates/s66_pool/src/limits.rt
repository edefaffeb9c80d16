//! Limits of a search by workers: first splits, claims, and how long a worker looks for a node.

/// How many splits the calling thread does before workers start. Starting and ending threads costs as much as some thousand splits,
/// and most searches have fewer than fifty.
pub const FIRST_SPLITS: u32 = 2_048;

/// How many nodes a worker claims in one turn at most.
pub const CLAIMS_LIMIT: usize = 8;

/// After how many searches in a row that find no node a worker ends.
pub(crate) const NONES_LIMIT: u32 = 1_000;

/// How often a worker that got no node checks whether another has one, before it claims again.
pub(crate) const LOOKS: u32 = 16;
