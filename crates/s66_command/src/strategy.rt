//! How best orders are looked for: the options of the search, and whether `--deep` was given.

use s66_model::Options;

/// How the best order of a block is looked for.
#[derive(Clone, Copy, PartialEq, Eq)]
pub struct Strategy {
    /// How its orders are searched.
    pub search: Options,
    /// Whether facts that all faster orders have in common are looked for, where some splits don't decide a block.
    pub deep: bool,
}
