//! How many lines a source has at most (`SOURCE_LINES_LIMIT`), and how far a directive is looked for.

/// The most lines of a source.
pub const SOURCE_LINES_LIMIT: u32 = 20_000;

/// The most bytes of a line behind its star in which a directive is looked for.
pub(crate) const DIRECTIVE_LIMIT: usize = 71;
