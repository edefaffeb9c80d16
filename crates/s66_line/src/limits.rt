//! How many bytes a line has at most (`LINE_BYTES_LIMIT`), and the text of an instruction (`TEXT_LIMIT`).

/// The most bytes of a line, its newline not counted.
pub const LINE_BYTES_LIMIT: usize = 200;

/// The most bytes of the text of an instruction: its operation begins after column 1 of a line.
pub const TEXT_LIMIT: usize = LINE_BYTES_LIMIT - 1;
