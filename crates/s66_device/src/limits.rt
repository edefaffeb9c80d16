//! How many bytes the line of a fault has room for (`FAULT_ROOM`).

/// How many bytes there is room for of the line of a fault, with its newline.
pub const FAULT_ROOM: usize = 64;
