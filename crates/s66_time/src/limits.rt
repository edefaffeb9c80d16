//! Limits of times, and the places of the words of a mark.

use s66_isa::{BLOCK_LIMIT, KIND_COUNT, REGISTER_COUNT};

/// The most minor cycles by which one more instruction lengthens an order.
const STEP_LIMIT: u32 = 104;

/// The most minor cycles that an order of a block takes.
pub const TOTAL_LIMIT: u32 = STEP_LIMIT * BLOCK_LIMIT as u32;

/// For how long the instructions of an order take units at most, summed.
pub(crate) const WORK_LIMIT: u32 = 101 * BLOCK_LIMIT as u32;

/// The most units of a kind that a profile has.
pub const COPIES_LIMIT: usize = 100;

/// How many units the seven kinds have at most, all together.
pub(crate) const UNIT_LIMIT: usize = KIND_COUNT * COPIES_LIMIT;

/// The most words that a clock's push reads or writes beside one for each unit of the kind, and the most that its undo does.
pub const LOOK_LIMIT: u32 = 40;

/// Where the words of a mark that are of readers begin; before them is one of results for each register.
pub(crate) const READERS_AT: usize = REGISTER_COUNT;

/// The word of a mark that is of references to memory.
pub(crate) const REFERENCES_AT: usize = 2 * REGISTER_COUNT;

/// The word of a mark that is of stores.
pub(crate) const STORES_AT: usize = REFERENCES_AT + 1;

/// Where the words of a mark that are of units begin.
pub(crate) const UNITS_AT: usize = STORES_AT + 1;

/// The most words that a mark has.
pub(crate) const MARK_LIMIT: usize = UNITS_AT + BLOCK_LIMIT;
