//! How long a worker spins at a taken lock, and how many tickets and passes a lane has at first and at most.

/// How often a worker checks whether the lock is free before it lets other threads run. Most turns at the lock are over in less.
pub const SPINS: u32 = 100;

/// The greatest capacity with which a lane is made.
pub const CAPACITY_LIMIT: usize = 64;

/// The most passes of a lane.
pub const PASS_LIMIT: usize = 15;
