//! Between which instructions no load line was found, so that none is sought there again before paths grow.

use s66_isa::BLOCK_LIMIT;
use std::alloc::{AllocError, Global};

/// How many numbers there are, with 0 for the origin and the end.
const NUMBER_COUNT: usize = BLOCK_LIMIT + 1;

/// The waits from a number from which none was tried.
const UNKNOWN: [u32; NUMBER_COUNT] = [u32::MAX; NUMBER_COUNT];

/// From each number, and at 0 from the origin, to each: a wait than which no load line says more.
#[derive(Drop)]
pub(crate) struct TriedLoads {
    waits: Vec<[u32; NUMBER_COUNT]>,
}

impl TriedLoads {
    /// Knows nothing. `Err` is out of memory.
    pub(crate) fn new(alloc: Global) -> Result<TriedLoads, AllocError> {
        let mut waits = Vec::new(alloc);
        for _ in 0..NUMBER_COUNT {
            waits.push(UNKNOWN)?;
        }
        Ok(TriedLoads { waits })
    }

    /// The same. `Err` is out of memory.
    pub(crate) fn duplicate(&self, alloc: Global) -> Result<TriedLoads, AllocError> {
        let mut waits = Vec::new(alloc);
        for row in self.waits.as_slice() {
            waits.push(*row)?;
        }
        Ok(TriedLoads { waits })
    }

    /// Whether no load line from one number to another says more than this wait.
    pub(crate) fn has(&self, from: u8, to: u8, wait: u32) -> bool {
        match self.waits.get(from as usize) {
            Some(row) => (to as usize) < NUMBER_COUNT && row[to as usize] <= wait,
            None => false,
        }
    }

    /// None says more than this wait.
    pub(crate) fn add(&mut self, from: u8, to: u8, wait: u32) {
        let place = from as usize;
        if place < self.waits.len() && (to as usize) < NUMBER_COUNT {
            self.waits[place][to as usize] = wait;
        }
    }

    /// Paths from a number grew.
    pub(crate) fn forget(&mut self, from: u8) {
        let place = from as usize;
        if place < self.waits.len() {
            self.waits[place] = UNKNOWN;
        }
    }
}
