//! The longest paths between the moments that load lines speak of.
//! These are the issue and the start of each instruction, the origin and the end.

use crate::facts::network::Network;
use crate::facts::nodes::{raise, time_at};
use s66_isa::BLOCK_LIMIT;
use std::alloc::{AllocError, Global};

/// How many places there are: the issue and the start of each number, and the origin and the end in those of number 0.
pub(crate) const PLACE_COUNT: usize = 2 * (BLOCK_LIMIT + 1);

/// The place of the origin.
pub(crate) const FROM_ORIGIN: usize = 0;

/// The place of the end.
pub(crate) const TO_END: usize = 1;

/// The longest paths from one place to each.
type Row = [Option<u32>; PLACE_COUNT];

/// The longest paths from each place to each, in minor cycles.
#[derive(Drop)]
pub(crate) struct Spans {
    rows: Vec<[Option<u32>; PLACE_COUNT]>,
}

/// The place of an issue.
pub(crate) fn at_issue(n: u8) -> usize {
    2 * n as usize
}

/// The place of a start.
pub(crate) fn at_start(n: u8) -> usize {
    2 * n as usize + 1
}

/// The node at a place.
pub(crate) fn node_at(place: usize) -> usize {
    (place / 2).saturating_mul(5).saturating_add(place % 2)
}

/// The longest paths from one place.
fn row_from(network: &Network, from: usize) -> Row {
    let times = network.heads(node_at(from));
    let mut row = [None; PLACE_COUNT];
    for place in 0..PLACE_COUNT {
        row[place] = time_at(&times, node_at(place));
    }
    row
}

/// A path leads from a place to another in so many minor cycles, and after it others do.
fn extend(row: &mut Row, from: usize, wait: u32, after: &Row) {
    let Some(time) = time_at(row, from) else {
        return;
    };
    for place in 0..PLACE_COUNT {
        if let Some(rest) = after[place] {
            raise(row, place, time.saturating_add(wait).saturating_add(rest));
        }
    }
}

impl Spans {
    /// Of a network of numbers up to a count. `Err` is out of memory.
    pub(crate) fn of(alloc: Global, network: &Network, count: u8) -> Result<Spans, AllocError> {
        let mut rows = Vec::new(alloc);
        for place in 0..2 * (count as usize + 1) {
            rows.push(row_from(network, place))?;
        }
        Ok(Spans { rows })
    }

    /// The longest path from a place to another.
    pub(crate) fn between(&self, from: usize, to: usize) -> Option<u32> {
        match self.rows.get(from) {
            None => None,
            Some(row) => time_at(row, to),
        }
    }

    /// A place comes later than another by so many minor cycles.
    pub(crate) fn add(&mut self, from: usize, wait: u32, to: usize) {
        let Some(row) = self.rows.get(to) else {
            return;
        };
        let after = *row;
        for place in 0..self.rows.len() {
            extend(&mut self.rows[place], from, wait, &after);
        }
    }
}
