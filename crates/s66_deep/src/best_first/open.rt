//! The prefixes that are to be split.
//! They are in a heap, of which the first has the least floor and of equal ones the longest prefix.

use crate::best_first::waits::word;
use std::alloc::{AllocError, Global};
use std::collections::BinaryHeap;

/// Which open prefix is split first: that of the greatest turn. It has the least floor, and of equal ones it is the longest, and of
/// these the newest.
#[derive(Clone, Copy, PartialEq, Eq, PartialOrd, Ord)]
struct Turn {
    /// The greatest word less the floor, in minor cycles.
    earliness: u16,
    depth: u8,
    /// The index of the node.
    node: u32,
}

/// The open prefixes, by their turns, in eight bytes each.
#[derive(Drop)]
pub(crate) struct Open {
    turns: BinaryHeap<Turn>,
}

/// A prefix that is to be split next, and its floor, in minor cycles.
#[derive(Clone, Copy)]
pub(crate) struct Next {
    pub(crate) node: u32,
    pub(crate) floor: u32,
}

impl Open {
    /// None is open.
    pub(crate) fn new(alloc: Global) -> Open {
        Open {
            turns: BinaryHeap::new(alloc),
        }
    }

    /// A prefix is open: one of so many numbers, with this floor; one above the greatest word counts as that.
    pub(crate) fn push(&mut self, node: u32, depth: u8, floor: u32) -> Result<(), AllocError> {
        self.turns.push(Turn {
            earliness: u16::MAX - word(floor),
            depth,
            node,
        })?;
        Ok(())
    }

    /// The one that is split next, which is open no more.
    pub(crate) fn pop(&mut self) -> Option<Next> {
        let turn = self.turns.pop()?;
        Some(Next {
            node: turn.node,
            floor: u32::from(u16::MAX - turn.earliness),
        })
    }
}
