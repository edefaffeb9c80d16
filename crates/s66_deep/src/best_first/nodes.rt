//! The prefixes that a search has met, as the nodes of a tree.
//! Each has its parent and its fate: open, split, closed or dominated.

use arrayvec::ArrayVec;
use s66_isa::BLOCK_LIMIT;
use std::alloc::{AllocError, Global};

/// The index of the root, which is the empty prefix.
pub(crate) const ROOT: u32 = 0;

/// What became of a prefix.
#[derive(Clone, Copy)]
pub(crate) enum Fate {
    /// It is to be split, unless its floor turns out too great.
    Open,
    /// It goes on with each number that is ready after it: its children, which are this many nodes from an index on.
    Split { first: u32, count: u8 },
    /// A bound closes it, or it is a whole order.
    Closed,
    /// This number is known to stand before the last one and doesn't.
    Turned(u8),
    /// The prefix of another node dominates it; its own floor is this, in minor cycles.
    Dominated { other: u32, floor: u16 },
}

/// A prefix that a search has met: that of its parent, and one number more.
#[derive(Clone, Copy)]
pub(crate) struct SearchNode {
    /// The index of the parent; the root is its own.
    pub(crate) parent: u32,
    pub(crate) number: u8,
    /// How many numbers it has.
    pub(crate) depth: u8,
    /// The place in its word of the next parcel.
    pub(crate) place: u8,
    pub(crate) fate: Fate,
}

/// The nodes, in sixteen bytes each. A parent stands before its children, and these stand side by side.
#[derive(Drop)]
pub(crate) struct Nodes {
    nodes: Vec<SearchNode>,
}

impl Nodes {
    /// The root alone.
    pub(crate) fn new(alloc: Global) -> Result<Nodes, AllocError> {
        let mut nodes = Vec::new(alloc);
        nodes.push(SearchNode {
            parent: ROOT,
            number: 0,
            depth: 0,
            place: 0,
            fate: Fate::Open,
        })?;
        Ok(Nodes { nodes })
    }

    /// How many there are.
    pub(crate) fn len(&self) -> u32 {
        u32::try_from(self.nodes.len()).unwrap_or(u32::MAX)
    }

    /// The node at an index.
    pub(crate) fn at(&self, index: u32) -> Option<SearchNode> {
        self.nodes.get(index as usize).copied()
    }

    /// Appends a node.
    pub(crate) fn push(&mut self, node: SearchNode) -> Result<(), AllocError> {
        self.nodes.push(node)?;
        Ok(())
    }

    /// A node has this fate from now on.
    pub(crate) fn set_fate(&mut self, index: u32, fate: Fate) {
        if let Some(node) = self.nodes.get_mut(index as usize) {
            node.fate = fate;
        }
    }

    /// Whether another node dominates one.
    pub(crate) fn is_dominated(&self, index: u32) -> bool {
        match self.at(index) {
            Some(node) => matches!(node.fate, Fate::Dominated { .. }),
            None => false,
        }
    }

    /// The node that dominates this one, if one does and this one's floor doesn't show `low`.
    fn leans_on(&self, index: u32, low: u32) -> Option<u32> {
        match self.at(index)?.fate {
            Fate::Dominated { other, floor } if u32::from(floor) < low => Some(other),
            _ => None,
        }
    }

    /// The end of the chain of nodes that lean on one another, from this one on, where each leaf has to show `low`.
    ///
    /// It dominates each of them. For after a prefix that dominates another, what remains looks no later, so that what is no later than the
    /// words and the looks of the former is no later than those of the latter. And a total up to a floor below `low` makes no difference.
    pub(crate) fn dominator(&self, index: u32, low: u32) -> u32 {
        let mut last = index;
        for _ in 0..self.nodes.len() {
            match self.leans_on(last, low) {
                Some(other) => last = other,
                None => return last,
            }
        }
        last
    }

    /// The numbers of the children from an index on.
    pub(crate) fn numbers(&self, first: u32, count: u8) -> ArrayVec<u8, BLOCK_LIMIT> {
        let mut numbers = ArrayVec::new();
        for place in 0..count {
            if let Some(child) = self.at(first.saturating_add(u32::from(place)))
                && !numbers.is_full()
            {
                numbers.push(child.number);
            }
        }
        numbers
    }
}
