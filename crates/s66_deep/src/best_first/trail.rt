//! A prefix that goes from node to node.
//! It goes back to the last node that both share, and on from there.

ghost use Rattle.std.specs.Prelude.{◌≡◌};
ghost use Rattle.s66_isa.specs.{BLOCK_LIMIT};
ghost use Rattle.s66_model.specs.{Problem};

use crate::best_first::nodes::{Nodes, ROOT};
use crate::walk::PathWalk;
use arrayvec::ArrayVec;
use s66_isa::BLOCK_LIMIT;
use std::marker::Model;

/// How many nodes lie between the root and a whole order, both included.
const TRAIL_LIMIT: usize = BLOCK_LIMIT + 1;

/// A prefix, and the nodes below the root of those that it begins with, the last of which is its own.
#[derive(Drop)]
pub(crate) struct Trail<'a> {
    pub(crate) prefix: PathWalk<'a>,
    nodes: ArrayVec<u32, TRAIL_LIMIT>,
}

impl<'a> Model for Trail<'a> {
    ghost Value = { Problem };

    ghost view = { λ t. t.prefix.problem };
}

impl<'a> Trail<'a> {
    /// At the root.
    pub(crate) fn new(prefix: PathWalk<'a>) -> Trail<'a>
        ensures { result ≡ prefix.entry.problem }
    {
        Trail {
            prefix,
            nodes: ArrayVec::new(),
        }
    }

    /// Whether it passes a node, which has so many numbers.
    fn passes(&self, node: u32, depth: u8) -> bool {
        if depth == 0 {
            return node == ROOT;
        }
        match self.nodes.get(depth as usize - 1) {
            Some(own) => *own == node,
            None => false,
        }
    }

    /// The nodes from one up to the last that it passes, that one left out.
    fn nodes_up(&self, nodes: &Nodes, node: u32) -> ArrayVec<u32, TRAIL_LIMIT> {
        let mut up = ArrayVec::new();
        let mut index = node;
        for _ in 0..TRAIL_LIMIT {
            let Some(own) = nodes.at(index) else {
                break;
            };
            if self.passes(index, own.depth) || up.is_full() {
                break;
            }
            up.push(index);
            index = own.parent;
        }
        up
    }

    /// Goes back to this many numbers, if it has more.
    fn go_back(&mut self, count: usize)
        ensures { self.new ≡ self.old }
    {
        self.prefix.go_back(count);
        self.nodes.truncate(count);
    }

    /// Goes on to a child of its node, and returns whether its number is ready.
    fn go_on(&mut self, nodes: &Nodes, child: u32) -> bool
        ensures { self.new ≡ self.old }
    {
        let Some(own) = nodes.at(child) else {
            return false;
        };
        if self.nodes.is_full() || !self.prefix.try_push(own.number) {
            return false;
        }
        self.nodes.push(child);
        true
    }

    /// Goes to the prefix of a node: back to the last that both begin with, and on from there, an undo or a push for each number in
    /// which they differ. Whether it got there: it does if nodes are those of a tree of the block's prefixes.
    pub(crate) fn go_to(&mut self, nodes: &Nodes, node: u32) -> bool
        ensures { self.new ≡ self.old }
    {
        let Some(own) = nodes.at(node) else {
            return false;
        };
        let up = self.nodes_up(nodes, node);
        self.go_back((own.depth as usize).saturating_sub(up.len()));
        for back in 0..up.len() {
            if !self.go_on(nodes, up[up.len() - 1 - back]) {
                return false;
            }
        }
        true
    }
}
