//! The children of each node of a table, since nodes know only their parents; for writing the tree.

ghost use Rattle.std.specs.Prelude.{◌<◌, ◌^◌, length, IfOk};
ghost use Rattle.s66_ledger.specs.{AreLinks, IsChild, HasChild};

use crate::path::up;
use s66_node::Node;
use std::alloc::{AllocError, Global};

/// The way from a node of a table down to its children, the last made first.
#[derive(Drop)]
pub(crate) struct Links {
    /// The last child of each node; 0 if it has none.
    last: Vec<u32>,
    /// The child of the same parent that was made before each node; 0 if there is none.
    before: Vec<u32>,
}

impl Links {
    /// Of these nodes, in one pass over them; 8 bytes a node.
    pub(crate) fn of(alloc: Global, nodes: &[Node]) -> Result<Links, AllocError>
        requires { length nodes.now < 2 ^ 32 }
        ensures { IfOk result (λ l. AreLinks nodes.now l.last.items l.before.items (length nodes.now)) }
    {
        let mut last = vec![in alloc; 0u32; nodes.len()]?;
        let mut before = vec![in alloc; 0u32; nodes.len()]?;
        for node in 1..nodes.len() {
            let parent = up(nodes, node);
            before[node] = last[parent];
            last[parent] = node as u32;
        }
        Ok(Links { last, before })
    }

    /// The child of a node whose last number this is: one look at each of its children after that one.
    pub(crate) fn child(&self, nodes: &[Node], parent: usize, number: u8) -> usize
        requires links { AreLinks nodes.now self.now.last.items self.now.before.items (length nodes.now) }
        requires parent { parent < length nodes.now }
        requires some { HasChild nodes.now parent number }
        ensures { IsChild nodes.now parent number result }
    {
        let mut child = self.last[parent] as usize;
        while nodes[child].number != number {
            child = self.before[child] as usize;
        }
        child
    }
}
