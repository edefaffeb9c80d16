//! The tree of a search as the lines of a certificate.
//! The lines are in preorder; a dominated leaf names the line of the node that dominates it.

ghost use Rattle.std.specs.Prelude.{◌≡◌};

use crate::best_first::instructions::Instructions;
use crate::best_first::loads::Loads;
use crate::best_first::nodes::{Fate, Nodes, ROOT, SearchNode};
use crate::best_first::trail::Trail;
use crate::walk::PathWalk;
use s66_isa::BLOCK_LIMIT;
use s66_model::{FactLeaf, Tree, TreeLine};
use std::alloc::{AllocError, Global};

/// How many lines the tree of each node has.
fn sizes_of(alloc: Global, nodes: &Nodes) -> Result<Vec<u32>, AllocError> {
    let count = nodes.len();
    let mut sizes = Vec::new(alloc);
    sizes.resize(count as usize, 1u32)?;
    for back in 1..count {
        let index = count - back;
        let Some(node) = nodes.at(index) else {
            continue;
        };
        let (parent, size) = (node.parent as usize, sizes[index as usize]);
        if parent < sizes.len() {
            sizes[parent] = sizes[parent].saturating_add(size);
        }
    }
    Ok(sizes)
}

/// Numbers the lines of a node's children, from this one on.
fn number_children(lines: &mut [u32], sizes: &[u32], first: u32, count: u8, from: u32) {
    let mut line = from;
    for place in 0..count {
        let child = first.saturating_add(u32::from(place)) as usize;
        if child < lines.len() && child < sizes.len() {
            lines[child] = line;
            line = line.saturating_add(sizes[child]);
        }
    }
}

/// The number of each node's line in the document, if the tree's first is this one.
fn lines_of(alloc: Global, nodes: &Nodes, first_line: u32) -> Result<Vec<u32>, AllocError> {
    let sizes = sizes_of(alloc, nodes)?;
    let mut lines = Vec::new(alloc);
    lines.resize(sizes.len(), first_line)?;
    for index in 0..nodes.len() {
        if let Some(
            SearchNode {
                fate: Fate::Split { first, count },
                ..
            },
        ) = nodes.at(index)
            && let Some(own) = lines.get(index as usize).copied()
        {
            let from = own.saturating_add(1);
            number_children(lines.as_mut_slice(), sizes.as_slice(), first, count, from);
        }
    }
    Ok(lines)
}

/// The node after one that has no child, in preorder: the next child of the nearest node above that has one left.
fn next_beside(nodes: &Nodes, node: u32) -> Option<u32> {
    let mut index = node;
    for _ in 0..BLOCK_LIMIT {
        let own = nodes.at(index)?;
        if own.depth == 0 {
            return None;
        }
        if let Fate::Split { first, count } = nodes.at(own.parent)?.fate
            && index.saturating_add(1) < first.saturating_add(u32::from(count))
        {
            return Some(index.saturating_add(1));
        }
        index = own.parent;
    }
    None
}

/// The node after one in preorder.
fn next_of(nodes: &Nodes, index: u32, fate: Fate) -> Option<u32> {
    match fate {
        Fate::Split { first, count } if count > 0 => Some(first),
        _ => next_beside(nodes, index),
    }
}

/// By what leaves close their prefixes.
#[derive(Drop)]
pub(crate) struct Leaves<'s> {
    pub(crate) instructions: &'s Instructions<'s>,
    pub(crate) loads: Loads,
    /// What each has to show at least, in minor cycles.
    pub(crate) low: u32,
}

impl Leaves<'_> {
    /// Writes the leaf of a prefix, if it has one: it is a whole order, a bound is so great at least, or a load closes it.
    pub(crate) fn write(
        &mut self,
        prefix: &PathWalk<'_>,
        tree: &mut Tree,
    ) -> Result<bool, AllocError> {
        if prefix.walk().is_complete() {
            tree.push(TreeLine::Whole)?;
            return Ok(true);
        }
        if let Some(line) = prefix.leaf(self.low) {
            tree.push(line)?;
            return Ok(true);
        }
        let Some(load) = self
            .loads
            .closing(self.instructions, prefix.walk().clock(), self.low)
        else {
            return Ok(false);
        };
        tree.push(TreeLine::Factual(FactLeaf::LoadFrom(load.after, load.numbers.as_slice())))?;
        Ok(true)
    }
}

/// What a tree is written from.
#[derive(Drop)]
struct Writer<'n, 's> {
    nodes: &'n Nodes,
    /// The number of each node's line in the document.
    lines: Vec<u32>,
    leaves: Leaves<'s>,
    tree: Tree,
}

impl Writer<'_, '_> {
    /// The number of the line of the node that dominates another, and leans on none.
    fn line_of(&self, node: u32) -> u32 {
        let dominator = self.nodes.dominator(node, self.leaves.low);
        self.lines.get(dominator as usize).copied().unwrap_or(0)
    }

    /// Writes the line of a node, if it has one.
    fn write(
        &mut self,
        trail: &mut Trail<'_>,
        index: u32,
        node: &SearchNode,
    ) -> Result<bool, AllocError>
        ensures { trail.new ≡ trail.old }
    {
        match node.fate {
            Fate::Split { first, count } => {
                let numbers = self.nodes.numbers(first, count);
                self.tree.push(TreeLine::Split(numbers.as_slice()))?;
            }
            Fate::Turned(missing) => {
                let leaf = FactLeaf::Turned(missing, node.number);
                self.tree.push(TreeLine::Factual(leaf))?;
            }
            Fate::Dominated { floor, .. } if u32::from(floor) < self.leaves.low => {
                let line = self.line_of(index);
                self.tree.push(TreeLine::Factual(FactLeaf::AtLine(line)))?;
            }
            Fate::Open | Fate::Closed | Fate::Dominated { .. } => {
                if !trail.go_to(self.nodes, index) {
                    return Ok(false);
                }
                return self.leaves.write(&trail.prefix, &mut self.tree);
            }
        }
        Ok(true)
    }
}

/// The tree of these nodes in preorder, each with its leaf; None if one has none. The tree's first line has the number `first_line` in its
/// document.
///
/// `Err` is out of memory.
pub(crate) fn written(
    alloc: Global,
    trail: &mut Trail<'_>,
    nodes: &Nodes,
    leaves: Leaves<'_>,
    first_line: u32,
) -> Result<Option<Tree>, AllocError>
    ensures { trail.new ≡ trail.old }
{
    let mut writer = Writer {
        nodes,
        lines: lines_of(alloc, nodes, first_line)?,
        leaves,
        tree: Tree::new(alloc),
    };
    let mut next = Some(ROOT);
    for _ in 0..nodes.len() {
        let Some(index) = next else {
            break;
        };
        let Some(node) = nodes.at(index) else {
            return Ok(None);
        };
        if !writer.write(trail, index, &node)? {
            return Ok(None);
        }
        next = next_of(nodes, index, node.fate);
    }
    Ok(Some(writer.tree))
}
