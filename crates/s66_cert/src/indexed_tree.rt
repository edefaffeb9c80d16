//! A tree whose nodes are found by their names and by their lines: beside each line stands where its subtree ends, so that a look skips
//! whole subtrees.

ghost use Rattle.std.specs.Prelude.{◌≡◌, get_or};
ghost use Rattle.s66_model.specs.{vertex_of};
ghost use Rattle.s66_cert.specs.{end_behind, sibling_count};

use arrayvec::ArrayVec;
use s66_isa::BLOCK_LIMIT;
use s66_model::{KeptLines, Tree, TreeLine, TreeLines};
use std::marker::Model;

/// How many trees follow a line as its children.
pub(crate) fn sibling_count(line: TreeLine<'_>) -> usize
    ensures { result ≡ sibling_count (vertex_of line.entry) }
{
    match line {
        TreeLine::Split(numbers) => numbers.len(),
        _ => 0,
    }
}

/// Where the tree that begins at a place ends; a place after the last is its own end.
fn end_at(ends: &[u32], place: usize) -> usize
    ensures { result ≡ get_or ends.now place place }
{
    if place < ends.len() {
        ends[place] as usize
    } else {
        place
    }
}

/// Where the last of `count` trees ends, the first of which begins at a place.
fn end_behind(ends: &[u32], count: usize, place: usize) -> usize
    ensures { result ≡ end_behind ends.now count place }
{
    let mut end = place;
    let mut left = count;
    while left > 0 {
        left -= 1;
        end = end_at(ends, end);
    }
    end
}

/// The lines of a tree in preorder, and where the tree of each ends, so that nodes are found by jumps.
#[derive(Drop)]
pub(crate) struct IndexedTree {
    lines: KeptLines,
    ends: Vec<u32>,
}

impl Model for IndexedTree {
    ghost use Rattle.std.specs.Prelude.{List};
    ghost use Rattle.s66_model.specs.{Vertex, Ending};
    ghost use Rattle.s66_cert.specs.NodePlaces.{AreTreeEnds};

    ghost Value = { List (Vertex Ending) };

    ghost view = { λ t. t.lines };

    ghost invariant = { λ t. AreTreeEnds 0 t.ends.items t.lines };
}

impl IndexedTree {
    ghost use Rattle.std.specs.Prelude.{◌≡◌, ◌<◌, ◌≤◌, ◌^◌, [], length, option_map};
    ghost use Rattle.s66_model.specs.{node_named, vertex_of};
    ghost use Rattle.s66_cert.specs.{tree_of_lines, IsChildAt, IsBelow, IsLineAt};

    /// The same lines, in one pass over them; nothing is allocated.
    pub(crate) fn new(tree: Tree) -> IndexedTree
        requires { length tree < 2 ^ 32 }
        ensures { result ≡ tree }
    {
        let (lines, mut ends) = tree.into_parts();
        let mut place = lines.len();
        while place > 0 {
            place -= 1;
            let count = sibling_count(lines.at(place));
            ends[place] = end_behind(ends.as_slice(), count, place + 1) as u32;
        }
        IndexedTree { lines, ends }
    }

    /// The lines, from the first on.
    pub(crate) fn lines(&self) -> TreeLines<'_>
        ensures { result ≡ self.now }
    {
        self.lines.iter()
    }

    /// The place of the first child of this number of the line at a place.
    fn child_at(&self, place: usize, number: u8) -> Option<usize>
        requires { place < length self.now }
        ensures { IsChildAt self.now place number result }
    {
        let TreeLine::Split(numbers) = self.lines.at(place) else {
            return None;
        };
        let mut sibling = place + 1;
        for last in numbers {
            if sibling >= self.lines.len() {
                return None;
            }
            if *last == number {
                return Some(sibling);
            }
            sibling = self.ends[sibling] as usize;
        }
        None
    }

    /// The line of the node of this name.
    pub(crate) fn node_at(&self, name: &[u8]) -> Option<TreeLine<'_>>
        requires { 1 ≤ length self.now }
        ensures { option_map vertex_of result ≡ node_named [] (tree_of_lines self.now) name.now }
    {
        let mut place = 0;
        for number in name {
            place = self.child_at(place, *number)?;
        }
        Some(self.lines.at(place))
    }

    /// The number and the place of the child of the line here whose tree has the line at a place.
    fn child_below(&self, here: usize, place: usize) -> Option<(u8, usize)>
        requires within { here < length self.now }
        requires behind { here < place }
        ensures { IsBelow self.now here place result }
    {
        let TreeLine::Split(numbers) = self.lines.at(here) else {
            return None;
        };
        let mut sibling = here + 1;
        for number in numbers {
            if sibling >= self.lines.len() {
                return None;
            }
            let end = self.ends[sibling] as usize;
            if place < end {
                return Some((*number, sibling));
            }
            sibling = end;
        }
        None
    }

    /// The line at a place, from 0, and the numbers of its prefix, which are put into this room. None if there is no such line, or
    /// its prefix is longer than any block.
    pub(crate) fn line_at(
        &self,
        place: usize,
        path: &mut ArrayVec<u8, BLOCK_LIMIT>,
    ) -> Option<TreeLine<'_>>
        requires { 1 ≤ length self.now }
        ensures { IsLineAt (tree_of_lines self.now) place (option_map vertex_of result) path.new.items }
    {
        path.clear();
        let mut here = 0;
        while here < place {
            let (number, child) = self.child_below(here, place)?;
            if path.is_full() {
                return None;
            }
            path.push(number);
            here = child;
        }
        Some(self.lines.at(here))
    }
}
