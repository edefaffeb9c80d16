//! The name of a dominated leaf: the numbers of the node that dominates it, and a guess of where that node is.

ghost use Rattle.std.specs.Prelude.{◌≡◌, ◌≤◌, IfOk, length};
ghost use Rattle.s66_isa.specs.{BLOCK_LIMIT};

use crate::whole_order::copy_of;
use arrayvec::ArrayVec;
use s66_isa::BLOCK_LIMIT;
use std::alloc::{AllocError, Global};
use std::boxed::Box;

/// Where the node of a name may be found: a guess, which whoever follows it has to test.
#[derive(Clone, Copy, Debug, PartialEq, Eq)]
pub enum NodePlace {
    /// The node of this place in the same piece; its root's is 0.
    Line(u32),
    /// The node of this number of a ledger.
    Node(u32),
}

impl NodePlace {
    /// The number of that node in a ledger in which the piece's root has the number `root`, and its other nodes those from `first` on.
    pub fn number(self, root: u32, first: u32) -> u32 {
        match self {
            NodePlace::Line(0) => root,
            NodePlace::Line(line) => first.saturating_add(line - 1),
            NodePlace::Node(number) => number,
        }
    }
}

/// A node that dominates a prefix.
#[derive(Drop)]
pub struct Name {
    /// Its numbers.
    pub numbers: ArrayVec<u8, BLOCK_LIMIT>,
    /// Where it may be found.
    pub place: NodePlace,
}

impl Name {
    /// The node with these numbers, which may be found there.
    pub fn new(alloc: Global, numbers: &[u8], place: NodePlace) -> Result<Box<Name>, AllocError>
        requires { length numbers.now ≤ BLOCK_LIMIT }
        ensures { IfOk result (λ name. name.value.numbers.items ≡ numbers.now) }
    {
        let name = Name {
            numbers: copy_of(numbers),
            place,
        };
        Ok(Box::new(alloc, name)?)
    }
}

/// What a dominated node of a piece has besides.
#[derive(Drop)]
pub struct Dominance {
    /// The value of its floor, in minor cycles.
    pub floor: u32,
    pub name: Box<Name>,
}
