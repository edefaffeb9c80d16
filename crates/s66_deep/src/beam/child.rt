//! A beginning that may be kept: which one it goes on from, by which number, and its merit.

use crate::beam::merit::Merit;
use s66_isa::Set;

/// A beginning that goes on from one that is kept by a number.
#[derive(Clone, Copy)]
pub(crate) struct Child {
    pub(crate) merit: Merit,
    /// The set of its numbers.
    pub(crate) placed: Set,
    /// The index of the kept one.
    pub(crate) parent: usize,
    pub(crate) number: u8,
}

/// The place of a child in the order of merit.
#[derive(Clone, Copy, PartialEq, Eq, PartialOrd, Ord)]
pub(crate) struct Rank {
    pub(crate) merit: Merit,
    /// The index of the child.
    pub(crate) index: usize,
}
