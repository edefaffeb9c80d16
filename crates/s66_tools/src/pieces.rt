//! Calls for `tools/refused.py` that expand the empty prefix of a block.

use crate::calls::Answered;
use crate::sources::{block_of, source_of};
use s66_isa::Profile;
use s66_line::Block;
use s66_model::Rule;
use s66_node::{Constant, MarkTable, Piece, Walk};
use s66_test_search::{MULTIPLIES, THREE_ALIKE};
use std::alloc::{AllocError, Global};

/// A best time that no order of the blocks reaches, so that whole trees are grown.
const ABOVE_ALL: u32 = 40;

/// More splits than the trees have.
const SPLITS: u32 = 100;

/// How many splits and nodes a piece has, and the time of its best order.
fn answered(piece: &Piece) -> Answered {
    let time = match piece.timed() {
        Some(timed) => timed.total() as usize,
        None => 0,
    };
    [piece.splits() as usize, piece.nodes().len(), time, 0]
}

/// The piece of a block for a best time.
fn piece_of(alloc: Global, block: &Block) -> Result<Piece, AllocError> {
    let profile = Profile::standard();
    Walk::new(block, &profile).expand(alloc, &[], &mut Constant(ABOVE_ALL), SPLITS)
}

/// A piece for a best time.
pub(crate) fn expanded(alloc: Global) -> Result<Answered, AllocError> {
    let source = source_of(alloc, MULTIPLIES)?;
    let piece = piece_of(alloc, block_of(&source)?)?;
    Ok(answered(&piece))
}

/// The piece of a block with dominated leaves.
fn dominated_of(alloc: Global, block: &Block) -> Result<Piece, AllocError> {
    let profile = Profile::standard();
    let mut marks = MarkTable::new(alloc, block, &profile);
    let (mut best, rule) = (Constant(ABOVE_ALL), Rule::WrittenEarlier);
    Walk::new(block, &profile).expand_dominated(alloc, &[], &mut best, SPLITS, &mut marks, rule)
}

/// A piece with dominated leaves.
pub(crate) fn expanded_dominated(alloc: Global) -> Result<Answered, AllocError> {
    let source = source_of(alloc, THREE_ALIKE)?;
    let piece = dominated_of(alloc, block_of(&source)?)?;
    Ok(answered(&piece))
}
