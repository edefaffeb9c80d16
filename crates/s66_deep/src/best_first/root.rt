//! The leaf of the empty prefix, if one shows enough: then no split is needed.

use crate::best_first::instructions::Instructions;
use crate::best_first::loads::Loads;
use crate::best_first::writer::Leaves;
use crate::facts::Finder;
use crate::walk::PathWalk;
use s66_isa::Profile;
use s66_line::Block;
use s66_model::Tree;
use std::alloc::{AllocError, Global};

/// The tree of one leaf by which no order takes less than this, in minor cycles, if there is one: a path, the work of a kind of unit, the
/// parcels, or a load. What the finder knows of the block is so in orders that take less.
///
/// `Err` is out of memory.
pub(crate) fn root_leaf(
    alloc: Global,
    block: &Block<'_>,
    profile: &Profile,
    finder: &Finder,
    low: u32,
) -> Result<Option<Tree>, AllocError> {
    let instructions = Instructions::new(finder);
    let tails = finder.tails();
    let mut leaves = Leaves {
        instructions: &instructions,
        loads: Loads::of(alloc, &instructions, &tails)?,
        low,
    };
    let prefix = PathWalk::new(block, profile, &tails);
    let mut tree = Tree::new(alloc);
    if leaves.write(&prefix, &mut tree)? {
        Ok(Some(tree))
    } else {
        Ok(None)
    }
}
