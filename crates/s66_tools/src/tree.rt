//! A tree of a block's beginnings grown depth first, to be measured.

use s66_isa::Profile;
use s66_line::Block;
use s66_node::{Constant, Priority, Walk, schedule_rest};
use std::alloc::{AllocError, Global};

/// How many beginnings a tree splits, how many pushes that takes, and the least total that it finds.
#[derive(Clone, Copy, Default)]
pub(crate) struct Counts {
    pub(crate) splits: u32,
    pub(crate) pushes: usize,
    pub(crate) best: u32,
}

/// The tree of a block's beginnings, grown depth first, as a worker of a search grows a piece. A beginning is split if its floor
/// is below the total of a list schedule, until the budget of splits is spent. `Err` is out of memory.
pub(crate) fn grow(
    alloc: Global,
    block: &Block<'_>,
    profile: &Profile,
    budget: u32,
) -> Result<Counts, AllocError> {
    let mut walk = Walk::new(block, profile);
    schedule_rest(&mut walk, Priority::Issue);
    let total = walk.floor_value();
    let piece = walk.expand(alloc, &[], &mut Constant(total), budget)?;
    let best = match piece.timed() {
        Some(timed) => timed.total().min(total),
        None => total,
    };
    Ok(Counts {
        splits: piece.splits(),
        // each node but the first is a child
        pushes: piece.nodes().len().saturating_sub(1),
        best,
    })
}
