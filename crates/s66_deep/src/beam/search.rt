//! The beam search (`beam_below`): from length to length, with at most so many beginnings of each, until orders are whole.

ghost use Rattle.std.specs.Prelude.{◌≡◌, ◌<◌, IfOk, IfSome};
ghost use Rattle.s66_model.specs.{total_of};
ghost use Rattle.s66_line.specs.{instrs_of};

use crate::beam::depth::{Beginning, next_depth};
use crate::floors::Tails;
use crate::orders::timed_below;
use crate::walk::PathWalk;
use s66_isa::{BLOCK_LIMIT, Profile};
use s66_line::Block;
use s66_time::Timed;
use std::alloc::{AllocError, Global};

/// The whole order with the least total that a beam of this width finds, with its times, if that is below `best`, in minor cycles;
/// None if it finds none.
///
/// Of the beginnings of each length it goes on with `width` at most: those with the least floors, by what follows each number in
/// these tails, n at place n - 1. Beginnings whose floors aren't below `best` are left out, so that tails that are too long may hide
/// an order, but what is returned is legal and exactly timed, whatever the tails.
///
/// Each of the `width` beginnings of a length costs a push, a floor and an undo for each number that is ready after it, and the
/// sorting of these. `Err` is out of memory.
pub fn beam_below(
    alloc: Global,
    block: &Block,
    profile: &Profile,
    tails: &[Tails; BLOCK_LIMIT],
    width: usize,
    best: u32,
) -> Result<Option<Timed>, AllocError>
    ensures problem { IfOk result (λ found. IfSome found
        (λ timed. timed.problem ≡ record { block = instrs_of block.now; profile = profile.now })) }
    ensures below { IfOk result (λ found. IfSome found (λ timed. total_of timed.problem timed.numbers < best)) }
{
    let mut prefix = PathWalk::new(block, profile, tails);
    let mut kept = Vec::new(alloc);
    kept.push(Beginning::empty())?;
    for _ in 0..block.count() {
        kept = next_depth(alloc, &mut prefix, kept.as_slice(), width, best)?;
    }
    match kept.first() {
        Some(one) => Ok(timed_below(block, profile, one.numbers.as_slice(), best)),
        None => Ok(None),
    }
}
