//! One step of the search: from the beginnings of one length that are kept to those that are one number longer.
//! All children of the kept beginnings are put in order of merit; those are left out that a better one of the same numbers dominates,
//! and of the others the first go on.

use crate::beam::child::{Child, Rank};
use crate::beam::merit::Merit;
use crate::facts::copy_of;
use crate::walk::PathWalk;
use arrayvec::ArrayVec;
use s66_isa::{BLOCK_LIMIT, Set};
use s66_time::{Mark, dominates_clamped};
use std::alloc::{AllocError, Global};

/// A beginning that is kept.
#[derive(Drop)]
pub(crate) struct Beginning {
    pub(crate) numbers: ArrayVec<u8, BLOCK_LIMIT>,
    placed: Set,
    merit: Merit,
}

/// What a beginning of some numbers is compared by with another of the same.
#[derive(Clone, Copy)]
struct Seen {
    placed: Set,
    mark: Mark,
}

impl Beginning {
    /// The empty one.
    pub(crate) fn empty() -> Beginning {
        Beginning {
            numbers: ArrayVec::new(),
            placed: Set::empty(),
            merit: Merit { floor: 0, reach: 0 },
        }
    }

    /// A child of this one.
    fn child(&self, child: &Child) -> Beginning {
        let mut numbers = copy_of(self.numbers.as_slice());
        let _ = numbers.try_push(child.number);
        Beginning {
            numbers,
            placed: child.placed,
            merit: child.merit,
        }
    }
}

/// Adds the children of this prefix, one of these kept ones, whose floors are below the best.
fn push_children(
    prefix: &mut PathWalk<'_>,
    parent: usize,
    floor: u32,
    best: u32,
    children: &mut Vec<Child>,
) -> Result<(), AllocError> {
    let mut rest = prefix.ready();
    while let Some(number) = rest.pop_first() {
        if prefix.try_push(number) {
            let merit = Merit::of(prefix, floor);
            let placed = prefix.walk().pushed();
            prefix.undo();
            if merit.floor < best {
                children.push(Child {
                    merit,
                    placed,
                    parent,
                    number,
                })?;
            }
        }
    }
    Ok(())
}

/// Whether one of these dominates another of the same numbers.
fn is_dominated(seen: &[Seen], other: &Seen) -> bool {
    for one in seen {
        if one.placed == other.placed && dominates_clamped(&one.mark, &other.mark) {
            return true;
        }
    }
    false
}

/// The children of the first `width` of these that aren't dominated by one before.
fn children_of(
    alloc: Global,
    prefix: &mut PathWalk<'_>,
    kept: &[Beginning],
    width: usize,
    best: u32,
) -> Result<Vec<Child>, AllocError> {
    let mut children = Vec::new(alloc);
    let mut seen = Vec::new(alloc);
    for parent in 0..kept.len() {
        if seen.len() >= width {
            break;
        }
        let one = &kept[parent];
        prefix.go_to(one.numbers.as_slice());
        let this = Seen {
            placed: one.placed,
            mark: prefix.walk().mark(),
        };
        if !is_dominated(seen.as_slice(), &this) {
            seen.push(this)?;
            push_children(prefix, parent, one.merit.floor, best, &mut children)?;
        }
    }
    Ok(children)
}

/// The children by merit, the best first.
fn ranked(alloc: Global, children: &[Child]) -> Result<Vec<Rank>, AllocError> {
    let mut ranks = Vec::new(alloc);
    for index in 0..children.len() {
        ranks.push(Rank {
            merit: children[index].merit,
            index,
        })?;
    }
    ranks.sort_unstable();
    Ok(ranks)
}

/// Whether one of these is like a child, which is no better than any of them; they are by merit, the best first.
fn has_like(kept: &[Beginning], child: &Child) -> bool {
    for back in 0..kept.len() {
        let one = &kept[kept.len() - 1 - back];
        if one.merit != child.merit {
            return false;
        }
        if one.placed == child.placed {
            return true;
        }
    }
    false
}

/// The best of the children, `most` at most, one of those that are alike.
fn best_of(
    alloc: Global,
    kept: &[Beginning],
    children: &[Child],
    most: usize,
) -> Result<Vec<Beginning>, AllocError> {
    let ranks = ranked(alloc, children)?;
    let mut next = Vec::new(alloc);
    for rank in ranks.as_slice() {
        if next.len() >= most {
            break;
        }
        let Some(child) = children.get(rank.index) else {
            continue;
        };
        let Some(parent) = kept.get(child.parent) else {
            continue;
        };
        if !has_like(next.as_slice(), child) {
            next.push(parent.child(child))?;
        }
    }
    Ok(next)
}

/// The most promising beginnings that are one number longer than these and whose floors are below the best, the best first. Of
/// these the first `width` go on that aren't dominated; twice as many are kept, as some will be.
pub(crate) fn next_depth(
    alloc: Global,
    prefix: &mut PathWalk<'_>,
    kept: &[Beginning],
    width: usize,
    best: u32,
) -> Result<Vec<Beginning>, AllocError> {
    let children = children_of(alloc, prefix, kept, width, best)?;
    best_of(alloc, kept, children.as_slice(), width.saturating_mul(2))
}
