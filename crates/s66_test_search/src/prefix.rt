//! Tests of the walk of `s66_deep`: its floors, and that it goes from beginning to beginning.

use crate::blocks::{TWO_BOOLEANS, TWO_SUMS};
use crate::finder::{found_at_first, found_by_loads};
use crate::reading::{block_of, source_of};
use s66_deep::{PathWalk, Tails};
use s66_isa::{BLOCK_LIMIT, Profile};
use s66_line::Block;
use s66_model::{FactLeaf, TreeLine};
use std::process::Abort;

/// Checks the floor of an empty beginning, as paths alone have it too. A leaf says that the first instruction comes too late for this
/// time, and none says more.
fn check_floor<R: Abort>(rt: &R, block: &Block, tails: &[Tails; BLOCK_LIMIT], floor: u32) {
    let prefix = PathWalk::new(block, &Profile::standard(), tails);
    assert!(rt; !prefix.walk().is_complete());
    assert!(rt; prefix.path_floor() == floor && prefix.floor() == floor);
    assert!(rt;
        matches!(
            prefix.leaf(floor),
            Some(TreeLine::Factual(FactLeaf::Next(1)))
        )
    );
    assert!(rt; prefix.leaf(floor.saturating_add(1)).is_none());
}

/// By dependences the empty beginning has a floor of 12, as by the work of the Boolean unit; by loads one of 16.
#[test]
fn floors_are_by_what_follows(rt: HostRuntime) {
    let source = source_of(&rt, TWO_BOOLEANS);
    let block = block_of(&rt, &source);
    check_floor(&rt, block, &found_at_first(&rt, block).tails(), 12);
    check_floor(&rt, block, &found_by_loads(&rt, block).tails(), 16);
}

/// Beginnings of the orders of the block with two sums, one after the other, with what is ready after each.
const BEGINNINGS: &[(&[u8], &[u8])] = &[
    (&[], &[1, 2]),
    (&[1, 2, 3], &[4, 5]),
    (&[1, 2, 4, 6, 3, 5, 7, 8], &[]),
    (&[1, 2, 4, 6], &[3]),
    (&[2, 4, 1], &[3, 6]),
    (&[1], &[2, 3]),
    (&[1, 2, 3, 4, 5, 6, 7, 8], &[]),
    (&[], &[1, 2]),
];

/// Checks that a beginning to which another went is as one that is made from nothing.
fn check_like_made<R: Abort>(rt: &R, gone: &PathWalk<'_>, made: &mut PathWalk<'_>, numbers: &[u8]) {
    for n in numbers {
        assert!(rt; made.try_push(*n));
    }
    let (walk, plain) = (gone.walk(), made.walk());
    let is_made = walk.pushed() == plain.pushed() && gone.path_floor() == made.path_floor();
    let (clock, other) = (walk.clock(), plain.clock());
    let is_timed = clock.next() == other.next() && clock.total() == other.total();
    assert!(rt;
        is_made && is_timed && walk.numbers() == numbers,
        "{numbers:?}"
    );
}

/// Goes from beginning to beginning, back and on.
fn check_walk<R: AllocGlobal + Abort>(rt: &R, block: &Block) {
    let profile = Profile::standard();
    let tails = found_by_loads(rt, block).tails();
    let mut prefix = PathWalk::new(block, &profile, &tails);
    for &(numbers, ready) in BEGINNINGS {
        prefix.go_to(numbers);
        let mut made = PathWalk::new(block, &profile, &tails);
        check_like_made(rt, &prefix, &mut made, numbers);
        assert!(rt; prefix.ready().numbers().as_slice() == ready, "{numbers:?}");
    }
}

#[test]
fn goes_back_and_on(rt: HostRuntime) {
    let source = source_of(&rt, TWO_SUMS);
    check_walk(&rt, block_of(&rt, &source));
}
