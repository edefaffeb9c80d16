//! Tests of the bounds of small blocks, by values worked out by hand.

use crate::blocks::{MULTIPLIES, ONE_LOAD};
use crate::reading::{block_of, source_of};
use s66_bound::Leaf;
use s66_isa::{Kind, Profile};
use s66_line::Block;
use s66_node::Walk;
use std::process::Abort;

/// Three multiplies in two units take 33 over 2, rounded up, which is the floor; before the last of them come two parcels.
fn check_multiplies<R: Abort>(rt: &R, block: &Block) {
    let walk = Walk::new(block, &Profile::standard());
    prove!(1 <= block.count());
    let bounds = [
        walk.bounds().load(walk.clock(), Kind::Multiply),
        walk.bounds().parcels(walk.clock()),
        walk.floor_value(),
    ];
    assert_eq!(rt; bounds, [17, 13, 17]);
}

/// A load and what reads its X1 take 8 and 4.
fn check_load<R: Abort>(rt: &R, block: &Block) {
    let walk = Walk::new(block, &Profile::standard());
    match walk.floor_of_value(walk.floor_value()) {
        Leaf::Chain { numbers, value } => {
            assert!(rt; numbers.as_slice() == [1, 2].as_slice() && value == 12);
        }
        _ => panic!(rt; "no chain"),
    }
}

#[test]
fn bounds_of_blocks(rt: HostRuntime) {
    let multiplies = source_of(&rt, MULTIPLIES);
    check_multiplies(&rt, block_of(&rt, &multiplies));
    let load = source_of(&rt, ONE_LOAD);
    check_load(&rt, block_of(&rt, &load));
}
