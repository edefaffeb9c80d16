//! Tests of list schedules: which instruction comes next, by start, by issue, and by the longest tail.

use crate::blocks::{MULTIPLIES, ONE_LOAD};
use crate::reading::{block_of, source_of};
use s66_isa::Profile;
use s66_line::Block;
use s66_node::{Priority, Walk, schedule_rest};
use std::process::Abort;

/// A block's code, what comes first, and the order that is scheduled with its total. What issues first, the Boolean after the load,
/// waits for X1: by start it comes last. Of equal starts the longest tail comes first, as `BX3`'s, and of equal tails the lowest
/// number, as of three multiplies.
const SCHEDULES: &[(&str, Priority, &[u8], u32)] = &[
    (ONE_LOAD, Priority::Start, &[1, 3, 2], 12),
    (ONE_LOAD, Priority::Issue, &[1, 2, 3], 16),
    (MULTIPLIES, Priority::Start, &[1, 2, 3], 22),
    (
        "  BX1 X2\n  BX3 X4\n  FX5 X3*X6\n",
        Priority::Start,
        &[2, 3, 1],
        14,
    ),
    (
        "  BX1 X2\n  IX3 X1+X4\n  FX5 X6*X7\n  BX0 X2\n",
        Priority::Start,
        &[3, 1, 2, 4],
        11,
    ),
    (
        "  SX1 B1\n  BX2 X3\n  FX4 X2*X5\n  FX6 X7/X3\n  SA1 A1+1\n",
        Priority::Start,
        &[4, 2, 1, 3, 5],
        30,
    ),
];

/// Checks the schedule of a walk, first from the empty prefix on, then again from the whole order.
fn check_schedule<R: Abort>(rt: &R, block: &Block, priority: Priority, numbers: &[u8], total: u32) {
    let mut walk = Walk::new(block, &Profile::standard());
    for _ in 0..2 {
        walk.go_to(&[]);
        schedule_rest(&mut walk, priority);
        let timed = walk.timed();
        let seen = (timed.order().numbers(), timed.total());
        assert!(rt; seen == (numbers, total), "{seen:?}");
    }
}

#[test]
fn list_schedules(rt: HostRuntime) {
    for &(code, priority, numbers, total) in SCHEDULES {
        let source = source_of(&rt, code);
        check_schedule(&rt, block_of(&rt, &source), priority, numbers, total);
    }
}
