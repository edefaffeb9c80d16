//! Tests of which beginning dominates which, by marks worked out by hand.

use crate::blocks::{LATE_READER, PACKING_GAP, THREE_ALIKE};
use crate::reading::{block_of, source_of};
use crate::walk::push_ready;
use s66_isa::Profile;
use s66_line::Block;
use s66_time::{Clock, Mark, dominates, dominates_clamped};
use std::process::Abort;

/// The third shifts the X3 of the first, which takes two parcels.
const LATE_RESULT: &str = "  SX3 A1+5\n  SX5 B1\n  LX3 1\n";

/// The second multiplies what the first has; the others wait for nothing.
const CHAINED_MULTIPLIES: &str = "  FX7 X2*X2\n  FX3 X7*X2\n  FX6 X5*X4\n  FX1 X5*X5\n";

/// How many units multiply, code, two beginnings of its block, and whether the first dominates the second as written and clamped.
type Pair = (u32, &'static str, &'static [u8], &'static [u8], bool, bool);

/// Two units multiply under the standard profile. Three are free in 22, 21 and 12 after 1 3 2 4 of the chained multiplies, in 22, 21
/// and 13 after 1 2 3 4, and the next slot is 12.
const PAIRS: &[Pair] = &[
    (2, LATE_READER, &[1, 2, 3], &[1, 3, 2], true, true),
    (2, LATE_READER, &[1, 3, 2], &[1, 2, 3], false, false),
    (2, LATE_READER, &[1, 2, 4], &[1, 4, 2], false, false),
    (2, LATE_READER, &[1, 2], &[1, 2], true, true),
    (2, LATE_READER, &[], &[], true, true),
    (2, PACKING_GAP, &[1, 3, 2, 4], &[1, 2, 3, 4], false, true),
    (2, LATE_RESULT, &[2, 1], &[1, 2], false, false),
    (2, THREE_ALIKE, &[2, 1], &[1, 2], true, true),
    (2, THREE_ALIKE, &[3, 1, 2], &[1, 2, 3], true, true),
    (
        2,
        CHAINED_MULTIPLIES,
        &[1, 3, 2, 4],
        &[1, 2, 3, 4],
        false,
        true,
    ),
    (
        3,
        CHAINED_MULTIPLIES,
        &[1, 2, 3, 4],
        &[1, 3, 2, 4],
        false,
        false,
    ),
    (
        3,
        CHAINED_MULTIPLIES,
        &[1, 3, 2, 4],
        &[1, 2, 3, 4],
        true,
        true,
    ),
    (3, THREE_ALIKE, &[3, 1, 2], &[1, 2, 3], true, true),
];

/// The mark of a block's beginning.
fn mark_after<R: Abort>(rt: &R, block: &Block, profile: &Profile, numbers: &[u8]) -> Mark {
    let mut clock = Clock::new(block, profile);
    for &n in numbers {
        assert!(rt; push_ready(&mut clock, n), "{n} isn't ready");
    }
    clock.mark()
}

#[test]
fn marks_dominate(rt: HostRuntime) {
    for &(units_multiply, code, first, second, written, clamped) in PAIRS {
        let source = source_of(&rt, code);
        let block = block_of(&rt, &source);
        let mut profile = Profile::standard();
        profile.units_multiply = units_multiply;
        let other = mark_after(&rt, block, &profile, first);
        let prefix = mark_after(&rt, block, &profile, second);
        let seen = (
            dominates(&other, &prefix),
            dominates_clamped(&other, &prefix),
        );
        assert!(rt; seen == (written, clamped), "{first:?} {second:?}");
    }
}
