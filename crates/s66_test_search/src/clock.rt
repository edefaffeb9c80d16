//! Tests of the clock: the totals of all orders of small blocks, also under another profile, and the words that are counted.

use crate::blocks::{MULTIPLIES, ONE_LOAD, PACKING_GAP, THIRD_ORDER};
use crate::reading::{block_of, source_of};
use crate::walk::{Walk, push_ready, undo_last};
use s66_isa::Profile;
use s66_line::Block;
use s66_time::Clock;
use std::process::Abort;

/// How many steps walk through the orders of four instructions: each of the 65 beginnings tries four numbers and is left once.
const STEPS: u32 = 65 * 5;

const REPEATS: &str = "  CX1 X2\n  FX3 X4/X5\n";

/// Both write X1, so the second issues when the first is done, which writes B2 too.
const WRITTEN_TWICE: &str = "  NX1 B2,X3\n  BX1 X4\n";

/// The store waits for its operand, and the load after it for the store.
const STORE_THEN_LOAD: &str = "  FX6 X2*X3\n  SA6 A6+B1\n  SA1 A2+B2\n";

/// The first load waits for its operand, and the store after it for the load; the second load waits for neither.
const LOADS_THEN_STORE: &str = "  FX2 X3*X4\n  SA1 X2+B1\n  SA5 A5+B2\n  SA6 A6+B3\n";

/// Checks the totals of all legal orders of a block.
fn check_totals<R: AllocGlobal + Abort>(rt: &R, block: &Block, profile: &Profile, totals: &[u32]) {
    let mut walk = Walk::new(rt, block, profile);
    let mut goes_on = true;
    for _ in 0..STEPS {
        goes_on = goes_on && walk.step(rt);
    }
    assert!(rt; !goes_on, "the walk isn't over");
    assert!(rt; walk.totals.as_slice() == totals, "{:?}", walk.totals);
}

/// The same for the code of some blocks.
fn check_rows<R: AllocGlobal + Abort>(rt: &R, profile: &Profile, rows: &[(&str, &[u32])]) {
    for &(code, totals) in rows {
        let source = source_of(rt, code);
        check_totals(rt, block_of(rt, &source), profile, totals);
    }
}

/// The totals under the standard profile. An order of the packing gap ends with its load's X1, 8 after its issue: in 4 if it
/// comes last, after the gap, else in 2, 1 or 0.
const TOTALS: &[(&str, &[u32])] = &[
    (ONE_LOAD, &[16, 12, 13]),
    (MULTIPLIES, &[22, 22, 22, 22, 22, 22]),
    (
        PACKING_GAP,
        &[
            12, 10, 12, 10, 9, 9, 12, 10, 12, 10, 9, 9, 12, 10, 12, 10, 9, 9, 8, 8, 8, 8, 8, 8,
        ],
    ),
    (THIRD_ORDER, &[33]),
    (REPEATS, &[39, 39]),
    (WRITTEN_TWICE, &[8]),
    (STORE_THEN_LOAD, &[19]),
    (LOADS_THEN_STORE, &[18, 18, 19]),
];

/// A profile unlike the standard one in each time and in the copies of each unit.
const UNEVEN: Profile = Profile {
    boolean: 5,
    shift: 2,
    normalise: 4,
    add: 6,
    longadd: 7,
    multiply: 4,
    divide: 11,
    population: 17,
    increment: 6,
    load: 4,
    units_boolean: 3,
    units_shift: 2,
    units_add: 1,
    units_longadd: 1,
    units_multiply: 1,
    units_divide: 2,
    units_increment: 3,
};

/// The totals under the uneven profile. The one multiply unit takes the three multiplies one after another, each 5 after the last.
/// The two divide units take the population count and the divide at once. A load's X is done before its A.
const UNEVEN_TOTALS: &[(&str, &[u32])] = &[
    (ONE_LOAD, &[10, 10, 11]),
    (MULTIPLIES, &[15, 15, 15, 15, 15, 15]),
    (
        PACKING_GAP,
        &[
            11, 12, 11, 9, 12, 11, 11, 12, 11, 10, 12, 11, 11, 9, 11, 10, 9, 10, 12, 11, 12, 11,
            10, 10,
        ],
    ),
    (THIRD_ORDER, &[17]),
    (REPEATS, &[18, 19]),
    (WRITTEN_TWICE, &[10]),
    (STORE_THEN_LOAD, &[12]),
    (LOADS_THEN_STORE, &[12, 12, 13]),
];

#[test]
fn clocks_all_orders(rt: HostRuntime) {
    check_rows(&rt, &Profile::standard(), TOTALS);
    check_rows(&rt, &UNEVEN, UNEVEN_TOTALS);
}

/// An instruction, and how many words its push and its undo read or write. That these are at most `LOOK_LIMIT`, and for a push one
/// more for each unit of the kind, is proved. That they are counted right is only tested, here.
///
/// A push looks at the word of each unit of the kind and at that of the kind's work, reads and writes a word for each register that
/// the instruction reads or writes, writes the six words of the progress, and keeps a record. An undo writes the unit's word, the
/// kind's, one for each such register and the six, and reads the record.
const LOOKS: &[(&str, u32, u32)] = &[
    // one of two units, and no register
    ("  SB0 B0+B0\n", 2 + 1 + 6 + 1, 1 + 1 + 6 + 1),
    // one of two units; X2, X3 and X1
    ("  FX1 X2*X3\n", 2 + 1 + 2 * 3 + 6 + 1, 1 + 1 + 3 + 6 + 1),
    // the only unit; X3, X1 and B2
    ("  NX1 B2,X3\n", 1 + 1 + 2 * 3 + 6 + 1, 1 + 1 + 3 + 6 + 1),
    // one of two units; A6, B1 and X6, and A6 again
    ("  SA6 A6+B1\n", 2 + 1 + 2 * 4 + 6 + 1, 1 + 1 + 4 + 6 + 1),
];

/// Checks the words that are counted of the push of a block's first instruction and of its undo.
fn check_looks<R: Abort>(rt: &R, block: &Block, pushed: u32, undone: u32) {
    let mut clock = Clock::new(block, &Profile::standard());
    assert!(rt; clock.looks() == 0);
    assert!(rt; push_ready(&mut clock, 1) && clock.looks() == pushed);
    assert!(rt; undo_last(&mut clock) && clock.looks() == undone);
}

#[test]
fn counts_looks(rt: HostRuntime) {
    for &(code, pushed, undone) in LOOKS {
        let source = source_of(&rt, code);
        check_looks(&rt, block_of(&rt, &source), pushed, undone);
    }
}
