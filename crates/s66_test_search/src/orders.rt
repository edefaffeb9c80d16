//! Tests of orders: which lists of numbers are legal, and where others fail.

use crate::blocks::ONE_LOAD;
use crate::reading::{block_of, source_of};
use s66_line::Block;
use s66_time::{NotLegal, Order};

/// Numbers, and the place that is returned if they are no legal order of one load.
const PLACES: &[(&[u8], Option<usize>)] = &[
    (&[1, 2, 3], None),
    (&[1, 3, 2], None),
    (&[2, 1, 3], Some(1)),
    (&[1, 3], Some(3)),
    (&[1, 3, 3], Some(3)),
    (&[1, 2, 3, 1], Some(4)),
    (&[0], Some(1)),
    (&[], Some(1)),
];

/// The place that is returned for some numbers if they are no legal order.
fn refused_place(block: &Block, numbers: &[u8]) -> Option<usize> {
    match Order::new(block, numbers) {
        Ok(_) => None,
        Err(NotLegal { at }) => Some(at),
    }
}

#[test]
fn takes_legal_orders(rt: HostRuntime) {
    let source = source_of(&rt, ONE_LOAD);
    let block = block_of(&rt, &source);
    for &(numbers, place) in PLACES {
        assert!(rt; refused_place(block, numbers) == place, "{numbers:?}");
    }
}

#[test]
fn shows_refusals(rt: HostRuntime) {
    let shown = format!(in rt.alloc(); "{}", NotLegal { at: 3 }).expect(&rt, "memory");
    assert!(rt;
        shown.as_str() == "no legal order: place 3 has no number, or one that is not ready there"
    );
}
