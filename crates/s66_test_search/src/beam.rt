//! Tests of the beam search: narrow and wide beams on small blocks.

use crate::blocks::{BEST_TIMES, SIXTEEN};
use crate::finder::found_by_loads;
use crate::reading::{block_of, source_of};
use s66_deep::beam_below;
use s66_isa::Profile;
use s66_line::Block;
use std::process::Abort;

/// How many beginnings of a length are kept.
const WIDTH: usize = 64;

/// What the order takes that a beam of a width finds by what dependences and loads show, in minor cycles, if it is less than a time;
/// None if it finds none.
fn found_time<R: AllocGlobal + Abort>(
    rt: &R,
    block: &Block,
    width: usize,
    best: u32,
) -> Option<u32> {
    let profile = Profile::standard();
    let tails = found_by_loads(rt, block).tails();
    let found = beam_below(rt.alloc(), block, &profile, &tails, width, best).expect(rt, "memory");
    match found {
        None => None,
        Some(timed) => Some(timed.total()),
    }
}

/// It finds a best order of each block, and nothing that is faster.
#[test]
fn finds_a_best_order(rt: HostRuntime) {
    for &(code, best) in BEST_TIMES {
        let source = source_of(&rt, code);
        let block = block_of(&rt, &source);
        let found = [
            found_time(&rt, block, WIDTH, u32::MAX),
            found_time(&rt, block, WIDTH, best.saturating_add(1)),
            found_time(&rt, block, WIDTH, best),
        ];
        assert_eq!(rt; found, [Some(best), Some(best), None], "{code}");
    }
}

/// A narrow beam may leave out the beginnings of all best orders.
#[test]
fn finds_more_if_it_is_wider(rt: HostRuntime) {
    let source = source_of(&rt, SIXTEEN);
    let block = block_of(&rt, &source);
    assert!(rt; found_time(&rt, block, 0, u32::MAX).is_none());
    assert!(rt; matches!(found_time(&rt, block, 1, u32::MAX), Some(time) if 60 < time));
}
