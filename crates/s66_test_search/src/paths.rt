//! Tests of the greatest path of what remains, against the plain form of `plain_paths.rt`.

ghost use Rattle.std.specs.Prelude.{◌≡◌, length};
ghost use Rattle.s66_line.specs.{instrs_of};

use crate::blocks::{MULTIPLIES, ONE_LOAD};
use crate::plain_paths::{plain_bound, plain_tails};
use crate::reading::{block_of, source_of};
use crate::walk::{push_ready, undo_last};
use s66_deep::{Left, PathBounds, Tails};
use s66_isa::{BLOCK_LIMIT, Profile, Set};
use s66_line::Block;
use s66_time::Clock;
use std::process::Abort;

/// How many numbers are tried, most of them in vain.
const TRIES: usize = 4000;

/// The only Add unit is free one minor cycle after X1 is there.
const TWO_ADDS: &str = "  FX1 X2+X3\n  FX4 X1+X5\n";

/// Loads, stores, both results of a normalise, all kinds of units, and registers that are written and read often.
const MIXED: &str =
    "  SA1 A1+B1\n  SA2 A2+B1\n  FX3 X1*X2\n  NX4 B2,X3\n  BX6 X4\n  SA6 A6+B2\n  SA1 A1+B2\n  FX1 X1/X3\n  IX7 X1+X4\n  SA7 A7+100\n  LX1 3\n  SB2 B2+1\n  FX4 X1+X2\n  PX5 B2,X4\n  CX3 X5\n  SA5 A5+B1\n  FX2 X5*X1\n  BX7 X2\n  SA7 A7+B1\n  SX1 B2\n";

/// Checks the floor, worked out anew and from what a walk keeps, and the number that has it.
fn check_floors<R: Abort>(
    rt: &R,
    bounds: &PathBounds,
    clock: &Clock,
    left: &Left,
    tails: &[Tails; BLOCK_LIMIT],
) {
    let (floor, leaf) = plain_bound(clock, tails);
    assert!(rt; bounds.floor(clock) == floor && bounds.floor_by_ranks(clock, left) == floor);
    assert!(rt; bounds.leaf(clock) == leaf);
}

/// Takes out of what remains what is pushed now and wasn't before, and puts back what was and isn't.
fn keep_left(bounds: &PathBounds, block: &Block, left: &mut Left, before: &Set, pushed: &Set)
    requires { bounds.now ≡ length (instrs_of block.now) }
{
    prove!(block.count() <= BLOCK_LIMIT);
    for place in 0..block.count() {
        let n = (place + 1) as u8;
        if pushed.has(n) && !before.has(n) {
            bounds.take_out(left, n);
        }
        if before.has(n) && !pushed.has(n) {
            bounds.put_back(left, n);
        }
    }
}

/// Walks at random through the beginnings of a block's orders, and checks each.
fn check_block<R: Abort>(rt: &R, block: &Block, profile: &Profile) {
    let tails = plain_tails(block, profile);
    let bounds = PathBounds::new(block, profile, &tails);
    let mut clock = Clock::new(block, profile);
    let mut left = bounds.left_after(&Set::empty());
    let mut random = 12345u32;
    check_floors(rt, &bounds, &clock, &left, &tails);
    for _ in 0..TRIES {
        random = random.wrapping_mul(1_103_515_245).wrapping_add(12345);
        let n = ((random >> 16) % 24) as u8;
        let before = clock.pushed();
        let is_changed = if n == 0 {
            undo_last(&mut clock)
        } else {
            push_ready(&mut clock, n)
        };
        if is_changed {
            keep_left(&bounds, block, &mut left, &before, &clock.pushed());
            check_floors(rt, &bounds, &clock, &left, &tails);
        }
    }
}

/// What follows the stages of the two additions, worked out by hand.
fn tails_of_two_adds() -> [Tails; BLOCK_LIMIT] {
    let mut tails = [Tails::default(); BLOCK_LIMIT];
    tails[0] = Tails {
        issue: 10,
        start: 10,
        first: 6,
        second: 0,
        free: 5,
    };
    tails[1] = Tails {
        issue: 5,
        start: 5,
        first: 1,
        second: 0,
        free: 0,
    };
    tails
}

/// Both end at 10, the total of the only order.
fn check_two_adds<R: Abort>(rt: &R, block: &Block) {
    let profile = Profile::standard();
    assert!(rt; block.count() == 2);
    let bounds = PathBounds::new(block, &profile, &tails_of_two_adds());
    let mut clock = Clock::new(block, &profile);
    assert!(rt; bounds.floor(&clock) == 10 && bounds.leaf(&clock) == 1);
    assert!(rt; push_ready(&mut clock, 1));
    assert!(rt; bounds.floor(&clock) == 10 && bounds.leaf(&clock) == 2);
    assert!(rt; push_ready(&mut clock, 2));
    assert!(rt; bounds.floor(&clock) == 0 && clock.total() == 10);
}

#[test]
fn two_adds(rt: HostRuntime) {
    let source = source_of(&rt, TWO_ADDS);
    check_two_adds(&rt, block_of(&rt, &source));
}

#[test]
fn as_the_plain_form(rt: HostRuntime) {
    for text in [ONE_LOAD, MULTIPLIES, TWO_ADDS, MIXED] {
        let source = source_of(&rt, text);
        check_block(&rt, block_of(&rt, &source), &Profile::standard());
    }
}
