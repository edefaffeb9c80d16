//! Pushes and undoes of a clock, so often as a mode says, to be measured.

ghost use Rattle.std.specs.Prelude.{◌≡◌, ◌≤◌, [], length};
ghost use Rattle.s66_line.specs.{instrs_of};

use s66_isa::{BLOCK_LIMIT, Profile};
use s66_line::Block;
use s66_time::Clock;

/// Pushes the first numbers in source order.
fn push_first(clock: &mut Clock<'_>, count: usize)
    requires start { clock.old.numbers ≡ [] }
    requires within { count ≤ length (instrs_of clock.old.block) }
    ensures block { clock.new.block ≡ clock.old.block }
    ensures count { length clock.new.numbers ≡ count }
{
    for position in 0..count {
        prove!(clock.block().count() <= BLOCK_LIMIT);
        clock.push((position + 1) as u8);
    }
}

/// Takes all numbers back.
fn undo_all(clock: &mut Clock<'_>, count: usize)
    requires { length clock.old.numbers ≡ count }
    ensures block { clock.new.block ≡ clock.old.block }
    ensures none { clock.new.numbers ≡ [] }
{
    for position in 0..count {
        clock.undo();
    }
}

/// The totals of new clocks onto which the first numbers are pushed, added up.
pub(crate) fn sum_of_pushes(block: &Block<'_>, profile: &Profile, count: usize, rounds: u32) -> u64
    requires { count ≤ length (instrs_of block.now) }
{
    let mut sum = 0u64;
    for round in 0..rounds {
        let mut clock = Clock::new(&*block, profile);
        push_first(&mut clock, count);
        sum = sum.wrapping_add(clock.total() as u64);
    }
    sum
}

/// The totals of a clock onto which the block is pushed and from which it is taken back, added up.
pub(crate) fn sum_of_rounds(block: &Block<'_>, profile: &Profile, rounds: u32) -> u64 {
    let count = block.count();
    let mut sum = 0u64;
    let mut clock = Clock::new(&*block, profile);
    for round in 0..rounds {
        push_first(&mut clock, count);
        sum = sum.wrapping_add(clock.total() as u64);
        undo_all(&mut clock, count);
    }
    sum
}
