//! How promising a beginning is: its floor first, and then how far its instructions reach.

use crate::walk::PathWalk;
use s66_isa::KINDS;
use s66_time::Clock;

/// How many minor cycles of units and results that are late weigh as much as one of the next slot.
const LATE_SHARE: u32 = 32;

/// How promising a beginning is: less is better, and what comes first decides first.
#[derive(Clone, Copy, PartialEq, Eq, PartialOrd, Ord)]
pub(crate) struct Merit {
    /// In minor cycles; by tails that are right, no completion takes less.
    pub(crate) floor: u32,
    /// The next slot, with a share for how late units and results are.
    pub(crate) reach: u32,
}

/// By how much units and results are later than the next slot, summed, in minor cycles.
fn lateness(clock: &Clock<'_>) -> u32 {
    let next = clock.next();
    let mut sum = 0u32;
    for kind in KINDS {
        sum = sum.saturating_add(clock.busy(kind));
    }
    let mut late = clock.late(next);
    while let Some(register) = late.pop_first() {
        let done = clock.done_of(register);
        sum = sum.saturating_add(done.saturating_sub(next));
    }
    sum
}

impl Merit {
    /// How promising a prefix is: its floor, no less than this one, and how far its instructions reach.
    pub(crate) fn of(prefix: &PathWalk<'_>, floor: u32) -> Merit {
        let clock = prefix.walk().clock();
        let least = if prefix.walk().is_complete() {
            clock.total()
        } else {
            prefix.floor()
        };
        Merit {
            floor: floor.max(least).max(clock.total()),
            reach: clock
                .next()
                .saturating_mul(LATE_SHARE)
                .saturating_add(lateness(clock)),
        }
    }
}
