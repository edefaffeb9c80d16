//! The uses that begin of one kind of unit, and how long they keep its units.
//! Some are chosen that show that an order takes too long: energetic reasoning below a prefix.

use crate::work::Work;
use arrayvec::ArrayVec;
use s66_isa::BLOCK_LIMIT;

/// A use of a unit by an instruction that remains, in minor cycles.
#[derive(Clone, Copy, Default)]
pub(crate) struct Begun {
    pub(crate) number: u8,
    /// When it begins if the instruction comes next.
    pub(crate) soonest: u32,
    /// For how long the instruction has the unit.
    pub(crate) amount: u32,
    /// What is left at least after that.
    pub(crate) left: u32,
}

/// Some of the uses that begin: among so many first ones those that begin at a minor cycle or later.
#[derive(Clone, Copy)]
pub(crate) struct Chosen {
    pub(crate) after: u32,
    count: usize,
}

/// Whether an order takes `low` at least, in which units have this work from a minor cycle on, and so much is left after it.
fn is_long(after: u32, work: &Work, copies: u32, left: u32, low: u32) -> bool {
    match low.checked_sub(after.saturating_add(left)) {
        None => true,
        // by then the work is to be over in an order that takes less
        Some(time) => time <= work.time(copies),
    }
}

/// How many of these it takes, from the first on, until those that begin so late show that an order takes `low` at least.
fn count_shown(begun: &[Begun], after: u32, copies: u32, low: u32) -> Option<usize> {
    let mut work = Work::default();
    for place in 0..begun.len() {
        let one = &begun[place];
        if one.soonest < after {
            continue;
        }
        work = work.with(one.amount);
        if is_long(after, &work, copies, one.left, low) {
            return Some(place + 1);
        }
    }
    None
}

/// When the soonest of those begins that don't begin before a minor cycle.
fn soonest_from(begun: &[Begun], least: u32) -> Option<u32> {
    let mut soonest = None;
    for one in begun {
        let is_sooner = match soonest {
            Some(other) => one.soonest < other,
            None => true,
        };
        if least <= one.soonest && is_sooner {
            soonest = Some(one.soonest);
        }
    }
    soonest
}

/// Some of these uses, after the first of which most is left, that show that an order takes `low` at least, where so many units share the
/// work: a look at each for each minor cycle at which one begins.
pub(crate) fn choose(begun: &[Begun], copies: u32, low: u32) -> Option<Chosen> {
    let mut least = 0;
    for _ in 0..begun.len() {
        let after = soonest_from(begun, least)?;
        if let Some(count) = count_shown(begun, after, copies, low) {
            return Some(Chosen { after, count });
        }
        least = after.saturating_add(1);
    }
    None
}

/// Their numbers, rising.
pub(crate) fn numbers_of(begun: &[Begun], chosen: &Chosen) -> ArrayVec<u8, BLOCK_LIMIT> {
    let mut numbers = ArrayVec::new();
    for place in 0..begun.len().min(chosen.count) {
        let one = &begun[place];
        if chosen.after <= one.soonest && !numbers.is_full() {
            numbers.push(one.number);
        }
    }
    numbers.as_mut_slice().sort_unstable();
    numbers
}
