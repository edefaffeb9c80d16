//! The plain form of greatest paths: what follows the stages of each instruction by the arcs of dependent pairs, and a look at each
//! number that remains. All times are in minor cycles.

use s66_deep::Tails;
use s66_isa::{
    BLOCK_LIMIT, Profile, Reg, Row, Write, has_register, is_memory_conflict, is_same_kind,
    is_same_register,
};
use s66_line::Block;
use s66_time::{Clock, depends};

/// What follows the result in a register, 0 if there is none.
fn after_result(row: &Row, tails: &Tails, register: Reg) -> u32 {
    let mut after = 0u32;
    let mut is_first = true;
    for write in row.writes.as_slice() {
        if is_same_register(write.reg, register) {
            after = after.max(if is_first { tails.first } else { tails.second });
        }
        is_first = false;
    }
    after
}

/// What follows a result, if an instruction that depends on it stands after it.
fn after_done(write: &Write, later: &Row, tails: &Tails) -> u32 {
    let mut after = 0u32;
    for other in later.writes.as_slice() {
        if is_same_register(other.reg, write.reg) {
            after = tails.issue;
        }
    }
    if has_register(later.reads.as_slice(), write.reg) {
        after = after.max(tails.start);
    }
    after
}

/// What follows the start of an instruction, if one that depends on it stands after it.
fn after_start(row: &Row, later: &Row, tails: &Tails) -> u32 {
    let mut after = 0u32;
    if is_memory_conflict(row.memory, later.memory) {
        after = tails.start.saturating_add(1);
    }
    for register in row.reads.as_slice() {
        let held = after_result(later, tails, *register);
        if held > 0 {
            after = after.max(held.saturating_add(1));
        }
    }
    after
}

/// What follows the stages of an instruction by those of one that depends on it, beside what is known already.
fn with_later(
    profile: &Profile,
    row: &Row,
    later: &Row,
    later_tails: &Tails,
    known: &Tails,
) -> Tails {
    let mut tails = *known;
    tails.issue = tails
        .issue
        .max(later_tails.issue.saturating_add(row.parcels));
    tails.start = tails.start.max(after_start(row, later, later_tails));
    let writes = row.writes.as_slice();
    if !writes.is_empty() {
        let first = writes[0];
        tails.first = tails.first.max(after_done(&first, later, later_tails));
    }
    if writes.len() > 1 {
        let second = writes[1];
        tails.second = tails.second.max(after_done(&second, later, later_tails));
    }
    if is_same_kind(row.kind, later.kind) && profile.copies(row.kind) == 1 {
        tails.free = tails.free.max(later_tails.issue);
    }
    tails
}

/// What follows a result and the start of its instruction, if the unit is held until the result is done.
fn after_write(write: &Write, after: u32, free: u32) -> (u32, u32) {
    let done = if write.held {
        after.max(free.saturating_add(1))
    } else {
        after
    };
    (done, done.saturating_add(write.latency))
}

/// What follows the stages of an instruction by its own later stages, beside what is known already.
fn with_own(row: &Row, known: &Tails) -> Tails {
    let mut tails = *known;
    let writes = row.writes.as_slice();
    let held = row.hold.saturating_add(1).saturating_add(tails.free);
    tails.start = tails.start.max(held);
    if !writes.is_empty() {
        let first = writes[0];
        let (done, start) = after_write(&first, tails.first, tails.free);
        tails.first = done;
        tails.start = tails.start.max(start);
    }
    if writes.len() > 1 {
        let second = writes[1];
        let (done, start) = after_write(&second, tails.second, tails.free);
        tails.second = done;
        tails.start = tails.start.max(start);
    }
    tails.issue = tails.issue.max(tails.start);
    tails
}

/// What follows the stages of each number, of n at place n - 1.
pub(crate) fn plain_tails(block: &Block<'_>, profile: &Profile) -> [Tails; BLOCK_LIMIT] {
    prove!(block.count() <= BLOCK_LIMIT);
    let mut tails = [Tails::default(); BLOCK_LIMIT];
    let count = block.count();
    for back in 0..count {
        let place = count - 1 - back;
        let row = Row::of(&block.instr(place + 1), profile);
        let mut known = Tails::default();
        for later in place + 1..count {
            if depends(block, (place + 1) as u8, (later + 1) as u8) {
                let other = Row::of(&block.instr(later + 1), profile);
                let later_tails = tails[later];
                known = with_later(profile, &row, &other, &later_tails, &known);
            }
        }
        tails[place] = with_own(&row, &known);
    }
    tails
}

/// The greatest word of the clock that an instruction waits for, as if it came next, with what follows.
fn plain_value(clock: &Clock<'_>, row: &Row, tails: &Tails) -> u32 {
    let mut issue = clock.slot(row.parcels).max(clock.soonest_free(row.kind));
    let mut results = 0u32;
    let mut after = tails.first;
    for write in row.writes.as_slice() {
        issue = issue.max(clock.done_of(write.reg));
        results = results.max(clock.readers_of(write.reg).saturating_add(after));
        after = tails.second;
    }
    let mut start = clock.memory_wait(row.memory);
    for register in row.reads.as_slice() {
        start = start.max(clock.done_of(*register));
    }
    let issue = issue.saturating_add(tails.issue);
    issue.max(start.saturating_add(tails.start)).max(results)
}

/// The greatest of these values of what remains, and the least number that has it; 0 if nothing remains.
pub(crate) fn plain_bound(clock: &Clock<'_>, tails: &[Tails; BLOCK_LIMIT]) -> (u32, u8) {
    let block = clock.block();
    prove!(block.count() <= BLOCK_LIMIT);
    let pushed = clock.pushed();
    let (mut most, mut leaf) = (0u32, 0u8);
    for place in 0..block.count() {
        let n = (place + 1) as u8;
        if !pushed.has(n) {
            let row = Row::of(&block.instr(place + 1), clock.profile());
            let own = tails[place];
            let value = plain_value(clock, &row, &own);
            if leaf == 0 || most < value {
                (most, leaf) = (value, n);
            }
        }
    }
    (most, leaf)
}
