//! What the words of a clock are for one instruction, as if it came next, in minor cycles.

ghost use Rattle.std.specs.Prelude.{◌+◌, ◌≤◌};
ghost use Rattle.s66_time.specs.{TOTAL_LIMIT};
ghost use Rattle.s66_deep.specs.{IsSmall};

use crate::floors::tails::Tails;
use s66_isa::{Reg, Row, Write};
use s66_time::{Clock, TOTAL_LIMIT};

/// When the last results in a register are done.
pub(crate) fn done_of(clock: &Clock<'_>, register: Reg) -> u32
    ensures { result ≤ TOTAL_LIMIT }
{
    prove!(clock.total() <= TOTAL_LIMIT);
    clock.done_of(register)
}

/// When the last results in the registers are done that are written.
fn last_written(clock: &Clock<'_>, writes: &[Write]) -> u32
    ensures { result ≤ TOTAL_LIMIT }
{
    let mut last = 0u32;
    for write in writes {
        last = last.max(done_of(clock, write.reg));
    }
    last
}

/// When the last results in the registers are done that are read.
fn last_read(clock: &Clock<'_>, reads: &[Reg]) -> u32
    ensures { result ≤ TOTAL_LIMIT }
{
    let mut last = 0u32;
    for register in reads {
        last = last.max(done_of(clock, *register));
    }
    last
}

/// What the issue waits for: its slot, the registers that it writes, and a unit.
fn issue_words(clock: &Clock<'_>, row: &Row) -> u32
    ensures { result ≤ TOTAL_LIMIT + 1 }
{
    let written = last_written(clock, row.writes.as_slice());
    let free = clock.soonest_free(row.kind);
    clock.slot(row.parcels).max(written.max(free))
}

/// What the start waits for: the registers that it reads, and memory.
fn start_words(clock: &Clock<'_>, row: &Row) -> u32
    ensures { result ≤ TOTAL_LIMIT }
{
    last_read(clock, row.reads.as_slice()).max(clock.memory_wait(row.memory))
}

/// The greatest of what the results wait for, two at most, each with what follows it.
fn result_words(clock: &Clock<'_>, writes: &[Write], tails: &Tails) -> u32
    requires { IsSmall tails.now }
{
    if writes.is_empty() {
        return 0;
    }
    let first = writes[0];
    let value = clock.readers_of(first.reg) + tails.first;
    if writes.len() == 1 {
        return value;
    }
    let second = writes[1];
    value.max(clock.readers_of(second.reg) + tails.second)
}

/// The greatest of all these words of an instruction, each with what follows.
pub(crate) fn value_by(clock: &Clock<'_>, row: &Row, tails: &Tails) -> u32
    requires { IsSmall tails.now }
{
    let issue = issue_words(clock, row) + tails.issue;
    let start = start_words(clock, row) + tails.start;
    issue.max(start.max(result_words(clock, row.writes.as_slice(), tails)))
}
