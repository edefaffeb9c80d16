//! The greatest path by the words of a clock: each with the greatest of what follows, of those that remain and wait for it. All
//! values are in minor cycles.

ghost use Rattle.std.specs.Prelude.{◌+◌, ◌≤◌};
ghost use Rattle.s66_time.specs.{AreAtMost, TOTAL_LIMIT};
ghost use Rattle.s66_deep.specs.{TAIL_LIMIT, AreSmallWords, HasSmallWords};

use crate::floors::left::Left;
use crate::floors::tables::PathTables;
use crate::floors::words::done_of;
use s66_isa::{BLOCK_LIMIT, Kind, Memory, Reg, Set, kind_number};
use s66_time::{Clock, Ranking};

/// A value, or a word and what follows if that is greater, at one of those that remain of a class.
fn raised(ranking: &Ranking, left: &Set, those: &Set, word: u32, top: u32, most: u32) -> u32
    requires small { AreAtMost TAIL_LIMIT ranking.now }
    requires early { (word ≤ TOTAL_LIMIT + 1) × (top ≤ TAIL_LIMIT) }
    ensures { most ≤ result }
{
    // mostly the word is too early for this, whatever follows
    if word + top <= most {
        return most;
    }
    match ranking.greatest(&left.both(those)) {
        Some(tail) => most.max(word + tail),
        None => most,
    }
}

/// A value, or what the units of a kind make.
fn with_unit(
    tables: &PathTables,
    clock: &Clock<'_>,
    left: &Left,
    kind: Kind,
    top: u32,
    most: u32,
) -> u32
    requires words { HasSmallWords tables.now }
    requires top { top ≤ TAIL_LIMIT }
    ensures { most ≤ result }
{
    let those = &tables.takers[kind_number(kind)];
    raised(
        &tables.by_issue,
        &left.by_issue,
        those,
        clock.soonest_free(kind),
        top,
        most,
    )
}

/// A value, or what the units of any kind make.
fn with_units(tables: &PathTables, clock: &Clock<'_>, left: &Left, top: u32, most: u32) -> u32
    requires words { HasSmallWords tables.now }
    requires top { top ≤ TAIL_LIMIT }
    ensures { most ≤ result }
{
    let increment = with_unit(tables, clock, left, Kind::Increment, top, most);
    let divide = with_unit(tables, clock, left, Kind::Divide, top, increment);
    let multiply = with_unit(tables, clock, left, Kind::Multiply, top, divide);
    let long_add = with_unit(tables, clock, left, Kind::LongAdd, top, multiply);
    let add = with_unit(tables, clock, left, Kind::Add, top, long_add);
    let shift = with_unit(tables, clock, left, Kind::Shift, top, add);
    with_unit(tables, clock, left, Kind::Boolean, top, shift)
}

/// A value, or what the references to memory make.
fn with_memory(tables: &PathTables, clock: &Clock<'_>, left: &Left, top: u32, most: u32) -> u32
    requires words { HasSmallWords tables.now }
    requires top { top ≤ TAIL_LIMIT }
    ensures { most ≤ result }
{
    let stored = clock.memory_wait(Memory::Load);
    let referenced = clock.memory_wait(Memory::Store);
    let ranking = &tables.by_start;
    let most = raised(ranking, &left.by_start, &tables.loads, stored, top, most);
    raised(
        ranking,
        &left.by_start,
        &tables.stores,
        referenced,
        top,
        most,
    )
}

/// A value, or what the results in a register make.
fn with_result(
    tables: &PathTables,
    clock: &Clock<'_>,
    left: &Left,
    register: Reg,
    top: u32,
    most: u32,
) -> u32
    requires words { HasSmallWords tables.now }
    requires top { top ≤ TAIL_LIMIT }
    ensures { most ≤ result }
{
    let done = done_of(clock, register);
    let index = register.index() as usize;
    let writers = &tables.writers[index];
    let readers = &tables.readers[index];
    let most = raised(&tables.by_issue, &left.by_issue, writers, done, top, most);
    raised(&tables.by_start, &left.by_start, readers, done, top, most)
}

/// A value, or what the results in any register make. Only the registers are looked at that are so late that they can make more.
fn with_results(tables: &PathTables, clock: &Clock<'_>, left: &Left, top: u32, most: u32) -> u32
    requires words { HasSmallWords tables.now }
    requires top { top ≤ TAIL_LIMIT }
    requires most { top ≤ most }
    ensures { most ≤ result }
{
    let mut most = most;
    let mut late = clock.late(most - top);
    while let Some(register) = late.pop_first() {
        most = with_result(tables, clock, left, register, top, most);
    }
    most
}

/// A value, or a word and what follows if that is greater, at one of these numbers; what follows n is at place n - 1.
fn with_each(words: &[u32; BLOCK_LIMIT], numbers: &Set, word: u32, most: u32) -> u32
    requires small { AreSmallWords words.now }
    requires early { word ≤ TOTAL_LIMIT }
    ensures { most ≤ result }
{
    let mut rest = *numbers;
    let mut most = most;
    while let Some(number) = rest.pop_first() {
        most = most.max(word + words[number as usize - 1]);
    }
    most
}

/// A value, or what the readers of a register make: a step for each that remains and writes it.
fn with_reader(tables: &PathTables, clock: &Clock<'_>, rest: &Set, register: Reg, most: u32) -> u32
    requires words { HasSmallWords tables.now }
    ensures { most ≤ result }
{
    let word = clock.readers_of(register);
    let index = register.index() as usize;
    let firsts = rest.both(&tables.firsts[index]);
    let seconds = rest.both(&tables.seconds[index]);
    let most = with_each(&tables.first, &firsts, word, most);
    with_each(&tables.second, &seconds, word, most)
}

/// A value, or what the readers of any register make. Only the registers are looked at that are so late that they can make more.
fn with_readers(tables: &PathTables, clock: &Clock<'_>, rest: &Set, top: u32, most: u32) -> u32
    requires words { HasSmallWords tables.now }
    requires top { top ≤ TAIL_LIMIT }
    requires most { top ≤ most }
    ensures { most ≤ result }
{
    let mut most = most;
    let mut late = clock.late_readers(most - top);
    while let Some(register) = late.pop_first() {
        most = with_reader(tables, clock, rest, register, most);
    }
    most
}

/// The next slot and the greatest that follows an issue, or the slot of two parcels and the greatest that follows one of these.
fn slot_value(tables: &PathTables, clock: &Clock<'_>, left: &Left, top: u32) -> u32
    requires words { HasSmallWords tables.now }
    requires top { top ≤ TAIL_LIMIT }
    ensures { top ≤ result }
{
    let ranking = &tables.by_issue;
    let most = clock.slot(1) + top;
    raised(
        ranking,
        &left.by_issue,
        &tables.long,
        clock.slot(2),
        top,
        most,
    )
}

/// The greatest path of what remains, 0 if nothing does: a few looks for each word of the clock that is late, and none at a number.
pub(crate) fn greatest_value(tables: &PathTables, clock: &Clock<'_>, left: &Left) -> u32
    requires { HasSmallWords tables.now }
{
    let Some(top) = tables.by_issue.greatest(&left.by_issue) else {
        return 0;
    };
    let rest = tables.all.without(&clock.pushed());
    let slot = slot_value(tables, clock, left, top);
    let units = with_units(tables, clock, left, top, slot);
    let memory = with_memory(tables, clock, left, top, units);
    let results = with_results(tables, clock, left, top, memory);
    with_readers(tables, clock, &rest, top, results)
}
