//! How soon the instructions that remain after a prefix can look at what it leaves them.
//! Each is timed as if it came next, but not before the parcels of what stands before it.

use crate::best_first::instructions::Instructions;
use crate::best_first::waits::{READERS_AT, REFERENCES_AT, STORES_AT, UNITS_AT};
use s66_isa::{KINDS, Row, Set};
use s66_time::Clock;

/// What an instruction waits to do when it looks at a word.
#[derive(Clone, Copy)]
enum WaitsTo {
    /// To issue.
    Issue,
    /// To start.
    Start,
    /// To write its result into the register of this index.
    Result(usize),
}

/// When an instruction with this row issues after the prefix of a clock if it comes next, where a unit of its kind is free from then on.
pub(crate) fn next_issue(clock: &Clock<'_>, row: &Row, free: u32) -> u32 {
    let mut issue = clock.slot(row.parcels).max(free);
    for write in row.writes.as_slice() {
        issue = issue.max(clock.done_of(write.reg));
    }
    issue
}

/// From when on its operands are there, and memory for its reference.
pub(crate) fn operands(clock: &Clock<'_>, row: &Row) -> u32 {
    let mut time = clock.memory_wait(row.memory);
    for register in row.reads.as_slice() {
        time = time.max(clock.done_of(*register));
    }
    time
}

/// The numbers that remain after a prefix, which has this clock.
#[derive(Clone, Copy)]
pub(crate) struct Remaining<'s, 'a> {
    instructions: &'s Instructions<'a>,
    pub(crate) clock: &'s Clock<'a>,
    numbers: Set,
}

impl<'s, 'a> Remaining<'s, 'a> {
    ghost use Rattle.std.specs.Prelude.{◌<◌};
    ghost use Rattle.s66_isa.specs.{REGISTER_COUNT};
    ghost use Rattle.s66_deep.specs.{WORD_COUNT};

    /// After the prefix of a clock.
    pub(crate) fn new(
        instructions: &'s Instructions<'a>,
        clock: &'s Clock<'a>,
    ) -> Remaining<'s, 'a> {
        Remaining {
            instructions,
            clock,
            numbers: instructions.without(&clock.pushed()),
        }
    }

    /// The soonest issue of n by its turn: what remains and is known to stand before it issues first, a parcel in a minor cycle.
    fn turn(&self, n: u8) -> u32 {
        let before = self.instructions.before(n).both(&self.numbers);
        // nothing has to come before most numbers, and counting takes longer than this look
        if before == Set::empty() {
            return self.clock.next();
        }
        let second_parcels = before.both(&self.instructions.long).count();
        self.clock
            .next()
            .saturating_add(before.count())
            .saturating_add(second_parcels)
    }

    /// The soonest issue of n, which has this row: as if it came next, but not before its turn.
    fn issue(&self, n: u8, row: &Row) -> u32 {
        let free = self.clock.soonest_free(row.kind);
        self.turn(n).max(next_issue(self.clock, row, free))
    }

    /// Its soonest start.
    fn start(&self, n: u8, row: &Row) -> u32 {
        self.issue(n, row).max(operands(self.clock, row))
    }

    /// When its result in the register of an index is done at the soonest; its soonest start if it has none there.
    fn result(&self, n: u8, row: &Row, register: usize) -> u32 {
        let start = self.start(n, row);
        for write in row.writes.as_slice() {
            if write.reg.index() as usize == register {
                return start.saturating_add(write.latency);
            }
        }
        start
    }

    /// The soonest look of n; 0 if the block has no such number.
    fn moment(&self, n: u8, to: WaitsTo) -> u32 {
        let Some(row) = self.instructions.row(n) else {
            return 0;
        };
        match to {
            WaitsTo::Issue => self.issue(n, row),
            WaitsTo::Start => self.start(n, row),
            WaitsTo::Result(register) => self.result(n, row, register),
        }
    }

    /// The soonest look of any of these numbers that remains; the greatest number if none does.
    fn soonest(&self, numbers: &Set, to: WaitsTo) -> u32 {
        let mut rest = numbers.both(&self.numbers);
        let mut soonest = u32::MAX;
        while let Some(n) = rest.pop_first() {
            soonest = soonest.min(self.moment(n, to));
        }
        soonest
    }

    /// The soonest look at the last result in the register of an index.
    fn soonest_use(&self, register: usize) -> u32
        requires { register < REGISTER_COUNT }
    {
        let instructions = self.instructions;
        let written = self.soonest(&instructions.writers[register], WaitsTo::Issue);
        written.min(self.soonest(&instructions.readers[register], WaitsTo::Start))
    }

    /// The soonest moment at which a number that remains looks at the word at a place; the greatest number if none does.
    pub(crate) fn soonest_look(&self, place: usize) -> u32
        requires { place < WORD_COUNT }
    {
        let instructions = self.instructions;
        if place < STORES_AT {
            return self.soonest_use(place);
        }
        if place == STORES_AT {
            return self.soonest(&instructions.loads, WaitsTo::Start);
        }
        if place == REFERENCES_AT {
            return self.soonest(&instructions.stores, WaitsTo::Start);
        }
        if place < READERS_AT {
            let takers = instructions.takers(KINDS[(place - UNITS_AT) / 2]);
            return self.soonest(&takers, WaitsTo::Issue);
        }
        let register = place - READERS_AT;
        self.soonest(&instructions.writers[register], WaitsTo::Result(register))
    }
}
