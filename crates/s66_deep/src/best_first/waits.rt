//! What a prefix's clock holds for the instructions that remain, as words in fixed places.
//! They are 64 words of 16 bits, of registers, readers, memory and units, which are compared eight at a time.

ghost use Rattle.std.specs.Prelude.{◌+◌, ◌<◌};
ghost use Rattle.s66_deep.specs.{WORD_COUNT};

use s66_isa::{KIND_COUNT, KINDS, Kind, Memory, REGISTER_COUNT, Reg, kind_number};
use s66_time::Clock;

/// The place of the word for which loads wait; before it is one of results for each register.
pub(crate) const STORES_AT: usize = REGISTER_COUNT;

/// The place of the word for which stores wait.
pub(crate) const REFERENCES_AT: usize = STORES_AT + 1;

/// Where the words of units begin, two for each kind.
pub(crate) const UNITS_AT: usize = REFERENCES_AT + 1;

/// Where the words of readers begin, one for each register. They seldom decide, so they come last.
pub(crate) const READERS_AT: usize = UNITS_AT + 2 * KIND_COUNT;

/// How many words there are.
pub(crate) const WORD_COUNT: usize = READERS_AT + REGISTER_COUNT;

/// Minor cycles for which instructions wait: for each register when its last result is done, and one after the last start of its readers;
/// one after the last start of a store and of any reference to memory; and of each kind from when on all units are free, and one is.
#[derive(Clone, Copy)]
pub(crate) struct Waits {
    pub(crate) words: [u16; WORD_COUNT],
}

/// A minor cycle as a word.
pub(crate) fn word(time: u32) -> u16 {
    u16::try_from(time).unwrap_or(u16::MAX)
}

/// The place of the word from when on all units of a kind are free.
pub(crate) fn all_free_at(kind: Kind) -> usize
    ensures { result + 1 < WORD_COUNT }
{
    UNITS_AT + 2 * kind_number(kind)
}

/// The place of the word from when on one is.
pub(crate) fn one_free_at(kind: Kind) -> usize
    ensures { result < WORD_COUNT }
{
    all_free_at(kind) + 1
}

/// From when on all units of a kind are free, where one is from `soonest` on, which is no sooner than the next slot. Of more than two
/// units it is a time by which they are.
fn all_free(clock: &Clock<'_>, kind: Kind, soonest: u32) -> u32 {
    let copies = clock.profile().copies(kind);
    if copies == 1 {
        return soonest;
    }
    let next = clock.next();
    // each of the others works as long at least
    let others = soonest.saturating_sub(next).saturating_mul(copies - 1);
    next.saturating_add(clock.busy(kind).saturating_sub(others))
}

impl Waits {
    /// Of a clock.
    pub(crate) fn of(clock: &Clock<'_>) -> Waits {
        let mut waits = Waits {
            words: [0; WORD_COUNT],
        };
        waits.put_registers(clock);
        waits.words[STORES_AT] = word(clock.memory_wait(Memory::Load));
        waits.words[REFERENCES_AT] = word(clock.memory_wait(Memory::Store));
        waits.put_units(clock);
        waits
    }

    /// Writes the words of registers.
    fn put_registers(&mut self, clock: &Clock<'_>) {
        for index in 0..REGISTER_COUNT {
            let register = Reg::of_index(index as u8);
            self.words[index] = word(clock.done_of(register));
            self.words[READERS_AT + index] = word(clock.readers_of(register));
        }
    }

    /// Writes the words of units.
    fn put_units(&mut self, clock: &Clock<'_>) {
        for kind in KINDS {
            let soonest = clock.soonest_free(kind).max(clock.next());
            self.words[one_free_at(kind)] = word(soonest);
            self.words[all_free_at(kind)] = word(all_free(clock, kind, soonest));
        }
    }
}
