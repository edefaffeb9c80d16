//! What the instructions that are placed leave for the next, in a few words. All words are minor cycles.

ghost use Rattle.std.specs.Prelude.{ℕ, ◌≡◌, ◌+◌, ◌≤◌, ◌<◌, ◌↔◌, IsTrue, ◌++◌, [], ◌∷◌, List, if◌then◌else◌, get_or, max, nat_lt};
ghost use Rattle.s66_isa.specs.{greatest, same_reg, has_reg, word_of};
ghost use Rattle.s66_isa.specs.Table.{Reg as RegOf};
ghost use Rattle.s66_model.specs.{Point, ResultAt};
ghost use Rattle.s66_checker.specs.{AreFree, AreWords};

use crate::replay::point::KeptPoint;
use crate::replay::result::KeptResult;
use s66_isa::{KIND_COUNT, Memory, REGISTER_COUNT, Reg, kind_number};

/// A word for each register, by its index.
#[derive(Clone, Copy, Drop)]
pub(crate) struct RegisterWords {
    pub(crate) words: [u32; REGISTER_COUNT],
}

impl RegisterWords {
    /// The word of a register.
    pub(crate) fn at(&self, register: Reg) -> u32
        ensures { result ≡ word_of self.now.words register }
    {
        self.words[register.index() as usize]
    }

    /// Raises the word of a register to a time.
    fn raise(&mut self, register: Reg, time: u32)
        ensures { (r : RegOf) → r.digit ≤ 7 → word_of self.new.words r ≡
            max (word_of self.old.words r) (if same_reg register r then time else 0) }
    {
        let place = register.index() as usize;
        self.words[place] = self.words[place].max(time);
    }

    /// Raises the words of the registers of results to the times at which they are done.
    fn raise_results(&mut self, results: &[KeptResult])
        ensures { (r : RegOf) → r.digit ≤ 7 → word_of self.new.words r ≡
            max (word_of self.old.words r)
            (greatest (λ (d : ResultAt). if same_reg d.reg r then d.time else 0) results.now) }
    {
        for done in results {
            self.raise(done.reg, done.time);
        }
    }

    /// Raises the words of registers to a time.
    fn raise_all(&mut self, registers: &[Reg], time: u32)
        ensures { (r : RegOf) → r.digit ≤ 7 → word_of self.new.words r ≡
            max (word_of self.old.words r) (if has_reg r registers.now then time else 0) }
    {
        for register in registers {
            self.raise(*register, time);
        }
    }

    /// Whether each word is no later than the other's of that register, or than the clamp.
    pub(crate) fn are_no_later(&self, other: &RegisterWords, clamp: u32) -> bool
        ensures { IsTrue result ↔ ((i : ℕ) → i < REGISTER_COUNT →
            get_or self.now.words i 0 ≤ max (get_or other.now.words i 0) clamp) }
    {
        for index in 0..REGISTER_COUNT {
            if self.words[index] > other.words[index].max(clamp) {
                return false;
            }
        }
        true
    }
}

/// When the units of a kind are free.
#[derive(Clone, Copy, Drop)]
pub(crate) struct FreeTimes {
    /// When all are.
    pub(crate) all: u32,
    /// When all but one are.
    pub(crate) all_but_one: u32,
}

impl FreeTimes {
    /// The same, if one more instruction holds a unit until then.
    fn with(&self, free: u32) -> FreeTimes
        ensures { (busy : ℕ → ℕ) → AreFree busy self.now →
            AreFree (λ t. busy t + (if nat_lt t free then 1 else 0)) result }
    {
        FreeTimes {
            all: self.all.max(free),
            all_but_one: self.all_but_one.max(self.all.min(free)),
        }
    }
}

/// The words of what is placed.
#[derive(Clone, Copy, Drop)]
pub(crate) struct Words {
    /// When the last result in each register is done.
    pub(crate) done: RegisterWords,
    /// One minor cycle after the last start of each register's readers.
    pub(crate) read: RegisterWords,
    /// By the number of the kind.
    pub(crate) free: [FreeTimes; KIND_COUNT],
    /// From when on a load may start.
    pub(crate) load: u32,
    /// From when on a store may start.
    pub(crate) store: u32,
    /// When all units are free and all results are done.
    pub(crate) total: u32,
}

impl Default for Words {
    fn default() -> Words {
        Words::new()
    }
}

impl Words {
    /// Before the first instruction.
    pub(crate) fn new() -> Words
        ensures { AreWords [] result }
    {
        Words {
            done: RegisterWords {
                words: [0; REGISTER_COUNT],
            },
            read: RegisterWords {
                words: [0; REGISTER_COUNT],
            },
            free: [FreeTimes {
                all: 0,
                all_but_one: 0,
            }; KIND_COUNT],
            load: 0,
            store: 0,
            total: 0,
        }
    }

    /// Places one more instruction.
    pub(crate) fn push(&mut self, point: &KeptPoint)
        ensures { (xs : List Point) → AreWords xs self.old → AreWords (xs ++ point.now ∷ []) self.new }
    {
        self.done.raise_results(point.results());
        self.read.raise_all(point.reads(), point.after_start());
        let place = kind_number(point.kind());
        self.free[place] = self.free[place].with(point.free());
        self.load = self.load.max(point.memory_wait(Memory::Load));
        self.store = self.store.max(point.memory_wait(Memory::Store));
        self.total = self.total.max(point.end());
    }
}
