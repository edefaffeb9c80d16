//! What is placed: the points, the words that they leave, and those before each point, so that a pop takes them back.

ghost use Rattle.std.specs.Prelude.{◌≡◌, ◌≤◌, ◌<◌, length};

use crate::replay::point::KeptPoint;
use crate::replay::words::Words;
use arrayvec::ArrayVec;
use s66_isa::{BLOCK_LIMIT, Kind, Memory, Reg, kind_number};
use std::marker::Model;

/// What is placed, with what it leaves for the next instruction. All times are in minor cycles.
///
/// Besides the points it stores the words that they leave, and those before each point. A push copies them and a pop takes them
/// back whole, so that neither takes longer the more is placed.
#[derive(Drop)]
pub(crate) struct Past {
    /// The oldest first.
    points: ArrayVec<KeptPoint, BLOCK_LIMIT>,
    words: Words,
    /// The words before each point.
    before: ArrayVec<Words, BLOCK_LIMIT>,
}

impl Model for Past {
    ghost use Rattle.std.specs.Prelude.{List};
    ghost use Rattle.s66_model.specs.{Point};
    ghost use Rattle.s66_checker.specs.PastWords.{ArePast};

    ghost Value = { List Point };

    ghost view = { λ p. p.points.items };

    ghost invariant = { λ p. ArePast p.points.items p.words p.before.items };
}

impl Past {
    ghost use Rattle.std.specs.Prelude.{ℕ, ◌+◌, ◌-◌, ◌++◌, [], ◌∷◌, if◌then◌else◌, take};
    ghost use Rattle.s66_isa.specs.{greatest, tally, memory_pair, BLOCK_LIMIT};
    ghost use Rattle.s66_model.specs.{Point, busy_at, done_of, readers_wait, total};
    ghost use Rattle.s66_checker.specs.{AreWords};

    /// Before the first instruction.
    pub(crate) fn new() -> Past
        ensures { result ≡ [] }
    {
        Past {
            points: ArrayVec::new(),
            words: Words::new(),
            before: ArrayVec::new(),
        }
    }

    /// The oldest first.
    pub(crate) fn points(&self) -> &[KeptPoint]
        ensures { result.now ≡ self.now }
    {
        self.points.as_slice()
    }

    /// What they leave.
    pub(crate) fn words(&self) -> &Words
        ensures { AreWords self.now result.now }
    {
        &self.words
    }

    /// Places one more instruction.
    pub(crate) fn push(&mut self, point: KeptPoint)
        requires { length self.old < BLOCK_LIMIT }
        ensures { self.new ≡ self.old ++ point ∷ [] }
    {
        self.before.push(self.words);
        self.words.push(&point);
        self.points.push(point);
    }

    /// Takes the last instruction off, if there is one.
    pub(crate) fn pop(&mut self)
        ensures { self.new ≡ take (length self.old - 1) self.old }
    {
        let Some(words) = self.before.pop() else {
            return;
        };
        self.words = words;
        self.points.pop();
    }

    /// When all units are free and all results are done.
    pub(crate) fn total(&self) -> u32
        ensures { result ≡ total self.now }
    {
        self.words.total
    }

    /// When the last result in a register is done, 0 if there is none.
    pub(crate) fn done_of(&self, register: Reg) -> u32
        ensures { result ≡ done_of self.now register }
    {
        self.words.done.at(register)
    }

    /// From when on a register may be written: when all its earlier readers have started.
    pub(crate) fn readers_wait(&self, register: Reg) -> u32
        ensures { result ≡ readers_wait self.now register }
    {
        self.words.read.at(register)
    }

    /// From when on a reference to memory of this kind may start.
    pub(crate) fn memory_wait(&self, memory: Memory) -> u32
        ensures { result ≡
            greatest (λ (p : Point). if memory_pair p.row.memory memory then p.start + 1 else 0) self.now }
    {
        match memory {
            Memory::None => 0,
            Memory::Load => self.words.load,
            Memory::Store => self.words.store,
        }
    }

    /// The first time, at least this one, at which a unit of the kind is free, if there are this many copies of it.
    ///
    /// For one copy or two it reads a word. For more it counts the busy units at this time, and if none is free then, at each
    /// step of a bisection. That is at most 15 counts of the points, since no total reaches 2^14 minor cycles.
    pub(crate) fn first_free(&self, kind: Kind, copies: u32, from: u32) -> u32
        requires { 1 ≤ copies }
        ensures late { from ≤ result }
        ensures free { tally (busy_at kind result) self.now < copies }
        ensures least { (u : ℕ) → from ≤ u → tally (busy_at kind u) self.now < copies → result ≤ u }
    {
        let free = self.words.free[kind_number(kind)];
        if copies == 1 {
            return from.max(free.all);
        }
        let by = from.max(free.all_but_one);
        if copies == 2 {
            return by;
        }
        if self.busy_count(kind, from) < copies {
            return from;
        }
        self.first_free_by(kind, copies, from, by)
    }

    /// The same by bisection, if a unit is free at the later time `by`: from when on one is free, one stays free.
    fn first_free_by(&self, kind: Kind, copies: u32, from: u32, by: u32) -> u32
        requires order { from ≤ by }
        requires by { tally (busy_at kind by) self.now < copies }
        ensures late { from ≤ result }
        ensures free { tally (busy_at kind result) self.now < copies }
        ensures least { (u : ℕ) → from ≤ u → tally (busy_at kind u) self.now < copies → result ≤ u }
    {
        let mut low = from;
        let mut high = by;
        while low < high {
            let middle = low + (high - low) / 2;
            if self.busy_count(kind, middle) < copies {
                high = middle;
            } else {
                low = middle + 1;
            }
        }
        low
    }

    /// How many units of the kind are busy at a time, by a look at each point.
    fn busy_count(&self, kind: Kind, time: u32) -> u32
        ensures { result ≡ tally (busy_at kind time) self.now }
    {
        let mut count = 0;
        for point in self.points.as_slice() {
            if point.is_busy(kind, time) {
                count += 1;
            }
        }
        count
    }
}
