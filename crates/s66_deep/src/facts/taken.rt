//! What is known of a block, and how many lines it took.
//! Lines are taken only if `Facts` takes them.

ghost use Rattle.std.specs.Prelude.{◌≤◌, ◌<◌, ◌+◌, IsTrue, not, length};
ghost use Rattle.s66_facts.specs.{FACT_LIMIT, known_of};

use crate::facts::ground::Ground;
use s66_facts::{FACT_LIMIT, Facts};
use s66_isa::BLOCK_LIMIT;
use s66_moments::FactLine;

/// What is known, and how many lines were taken, of which some are load lines.
#[derive(Drop)]
pub(crate) struct Taken {
    facts: Facts,
    lines: usize,
    ghost room: { length (known_of facts).loads ≤ lines },
}

/// How long a path is, at most 2^32 - 1; 0 if there is none.
pub(crate) fn word(time: Option<u64>) -> u32 {
    match time {
        None => 0,
        Some(time) => time.min(u32::MAX as u64) as u32,
    }
}

/// Takes a line in if it is right, and returns whether it is.
fn take(facts: &mut Facts, bound: u32, line: &FactLine) -> bool
    requires room { length (known_of facts.old).loads < FACT_LIMIT }
    ensures one_more { length (known_of facts.new).loads ≤ length (known_of facts.old).loads + 1 }
    ensures same { IsTrue (not result) → length (known_of facts.new).loads ≤ length (known_of facts.old).loads }
{
    match line {
        FactLine::Pair(m, n) => facts.take_pair(bound, *m, *n),
        FactLine::Load(load) => facts.take_load(load),
    }
}

impl Taken {
    /// Of a block by dependence alone.
    pub(crate) fn new(ground: &Ground) -> Taken {
        Taken {
            facts: Facts::new(ground.block(), ground.profile()),
            lines: 0,
        }
    }

    /// What is known.
    pub(crate) fn facts(&self) -> &Facts {
        &self.facts
    }

    /// The number whose issue is followed by the longest path to the end, and how long that is; 0 and 0 if there is no path.
    pub(crate) fn root(&self) -> (u8, u32) {
        let tails = self.facts.tails();
        let mut longest = (0, 0);
        for position in 0..BLOCK_LIMIT {
            let time = word(tails[position].issue);
            if time > longest.1 {
                longest = ((position + 1) as u8, time);
            }
        }
        longest
    }

    /// Whether the block has both numbers, and m is known to stand before n.
    pub(crate) fn is_before(&self, m: u8, n: u8) -> bool {
        let count = self.facts.count();
        1 <= m && m <= count && 1 <= n && n <= count && self.facts.is_before(m, n)
    }

    /// Takes a line in if it is right and there is room for it, and returns whether it did.
    pub(crate) fn take(&mut self, bound: u32, line: &FactLine) -> bool {
        if self.lines >= FACT_LIMIT {
            return false;
        }
        let is_taken = take(&mut self.facts, bound, line);
        if is_taken {
            self.lines += 1;
        }
        is_taken
    }

    /// Takes in what a supposition with so many lines within shows, m before n, if it wasn't known how they stand and there is room for its
    /// lines, and returns whether it did.
    pub(crate) fn take_shown(&mut self, m: u8, n: u8, within: usize) -> bool {
        let is_full = self.lines >= FACT_LIMIT || within >= FACT_LIMIT;
        if is_full || self.lines + within + 2 > FACT_LIMIT {
            return false;
        }
        if self.is_before(m, n) || self.is_before(n, m) {
            return false;
        }
        // each pair is forced in orders that take less than 0
        let is_taken = take(&mut self.facts, 0, &FactLine::Pair(m, n));
        if is_taken {
            self.lines += within + 2;
        }
        is_taken
    }

    /// The same.
    pub(crate) fn duplicate(&self) -> Taken {
        Taken {
            facts: self.facts.duplicate(),
            lines: self.lines,
        }
    }
}
