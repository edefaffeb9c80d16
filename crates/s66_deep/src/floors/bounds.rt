//! The greatest path of what remains after a beginning (`PathBounds`), worked out anew or by ranks as a walk keeps them, and the number
//! that attains it.
//!
//! For each word of a clock, as when a register is done, the path goes on from the instruction that waits for it and has most left to
//! the end; the greatest of these is a lower bound. It is the critical path through all stages of what remains, by a network that fact
//! lines make sharper.

ghost use Rattle.std.specs.Prelude.{◌≡◌, ◌≤◌, length};
ghost use Rattle.s66_line.specs.{instrs_of};

use crate::floors::left::Left;
use crate::floors::tables::PathTables;
use crate::floors::tails::{Tails, cut_all};
use crate::floors::values::greatest_value;
use crate::floors::words::value_by;
use s66_isa::{BLOCK_LIMIT, Profile, Row, Set};
use s66_line::Block;
use s66_time::{Clock, rows_of};
use std::marker::Model;

/// What the greatest paths after all beginnings of a block have in common, worked out once from what follows each moment. Contracts
/// see how many instructions the block has.
#[derive(Drop)]
pub struct PathBounds<'a> {
    block: &'a Block<'a>,
    profile: Profile,
    tables: PathTables,
}

impl<'a> Model for PathBounds<'a> {
    ghost use Rattle.std.specs.Prelude.{ℕ, length};
    ghost use Rattle.s66_line.specs.{instrs_of};
    ghost use Rattle.s66_deep.specs.FollowingWords.{HasSmallWords, HasRanks};

    ghost Value = { ℕ };

    ghost view = { λ p. length (instrs_of p.block.now) };

    ghost invariant = { λ p. HasSmallWords p.tables × HasRanks (length (instrs_of p.block.now)) p.tables };
}

impl<'a> PathBounds<'a> {
    /// Of a block under a profile, by what follows the stages of each number, n at place n - 1, in some network: in time quadratic in
    /// the block's length.
    pub fn new(
        block: &'a Block<'a>,
        profile: &Profile,
        tails: &[Tails; BLOCK_LIMIT],
    ) -> PathBounds<'a>
        ensures { result ≡ length (instrs_of block.now) }
    {
        prove!(block.count() <= BLOCK_LIMIT);
        let rows = rows_of(block, profile);
        PathBounds {
            block,
            profile: *profile,
            tables: PathTables::of(rows.as_slice(), &cut_all(tails)),
        }
    }

    /// What remains after a prefix of these numbers: a step for each number that remains.
    pub fn left_after(&self, pushed: &Set) -> Left {
        let rest = self.tables.all.without(pushed);
        Left {
            by_issue: self.tables.by_issue.ranks(&rest),
            by_start: self.tables.by_start.ranks(&rest),
        }
    }

    /// Takes a number out that is pushed, in constant time.
    pub fn take_out(&self, left: &mut Left, n: u8)
        requires { (1 ≤ n) × (n ≤ self.now) }
    {
        let tables = &self.tables;
        left.by_issue = left
            .by_issue
            .without(&Set::empty().with(tables.by_issue.rank(n)));
        left.by_start = left
            .by_start
            .without(&Set::empty().with(tables.by_start.rank(n)));
    }

    /// Puts a number back that is undone, in constant time.
    pub fn put_back(&self, left: &mut Left, n: u8)
        requires { (1 ≤ n) × (n ≤ self.now) }
    {
        let tables = &self.tables;
        left.by_issue = left.by_issue.with(tables.by_issue.rank(n));
        left.by_start = left.by_start.with(tables.by_start.rank(n));
    }

    /// The greatest path of what remains, in minor cycles; 0 if nothing does. A step for each number that remains.
    pub fn floor(&self, clock: &Clock<'_>) -> u32 {
        self.floor_by_ranks(clock, &self.left_after(&clock.pushed()))
    }

    /// The same value as `floor`, for a caller that keeps what remains: a few looks for each word of the clock that is late, and one
    /// at each number that remains and writes a register whose readers are.
    pub fn floor_by_ranks(&self, clock: &Clock<'_>, left: &Left) -> u32 {
        greatest_value(&self.tables, clock, left)
    }

    /// The greatest word of the clock that an instruction waits for, as if it came next, with what follows.
    fn value(&self, clock: &Clock<'_>, n: u8) -> u32
        requires { (1 ≤ n) × (n ≤ self.now) }
    {
        let row = Row::of(&self.block.instr(n as usize), &self.profile);
        let tails = self.tables.tails[n as usize - 1];
        value_by(clock, &row, &tails)
    }

    /// The least number that remains with the greatest path: its words, and what follows, make the floor. 0 if nothing remains. A look
    /// at each number.
    pub fn leaf(&self, clock: &Clock<'_>) -> u8 {
        let pushed = clock.pushed();
        let mut leaf = 0;
        let mut most = 0;
        for place in 0..self.block.count() {
            let n = (place + 1) as u8;
            if !pushed.has(n) {
                let value = self.value(clock, n);
                if leaf == 0 || most < value {
                    leaf = n;
                    most = value;
                }
            }
        }
        leaf
    }
}
