//! The lower bounds of a block's beginnings (`Bounds`), with what they share worked out once; the floor of what a clock has placed.
//!
//! A chain is the critical path of what remains, a load the work that remains for one kind of unit, and parcels what has still to be
//! issued: the usual bounds of branch and bound for machine scheduling. The floor is the greatest of them, and its leaf says which.

use crate::cost::{Cost, costs_of};
use crate::floors::floor_of_value;
use crate::leaf::Leaf;
use crate::tables::Tables;
use crate::values::{floor_value_of, load_of, parcels_of, remaining_numbers};
use arrayvec::ArrayVec;
use s66_isa::{BLOCK_LIMIT, Kind, Profile, Set};
use s66_line::Block;
use s66_time::Clock;
use std::marker::Model;

/// What the lower bounds of all beginnings of a block have in common, worked out once.
#[derive(Drop)]
pub struct Bounds<'a> {
    block: &'a Block<'a>,
    profile: Profile,
    costs: ArrayVec<Cost, BLOCK_LIMIT>,
    tables: Tables,
}

impl<'a> Model for Bounds<'a> {
    ghost use Rattle.s66_model.specs.{Problem};
    ghost use Rattle.s66_bound.specs.InstructionCosts.{AreCosts};
    ghost use Rattle.s66_bound.specs.TableWords.{timed_by, IsTables};

    ghost Value = { Problem };

    ghost view = { λ b. timed_by b.block.now b.profile };

    ghost invariant = { λ b. AreCosts (timed_by b.block.now b.profile) b.costs.items ×
        IsTables (timed_by b.block.now b.profile) b.tables };
}

impl<'a> Bounds<'a> {
    ghost use Rattle.std.specs.Prelude.{ℕ, List, ◌≡◌, ◌<◌, ◌≤◌, ◌++◌, [], length};
    ghost use Rattle.s66_isa.specs.{BLOCK_LIMIT};
    ghost use Rattle.s66_line.specs.{instrs_of};
    ghost use Rattle.s66_model.specs.{total_of, IsLegal, load, parcels, floor, floor_value, longest_tail};
    ghost use Rattle.s66_time.specs.{problem_of};
    ghost use Rattle.s66_bound.specs.{leaf_of, value_of, rank, AreRanksLeft};

    /// Of a block under a profile, in time quadratic in the block's length.
    pub fn of(block: &'a Block<'a>, profile: &Profile) -> Bounds<'a>
        ensures { result ≡ record { block = instrs_of block.now; profile = profile.now } }
    {
        let costs = costs_of(block, profile);
        let tables = Tables::of(costs.as_slice(), profile);
        Bounds {
            block,
            profile: *profile,
            costs,
            tables,
        }
    }

    /// The time of the longest walk from a number of the block along the links to later ones, in minor cycles: in constant time.
    pub fn tail(&self, n: u8) -> u32
        requires { (1 ≤ n) × (n ≤ length self.now.block) }
        ensures { result ≡ longest_tail self.now n }
    {
        prove!(self.block.count() <= BLOCK_LIMIT);
        self.tables.longest[n as usize - 1]
    }

    /// The rank of a number of the block by its longest tail: rank 1 has the greatest. In constant time.
    pub fn rank(&self, n: u8) -> u8
        requires { (1 ≤ n) × (n ≤ length self.now.block) }
        ensures value { result ≡ rank self.now n }
        ensures range { (1 ≤ result) × (result ≤ BLOCK_LIMIT) }
    {
        self.tables.by_tail.rank(n)
    }

    /// The ranks of all numbers of the block: of what remains after the empty prefix.
    pub fn all_ranks(&self) -> Set
        ensures { AreRanksLeft self.now [] result }
    {
        self.tables.by_tail.ranks(&self.tables.all)
    }

    /// The load of a kind of unit, in minor cycles: what remains for its copies and what they still work on, after the next slot.
    pub fn load(&self, clock: &Clock<'_>, kind: Kind) -> u32
        requires same { self.now ≡ problem_of clock.now }
        ensures value { result ≡ load self.now clock.now.numbers kind }
        ensures bound { length clock.now.numbers < length self.now.block → (rest : List ℕ) →
            IsLegal self.now.block (clock.now.numbers ++ rest) →
            result ≤ total_of self.now (clock.now.numbers ++ rest) }
    {
        load_of(&self.tables, clock, kind)
    }

    /// The parcels that remain, and the least tail after them, after the next slot: in minor cycles.
    pub fn parcels(&self, clock: &Clock<'_>) -> u32
        requires same { self.now ≡ problem_of clock.now }
        requires some { length clock.now.numbers < length self.now.block }
        ensures value { result ≡ parcels self.now clock.now.numbers }
        ensures bound { (rest : List ℕ) → IsLegal self.now.block (clock.now.numbers ++ rest) →
            result ≤ total_of self.now (clock.now.numbers ++ rest) }
    {
        parcels_of(&self.tables, clock, &remaining_numbers(&self.tables, clock))
    }

    /// The greatest of the chain, the loads and the parcels, in minor cycles; the total if nothing remains. The ranks are those of what
    /// remains. The first has the longest tail, so that the chain takes one look at each late register, and none at a number.
    pub fn floor_value(&self, clock: &Clock<'_>, ranks: &Set) -> u32
        requires same { self.now ≡ problem_of clock.now }
        requires ranks { AreRanksLeft self.now clock.now.numbers ranks.now }
        ensures value { result ≡ floor_value self.now clock.now.numbers }
        ensures bound { (rest : List ℕ) → IsLegal self.now.block (clock.now.numbers ++ rest) →
            result ≤ total_of self.now (clock.now.numbers ++ rest) }
    {
        let rest = remaining_numbers(&self.tables, clock);
        if rest.count() == 0 {
            return clock.total();
        }
        floor_value_of(&self.tables, clock, &rest, ranks)
    }

    /// The floor, whose value this is: the first of the greatest bounds, or the total if nothing remains. A bound is worked out only
    /// if no earlier one has the value.
    pub fn floor_of_value(&self, clock: &Clock<'_>, value: u32) -> Leaf
        requires same { self.now ≡ problem_of clock.now }
        requires value { value ≡ floor_value self.now clock.now.numbers }
        ensures leaf { leaf_of result ≡ floor self.now clock.now.numbers }
        ensures value { value_of result ≡ value }
        ensures bound { (rest : List ℕ) → IsLegal self.now.block (clock.now.numbers ++ rest) →
            value_of result ≤ total_of self.now (clock.now.numbers ++ rest) }
    {
        let rest = remaining_numbers(&self.tables, clock);
        if rest.count() == 0 {
            return Leaf::Whole { value };
        }
        floor_of_value(self.costs.as_slice(), &self.tables, clock, &rest, value)
    }
}
