//! The beginning that the checker has reached (`Prefix`): it places a number that is ready, takes the last one off, and tells times and
//! dominance.

ghost use Rattle.std.specs.Prelude.{◌≡◌, ◌≤◌, length, map};
ghost use Rattle.s66_isa.specs.{row, BLOCK_LIMIT};

use crate::replay::dominance::is_no_later;
use crate::replay::needs::{Numbers, needs_of_all};
use crate::replay::past::Past;
use crate::replay::point::KeptPoint;
use crate::replay::timing::{next, next_point};
use arrayvec::ArrayVec;
use s66_isa::{BLOCK_LIMIT, Instr, Kind, Profile, Row, Set};
use s66_model::Rule;
use std::marker::Model;

/// The beginning of an order of a block that a checker has reached, with the times of its instructions under its profile.
#[derive(Drop)]
pub struct Prefix {
    block: ArrayVec<Instr, BLOCK_LIMIT>,
    profile: Profile,
    rows: ArrayVec<Row, BLOCK_LIMIT>,
    needs: ArrayVec<Set, BLOCK_LIMIT>,
    placed: Set,
    numbers: Numbers,
    past: Past,
}

impl Model for Prefix {
    ghost use Rattle.s66_checker.specs.Checked.{Checked};
    ghost use Rattle.s66_checker.specs.KeptPrefix.{IsPrefix};

    ghost Value = { Checked };

    ghost view = { λ p.
        record { problem = record { block = p.block.items; profile = p.profile }; numbers = p.numbers.items } };

    ghost invariant = { λ p. IsPrefix p.block.items p.profile p.rows.items p.needs.items p.placed p.numbers.items
        p.past };
}

/// The rows of a block's instructions under a profile.
fn rows_of(block: &[Instr], profile: &Profile) -> ArrayVec<Row, BLOCK_LIMIT>
    requires { length block.now ≤ BLOCK_LIMIT }
    ensures { result.items ≡ map (row profile.now) block.now }
{
    let mut rows = ArrayVec::new();
    for instr in block {
        rows.push(Row::of(instr, profile));
    }
    rows
}

impl Prefix {
    ghost use Rattle.std.specs.Prelude.{ℕ, ◌++◌, ◌<◌, ◌≢◌, ◌&&◌, [], ◌∷◌, true, false, IfSome, IfNone, IsTrue, get_or, reverse, take};
    ghost use Rattle.s66_model.specs.{copies, point_of, points_of, row_at, total_of, IsBeginning, is_remaining, is_ready, needs_met, depends};
    ghost use Rattle.s66_isa.specs.{has, numbers_in};
    ghost use Rattle.s66_moments.specs.{is_number};
    ghost use Rattle.s66_checker.specs.{AreTimed, is_beginning, is_same_set, is_earlier, dominates_by};

    /// Before the first instruction of a block, under a profile. Each pair of its instructions is looked at once.
    pub fn new(block: &[Instr], profile: &Profile) -> Prefix
        requires some { 1 ≤ length block.now }
        requires few { length block.now ≤ BLOCK_LIMIT }
        ensures { result ≡ record { problem = record { block = block.now; profile = profile.now }; numbers = [] } }
    {
        let Ok(copy) = ArrayVec::try_from(block) else {
            unreachable!()
        };
        Prefix {
            block: copy,
            profile: *profile,
            rows: rows_of(block, profile),
            needs: needs_of_all(block),
            placed: Set::empty(),
            numbers: ArrayVec::new(),
            past: Past::new(),
        }
    }

    /// Another one of the same block, before the first instruction. No pair of instructions is looked at again.
    pub fn start_again(&self) -> Prefix
        ensures { result ≡ record { problem = self.now.problem; numbers = [] } }
    {
        let Ok(block) = ArrayVec::try_from(self.block.as_slice()) else {
            unreachable!()
        };
        let Ok(needs) = ArrayVec::try_from(self.needs.as_slice()) else {
            unreachable!()
        };
        Prefix {
            block,
            profile: self.profile,
            rows: rows_of(self.block.as_slice(), &self.profile),
            needs,
            placed: Set::empty(),
            numbers: ArrayVec::new(),
            past: Past::new(),
        }
    }

    /// How many instructions the block has.
    pub fn count(&self) -> u8
        ensures value { result ≡ length self.now.problem.block }
        ensures some { 1 ≤ result }
        ensures few { result ≤ BLOCK_LIMIT }
    {
        self.block.len() as u8
    }

    /// How many units there are of a kind.
    pub fn copies(&self, kind: Kind) -> u32
        ensures value { result ≡ copies self.now.problem kind }
        ensures at_least { 1 ≤ result }
        ensures at_most { result ≤ 100 }
    {
        self.profile.copies(kind)
    }

    /// Whether it is a number of the block that is placed.
    pub fn has(&self, n: u8) -> bool
        ensures { result ≡ (is_number self.now.problem n && has n self.now.numbers) }
    {
        1 <= n && n as usize <= self.block.len() && self.placed.has(n)
    }

    /// The numbers in order, from 1.
    pub fn numbers(&self) -> &[u8]
        ensures value { result.now ≡ self.now.numbers }
        ensures begins { IsBeginning self.now.problem.block self.now.numbers }
    {
        self.numbers.as_slice()
    }

    /// The points of its numbers, with the oldest first.
    pub fn points(&self) -> &[KeptPoint]
        ensures value { reverse result.now ≡ points_of self.now.problem self.now.numbers }
        ensures timed { AreTimed result.now }
        ensures begins { IsBeginning self.now.problem.block self.now.numbers }
    {
        self.past.points()
    }

    /// The same points, with what they leave.
    pub(crate) fn past(&self) -> &Past
        ensures value { reverse result.now ≡ points_of self.now.problem self.now.numbers }
        ensures timed { AreTimed result.now }
    {
        &self.past
    }

    /// The row of the instruction of a number.
    pub fn row(&self, n: u8) -> &Row
        requires { (1 ≤ n) × (n ≤ length self.now.problem.block) }
        ensures { result.now ≡ row_at self.now.problem n }
    {
        &self.rows.as_slice()[n as usize - 1]
    }

    /// Whether it is a number of the block that isn't placed.
    pub fn is_remaining(&self, n: u8) -> bool
        ensures { result ≡ is_remaining self.now.problem.block self.now.numbers n }
    {
        1 <= n && n as usize <= self.block.len() && !self.placed.has(n)
    }

    /// The numbers that the instruction of a number depends on.
    fn needs(&self, n: u8) -> Set
        requires { (1 ≤ n) × (n ≤ length self.now.problem.block) }
        ensures { (m : ℕ) → 1 ≤ m → m ≤ BLOCK_LIMIT → has m (numbers_in result) ≡ depends self.now.problem.block m n }
    {
        self.needs[n as usize - 1]
    }

    /// Whether all that the instruction of a number depends on is placed.
    fn needs_met(&self, n: u8) -> bool
        requires { (1 ≤ n) × (n ≤ length self.now.problem.block) }
        ensures { result ≡ needs_met self.now.problem.block self.now.numbers n n }
    {
        self.needs(n).is_within(&self.placed)
    }

    /// Whether a number may come next: it remains, and all that it depends on is placed.
    pub fn is_ready(&self, n: u8) -> bool
        ensures { result ≡ is_ready self.now.problem.block self.now.numbers n }
    {
        self.is_remaining(n) && self.needs_met(n)
    }

    /// The instruction of a number with its times as if it came next. The time for it grows with what is placed only if its kind
    /// has three or more copies.
    pub fn next_point(&self, n: u8) -> KeptPoint
        requires { (1 ≤ n) × (n ≤ length self.now.problem.block) }
        ensures value { result ≡ point_of self.now.problem (points_of self.now.problem self.now.numbers) n }
        ensures few { length self.now.problem.block ≤ BLOCK_LIMIT }
    {
        next_point(&self.past, &self.profile, n, self.row(n).duplicate())
    }

    /// Places a number that is ready.
    pub fn push(&mut self, n: u8)
        requires { is_ready self.old.problem.block self.old.numbers n ≡ true }
        ensures { self.new ≡ record self.old { numbers = self.old.numbers ++ n ∷ [] } }
    {
        let point = self.next_point(n);
        self.past.push(point);
        self.numbers.push(n);
        self.placed = self.placed.with(n);
    }

    /// Takes the last number off, if there is one.
    pub fn pop(&mut self) -> Option<u8>
        ensures problem { self.new.problem ≡ self.old.problem }
        ensures some { IfSome result (λ n. self.old.numbers ≡ self.new.numbers ++ n ∷ []) }
        ensures none { IfNone result (self.old.numbers ≡ []) }
        ensures same { IfNone result (self.new ≡ self.old) }
    {
        let n = self.numbers.pop()?;
        self.past.pop();
        self.placed = self.placed.without(&Set::empty().with(n));
        Some(n)
    }

    /// When all units are free and all results are done, in minor cycles from the issue of the first instruction.
    pub fn total(&self) -> u32
        ensures { result ≡ total_of self.now.problem self.now.numbers }
    {
        self.past.total()
    }

    /// How many numbers, from the first on, it has in common with others.
    fn shared_with(&self, numbers: &[u8]) -> usize
        ensures own { result ≤ length self.now.numbers }
        ensures others { result ≤ length numbers.now }
        ensures same { take result self.now.numbers ≡ take result numbers.now }
        ensures most { result < length self.now.numbers → result < length numbers.now →
            get_or self.now.numbers result 0 ≢ get_or numbers.now result 0 }
        ensures begins { IsBeginning self.now.problem.block (take result numbers.now) }
    {
        let own = self.numbers.as_slice();
        let count = own.len().min(numbers.len());
        let mut shared = 0;
        while shared < count && own[shared] == numbers[shared] {
            shared += 1;
        }
        shared
    }

    /// Goes to other numbers. Returns whether it reached their end, that is, whether they are the beginning of a legal order. If
    /// not, it stops before the first of them that isn't ready.
    ///
    /// It keeps the numbers that it has in common with them, takes the rest off, and places the others while each is ready.
    pub fn go_to(&mut self, numbers: &[u8]) -> bool
        ensures value { result ≡ is_beginning self.old.problem.block numbers.now }
        ensures problem { self.new.problem ≡ self.old.problem }
        ensures all { IsTrue result → self.new.numbers ≡ numbers.now }
        ensures some { self.new.numbers ≡ take (length self.new.numbers) numbers.now }
        ensures refused { result ≡ false →
            is_ready self.new.problem.block self.new.numbers (get_or numbers.now (length self.new.numbers) 0) ≡ false }
    {
        let shared = self.shared_with(numbers);
        while self.numbers.len() > shared {
            self.pop();
        }
        for n in &numbers[shared..] {
            if !self.is_ready(*n) {
                return false;
            }
            self.push(*n);
        }
        true
    }

    /// Whether other numbers are smaller at the first place where they differ from its own.
    pub fn is_after(&self, numbers: &[u8]) -> bool
        ensures { result ≡ is_earlier numbers.now self.now.numbers }
    {
        let shared = self.shared_with(numbers);
        let own = self.numbers.as_slice();
        if shared >= own.len() || shared >= numbers.len() {
            return false;
        }
        numbers[shared] < own[shared]
    }

    /// Whether it has the numbers of another beginning of the same block, in any order: one look at a word.
    pub fn has_set_of(&self, other: &Prefix) -> bool
        requires { self.now.problem ≡ other.now.problem }
        ensures { result ≡ is_same_set self.now.numbers other.now.numbers }
    {
        self.placed.is_same(&other.placed)
    }

    /// Whether it dominates another beginning of the same block under the same profile, by a rule.
    ///
    /// If no kind has three or more copies, the time for it is the same whatever is placed. Else each point is looked at once for
    /// each such kind, and its free time compared with the later ones of its kind before it.
    pub fn dominates(&self, at: &Prefix, rule: Rule) -> bool
        requires { self.now.problem ≡ at.now.problem }
        ensures { result ≡ dominates_by rule at.now.problem self.now.numbers at.now.numbers }
    {
        if !self.has_set_of(at) {
            return false;
        }
        match rule {
            Rule::NoneNamed => false,
            Rule::WrittenEarlier => {
                if self.total() > at.total() {
                    return false;
                }
                is_no_later(&self.past, &at.past, &self.profile, 0, 0)
            }
            Rule::ClampedStanding => {
                let now = next(at.points());
                is_no_later(&self.past, &at.past, &self.profile, now + 1, now)
            }
        }
    }
}
