//! An order that is changed step by step: one number is moved to another place, if the order stays legal and takes as long.

ghost use Rattle.std.specs.Prelude.{◌≡◌, ◌+◌, ◌<◌, ◌≤◌, IfSome, get_or, length};
ghost use Rattle.s66_isa.specs.{BLOCK_LIMIT};
ghost use Rattle.s66_node.specs.Reversed.{reversed};

use crate::near::pairs::{exchange, pairs_in_reverse};
use crate::walk::Walk;
use crate::whole_order::copy_of;
use arrayvec::ArrayVec;
use s66_isa::BLOCK_LIMIT;

/// How often a changed order is timed at most.
const TRIES_LIMIT: u32 = 2_000;

/// An order of a block, and what it takes. Others are timed by a walk of the block, which may be anywhere.
#[derive(Drop)]
pub(crate) struct Draft {
    pub(crate) numbers: ArrayVec<u8, BLOCK_LIMIT>,
    /// How many pairs of the numbers stand in reverse.
    pub(crate) pairs: u32,
    /// In minor cycles.
    total: u32,
    /// How often others are timed still, at most.
    tries: u32,
    ghost counted: { pairs ≡ reversed numbers.items },
}

/// What a list of numbers is.
#[derive(Clone, Copy)]
enum Tried {
    Illegal,
    OtherTime,
    AsFast,
}

impl Draft {
    pub(crate) fn new(numbers: &[u8], total: u32) -> Draft
        requires { length numbers.now ≤ BLOCK_LIMIT }
        ensures { result.numbers.items ≡ numbers.now }
    {
        Draft {
            numbers: copy_of(numbers),
            pairs: pairs_in_reverse(numbers),
            total,
            tries: TRIES_LIMIT,
        }
    }

    fn tried(&mut self, walk: &mut Walk, numbers: &[u8]) -> Tried
        ensures problem { walk.new.problem ≡ walk.old.problem }
        ensures same { self.new.numbers ≡ self.old.numbers }
    {
        self.tries = self.tries.saturating_sub(1);
        if !walk.try_go_to(numbers) {
            return Tried::Illegal;
        }
        if walk.floor_value() == self.total {
            Tried::AsFast
        } else {
            Tried::OtherTime
        }
    }

    /// Takes these numbers, which have so many pairs in reverse, if they have fewer and are a legal order that is as fast. False if
    /// they are seen to be in no legal order.
    fn take(&mut self, walk: &mut Walk, numbers: &[u8], pairs: u32) -> bool
        requires length { length numbers.now ≡ length self.old.numbers.items }
        requires few { length numbers.now ≤ BLOCK_LIMIT }
        requires counted { pairs ≡ reversed numbers.now }
        ensures problem { walk.new.problem ≡ walk.old.problem }
        ensures length { length self.new.numbers.items ≡ length self.old.numbers.items }
        ensures nearer { self.new.pairs ≤ self.old.pairs }
    {
        if self.pairs <= pairs || self.tries == 0 {
            return true;
        }
        match self.tried(walk, numbers) {
            Tried::Illegal => false,
            Tried::OtherTime => true,
            Tried::AsFast => {
                self.numbers = copy_of(numbers);
                self.pairs = pairs;
                true
            }
        }
    }

    /// Moves the number at a place towards the front, to where the fewest pairs stand in reverse.
    fn move_forward(&mut self, walk: &mut Walk, from: usize)
        requires { from < length self.old.numbers.items }
        ensures problem { walk.new.problem ≡ walk.old.problem }
        ensures length { length self.new.numbers.items ≡ length self.old.numbers.items }
        ensures nearer { self.new.pairs ≤ self.old.pairs }
    {
        let mut numbers = copy_of(self.numbers.as_slice());
        let mut pairs = self.pairs;
        for step in 0..from {
            pairs = exchange(numbers.as_mut_slice(), from - 1 - step, pairs);
            if !self.take(walk, numbers.as_slice(), pairs) {
                return;
            }
        }
    }

    /// Moves the number at a place towards the end, to where the fewest pairs stand in reverse.
    fn move_back(&mut self, walk: &mut Walk, from: usize)
        requires { from < length self.old.numbers.items }
        ensures problem { walk.new.problem ≡ walk.old.problem }
        ensures length { length self.new.numbers.items ≡ length self.old.numbers.items }
        ensures nearer { self.new.pairs ≤ self.old.pairs }
    {
        let mut numbers = copy_of(self.numbers.as_slice());
        let mut pairs = self.pairs;
        for place in from + 1..self.numbers.len() {
            pairs = exchange(numbers.as_mut_slice(), place - 1, pairs);
            if !self.take(walk, numbers.as_slice(), pairs) {
                return;
            }
        }
    }

    fn place_of(&self, number: u8) -> Option<usize>
        ensures place { IfSome result (λ place. place < length self.now.numbers.items) }
        ensures number { IfSome result (λ place. get_or self.now.numbers.items place 0 ≡ number) }
    {
        for place in 0..self.numbers.len() {
            if self.numbers[place] == number {
                return Some(place);
            }
        }
        None
    }

    /// Takes a number out and puts it where the fewest pairs stand in reverse.
    fn settle(&mut self, walk: &mut Walk, number: u8)
        ensures problem { walk.new.problem ≡ walk.old.problem }
        ensures length { length self.new.numbers.items ≡ length self.old.numbers.items }
        ensures nearer { self.new.pairs ≤ self.old.pairs }
    {
        let Some(place) = self.place_of(number) else {
            return;
        };
        let pairs = self.pairs;
        self.move_forward(walk, place);
        if self.pairs == pairs {
            self.move_back(walk, place);
        }
    }

    /// Settles each number, the lowest first.
    pub(crate) fn settle_all(&mut self, walk: &mut Walk)
        ensures problem { walk.new.problem ≡ walk.old.problem }
        ensures nearer { self.new.pairs ≤ self.old.pairs }
    {
        for index in 0..self.numbers.len() {
            self.settle(walk, (index + 1) as u8);
        }
    }
}
