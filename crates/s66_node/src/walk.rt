//! A walk over the beginnings of a block's legal orders (`Walk`): it pushes and undoes a number, and knows the prefix's times, its
//! floor and what is ready. Every search steps by it.

ghost use Rattle.std.specs.Prelude.{ℕ, ◌≡◌, ◌≢◌, ◌≤◌, ◌<◌, length, take, get_or};

use arrayvec::ArrayVec;
use s66_bound::{Bounds, Leaf};
use s66_isa::{BLOCK_LIMIT, Profile, Reg, Set};
use s66_line::Block;
use s66_time::{Clock, Mark, Openings};
use std::marker::Model;

/// How many numbers two lists have in common from the first on.
pub(crate) fn common_length(left: &[u8], right: &[u8]) -> usize
    ensures few { (result ≤ length left.now) × (result ≤ length right.now) }
    ensures common { take result left.now ≡ take result right.now }
    ensures longest { (d : ℕ) → result < length left.now → result < length right.now →
        get_or left.now result d ≢ get_or right.now result d }
{
    let shorter = left.len().min(right.len());
    for position in 0..shorter {
        if left[position] != right[position] {
            return position;
        }
    }
    shorter
}

/// A front of a walk's prefix, with what is ready after it.
#[derive(Clone, Copy)]
struct ReadyFront {
    /// How many numbers it has.
    count: usize,
    /// The set of them.
    placed: Set,
    /// The numbers that are ready after them.
    ready: Set,
}

/// A walk over the beginnings of a block's legal orders. It is at a prefix, which grows and shrinks by a number at its end, and
/// it has the prefix's floor and what is ready after it.
#[derive(Drop)]
pub struct Walk<'a> {
    pub(crate) clock: Clock<'a>,
    bounds: Bounds<'a>,
    openings: Openings,
    numbers: ArrayVec<u8, BLOCK_LIMIT>,
    /// The ranks of the numbers that remain.
    ranks: Set,
    /// A front of the prefix, or all of it. A push leaves it where it is, and `ready` brings it forward: most pushes are undone
    /// before what is ready is needed.
    front: ReadyFront,
}

impl<'a> Model for Walk<'a> {
    ghost use Rattle.s66_time.specs.{problem_of};
    ghost use Rattle.s66_node.specs.Walked.{Walked, IsWalked};

    ghost Value = { Walked };

    ghost view = { λ w. record { problem = problem_of w.clock; numbers = w.clock.numbers } };

    ghost invariant = { λ w. IsWalked w.clock w.bounds w.openings w.numbers.items w.ranks w.front };
}

impl<'a> Walk<'a> {
    ghost use Rattle.std.specs.Prelude.{◌≡◌, ◌<◌, ◌≤◌, ◌↔◌, ◌⊎◌, ◌++◌, [], ◌∷◌, true, IsTrue, length, take};
    ghost use Rattle.s66_line.specs.{instrs_of};
    ghost use Rattle.s66_isa.specs.{BLOCK_LIMIT, has, numbers_in};
    ghost use Rattle.s66_time.specs.{IsMarkOf, problem_of};
    ghost use Rattle.s66_model.specs.{is_ready, ready, IsBeginning, IsComplete, IsIncomplete, floor, floor_value, IsNextReady, row_at};
    ghost use Rattle.s66_bound.specs.{leaf_of, value_of};
    ghost use Rattle.s66_node.specs.{front};

    /// At the empty prefix, in time quadratic in the block's length.
    pub fn new(block: &'a Block<'a>, profile: &Profile) -> Walk<'a>
        ensures { result ≡
            record { problem = record { block = instrs_of block.now; profile = profile.now }; numbers = [] } }
    {
        prove!(block.count() <= BLOCK_LIMIT);
        let openings = Openings::of(block);
        let placed = Set::empty();
        let ready = openings.dependences().ready(&placed);
        let bounds = Bounds::of(block, profile);
        let ranks = bounds.all_ranks();
        Walk {
            clock: Clock::new(block, profile),
            bounds,
            openings,
            numbers: ArrayVec::new(),
            ranks,
            front: ReadyFront {
                count: 0,
                placed,
                ready,
            },
        }
    }

    /// The block.
    pub fn block(&self) -> &'a Block<'a>
        ensures { instrs_of result.now ≡ self.now.problem.block }
    {
        self.clock.block()
    }

    /// The profile.
    pub fn profile(&self) -> &Profile
        ensures { result.now ≡ self.now.problem.profile }
    {
        self.clock.profile()
    }

    /// The times of the prefix.
    pub fn clock(&self) -> &Clock<'a>
        ensures problem { problem_of result.now ≡ self.now.problem }
        ensures numbers { result.now.numbers ≡ self.now.numbers }
    {
        &self.clock
    }

    /// The lower bounds of what begins with a prefix.
    pub fn bounds(&self) -> &Bounds<'a>
        ensures { result.now ≡ self.now.problem }
    {
        &self.bounds
    }

    /// Goes on with a number that is ready, in the time of a clock's push.
    #[inline(always)]
    pub fn push(&mut self, n: u8)
        requires { is_ready self.old.problem.block self.old.numbers n ≡ true }
        ensures { self.new ≡ record self.old { numbers = self.old.numbers ++ n ∷ [] } }
    {
        let rank = self.bounds.rank(n);
        self.clock.push(n);
        self.numbers.push(n);
        self.ranks = self.ranks.without(&Set::empty().with(rank));
    }

    /// Goes back by the last number, in constant time.
    #[inline(always)]
    pub fn undo(&mut self)
        requires { 0 < length self.old.numbers }
        ensures { self.new ≡ record self.old { numbers = front self.old.numbers } }
    {
        self.clock.undo();
        let Some(n) = self.numbers.pop() else {
            unreachable!()
        };
        self.ranks = self.ranks.with(self.bounds.rank(n));
        if self.numbers.len() < self.front.count {
            self.front = ReadyFront {
                count: self.numbers.len(),
                placed: self.clock.pushed(),
                ready: self.openings.ready_before(&self.front.ready, n),
            };
        }
    }

    /// Goes back to the longest front that its prefix has in common with another, and returns how long that is.
    fn go_back(&mut self, prefix: &[u8]) -> usize
        ensures within { result ≤ length prefix.now }
        ensures front { self.new ≡ record self.old { numbers = take result prefix.now } }
        ensures begins { IsBeginning self.old.problem.block (take result prefix.now) }
    {
        let common = common_length(self.numbers(), prefix);
        while common < self.numbers().len() {
            self.undo();
        }
        common
    }

    /// Goes to another prefix, back to the longest front in common and on from there: an undo or a push for each number in which
    /// the two differ.
    pub fn go_to(&mut self, prefix: &[u8])
        requires { IsBeginning self.old.problem.block prefix.now }
        ensures { self.new ≡ record self.old { numbers = prefix.now } }
    {
        let common = self.go_back(prefix);
        for position in common..prefix.len() {
            self.push(prefix[position]);
        }
    }

    /// Goes to another prefix as `go_to` does, if it is a beginning, and returns whether it is; else it stops on the way. Each
    /// push comes after a look at whether its number is ready.
    pub fn try_go_to(&mut self, prefix: &[u8]) -> bool
        ensures same { self.new.problem ≡ self.old.problem }
        ensures begins { IsTrue result ↔ IsBeginning self.old.problem.block prefix.now }
        ensures there { IsTrue result → self.new.numbers ≡ prefix.now }
    {
        let common = self.go_back(prefix);
        for position in common..prefix.len() {
            if !self.is_ready(prefix[position]) {
                return false;
            }
            self.push(prefix[position]);
        }
        true
    }

    /// The prefix.
    pub fn numbers(&self) -> &[u8]
        ensures value { result.now ≡ self.now.numbers }
        ensures begins { IsBeginning self.now.problem.block self.now.numbers }
        ensures few { length self.now.problem.block ≤ BLOCK_LIMIT }
    {
        self.numbers.as_slice()
    }

    /// How many numbers the prefix has.
    pub fn depth(&self) -> u8
        ensures { result ≡ length self.now.numbers }
    {
        self.numbers.len() as u8
    }

    /// Whether the prefix is a whole order.
    pub fn is_complete(&self) -> bool
        ensures complete { IsTrue result ↔ IsComplete self.now.problem.block self.now.numbers }
        ensures incomplete { IsTrue result ⊎ IsIncomplete self.now.problem.block self.now.numbers }
    {
        self.numbers.len() == self.clock.block().count()
    }

    /// The value of the prefix's floor, in minor cycles; the total if the prefix is a whole order. The time is that of a few looks at
    /// each kind of unit and each register that is done late; if no number of the block's least spare remains, also of one look at
    /// each that does.
    pub fn floor_value(&self) -> u32
        ensures { result ≡ floor_value self.now.problem self.now.numbers }
    {
        self.bounds.floor_value(&self.clock, &self.ranks)
    }

    /// The prefix's floor, whose value this is: a valued leaf of a tree.
    pub fn floor_of_value(&self, value: u32) -> Leaf
        requires { value ≡ floor_value self.now.problem self.now.numbers }
        ensures leaf { leaf_of result ≡ floor self.now.problem self.now.numbers }
        ensures value { value_of result ≡ value }
    {
        self.bounds.floor_of_value(&self.clock, value)
    }

    /// The numbers that are ready after the prefix. They follow from those after the front of it that the last call left: each
    /// number from there on takes one look for each instruction that depends on it directly.
    pub fn ready(&mut self) -> Set
        ensures ready { numbers_in result ≡ ready self.old.problem.block self.old.numbers }
        ensures same { self.new ≡ self.old }
    {
        let ReadyFront {
            count,
            mut placed,
            mut ready,
        } = self.front;
        for position in count..self.numbers.len() {
            let n = self.numbers[position];
            placed = placed.with(n);
            ready = self.openings.ready_after(&ready, n, &placed);
        }
        self.front = ReadyFront {
            count: self.numbers.len(),
            placed,
            ready,
        };
        ready
    }

    /// Whether a number is ready after the prefix, in constant time.
    pub fn is_ready(&self, n: u8) -> bool
        ensures { result ≡ is_ready self.now.problem.block self.now.numbers n }
    {
        if n == 0 || self.clock.block().count() < n as usize {
            return false;
        }
        let pushed = self.clock.pushed();
        if pushed.has(n) {
            return false;
        }
        self.openings.dependences().needs(n).is_within(&pushed)
    }

    /// The least number above n that is ready after the prefix: one look at a word for each number up to it.
    pub fn next_ready(&self, n: u8) -> Option<u8>
        ensures { IsNextReady self.now.problem.block self.now.numbers n result }
    {
        let count = self.clock.block().count() as u8;
        let mut number = n;
        while number < count {
            number += 1;
            if self.is_ready(number) {
                return Some(number);
            }
        }
        None
    }

    /// What decides how soon each completion of the prefix can be done.
    pub fn mark(&self) -> Mark
        ensures { IsMarkOf self.now.problem self.now.numbers result }
    {
        self.clock.mark()
    }

    /// Makes of any mark the one that `mark` returns, where it is.
    pub fn set_mark(&self, mark: &mut Mark)
        ensures { IsMarkOf self.now.problem self.now.numbers mark.new }
    {
        self.clock.set_mark(mark);
    }

    /// The set of the prefix's numbers.
    pub fn pushed(&self) -> Set
        ensures { (m : ℕ) → has m (numbers_in result) ≡ has m self.now.numbers }
    {
        self.clock.pushed()
    }

    /// The parcels of a number.
    #[tactic(auto, unfolding(s66_isa::specs::Table::row))]
    pub(crate) fn parcels(&self, n: u8) -> u32
        requires { (1 ≤ n) × (n ≤ length self.now.problem.block) }
        ensures { result ≡ (row_at self.now.problem n).parcels }
    {
        self.clock.block().instr(n as usize).parcels()
    }

    /// The registers that a number reads.
    #[tactic(auto, unfolding(s66_isa::specs::Table::row))]
    pub(crate) fn reads(&self, n: u8) -> ArrayVec<Reg, 4>
        requires { (1 ≤ n) × (n ≤ length self.now.problem.block) }
        ensures { result.items ≡ (row_at self.now.problem n).reads }
    {
        self.clock.block().instr(n as usize).reads()
    }
}
