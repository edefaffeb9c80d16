//! The precedence of a block's instructions: which number is known to stand before which.
//! It has sets in both directions, and an order of the numbers in which each comes after what stands before it.

ghost use Rattle.std.specs.Prelude.{◌≤◌};
ghost use Rattle.s66_isa.specs.{BLOCK_LIMIT};
ghost use Rattle.s66_moments.specs.{IsNumber};

use arrayvec::ArrayVec;
use s66_facts::Facts;
use s66_isa::{BLOCK_LIMIT, Set};

/// Which number is known to stand before which, as words. What is of number n is at n - 1.
#[derive(Drop)]
pub(crate) struct Precedence {
    /// All numbers of the block.
    all: Set,
    before: [Set; BLOCK_LIMIT],
    after: [Set; BLOCK_LIMIT],
    /// The numbers, each after all that stand before it.
    order: ArrayVec<u8, BLOCK_LIMIT>,
}

/// The set of a number; none if there is none.
pub(crate) fn set_of(sets: &[Set; BLOCK_LIMIT], n: u8) -> Set {
    if n == 0 || n as usize > BLOCK_LIMIT {
        return Set::empty();
    }
    sets[n as usize - 1]
}

/// The numbers before n.
fn before_of(facts: &Facts, n: u8) -> Set
    requires { IsNumber facts.now.problem n }
{
    let mut those = Set::empty();
    for position in 0..facts.count() {
        if facts.is_before(position + 1, n) {
            those = those.with(position + 1);
        }
    }
    those
}

/// The numbers before each.
fn before_each(facts: &Facts) -> [Set; BLOCK_LIMIT] {
    let mut before = [Set::empty(); BLOCK_LIMIT];
    for position in 0..facts.count() {
        before[position as usize] = before_of(facts, position + 1);
    }
    before
}

/// Adds a number to the sets of these.
fn add_to_each(sets: &mut [Set; BLOCK_LIMIT], those: Set, n: u8)
    requires { (1 ≤ n) × (n ≤ BLOCK_LIMIT) }
{
    let mut rest = those;
    while let Some(m) = rest.pop_first() {
        let place = m as usize - 1;
        sets[place] = sets[place].with(n);
    }
}

/// The numbers after each, by those before each, or the other way round.
pub(crate) fn turned(sets: &[Set; BLOCK_LIMIT]) -> [Set; BLOCK_LIMIT] {
    let mut others = [Set::empty(); BLOCK_LIMIT];
    for position in 0..BLOCK_LIMIT {
        add_to_each(&mut others, sets[position], (position + 1) as u8);
    }
    others
}

/// How many numbers each set has.
fn counts_of(sets: &[Set; BLOCK_LIMIT]) -> [u32; BLOCK_LIMIT] {
    let mut counts = [0; BLOCK_LIMIT];
    for position in 0..BLOCK_LIMIT {
        counts[position] = sets[position].count();
    }
    counts
}

/// Appends the numbers up to a count that have so many before them.
fn push_ranked(
    order: &mut ArrayVec<u8, BLOCK_LIMIT>,
    counts: &[u32; BLOCK_LIMIT],
    count: u8,
    rank: u8,
)
    requires { count ≤ 128 }
{
    for position in 0..count {
        if counts[position as usize] == rank as u32 && !order.is_full() {
            order.push(position + 1);
        }
    }
}

/// The numbers up to a count, each after all that stand before it: of two of which one stands before the other, this one has fewer
/// before it.
fn order_of(before: &[Set; BLOCK_LIMIT], count: u8) -> ArrayVec<u8, BLOCK_LIMIT>
    requires { count ≤ 128 }
{
    let counts = counts_of(before);
    let mut order = ArrayVec::new();
    for rank in 0..count {
        push_ranked(&mut order, &counts, count, rank);
    }
    order
}

/// The numbers that are in either set, of all numbers of a block.
pub(crate) fn joined(all: Set, one: Set, other: Set) -> Set {
    all.without(&all.without(&one).without(&other))
}

impl Precedence {
    /// By what is known of a block.
    pub(crate) fn of(facts: &Facts) -> Precedence {
        let before = before_each(facts);
        Precedence {
            all: Set::up_to(facts.count() as usize),
            before,
            after: turned(&before),
            order: order_of(&before, facts.count()),
        }
    }

    /// All numbers of the block.
    pub(crate) fn all(&self) -> Set {
        self.all
    }

    /// The numbers before n.
    pub(crate) fn before(&self, n: u8) -> Set {
        set_of(&self.before, n)
    }

    /// The numbers after n.
    pub(crate) fn after(&self, n: u8) -> Set {
        set_of(&self.after, n)
    }

    /// The numbers before each; those of n are at n - 1.
    pub(crate) fn all_before(&self) -> &[Set; BLOCK_LIMIT] {
        &self.before
    }

    /// The numbers after each.
    pub(crate) fn all_after(&self) -> &[Set; BLOCK_LIMIT] {
        &self.after
    }

    /// The numbers that stand after one and before another; from 0 they are after the origin, and to 0 before the end.
    pub(crate) fn between(&self, from: u8, to: u8) -> Set {
        let after = if from == 0 {
            self.all
        } else {
            self.after(from)
        };
        let before = if to == 0 { self.all } else { self.before(to) };
        after.both(&before)
    }

    /// The numbers, each after all that stand before it.
    pub(crate) fn order(&self) -> &[u8] {
        self.order.as_slice()
    }
}
