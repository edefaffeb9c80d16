//! The chain that is printed: of the longest ones the first by its numbers.

ghost use Rattle.std.specs.Prelude.{ℕ, List, ◌≡◌, ◌≤◌, ◌<◌, ◌+◌, ◌&&◌, ◌==◌, ◌∷◌, not, true, length};
ghost use Rattle.s66_isa.specs.{Among, BLOCK_LIMIT, numbers_in};
ghost use Rattle.s66_model.specs.{Problem, row_at, IsBeginning, is_remaining, remaining, tail, link, is_linked, head, chain, longest_chain, longest_tail, chain_front, walk_after};
ghost use Rattle.s66_line.specs.{instrs_of};
ghost use Rattle.s66_time.specs.{problem_of, points};
ghost use Rattle.s66_bound.specs.{AreCosts, AreRemaining, IsTables};

use crate::cost::{Cost, link};
use crate::tables::Tables;
use arrayvec::ArrayVec;
use s66_isa::{BLOCK_LIMIT, Set};
use s66_time::Clock;

/// When an instruction can start at the soonest: in the next slot, or when the last register is done that it reads or writes.
fn head_of(tables: &Tables, clock: &Clock<'_>, number: u8) -> u32
    requires tables { IsTables (problem_of clock.now) tables.now }
    requires begins { IsBeginning (instrs_of clock.now.block) clock.now.numbers }
    requires number { (1 ≤ number) × (number ≤ length (instrs_of clock.now.block)) }
    ensures { result ≡ head (points clock.now) (row_at (problem_of clock.now) number) }
{
    let rank = tables.by_tail.rank(number);
    let mut head = clock.next();
    for register in tables.written.as_slice() {
        if tables.users_by_rank[register.index() as usize].has(rank) {
            head = head.max(clock.done_of(*register));
        }
    }
    head
}

/// When the last register is done that the block writes, or the next slot if that is later: no instruction waits for longer.
fn latest_head(tables: &Tables, clock: &Clock<'_>) -> u32
    requires tables { IsTables (problem_of clock.now) tables.now }
    requires begins { IsBeginning (instrs_of clock.now.block) clock.now.numbers }
    ensures { (n : ℕ) → head (points clock.now) (row_at (problem_of clock.now) n) ≤ result }
{
    let mut latest = clock.next();
    for register in tables.written.as_slice() {
        latest = latest.max(clock.done_of(*register));
    }
    latest
}

/// The lowest number that heads a greatest chain.
fn first_of_chain(tables: &Tables, clock: &Clock<'_>, rest: &Set, value: u32) -> u8
    requires tables { IsTables (problem_of clock.now) tables.now }
    requires rest { AreRemaining clock.now rest.now }
    requires some { length clock.now.numbers < length (instrs_of clock.now.block) }
    requires value { value ≡ chain (problem_of clock.now) clock.now.numbers }
    ensures { result ≡ chain_front (problem_of clock.now) clock.now.numbers }
{
    let latest = latest_head(tables, clock);
    let mut numbers = *rest;
    while let Some(number) = numbers.pop_first() {
        let longest = tables.longest[number as usize - 1];
        // most chains are too short, whatever they wait for
        if value.saturating_sub(longest) <= latest
            && head_of(tables, clock, number) + longest == value
        {
            return number;
        }
    }
    0
}

/// Whether the longest walk from one number goes on with another. It does if the tail of the one is shorter than the walk, and
/// the other, to which it has a link, keeps the walk as long.
fn goes_on(costs: &[Cost], tables: &Tables, number: u8, other: u8) -> bool
    requires numbers { (1 ≤ number) × (number ≤ length costs.now) × (1 ≤ other) × (other ≤ length costs.now) }
    requires few { length costs.now ≤ BLOCK_LIMIT }
    requires known { (b : Problem) × AreCosts b costs.now × IsTables b tables.now }
    ensures { (b : Problem) → AreCosts b costs.now → IsTables b tables.now →
        result ≡ (not (tail (row_at b number) == longest_tail b number) &&
        (is_linked b number other && link (row_at b number)
        (row_at b other) + longest_tail b other == longest_tail b number)) }
{
    let from = &costs[number as usize - 1];
    let longest = tables.longest[number as usize - 1];
    if from.tail == longest || other <= number {
        return false;
    }
    let link = link(from, &costs[other as usize - 1]);
    0 < link && link + tables.longest[other as usize - 1] == longest
}

/// A number, and those after it on its longest walk: each time the lowest with which the walk goes on. Links lead to later
/// numbers, so one pass over what remains meets them all.
fn walk_from(costs: &[Cost], tables: &Tables, rest: &Set, first: u8) -> ArrayVec<u8, BLOCK_LIMIT>
    requires few { length costs.now ≤ BLOCK_LIMIT }
    requires rest { (n : ℕ) → Among n (numbers_in rest.now) → (1 ≤ n) × (n ≤ length costs.now) }
    requires first { (1 ≤ first) × (first ≤ length costs.now) }
    requires known { (b : Problem) × AreCosts b costs.now × IsTables b tables.now }
    ensures { (b : Problem) (prefix : List ℕ) → AreCosts b costs.now → IsTables b tables.now →
        IsBeginning b.block prefix → numbers_in rest.now ≡ remaining b.block prefix →
        is_remaining b.block prefix first ≡ true → result.items ≡ first ∷ walk_after b (length b.block) first }
{
    let mut numbers = ArrayVec::new();
    numbers.push(first);
    let mut last = first;
    let mut others = *rest;
    while let Some(number) = others.pop_first() {
        if goes_on(costs, tables, last, number) {
            numbers.push(number);
            last = number;
        }
    }
    numbers
}

/// The numbers of the greatest chain, whose value this is: of equal ones the first in a dictionary.
pub(crate) fn chain_numbers(
    costs: &[Cost],
    tables: &Tables,
    clock: &Clock<'_>,
    rest: &Set,
    value: u32,
) -> ArrayVec<u8, BLOCK_LIMIT>
    requires costs { AreCosts (problem_of clock.now) costs.now }
    requires tables { IsTables (problem_of clock.now) tables.now }
    requires rest { AreRemaining clock.now rest.now }
    requires some { length clock.now.numbers < length (instrs_of clock.now.block) }
    requires value { value ≡ chain (problem_of clock.now) clock.now.numbers }
    ensures { result.items ≡ longest_chain (problem_of clock.now) clock.now.numbers }
{
    let first = first_of_chain(tables, clock, rest, value);
    walk_from(costs, tables, rest, first)
}
