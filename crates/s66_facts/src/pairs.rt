//! A pair that is known too.
//! With it more numbers stand before others: the closure with one more arc.

ghost use Rattle.std.specs.Prelude.{ℕ, ◌≡◌, ◌≤◌, ◌<◌, ◌+◌, ◌-◌, ◌==◌, ◌||◌, ◌&&◌, length, get_or};
ghost use Rattle.s66_isa.specs.{BLOCK_LIMIT, has, numbers_in, no_set};
ghost use Rattle.s66_moments.specs.{with_pair};
ghost use Rattle.s66_facts.specs.{before_in};

use crate::closure::marks_at;
use arrayvec::ArrayVec;
use s66_isa::{BLOCK_LIMIT, Set};

/// The numbers that stand before the one at a position, if j stands before k too.
fn marks_with_pair(before: &[Set], j: u8, k: u8, position: usize) -> Set
    requires few { length before.now ≤ BLOCK_LIMIT }
    requires j { (1 ≤ j) × (j ≤ length before.now) }
    requires k { (1 ≤ k) × (k ≤ length before.now) }
    requires place { position < length before.now }
    ensures { (m : ℕ) → has m (numbers_in result) ≡
        (has m (numbers_in (get_or before.now position no_set)) || (m == j || has m (numbers_in (get_or before.now (j - 1) no_set))) &&
        (position + 1 == k || has k (numbers_in (get_or before.now position no_set)))) }
{
    let own = marks_at(before, position);
    if position + 1 == k as usize || own.has(k) {
        let earlier = marks_at(before, j as usize - 1).with(j);
        own.with_all(&earlier)
    } else {
        own
    }
}

/// The numbers that stand before each, if j stands before k too.
pub(crate) fn with_pair(before: &[Set], j: u8, k: u8) -> ArrayVec<Set, BLOCK_LIMIT>
    requires few { length before.now ≤ BLOCK_LIMIT }
    requires j { (1 ≤ j) × (j ≤ length before.now) }
    requires k { (1 ≤ k) × (k ≤ length before.now) }
    ensures count { length result.items ≡ length before.now }
    ensures pairs { before_in result.items ≡ with_pair (before_in before.now) j k }
{
    let mut all: ArrayVec<Set, BLOCK_LIMIT> = ArrayVec::new();
    for position in 0..before.len() {
        let sooner = marks_with_pair(before, j, k, position);
        all.push(sooner);
    }
    all
}

/// The numbers that have n marked.
fn turned_at(before: &[Set], n: u8) -> Set
    requires few { length before.now ≤ BLOCK_LIMIT }
    requires n { (1 ≤ n) × (n ≤ length before.now) }
    ensures { (m : ℕ) → has m (numbers_in result) ≡ before_in before.now n m }
{
    let mut all = Set::empty();
    for position in 0..before.len() {
        if marks_at(before, position).has(n) {
            all = all.with(position as u8 + 1);
        }
    }
    all
}

/// The numbers that stand after each. Each two are looked at.
pub(crate) fn turned(before: &[Set]) -> ArrayVec<Set, BLOCK_LIMIT>
    requires { length before.now ≤ BLOCK_LIMIT }
    ensures count { length result.items ≡ length before.now }
    ensures each { (n : ℕ) → 1 ≤ n → n ≤ length before.now → (m : ℕ) →
        has m (numbers_in (get_or result.items (n - 1) no_set)) ≡ before_in before.now n m }
{
    let mut all: ArrayVec<Set, BLOCK_LIMIT> = ArrayVec::new();
    for position in 0..before.len() {
        let later = turned_at(before, position as u8 + 1);
        all.push(later);
    }
    all
}
