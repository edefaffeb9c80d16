//! Which of the numbers that stand before one, or after it, decide its times: one between two numbers may hand on all that one of these
//! waits for of the other.
//!
//! It is a reduction of the network, so that longest paths look at few numbers: if k stands between m and n and writes what m hands to
//! n, then the arc from m to n says nothing that those by k don't say.

ghost use Rattle.std.specs.Prelude.{ℕ, ◌-◌, ◌≡◌, ◌≤◌, ◌⊎◌, ◌||◌, IsTrue, true, false, length, get_or};
ghost use Rattle.s66_isa.specs.{BLOCK_LIMIT, has, numbers_in, no_set};
ghost use Rattle.s66_moments.specs.{IsNumber};
ghost use Rattle.s66_facts.specs.{before_in, uses, hands_on, covers, IsCovered, AreNear};

use crate::closure::marks_at;
use crate::graph::Graph;
use crate::times::writes;
use arrayvec::ArrayVec;
use s66_isa::{BLOCK_LIMIT, Reg, Row, Set, has_register, is_memory_conflict, is_same_kind};

/// Whether an instruction writes a register or reads it.
fn uses(row: &Row, register: Reg) -> bool
    ensures { result ≡ uses row.now register }
{
    writes(row, register) || has_register(row.reads.as_slice(), register)
}

/// Whether one between two others writes each register that the first writes and the second uses.
fn hands_on(first: &Row, between: &Row, second: &Row) -> bool
    ensures { result ≡ hands_on first.now between.now second.now }
{
    for write in first.writes.as_slice() {
        if uses(second, write.reg) && !writes(between, write.reg) {
            return false;
        }
    }
    true
}

/// Whether what one of two numbers waits for of the other, it waits for of k too, which stands between them.
fn covers(graph: &Graph, m: u8, k: u8, n: u8) -> bool
    requires m { IsNumber graph.now.problem m }
    requires k { IsNumber graph.now.problem k }
    requires n { IsNumber graph.now.problem n }
    ensures { result ≡ covers graph.now.problem m k n }
{
    let (first, between, second) = (graph.row(m), graph.row(k), graph.row(n));
    hands_on(first, between, second)
        && hands_on(second, between, first)
        && (!graph.share_unit(m, n) || is_same_kind(between.kind, second.kind))
        && (!is_memory_conflict(first.memory, second.memory)
            || is_memory_conflict(first.memory, between.memory)
                && is_memory_conflict(between.memory, second.memory))
}

/// Whether one that is marked stands between m and n and does so. Of each number, `sooner` has those on m's side of it.
fn is_covered(graph: &Graph, sooner: &[Set], near: Set, m: u8, n: u8) -> bool
    requires m { IsNumber graph.now.problem m }
    requires n { IsNumber graph.now.problem n }
    requires few { length graph.now.problem.block ≤ BLOCK_LIMIT }
    requires count { length sooner.now ≡ length graph.now.problem.block }
    requires near { (k : ℕ) → has k (numbers_in near) ≡ true → IsNumber graph.now.problem k }
    ensures { IsTrue result → IsCovered graph.now.problem (before_in sooner.now) near m n }
{
    let mut rest = near;
    while let Some(k) = rest.pop_first() {
        if marks_at(sooner, k as usize - 1).has(m) && covers(graph, m, k, n) {
            return true;
        }
    }
    false
}

/// Marks m too, if it is one of these and none that is marked covers it.
fn with_one(graph: &Graph, sooner: &[Set], own: Set, near: Set, m: u8, n: u8) -> Set
    requires n { IsNumber graph.now.problem n }
    requires few { length graph.now.problem.block ≤ BLOCK_LIMIT }
    requires count { length sooner.now ≡ length graph.now.problem.block }
    requires near { (k : ℕ) → has k (numbers_in near) ≡ true → IsNumber graph.now.problem k }
    ensures old { (k : ℕ) → has k (numbers_in near) ≡ true → has k (numbers_in result) ≡ true }
    ensures new { (k : ℕ) → has k (numbers_in result) ≡ true →
        (has k (numbers_in near) || has k (numbers_in own)) ≡ true }
    ensures numbers { (k : ℕ) → has k (numbers_in result) ≡ true → IsNumber graph.now.problem k }
    ensures covered { IsNumber graph.now.problem m → has m (numbers_in own) ≡ true →
        (has m (numbers_in result) ≡ true) ⊎ IsCovered graph.now.problem (before_in sooner.now) near m n }
{
    if !graph.is_number(m) || !own.has(m) || is_covered(graph, sooner, near, m, n) {
        near
    } else {
        near.with(m)
    }
}

/// Marks more of these numbers, those next to n in the source first, until what is marked covers all of them.
fn with_near(graph: &Graph, sooner: &[Set], own: Set, near: Set, n: u8) -> Set
    requires n { IsNumber graph.now.problem n }
    requires few { length graph.now.problem.block ≤ BLOCK_LIMIT }
    requires count { length sooner.now ≡ length graph.now.problem.block }
    requires near { (k : ℕ) → has k (numbers_in near) ≡ true → IsNumber graph.now.problem k }
    requires other { has n (numbers_in own) ≡ false }
    ensures old { (k : ℕ) → has k (numbers_in near) ≡ true → has k (numbers_in result) ≡ true }
    ensures new { (k : ℕ) → has k (numbers_in result) ≡ true →
        (has k (numbers_in near) || has k (numbers_in own)) ≡ true }
    ensures numbers { (k : ℕ) → has k (numbers_in result) ≡ true → IsNumber graph.now.problem k }
    ensures covered { (m : ℕ) → IsNumber graph.now.problem m → has m (numbers_in own) ≡ true →
        (has m (numbers_in result) ≡ true) ⊎ IsCovered graph.now.problem (before_in sooner.now) result m n }
{
    let count = graph.count();
    let mut all = near;
    if own.is_within(&near) {
        return near;
    }
    for distance in 1..count {
        let one = with_one(graph, sooner, own, all, n.saturating_sub(distance), n);
        all = with_one(graph, sooner, own, one, n + distance, n);
    }
    all
}

/// Of each number those that decide its times, once these stand on one side of it; of fewer they are known. It takes some looks for each
/// that is new.
pub(crate) fn near_each(
    graph: &Graph,
    sooner: &[Set],
    old: &[Set],
    near: &[Set],
) -> ArrayVec<Set, BLOCK_LIMIT>
    requires few { length graph.now.problem.block ≤ BLOCK_LIMIT }
    requires count { length sooner.now ≡ length graph.now.problem.block }
    requires count_old { length old.now ≡ length graph.now.problem.block }
    requires apart { (n : ℕ) → IsNumber graph.now.problem n → has n (numbers_in (get_or sooner.now (n - 1) no_set)) ≡ false }
    requires more { (m n : ℕ) → before_in old.now m n ≡ true → before_in sooner.now m n ≡ true }
    requires near { AreNear graph.now.problem old.now near.now }
    ensures { AreNear graph.now.problem sooner.now result.items }
{
    let mut all: ArrayVec<Set, BLOCK_LIMIT> = ArrayVec::new();
    for position in 0..sooner.len() {
        let own = marks_at(sooner, position).without(&marks_at(old, position));
        let more = with_near(
            graph,
            sooner,
            own,
            marks_at(near, position),
            position as u8 + 1,
        );
        all.push(more);
    }
    all
}
