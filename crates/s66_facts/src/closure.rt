//! Which number stands before which by dependence.
//! It is the transitive closure of the dependence graph, a word of 128 bits for each number, in one pass over the block.

ghost use Rattle.std.specs.Prelude.{ℕ, ◌≡◌, ◌+◌, ◌≤◌, ◌<◌, length, get_or};
ghost use Rattle.s66_isa.specs.{BLOCK_LIMIT, has, numbers_in, no_set};
ghost use Rattle.s66_model.specs.{share, conflict, depends};
ghost use Rattle.s66_moments.specs.{precedes};
ghost use Rattle.s66_facts.specs.{IsClosedUpTo};

use arrayvec::ArrayVec;
use s66_isa::{BLOCK_LIMIT, Instr, Reg, Set, has_register, is_memory_conflict};

/// Whether some register is in both.
fn share(registers: &[Reg], others: &[Reg]) -> bool
    ensures { result ≡ share registers.now others.now }
{
    for register in registers {
        if has_register(others, *register) {
            return true;
        }
    }
    false
}

/// Whether an instruction reads what an earlier one writes, or writes what that one reads, or both write one register, or both
/// reference memory and one of them stores.
#[tactic(auto, unfolding(s66_model::specs::Dependence::conflict))]
fn is_conflict(earlier: &Instr, later: &Instr) -> bool
    ensures { result ≡ conflict earlier.now later.now }
{
    let results = earlier.results();
    let later_results = later.results();
    share(results.as_slice(), later.reads().as_slice())
        || share(earlier.reads().as_slice(), later_results.as_slice())
        || share(results.as_slice(), later_results.as_slice())
        || is_memory_conflict(earlier.memory(), later.memory())
}

/// Whether the instruction at a position depends on the one at another; positions are from 0, and numbers from 1.
fn depends(block: &[Instr], earlier: usize, position: usize) -> bool
    requires earlier { earlier < length block.now }
    requires within { position < length block.now }
    ensures { result ≡ depends block.now (earlier + 1) (position + 1) }
{
    earlier < position && is_conflict(&block[earlier], &block[position])
}

/// Those at a position.
pub(crate) fn marks_at(marks: &[Set], position: usize) -> Set
    requires { position < length marks.now }
    ensures { result ≡ get_or marks.now position no_set }
{
    marks[position]
}

/// The numbers that stand before the one at a position: those on which it depends, and what stands before these.
fn before_at(block: &[Instr], before: &[Set], position: usize) -> Set
    requires few { length block.now ≤ BLOCK_LIMIT }
    requires place { position < length block.now }
    requires count { length before.now ≡ position }
    requires closed { IsClosedUpTo block.now before.now position }
    ensures { (m : ℕ) → 1 ≤ m → has m (numbers_in result) ≡ precedes block.now m (position + 1) }
{
    let mut sooner = Set::empty();
    for earlier in 0..position {
        if depends(block, earlier, position) {
            let own = marks_at(before, earlier);
            let with_those = sooner.with_all(&own);
            sooner = with_those.with((earlier + 1) as u8);
        }
    }
    sooner
}

/// The numbers that stand before each.
pub(crate) fn before_each(block: &[Instr]) -> ArrayVec<Set, BLOCK_LIMIT>
    requires { length block.now ≤ BLOCK_LIMIT }
    ensures count { length result.items ≡ length block.now }
    ensures closed { IsClosedUpTo block.now result.items (length block.now) }
{
    let mut before: ArrayVec<Set, BLOCK_LIMIT> = ArrayVec::new();
    for position in 0..block.len() {
        let sooner = before_at(block, before.as_slice(), position);
        before.push(sooner);
    }
    before
}
