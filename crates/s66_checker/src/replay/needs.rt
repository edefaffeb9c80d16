//! What each instruction of a block depends on, tested pair by pair.

ghost use Rattle.std.specs.Prelude.{ℕ, ◌≡◌, ◌+◌, ◌≤◌, ◌<◌, length};
ghost use Rattle.s66_isa.specs.{BLOCK_LIMIT, has, numbers_in, reads_of, results_of, memory_of};
ghost use Rattle.s66_isa.specs.Table.{Instr};
ghost use Rattle.s66_model.specs.{share, depends, conflict};
ghost use Rattle.s66_checker.specs.{AreNeeds};

use arrayvec::ArrayVec;
use s66_isa::{BLOCK_LIMIT, Instr, Memory, Reg, Set, has_register, is_memory_conflict};
use std::marker::Model;

/// Numbers of instructions of a block, each once.
pub(crate) type Numbers = ArrayVec<u8, BLOCK_LIMIT>;

/// An instruction with what its dependences rest on, worked out once.
#[derive(Drop)]
struct Effects {
    instr: Instr,
    reads: ArrayVec<Reg, 4>,
    results: ArrayVec<Reg, 2>,
    memory: Memory,
}

impl Model for Effects {
    ghost Value = { Instr };

    ghost view = { λ e. e.instr };

    ghost invariant = { λ e. (e.reads.items ≡ reads_of e.instr) × (e.results.items ≡ results_of e.instr) ×
        (e.memory ≡ memory_of e.instr) };
}

impl Default for Effects {
    fn default() -> Effects {
        Effects {
            instr: Instr::default(),
            reads: ArrayVec::new(),
            results: ArrayVec::new(),
            memory: Memory::None,
        }
    }
}

/// The instructions of a block, with what their dependences rest on.
fn effects_of(block: &[Instr]) -> ArrayVec<Effects, BLOCK_LIMIT>
    requires { length block.now ≤ BLOCK_LIMIT }
    ensures { result.items ≡ block.now }
{
    let mut effects = ArrayVec::new();
    for instr in block {
        effects.push(Effects {
            instr: *instr,
            reads: instr.reads(),
            results: instr.results(),
            memory: instr.memory(),
        });
    }
    effects
}

/// Whether some register is in both.
fn share(registers: &[Reg], others: &[Reg]) -> bool
    ensures { result ≡ share registers.now others.now }
{
    for register in registers {
        if has_register(others, *register) {
            return true;
        }
    }
    false
}

impl Effects {
    /// Whether a later instruction reads what this one writes, or writes what this one reads, or both write one register, or both
    /// reference memory and one of them stores.
    #[tactic(auto, unfolding(s66_model::specs::Dependence::conflict))]
    fn is_conflict(&self, later: &Effects) -> bool
        ensures { result ≡ conflict self.now later.now }
    {
        share(self.results.as_slice(), later.reads.as_slice())
            || share(self.reads.as_slice(), later.results.as_slice())
            || share(self.results.as_slice(), later.results.as_slice())
            || is_memory_conflict(self.memory, later.memory)
    }
}

/// Whether the instruction at a position depends on the one at another; positions are from 0, and numbers from 1.
fn depends(block: &[Effects], earlier: usize, position: usize) -> bool
    requires earlier { earlier < length block.now }
    requires within { position < length block.now }
    ensures { result ≡ depends block.now (earlier + 1) (position + 1) }
{
    earlier < position && block[earlier].is_conflict(&block[position])
}

/// The numbers that the instruction at a position depends on.
fn needs(block: &[Effects], position: usize) -> Set
    requires few { length block.now ≤ BLOCK_LIMIT }
    requires within { position < length block.now }
    ensures { (m : ℕ) → 1 ≤ m → m ≤ BLOCK_LIMIT → has m (numbers_in result) ≡ depends block.now m (position + 1) }
{
    let mut needs = Set::empty();
    for earlier in 0..block.len() {
        if depends(block, earlier, position) {
            needs = needs.with((earlier + 1) as u8);
        }
    }
    needs
}

/// What each instruction of the block depends on.
pub(crate) fn needs_of_all(block: &[Instr]) -> ArrayVec<Set, BLOCK_LIMIT>
    requires { length block.now ≤ BLOCK_LIMIT }
    ensures { AreNeeds block.now result.items }
{
    let effects = effects_of(block);
    let mut needs_of_all = ArrayVec::new();
    for position in 0..block.len() {
        needs_of_all.push(needs(effects.as_slice(), position));
    }
    needs_of_all
}
