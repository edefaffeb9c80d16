//! The dependences of a block (`Dependences`): for each instruction the set of those that must come before it, by one look at each pair
//! (`effects.rt`); and which are ready after some are placed.

ghost use Rattle.std.specs.Prelude.{◌≡◌, ◌+◌, ◌-◌, ◌≤◌, ◌<◌, List, [], length, get_or, ℕ, map};
ghost use Rattle.s66_isa.specs.Table.{Instr};
ghost use Rattle.s66_isa.specs.{instr_at, BLOCK_LIMIT, numbers_in, rising};
ghost use Rattle.s66_model.specs.{depends, needs, all_needs, ready};
ghost use Rattle.s66_line.specs.{instrs_of};
ghost use Rattle.s66_time.specs.{AreEffects, AreEffectsOf};

use crate::graph::effects::Effects;
use arrayvec::ArrayVec;
use s66_isa::{BLOCK_LIMIT, Set};
use s66_line::Block;
use std::marker::Model;

/// On which instructions each instruction of a block depends: one set an instruction.
#[derive(Drop)]
pub struct Dependences {
    needs: ArrayVec<Set, BLOCK_LIMIT>,
    /// The numbers of all instructions.
    all: Set,
}

impl Model for Dependences {
    ghost Value = { List (List ℕ) };

    ghost view = { λ d. map numbers_in d.needs.items };

    ghost invariant = { λ d. numbers_in d.all ≡ rising (length d.needs.items) 1 };
}

/// Whether instruction `b` of a block depends on `a`. It does if `a` comes before it in the source, and `b` reads or writes a
/// result of `a`, or writes an operand of it, or both reference memory and one of them stores. Numbers are from 1.
pub fn depends(block: &Block, a: u8, b: u8) -> bool
    requires first { (1 ≤ a) × (a ≤ length (instrs_of block.now)) }
    requires second { (1 ≤ b) × (b ≤ length (instrs_of block.now)) }
    ensures { result ≡ depends (instrs_of block.now) a b }
{
    a < b
        && Effects::of(&block.instr(a as usize)).is_conflict(&Effects::of(&block.instr(b as usize)))
}

/// The numbers on which the instruction after these depends; these are a block's from the first on.
fn needs(earlier: &[Effects], later: &Effects) -> Set
    requires { length earlier.now < BLOCK_LIMIT }
    ensures { (block : List Instr) → length earlier.now < length block → length block ≤ BLOCK_LIMIT →
        AreEffectsOf earlier.now block → AreEffects later.now (instr_at block (length earlier.now + 1)) →
        numbers_in result ≡ needs block (length earlier.now + 1) }
{
    let mut needs = Set::empty();
    for position in 0..earlier.len() {
        if earlier[position].is_conflict(later) {
            needs = needs.with((position + 1) as u8);
        }
    }
    needs
}

impl Dependences {
    /// Those of a block: each pair of instructions is looked at once, 8,128 at most, by three words an instruction.
    pub fn of(block: &Block) -> Dependences
        ensures { result ≡ all_needs (instrs_of block.now) }
    {
        let mut effects = ArrayVec::<Effects, BLOCK_LIMIT>::new();
        let mut needs_of_all = ArrayVec::new();
        for position in 0..block.count() {
            let later = Effects::of(&block.instr(position + 1));
            needs_of_all.push(needs(effects.as_slice(), &later));
            effects.push(later);
        }
        let all = Set::up_to(needs_of_all.len());
        Dependences {
            needs: needs_of_all,
            all,
        }
    }

    /// The numbers on which instruction `n` depends.
    pub fn needs(&self, n: u8) -> Set
        requires { (1 ≤ n) × (n ≤ length self.now) }
        ensures { numbers_in result ≡ get_or self.now (n - 1) [] }
    {
        self.needs[n as usize - 1]
    }

    /// The numbers that aren't placed and all of whose dependences are: one look at a word for each number that isn't placed.
    pub fn ready(&self, placed: &Set) -> Set
        ensures { (block : List Instr) → self.now ≡ all_needs block →
            numbers_in result ≡ ready block (numbers_in placed.now) }
    {
        let mut ready = Set::empty();
        let mut rest = self.all.without(placed);
        while let Some(n) = rest.pop_first() {
            if self.needs(n).is_within(placed) {
                ready = ready.with(n);
            }
        }
        ready
    }
}

/// The numbers of a block that aren't placed and all of whose dependences are. Each pair of instructions is looked at once. For
/// more than one call on a block, use `Dependences`, which stores what was found.
pub fn ready(block: &Block, placed: &Set) -> Set
    ensures { numbers_in result ≡ ready (instrs_of block.now) (numbers_in placed.now) }
{
    Dependences::of(block).ready(placed)
}
