//! Whether numbers are a legal beginning of an order (`is_beginning`), by one look at each pair.

ghost use Rattle.std.specs.Prelude.{◌≤◌, ◌↔◌, IsTrue, length};
ghost use Rattle.s66_model.specs.{IsFront, IsBeginning};
ghost use Rattle.s66_line.specs.{instrs_of};
ghost use Rattle.s66_time.specs.{IsLongestBeginning};

use crate::graph::dependence::Dependences;
use s66_isa::Set;
use s66_line::Block;

/// How many of the numbers are a legal beginning, from the first on: each is ready when it comes, and the next one isn't. It
/// looks at each pair of instructions once, and then at a word an instruction for each number.
pub(crate) fn beginning_length(block: &Block, numbers: &[u8]) -> usize
    ensures front { IsLongestBeginning (instrs_of block.now) numbers.now result }
    ensures few { result ≤ length (instrs_of block.now) }
{
    let dependences = Dependences::of(block);
    let mut placed = Set::empty();
    for (position, number) in numbers.iter().enumerate() {
        if !dependences.ready(&placed).has(*number) {
            return position;
        }
        placed = placed.with(*number);
    }
    numbers.len()
}

/// Whether the numbers, which count from 1, are the front of a legal order. Each pair of instructions is looked at once, and
/// then a word an instruction for each number.
pub fn is_beginning(block: &Block, numbers: &[u8]) -> bool
    ensures front { IsTrue result ↔ IsFront (instrs_of block.now) numbers.now }
    ensures beginning { IsTrue result ↔ IsBeginning (instrs_of block.now) numbers.now }
{
    beginning_length(block, numbers) == numbers.len()
}
