//! An instruction of a block, with its line and the bytes that spell it.

use s66_isa::Instr;
use std::marker::Model;

/// An instruction of a block, its line in the source, from 1, and the bytes of that line from its operation on, which
/// spell the instruction.
#[derive(Drop)]
pub struct Entry<'a> {
    pub instr: Instr,
    pub line: u32,
    pub bytes: &'a [u8],
}

impl<'a> Model for Entry<'a> {
    ghost use Rattle.std.specs.Prelude.{◌≤◌, length};
    ghost use Rattle.s66_line.specs.InstructionText.{Spells};
    ghost use Rattle.s66_line.specs.Blocks.{Entry};
    ghost use Rattle.s66_line.specs.declared.limits.TheConstants.{TEXT_LIMIT};

    ghost Value = { Entry };

    ghost view = { λ e. record { instr = e.instr; line = e.line; bytes = e.bytes.now } };

    ghost invariant = { λ e. (length e.bytes.now ≤ TEXT_LIMIT) × Spells e.bytes.now e.instr };
}
