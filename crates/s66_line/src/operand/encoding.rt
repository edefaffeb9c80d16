//! The octal code and the digits i, j and k that an operand chooses.

ghost use Rattle.std.specs.Prelude.{◌≡◌, ◌≤◌};
ghost use Rattle.s66_isa.specs.{IsCode, instr};
ghost use Rattle.s66_isa.specs.Table.{Instr};

use s66_isa::{Instr, Op};
use std::marker::Model;

/// The octal code and the digits that an operand chooses. It is plain: that they are those of an instruction is known of the
/// operation and its operand together, and is required where they become one.
#[derive(Clone, Copy)]
pub(crate) struct Encoding {
    code: u8,
    i: u8,
    j: u8,
    k: u8,
}

impl Model for Encoding {
    ghost Value = { Instr };

    ghost view = { λ e. instr e.code e.i e.j e.k };

    ghost inverse = { λ n. record { code = n.op.code; i = n.i; j = n.j; k = n.k } };
}

impl Encoding {
    pub(crate) fn new(code: u8, i: u8, j: u8, k: u8) -> Encoding
        ensures { result ≡ instr code i j k }
    {
        Encoding { code, i, j, k }
    }

    /// The instruction of this code and these digits.
    pub(crate) fn instr(self) -> Instr
        requires code { IsCode self.op.code }
        requires digits { (self.i ≤ 7) × (self.j ≤ 7) × (self.k ≤ 7) }
        ensures { result ≡ self }
    {
        Instr::new(Op::new(self.code), self.i, self.j, self.k)
    }
}
