//! The text of an instruction in a document, with the instruction that it spells.

ghost use Rattle.std.specs.Prelude.{ℕ, List, ◌≡◌, ◌≤◌, length, IfOk};
ghost use Rattle.s66_line.specs.{IsTextOf, instr_in_text, TEXT_LIMIT};

use s66_isa::Instr;
use std::alloc::{AllocError, Global};
use std::marker::Model;

/// The text of an instruction in what is read, with the instruction.
#[derive(Clone, Copy)]
pub(crate) struct ReadText<'a> {
    pub(crate) bytes: &'a [u8],
    pub(crate) instr: Instr,
    ghost is: { IsTextOf bytes.now instr },
}

/// The text of an instruction, with the instruction, so that nobody has to decode it again.
#[derive(Drop)]
pub struct InstructionText {
    bytes: Vec<u8>,
    instr: Instr,
}

impl Model for InstructionText {
    ghost Value = { List ℕ };

    ghost view = { λ t. t.bytes.items };

    ghost invariant = { λ t. IsTextOf t.bytes.items t.instr };
}

impl InstructionText {
    /// A copy of an instruction's text.
    pub fn new(alloc: Global, bytes: &[u8], instr: Instr) -> Result<InstructionText, AllocError>
        requires { IsTextOf bytes.now instr }
        ensures { IfOk result (λ text. text ≡ bytes.now) }
    {
        let mut copy = Vec::new(alloc);
        copy.extend_from_slice(bytes)?;
        Ok(InstructionText { bytes: copy, instr })
    }

    /// The text.
    pub fn bytes(&self) -> &[u8]
        ensures value { result.now ≡ self.now }
        ensures few { length result.now ≤ TEXT_LIMIT }
    {
        self.bytes.as_slice()
    }

    /// The instruction.
    pub fn instr(&self) -> Instr
        ensures { result ≡ instr_in_text self.now }
    {
        self.instr
    }
}
