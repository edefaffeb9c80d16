//! Lists in JSON: of numbers, of steps, of registers, and of the registers that an instruction writes.

ghost use Rattle.std.specs.Prelude.{◌≡◌, ◌++◌, OnOk, map};
ghost use Rattle.s66_why.specs.{Step as StepOf};
ghost use Rattle.s66_views.specs.{numbers_text, registers_text, writes_text};

use crate::json_lines::text::{push_comma, push_text};
use crate::json_lines::words::push_register;
use s66_device::push_field;
use s66_isa::{Reg, Write};
use s66_why::Step;
use std::alloc::AllocError;

/// A list of numbers.
#[tactic(auto, unfolding(crate::specs::Pieces::numbers_text))]
pub(crate) fn push_numbers(out: &mut Vec<u8>, numbers: &[u8]) -> Result<(), AllocError>
    ensures { OnOk result (out.new.items ≡ out.old.items ++ numbers_text numbers.now) }
{
    push_text(out, b"[")?;
    for (i, number) in numbers.iter().enumerate() {
        push_comma(out, 0 < i)?;
        push_field(out, b"", *number as usize)?;
    }
    push_text(out, b"]")
}

/// A list of what steps add.
#[tactic(auto, unfolding(crate::specs::Pieces::numbers_text))]
pub(crate) fn push_added(out: &mut Vec<u8>, steps: &[Step]) -> Result<(), AllocError>
    ensures { OnOk result (out.new.items ≡ out.old.items ++ numbers_text (map (λ (x : StepOf). x.adds) steps.now)) }
{
    push_text(out, b"[")?;
    for (i, step) in steps.iter().enumerate() {
        push_comma(out, 0 < i)?;
        push_field(out, b"", step.adds as usize)?;
    }
    push_text(out, b"]")
}

/// A list of registers.
#[tactic(auto, unfolding(crate::specs::Pieces::registers_text))]
pub(crate) fn push_registers(out: &mut Vec<u8>, registers: &[Reg]) -> Result<(), AllocError>
    ensures { OnOk result (out.new.items ≡ out.old.items ++ registers_text registers.now) }
{
    push_text(out, b"[")?;
    for (i, register) in registers.iter().enumerate() {
        push_comma(out, 0 < i)?;
        push_register(out, *register)?;
    }
    push_text(out, b"]")
}

/// A list of the registers that are written.
#[tactic(auto, unfolding(crate::specs::Pieces::writes_text))]
pub(crate) fn push_writes(out: &mut Vec<u8>, writes: &[Write]) -> Result<(), AllocError>
    ensures { OnOk result (out.new.items ≡ out.old.items ++ writes_text writes.now) }
{
    push_text(out, b"[")?;
    for (i, write) in writes.iter().enumerate() {
        push_comma(out, 0 < i)?;
        push_register(out, write.reg)?;
    }
    push_text(out, b"]")
}
