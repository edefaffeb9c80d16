//! The object of an instruction: its text, what the table has of it, and on which it depends.

ghost use Rattle.std.specs.Prelude.{◌≡◌, ◌≤◌, ◌++◌, OnOk, length};
ghost use Rattle.s66_isa.specs.{numbers_in};
ghost use Rattle.s66_model.specs.{needs};
ghost use Rattle.s66_line.specs.{instrs_of};
ghost use Rattle.s66_views.specs.{json_instruction_text, json_instructions_text, needs_text, operands_text, source_text, work_text};

use crate::json_lines::list::{push_numbers, push_registers, push_writes};
use crate::json_lines::string::push_string;
use crate::json_lines::text::{push_comma, push_text};
use crate::json_lines::words::{memory, unit};
use s66_device::push_field;
use s66_isa::{Profile, Row, Set};
use s66_line::Block;
use s66_time::Dependences;
use std::alloc::AllocError;

/// Where an instruction is in the source.
#[tactic(auto, unfolding(crate::specs::Pieces::source_text))]
fn push_source(out: &mut Vec<u8>, block: &Block, number: usize) -> Result<(), AllocError>
    requires first { 1 ≤ number }
    requires last { number ≤ length (instrs_of block.now) }
    ensures { OnOk result (out.new.items ≡ out.old.items ++ source_text block.now number) }
{
    push_field(out, b"{\"n\":", number)?;
    push_field(out, b",\"line\":", block.line(number) as usize)?;
    push_text(out, b",\"text\":")?;
    push_string(out, block.whole_text(number).as_slice())
}

/// Its unit, and for how long that works.
#[tactic(auto, unfolding(crate::specs::Pieces::work_text))]
fn push_work(out: &mut Vec<u8>, row: &Row) -> Result<(), AllocError>
    ensures { OnOk result (out.new.items ≡ out.old.items ++ work_text row.now) }
{
    push_text(out, b",\"unit\":")?;
    push_text(out, unit(row.kind))?;
    push_field(out, b",\"parcels\":", row.parcels as usize)?;
    push_field(out, b",\"works\":", row.hold as usize)
}

/// The registers that it reads and writes.
#[tactic(auto, unfolding(crate::specs::Pieces::operands_text))]
fn push_operands(out: &mut Vec<u8>, row: &Row) -> Result<(), AllocError>
    ensures { OnOk result (out.new.items ≡ out.old.items ++ operands_text row.now) }
{
    push_text(out, b",\"reads\":")?;
    push_registers(out, row.reads.as_slice())?;
    push_text(out, b",\"writes\":")?;
    push_writes(out, row.writes.as_slice())
}

/// Whether it references memory, and on which instructions it depends.
#[tactic(auto, unfolding(crate::specs::Pieces::needs_text))]
fn push_needs(out: &mut Vec<u8>, row: &Row, after: &Set) -> Result<(), AllocError>
    ensures { OnOk result (out.new.items ≡ out.old.items ++ needs_text row.now (numbers_in after.now)) }
{
    push_text(out, b",\"memory\":")?;
    push_text(out, memory(row.memory))?;
    push_text(out, b",\"after\":")?;
    push_numbers(out, after.numbers().as_slice())?;
    push_text(out, b"}")
}

/// The instruction of a number, which depends on these.
#[tactic(auto, unfolding(crate::specs::Pieces::json_instruction_text))]
fn push_instruction(
    out: &mut Vec<u8>,
    profile: &Profile,
    block: &Block,
    number: usize,
    after: &Set,
) -> Result<(), AllocError>
    requires first { 1 ≤ number }
    requires last { number ≤ length (instrs_of block.now) }
    requires after { numbers_in after.now ≡ needs (instrs_of block.now) number }
    ensures { OnOk result (out.new.items ≡ out.old.items ++ json_instruction_text profile.now block.now number) }
{
    let row = Row::of(&block.instr(number), profile);
    push_source(out, block, number)?;
    push_work(out, &row)?;
    push_operands(out, &row)?;
    push_needs(out, &row, after)
}

/// The instructions of a block under a profile.
pub(crate) fn push_instructions(
    out: &mut Vec<u8>,
    profile: &Profile,
    block: &Block,
) -> Result<(), AllocError>
    ensures { OnOk result (out.new.items ≡ out.old.items ++ json_instructions_text profile.now block.now) }
{
    let dependences = Dependences::of(block);
    push_text(out, b",\"instructions\":[")?;
    for position in 0..block.count() {
        let after = dependences.needs((position + 1) as u8);
        push_comma(out, 0 < position)?;
        push_instruction(out, profile, block, position + 1, &after)?;
    }
    push_text(out, b"]")
}
