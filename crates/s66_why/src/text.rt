//! The text of `why` (`push_why`): a line for each stretch, the path, its steps, and the sums. Also how registers, banks and conflicts
//! are called.

ghost use Rattle.std.specs.Prelude.{◌≡◌, ◌≤◌, ◌++◌, OnOk, IfOk, flat_map, length, map, reverse};
ghost use Rattle.s66_isa.specs.{BLOCK_LIMIT};
ghost use Rattle.s66_line.specs.{instrs_of};
ghost use Rattle.s66_why.specs.{text_width, AreStretchesOf, IsOf, StepsAreOf, bank_name, register_name, register_text, cause_text, conflict_name, in_three, lost, on_right, path_line, path_lines, step_row};
ghost use Rattle.s66_why.specs.{steps_line, stretch_line, stretch_text, stretches, text_after_number, text_at_end, time_row, why_text, sum_of, sums_line, Step as StepOf, Conflict as ConflictOf};

use crate::cause::Cause;
use crate::lost::Lost;
use crate::path::{Step, steps_of};
use crate::placed::PlacedInstr;
use crate::places::{push_blanks, push_in_places, text_width};
use crate::points::points_of;
use crate::stretch::{Conflict, Stretch};
use crate::waits::waits_of;
use itoa::Buffer;
use s66_device::push_field;
use s66_isa::{Bank, Reg, kind_name};
use s66_line::Block;
use s66_time::Timed;
use std::alloc::AllocError;

/// The name of a bank.
pub fn bank_name(bank: Bank) -> &'static [u8]
    ensures { result.now ≡ bank_name bank }
{
    match bank {
        Bank::A => b"A",
        Bank::B => b"B",
        Bank::X => b"X",
    }
}

/// The name of a conflict.
pub fn conflict_name(conflict: Conflict) -> &'static [u8]
    ensures { result.now ≡ conflict_name conflict }
{
    match conflict {
        Conflict::First => b"FIRST",
        Conflict::Second => b"SECOND",
        Conflict::Third => b"THIRD",
    }
}

/// Appends the name of a register. `Err` is out of memory.
pub fn push_register_name(out: &mut Vec<u8>, register: Reg) -> Result<(), AllocError>
    ensures { OnOk result (out.new.items ≡ out.old.items ++ register_name register) }
{
    push_field(out, bank_name(register.bank()), register.digit() as usize)
}

/// A register that is waited for.
fn push_register(out: &mut Vec<u8>, register: Reg) -> Result<(), AllocError>
    ensures { OnOk result (out.new.items ≡ out.old.items ++ register_text register) }
{
    out.extend_from_slice(b" REGISTER ")?;
    push_register_name(out, register)
}

/// What is waited for.
fn push_cause(out: &mut Vec<u8>, cause: &Cause) -> Result<(), AllocError>
    ensures { OnOk result (out.new.items ≡ out.old.items ++ cause_text cause.now) }
{
    match cause {
        Cause::Writes(register) | Cause::Reads(register) => push_register(out, *register),
        Cause::Takes(kind) => {
            out.extend_from_slice(b" UNIT ")?;
            out.extend_from_slice(kind_name(*kind))
        }
        Cause::References(_) => out.extend_from_slice(b" MEMORY"),
        Cause::Ends => out.extend_from_slice(b" END"),
    }
}

/// Appends a number, right in so many places. `Err` is out of memory.
pub fn push_on_right(out: &mut Vec<u8>, places: usize, number: usize) -> Result<(), AllocError>
    ensures { OnOk result (out.new.items ≡ out.old.items ++ on_right places number) }
{
    let mut buffer = Buffer::new();
    let digits = buffer.format(number).as_bytes();
    push_blanks(out, places.saturating_sub(digits.len()))?;
    out.extend_from_slice(digits)
}

/// Appends a number, right in three places. `Err` is out of memory.
pub fn push_in_three(out: &mut Vec<u8>, number: u8) -> Result<(), AllocError>
    ensures { OnOk result (out.new.items ≡ out.old.items ++ in_three number) }
{
    push_on_right(out, 3, number as usize)
}

/// With texts that of an instruction, after its number.
fn push_text_after_number(
    out: &mut Vec<u8>,
    texts: bool,
    block: &Block,
    width: usize,
    number: u8,
) -> Result<(), AllocError>
    requires number { IsOf block.now number }
    requires width { width ≡ text_width block.now }
    ensures { OnOk result (out.new.items ≡ out.old.items ++ text_after_number texts block.now number) }
{
    if !texts {
        return Ok(());
    }
    push_in_places(out, block.text(number as usize).as_slice(), width)
}

/// With texts that of an instruction, at the end of a line.
fn push_text_at_end(
    out: &mut Vec<u8>,
    texts: bool,
    block: &Block,
    number: u8,
) -> Result<(), AllocError>
    requires { IsOf block.now number }
    ensures { OnOk result (out.new.items ≡ out.old.items ++ text_at_end texts block.now number) }
{
    if !texts {
        return Ok(());
    }
    out.extend_from_slice(b" ")?;
    out.extend_from_slice(block.text(number as usize).as_slice())
}

/// From when to when an instruction is kept back, what it waits for, and who holds it.
fn push_stretch(out: &mut Vec<u8>, stretch: &Stretch) -> Result<(), AllocError>
    ensures { OnOk result (out.new.items ≡ out.old.items ++ stretch_text stretch.now) }
{
    out.extend_from_slice(conflict_name(stretch.conflict))?;
    push_field(out, b" ", stretch.from as usize)?;
    push_field(out, b" TO ", stretch.to as usize)?;
    push_cause(out, &stretch.holder.cause)?;
    push_field(out, b" BY ", stretch.holder.number as usize)
}

/// The line of a stretch.
fn push_line(
    out: &mut Vec<u8>,
    texts: bool,
    block: &Block,
    width: usize,
    stretch: &Stretch,
) -> Result<(), AllocError>
    requires number { IsOf block.now stretch.now.number }
    requires holder { IsOf block.now stretch.now.holder.number }
    requires width { width ≡ text_width block.now }
    ensures { OnOk result (out.new.items ≡ out.old.items ++ stretch_line texts block.now stretch.now) }
{
    push_in_three(out, stretch.number)?;
    out.extend_from_slice(b" ")?;
    push_text_after_number(out, texts, block, width, stretch.number)?;
    push_stretch(out, stretch)?;
    push_text_at_end(out, texts, block, stretch.holder.number)?;
    out.extend_from_slice(b"\n")
}

/// The lines of stretches.
fn push_lines(
    out: &mut Vec<u8>,
    texts: bool,
    block: &Block,
    width: usize,
    waits: &[Stretch],
) -> Result<(), AllocError>
    requires numbers { AreStretchesOf block.now waits.now }
    requires width { width ≡ text_width block.now }
    ensures { OnOk result (out.new.items ≡ out.old.items ++ flat_map (stretch_line texts block.now) waits.now) }
{
    for stretch in waits {
        push_line(out, texts, block, width, stretch)?;
    }
    Ok(())
}

/// The lines of all instructions, and for how long they were kept back.
fn push_all_lines(
    out: &mut Vec<u8>,
    texts: bool,
    block: &Block,
    width: usize,
    points: &[PlacedInstr],
) -> Result<Lost, AllocError>
    requires few { length points.now ≤ BLOCK_LIMIT }
    requires numbers { AreStretchesOf block.now (stretches (reverse points.now)) }
    requires width { width ≡ text_width block.now }
    ensures lines { OnOk result (out.new.items ≡ out.old.items ++
        flat_map (stretch_line texts block.now) (stretches (reverse points.now))) }
    ensures sums { (conflict : ConflictOf) →
        IfOk result (λ sums. sum_of sums conflict ≡ lost conflict (stretches (reverse points.now))) }
{
    let mut sums = Lost::none();
    for position in 0..points.len() {
        let waits = waits_of(&points[..position], &points[position]);
        sums.add_all(waits.as_slice());
        push_lines(out, texts, block, width, waits.as_slice())?;
    }
    Ok(sums)
}

/// The line of a path, in numbers.
fn push_path_line(out: &mut Vec<u8>, steps: &[Step]) -> Result<(), AllocError>
    ensures { OnOk result (out.new.items ≡ out.old.items ++ path_line (map (λ (x : StepOf). x.number) steps.now)) }
{
    out.extend_from_slice(b"PATH")?;
    for step in steps {
        push_field(out, b" ", step.number as usize)?;
    }
    out.extend_from_slice(b"\n")
}

/// The line of what the steps of a path add, up to the time of the order.
fn push_steps_line(out: &mut Vec<u8>, steps: &[Step], time: u32) -> Result<(), AllocError>
    ensures { OnOk result (out.new.items ≡ out.old.items ++ steps_line steps.now time) }
{
    out.extend_from_slice(b"STEPS")?;
    for step in steps {
        push_field(out, b" ", step.adds as usize)?;
    }
    push_field(out, b" TIME ", time as usize)?;
    out.extend_from_slice(b"\n")
}

/// The row of a step, with its text.
fn push_step_row(
    out: &mut Vec<u8>,
    block: &Block,
    width: usize,
    step: &Step,
) -> Result<(), AllocError>
    requires number { IsOf block.now step.now.number }
    requires width { width ≡ text_width block.now }
    ensures { OnOk result (out.new.items ≡ out.old.items ++ step_row block.now step.now) }
{
    push_in_three(out, step.number)?;
    out.extend_from_slice(b" ")?;
    push_in_places(out, block.text(step.number as usize).as_slice(), width)?;
    push_on_right(out, 4, step.adds as usize)?;
    out.extend_from_slice(b"\n")
}

/// The row of the time, below those of steps.
fn push_time_row(
    out: &mut Vec<u8>,
    block: &Block,
    width: usize,
    time: u32,
) -> Result<(), AllocError>
    requires { width ≡ text_width block.now }
    ensures { OnOk result (out.new.items ≡ out.old.items ++ time_row block.now time) }
{
    out.extend_from_slice(b"TIME")?;
    push_in_places(out, b"", width)?;
    push_on_right(out, 4, time as usize)?;
    out.extend_from_slice(b"\n")
}

/// A row for each step, with its text.
fn push_step_rows(
    out: &mut Vec<u8>,
    block: &Block,
    width: usize,
    steps: &[Step],
) -> Result<(), AllocError>
    requires numbers { StepsAreOf block.now steps.now }
    requires width { width ≡ text_width block.now }
    ensures { OnOk result (out.new.items ≡ out.old.items ++ flat_map (step_row block.now) steps.now) }
{
    for step in steps {
        push_step_row(out, block, width, step)?;
    }
    Ok(())
}

/// The steps of a path that takes this time, in two lines or with texts in rows.
fn push_path(
    out: &mut Vec<u8>,
    texts: bool,
    block: &Block,
    width: usize,
    steps: &[Step],
    time: u32,
) -> Result<(), AllocError>
    requires numbers { StepsAreOf block.now steps.now }
    requires width { width ≡ text_width block.now }
    ensures { OnOk result (out.new.items ≡ out.old.items ++ path_lines texts block.now steps.now time) }
{
    if texts {
        out.extend_from_slice(b"PATH\n")?;
        push_step_rows(out, block, width, steps)?;
        push_time_row(out, block, width, time)
    } else {
        push_path_line(out, steps)?;
        push_steps_line(out, steps, time)
    }
}

/// The line of the sums.
fn push_lost_line(out: &mut Vec<u8>, sums: &Lost) -> Result<(), AllocError>
    ensures { OnOk result (out.new.items ≡ out.old.items ++ sums_line sums.now) }
{
    push_field(out, b"LOST FIRST ", sums.first)?;
    push_field(out, b" SECOND ", sums.second)?;
    push_field(out, b" THIRD ", sums.third)?;
    out.extend_from_slice(b"\n")
}

/// Appends for a timed order of a block why its instructions wait, with their texts or in numbers alone. `Err` is out of memory.
///
/// There is a line for each stretch of minor cycles of 100 ns in which an instruction is kept back: its number, right in three
/// places, the order of conflict, from when to when, what it waits for, and the number of the instruction that holds it. `FIRST`
/// is from the slot in which it could issue to its issue, `SECOND` from there to its start, and `THIRD` from when a result is made
/// to when it is done. Then a line `PATH` has the numbers from one that waits for nothing to the one that ends last, each of
/// which waits for the one before it or stands in line behind it, and `STEPS` the minor cycles that each of these adds, and their
/// sum, the time of the order. `LOST` has the sums of the stretches. The three orders of conflict are Thornton's (Design of a
/// Computer: The Control Data 6600).
///
/// With texts that of the instruction follows its number, on the left of as many places as the longest of the block needs, and
/// that of its holder ends the line; the path has a row for each step, and below them the time.
///
/// Each instruction looks back over those before it: the time is quadratic in the length of the order, which is at most
/// `BLOCK_LIMIT`. Nothing is allocated but room in `out`.
pub fn push_why(
    out: &mut Vec<u8>,
    texts: bool,
    block: &Block,
    timed: &Timed,
) -> Result<(), AllocError>
    requires { timed.now.problem.block ≡ instrs_of block.now }
    ensures { OnOk result (out.new.items ≡ out.old.items ++ why_text texts block.now timed.now) }
{
    let width = text_width(block);
    let points = points_of(timed);
    let points = points.as_slice();
    let sums = push_all_lines(out, texts, block, width, points)?;
    let steps = steps_of(points, timed.total());
    push_path(out, texts, block, width, steps.as_slice(), timed.total())?;
    push_lost_line(out, &sums)
}
