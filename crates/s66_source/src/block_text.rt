//! The text of a block that is printed in another order: its report, and the line of each instruction.

ghost use Rattle.std.specs.Prelude.{ℕ, ◌≡◌, ◌≤◌, ◌-◌, ◌++◌, codes, get_or, length, option_map, slice_get, OnOk};
ghost use Rattle.s66_isa.specs.{Among, BLOCK_LIMIT};
ghost use Rattle.s66_line.specs.{body};
ghost use Rattle.s66_source.specs.{indented_line, indented_lines, line_start, indents_by, note_in, bound_text, splits_line, times_text, report, label_field};

use crate::columns::{Columns, USUAL_INDENT};
use crate::kept::{KeptLine, LineKind, bytes_at};
use crate::placed::Placed;
use s66_device::push_field;
use s66_line::{Block, body_of, without_trailing};
use std::alloc::AllocError;

/// The bytes to which a label is filled.
const LABEL_WIDTH: usize = USUAL_INDENT as usize;

/// That this order is best, or what every order takes at least.
fn push_bound(out: &mut Vec<u8>, placed: &Placed) -> Result<(), AllocError>
    ensures { OnOk result (out.new.items ≡ out.old.items ++ bound_text placed.now) }
{
    if placed.bound == placed.time {
        return out.extend_from_slice(b" BEST\n");
    }
    push_field(out, b" AT LEAST ", placed.bound as usize)?;
    out.extend_from_slice(b"\n")
}

fn push_splits(out: &mut Vec<u8>, splits: Option<u32>) -> Result<(), AllocError>
    ensures { OnOk result (out.new.items ≡ out.old.items ++ splits_line splits) }
{
    match splits {
        None => Ok(()),
        Some(splits) => {
            push_field(out, b"* SPLITS ", splits as usize)?;
            out.extend_from_slice(b"\n")
        }
    }
}

/// How the report of a block begins, whose number is from 1, with `count` instructions: how long it takes as it was read and as
/// it is printed, in minor cycles.
fn push_times(
    out: &mut Vec<u8>,
    number: u32,
    count: usize,
    source: u32,
    time: u32,
) -> Result<(), AllocError>
    requires { count ≤ BLOCK_LIMIT }
    ensures { OnOk result (out.new.items ≡ out.old.items ++ times_text number count source time) }
{
    push_field(out, b"* BLOCK ", number as usize)?;
    push_field(out, b" COUNT ", count)?;
    push_field(out, b" SOURCE ", source as usize)?;
    push_field(out, b" TIME ", time as usize)
}

/// The report of a block, whose number is from 1, with `count` instructions.
pub(crate) fn push_report(
    out: &mut Vec<u8>,
    number: u32,
    count: usize,
    placed: &Placed,
) -> Result<(), AllocError>
    requires { count ≤ BLOCK_LIMIT }
    ensures { OnOk result (out.new.items ≡ out.old.items ++ report number count placed.now) }
{
    push_times(out, number, count, placed.source, placed.time)?;
    push_bound(out, placed)?;
    push_splits(out, placed.splits)
}

/// A label filled with blanks to `LABEL_WIDTH` bytes, or followed by one blank if it has as many or more.
fn push_label(out: &mut Vec<u8>, label: &[u8]) -> Result<(), AllocError>
    ensures { OnOk result (out.new.items ≡ out.old.items ++ label_field label.now) }
{
    out.extend_from_slice(label)?;
    if label.len() < LABEL_WIDTH {
        out.extend_from_slice(&[b' '; LABEL_WIDTH][label.len()..])
    } else {
        out.extend_from_slice(b" ")
    }
}

/// What comes before the operation of an instruction: its label, or so many blanks if it has none.
fn push_start(out: &mut Vec<u8>, label: &[u8], indent: u8) -> Result<(), AllocError>
    ensures { OnOk result (out.new.items ≡ out.old.items ++ line_start label.now indent) }
{
    if label.is_empty() {
        out.extend_from_slice(&[b' '; 256][..indent as usize])
    } else {
        push_label(out, label)
    }
}

/// The line of an instruction after a label, or so many blanks if there is none, by its bytes from the operation on.
fn push_instruction(
    out: &mut Vec<u8>,
    label: &[u8],
    indent: u8,
    bytes: &[u8],
) -> Result<(), AllocError>
    ensures { OnOk result (out.new.items ≡ out.old.items ++ indented_line label.now indent bytes.now) }
{
    push_start(out, label, indent)?;
    out.extend_from_slice(without_trailing(bytes))?;
    out.extend_from_slice(b"\n")
}

/// The blanks before an instruction of a block that is printed without a label, by the lines of its source.
fn indent_of(lines: &[KeptLine], columns: Columns, block: &Block, number: usize) -> u8
    requires first { 1 ≤ number }
    requires last { number ≤ length block.now.entries }
    ensures { result ≡ get_or (indents_by columns lines.now block.now) (number - 1) 0 }
{
    columns.indent(bytes_at(lines, block.line(number)))
}

/// The lines of the instructions of these numbers, the first with the label of the block, by the lines of its source.
pub(crate) fn push_indented(
    out: &mut Vec<u8>,
    lines: &[KeptLine],
    block: &Block,
    order: &[u8],
    columns: Columns,
) -> Result<(), AllocError>
    requires { (n : ℕ) → Among n order.now → (1 ≤ n) × (n ≤ length block.now.entries) }
    ensures { OnOk result (out.new.items ≡ out.old.items ++
        indented_lines (indents_by columns lines.now block.now) block.now block.now.label order.now) }
{
    let mut label = block.label();
    for number in order {
        let number = *number as usize;
        let indent = indent_of(lines, columns, block, number);
        push_instruction(out, label, indent, block.bytes(number))?;
        label = &[];
    }
    Ok(())
}

/// The line, if it is a comment.
fn push_if_comment(out: &mut Vec<u8>, line: Option<&KeptLine>) -> Result<(), AllocError>
    ensures { OnOk result (out.new.items ≡ out.old.items ++ note_in (option_map (λ line. line.now) line.entry)) }
{
    match line {
        Some(line) => match line.kind {
            LineKind::Comment => push_copied(out, line.bytes),
            _ => Ok(()),
        },
        None => Ok(()),
    }
}

/// The line behind so many of these, if it is a comment.
pub(crate) fn push_note(
    out: &mut Vec<u8>,
    lines: &[KeptLine],
    passed: u32,
) -> Result<(), AllocError>
    ensures { OnOk result (out.new.items ≡ out.old.items ++ note_in (slice_get lines.now passed)) }
{
    push_if_comment(out, lines.get(passed as usize))
}

/// A line as it was read, without the carriage returns at its end.
pub(crate) fn push_copied(out: &mut Vec<u8>, line: &[u8]) -> Result<(), AllocError>
    ensures { OnOk result (out.new.items ≡ out.old.items ++ body line.now ++ codes "\n") }
{
    out.extend_from_slice(body_of(line))?;
    out.extend_from_slice(b"\n")
}
