//! The row of an instruction: its number, its text, an arrow if it moved, and its bars.

ghost use Rattle.std.specs.Prelude.{◌≡◌, ◌+◌, ◌<◌, ◌++◌, OnOk, flat_map, length, map, reverse};
ghost use Rattle.s66_model.specs.{points_of};
ghost use Rattle.s66_line.specs.{bytes_of, instrs_of};
ghost use Rattle.s66_time.specs.{point_at};
ghost use Rattle.s66_why.specs.{stretches_at, work};
ghost use Rattle.s66_views.specs.{arrow, row_start, row_head, row_marks, row_words, shown_as, instruction_rows};

use crate::page::bar::{push_stretch_bar, push_stretch_words, push_work_bar};
use crate::page::escape::push_escaped;
use crate::page::text::push_text;
use s66_device::push_field;
use s66_line::Block;
use s66_time::Timed;
use s66_why::{PlacedInstr, Stretch, Work, push_in_three, waits_of};
use std::alloc::AllocError;

/// Where an instruction moved that has a place in an order, from 1.
fn arrow(number: u8, place: usize) -> &'static [u8]
    ensures { result.now ≡ arrow number place }
{
    if place < number as usize {
        b"&#8593; "
    } else if (number as usize) < place {
        b"&#8595; "
    } else {
        b"  "
    }
}

/// How a row begins.
fn row_start(number: u8, on_path: &[u8]) -> &'static [u8]
    ensures { result.now ≡ row_start number on_path.now }
{
    if on_path.contains(&number) {
        b"<tr class='path'><th>"
    } else {
        b"<tr><th>"
    }
}

/// The number and the text of an instruction that has a place in an order, from 1.
#[tactic(auto, unfolding(crate::specs::Page::row_head))]
fn push_row_head(
    out: &mut Vec<u8>,
    text: &[u8],
    on_path: &[u8],
    number: u8,
    place: usize,
) -> Result<(), AllocError>
    ensures { OnOk result (out.new.items ≡ out.old.items ++ row_head text.now on_path.now number place) }
{
    push_text(out, row_start(number, on_path))?;
    push_in_three(out, number)?;
    push_text(out, arrow(number, place))?;
    push_escaped(out, text)?;
    push_text(out, b"<td><svg>")
}

/// How a stretch is shown: by a bar, or in words.
#[derive(Clone, Copy)]
enum Shown {
    Bar,
    Words,
}

/// A stretch of minor cycles in which an instruction is kept back.
fn push_stretch(out: &mut Vec<u8>, shown: Shown, stretch: &Stretch) -> Result<(), AllocError>
    ensures { OnOk result (out.new.items ≡ out.old.items ++ shown_as shown stretch.now) }
{
    match shown {
        Shown::Bar => push_stretch_bar(out, stretch),
        Shown::Words => push_stretch_words(out, stretch),
    }
}

/// The minor cycles in which an instruction is kept back.
fn push_stretches(out: &mut Vec<u8>, shown: Shown, waits: &[Stretch]) -> Result<(), AllocError>
    ensures { OnOk result (out.new.items ≡ out.old.items ++ flat_map (shown_as shown) waits.now) }
{
    for stretch in waits {
        push_stretch(out, shown, stretch)?;
    }
    Ok(())
}

/// The words of an instruction whose last result is done then.
#[tactic(auto, unfolding(crate::specs::Page::row_words))]
fn push_row_words(out: &mut Vec<u8>, waits: &[Stretch], done: u32) -> Result<(), AllocError>
    ensures { OnOk result (out.new.items ≡ out.old.items ++ row_words waits.now done) }
{
    push_field(out, b"<text x='", done as usize)?;
    push_text(out, b"em' y='12' dx='2'>")?;
    push_stretches(out, Shown::Words, waits)?;
    push_text(out, b"</text></svg>\n")
}

/// What is drawn of an instruction.
#[tactic(auto, unfolding(crate::specs::Page::row_marks))]
fn push_row_marks(out: &mut Vec<u8>, waits: &[Stretch], work: &Work) -> Result<(), AllocError>
    ensures { OnOk result (out.new.items ≡ out.old.items ++ row_marks waits.now work.now) }
{
    push_stretches(out, Shown::Bar, waits)?;
    push_work_bar(out, work)?;
    push_row_words(out, waits, work.done)
}

/// The row of an instruction.
fn push_row(
    out: &mut Vec<u8>,
    text: &[u8],
    on_path: &[u8],
    earlier: &[PlacedInstr],
    point: &PlacedInstr,
    work: &Work,
) -> Result<(), AllocError>
    ensures { OnOk result (out.new.items ≡ out.old.items ++
        (row_head text.now on_path.now point.now.number (length earlier.now + 1) ++
        row_marks (stretches_at (reverse earlier.now) point.now) work.now)) }
{
    let waits = waits_of(earlier, point);
    push_row_head(out, text, on_path, point.number, earlier.len() + 1)?;
    push_row_marks(out, waits.as_slice(), work)
}

/// The text in the source of the instruction at a position.
fn text_at<'a>(block: &Block<'a>, timed: &Timed, position: usize) -> &'a [u8]
    requires position { position < length timed.now.numbers }
    requires block { timed.now.problem.block ≡ instrs_of block.now }
    ensures { result.now ≡ bytes_of block.now (point_at timed.now position).number }
{
    let number = timed.order().numbers()[position];
    block.bytes(number as usize)
}

/// The rows of the instructions of a timed order.
pub(crate) fn push_rows(
    out: &mut Vec<u8>,
    block: &Block,
    timed: &Timed,
    on_path: &[u8],
    points: &[PlacedInstr],
    works: &[Work],
) -> Result<(), AllocError>
    requires block { timed.now.problem.block ≡ instrs_of block.now }
    requires points { points.now ≡ reverse (points_of timed.now.problem timed.now.numbers) }
    requires works { works.now ≡ map work points.now }
    ensures { OnOk result (out.new.items ≡ out.old.items ++
        instruction_rows block.now on_path.now (points_of timed.now.problem timed.now.numbers)) }
{
    for position in 0..timed.order().numbers().len() {
        let text = text_at(block, timed, position);
        push_row(
            out,
            text,
            on_path,
            &points[..position],
            &points[position],
            &works[position],
        )?;
    }
    Ok(())
}
